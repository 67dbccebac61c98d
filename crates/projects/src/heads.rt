// The head lines of a project file, each of which names a block or a data block. It knows nothing of what stands below
// a head.
ghost use Rattle.std.specs.Prelude.{◌≡◌};
ghost use Rattle.lexer.specs.Letters.{letters_of};
ghost use Rattle.lexer.specs.Values.{byte_of};
ghost use Rattle.lexer.specs.Words.{seen, seen_words};
ghost use Rattle.projects.specs.Heads.{is_head, fault_of, expected, length_of, ended, head_named, star_words, head_of};
ghost use Rattle.projects.specs.declared.heads.HeadFlaw.TheVariants.{Number, Length};

use awl::bytes::{ByteClass, tail};
use awl::names::BlockName;
use lexer::letters::{Letters, read_letters};
use lexer::values::{byte_value, number};
use lexer::words::{Part, Words, words_from};
use reader::blocks::code_of;

#[derive(Clone, Copy)]
pub enum Head {
    Block(BlockName), // * PB 3
    Data { number: u8, length: u16 }, // * DB 5 20
}

// What can be wrong in a head line.
#[derive(Clone, Copy)]
pub enum HeadFlaw {
    Byte, // a byte other than 32 to 126
    Kind, // neither OB, PB, FB nor DB behind the star
    Number, // no number from 0 to 255 behind the kind
    Length, // no number behind a data block's number
    Extra, // a word too many
}

// A head's fault and its column, from 1; one past the line's last byte where something is missing.
#[derive(Clone, Copy)]
pub struct HeadFault {
    pub flaw: HeadFlaw,
    pub column: usize,
}

// Whether the line is a head: its first byte that is no space is a star.
pub fn is_head(line: &[u8]) -> bool
    ensures value { result ≡ is_head line.now }
{
    let behind = tail(line, ByteClass::Space.front(line));
    behind.first().is_some_and(|first| *first == b'*')
}

// What a head line says, or its first fault.
pub fn read_head(line: &[u8]) -> Result<Head, HeadFault>
    ensures value { result ≡ head_of line.now }
{
    let good = ByteClass::Printable.front(line);
    if good < line.len() {
        return Err(HeadFault {
            flaw: HeadFlaw::Byte,
            column: good + 1,
        });
    }
    named(words_behind_star(line), line.len() + 1)
}

// The words of a head line, the first of them behind the star.
fn words_behind_star(line: &[u8]) -> Words<'_>
    ensures value { seen_words result ≡ star_words line.now }
{
    words_from(code_of(line), ByteClass::Space.front(line) + 2)
}

// What the words behind the star say; `end` is the column behind the line's last byte.
fn named(words: Words, end: usize) -> Result<Head, HeadFault>
    ensures value { result ≡ head_named end (seen_words words.entry) (letters_of words.entry.operation.bytes.now) }
{
    match read_letters(words.operation.bytes) {
        Some(Letters::Block(kind)) => {
            let number = block_number(words.operand, end)?;
            ended(Head::Block(BlockName { kind, number }), words.value)
        }
        Some(Letters::DataBlock) => {
            let number = block_number(words.operand, end)?;
            let length = data_length(words.value, end)?;
            ended(Head::Data { number, length }, words.extra)
        }
        _ => Err(fault(HeadFlaw::Kind, words.operation, end)),
    }
}

// A number from 0 to 255.
fn block_number(word: Part, end: usize) -> Result<u8, HeadFault>
    ensures value { result ≡ expected Number end (seen word.entry) (byte_of (seen word.entry).bytes) }
{
    byte_value(word.bytes).ok_or(fault(HeadFlaw::Number, word, end))
}

// How many words a data block is to have. What 16 bits cannot hold is taken as 65535, which is refused as well.
fn data_length(word: Part, end: usize) -> Result<u16, HeadFault>
    ensures value { result ≡ expected Length end (seen word.entry) (length_of (seen word.entry).bytes) }
{
    number(word.bytes)
        .map(|length| u16::try_from(length).unwrap_or(u16::MAX))
        .ok_or(fault(HeadFlaw::Length, word, end))
}

// The head, where no word stands behind it. This and the next are like the parser's and the lexer's, with a head's own faults: over
// the type of the fault they would need its making as one more parameter, and be no plainer.
fn ended(head: Head, behind: Part) -> Result<Head, HeadFault>
    ensures value { result ≡ ended head (seen behind.entry) }
{
    if behind.is_missing() {
        return Ok(head);
    }
    Err(HeadFault {
        flaw: HeadFlaw::Extra,
        column: behind.column,
    })
}

// The flaw of a word: at its first byte, or at the line's end where it is missing.
fn fault(flaw: HeadFlaw, word: Part, end: usize) -> HeadFault
    ensures value { result ≡ fault_of flaw end (seen word.entry) }
{
    HeadFault {
        flaw,
        column: if word.is_missing() { end } else { word.column },
    }
}
