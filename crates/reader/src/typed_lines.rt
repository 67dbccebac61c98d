// A line of a text by itself: its mark, its colon and the statement behind it. It knows nothing of other lines.
ghost use Rattle.std.specs.Prelude.{◌≡◌};
ghost use Rattle.std.specs.Option.{option_map};
ghost use Rattle.lexer.specs.Words.{seen_words};
ghost use Rattle.parser.specs.Answers.{map_ok, map_err};
ghost use Rattle.parser.specs.Statements.{written, statement_of};
ghost use Rattle.reader.specs.Lines.{code_of, line_end, sound, mark_before, head_of};
ghost use Rattle.reader.specs.Marked.{placed_seen, parted, head_seen};
ghost use Rattle.reader.specs.declared.faults.LineFault.TheVariants.{Word as WordOf};

use crate::blocks::code_of;
use crate::faults::LineFault;
use crate::heads::{Head, PlacedMark};
use awl::bytes::ByteClass;
use awl::marks::Mark;
use awl::statements::Statement;
use lexer::faults::WordFault;
use lexer::words::{LineEnd, Word, Words, word_from, words_from};
use parser::statements::statement_from;

// A line as it is typed, without the byte 10 that ends it, and its number, from 1.
#[derive(Clone, Copy)]
pub(crate) struct TypedLine<'a> {
    pub(crate) number: usize,
    pub(crate) bytes: &'a [u8],
}

impl<'a> TypedLine<'a> {
    // Refuses a line with a byte other than 32 to 126.
    pub(crate) fn check_bytes(self) -> Result<(), LineFault>
        ensures value { result ≡ sound self.entry.number self.entry.bytes.now tt }
    {
        let good = ByteClass::Printable.front(self.bytes);
        if good < self.bytes.len() {
            return Err(LineFault::Byte {
                line: self.number,
                column: good + 1,
            });
        }
        Ok(())
    }

    // The line's mark, and the words behind its colon.
    #[tactic(auto, unfolding(crate::specs::Lines::head_of))]
    pub(crate) fn head(self) -> Result<Head<'a>, LineFault>
        ensures value { map_ok head_seen result ≡ map_ok (parted (code_of self.entry.bytes.now)) (head_of self.entry.number self.entry.bytes.now) }
    {
        let code = code_of(self.bytes);
        let colon = ByteClass::BeforeColon.front(code);
        if colon == code.len() {
            return Err(LineFault::Colon {
                line: self.number,
                column: self.end().column,
            });
        }
        let mark = mark_before(&code[..colon], self.end())?;
        Ok(Head {
            mark,
            words: words_from(code, colon + 2),
        })
    }

    // The statement that the words behind its colon make, its fault as the line's.
    pub(crate) fn statement(self, words: Words) -> Result<Statement, LineFault>
        ensures value { map_ok written result ≡ map_err WordOf (statement_of (line_end self.entry.number self.entry.bytes.now) (seen_words words.entry)) }
    {
        Ok(statement_from(words, self.end())?)
    }

    // The line's number and the column behind its last byte.
    fn end(self) -> LineEnd
        ensures value { result ≡ line_end self.entry.number self.entry.bytes.now }
    {
        LineEnd {
            line: self.number,
            column: self.bytes.len() + 1,
        }
    }
}

// The mark before the colon, if any.
#[tactic(auto, unfolding(crate::specs::Lines::mark_before))]
fn mark_before(before: &[u8], end: LineEnd) -> Result<Option<PlacedMark>, WordFault>
    ensures value { map_ok (option_map placed_seen) result ≡ mark_before end before.now }
{
    let first = word_from(before, 1);
    let second = word_from(before, first.column + first.bytes.len());
    if first.is_missing() {
        return Ok(None);
    }
    match Mark::new(first.bytes) {
        Some(mark) if second.is_missing() => Ok(Some(PlacedMark {
            mark,
            column: first.column,
        })),
        _ => Err(Word::Mark(first).fault(end)),
    }
}
