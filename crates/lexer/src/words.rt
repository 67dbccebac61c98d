// The words of a line, as parts of it with their places. It knows nothing of what a word means.
ghost use Rattle.std.specs.Prelude.{◌≡◌, ◌+◌, ◌^◌, ◌<◌, ◌≤◌, max, length};
ghost use Rattle.lexer.specs.Words.{kind_of, seen, seen_word, seen_words, word_in, word_from, words_from, is_missing, fault_at};

use crate::faults::{Flaw, WordFault, WordKind};
use awl::bytes::{ByteClass, tail};

// A part of a line and the column of its first byte, from 1. A part without bytes is a word that is not there.
#[derive(Clone, Copy)]
pub struct Part<'a> {
    pub bytes: &'a [u8],
    pub column: usize,
}

// A word of the line, by what it stands for. A case for each, and no kind beside a part: those who read a line name a word by its
// case, as `Word::Mark(part)`, and one function asks which it is, so that a kind would be no plainer.
#[derive(Clone, Copy)]
pub enum Word<'a> {
    Mark(Part<'a>),
    Operation(Part<'a>),
    Operand(Part<'a>),
    Number(Part<'a>),
}

// The first four words behind the colon: no statement has more than three.
#[derive(Clone, Copy)]
pub struct Words<'a> {
    pub operation: Part<'a>,
    pub operand: Part<'a>,
    pub value: Part<'a>,
    pub extra: Part<'a>,
}

// A line's number, from 1, and the column behind its last byte.
#[derive(Clone, Copy)]
pub struct LineEnd {
    pub line: usize,
    pub column: usize,
}

impl Word<'_> {
    // The fault of this word: at its first byte, or at the line's end where it is missing.
    pub fn fault(self, end: LineEnd) -> WordFault
        ensures value { result ≡ fault_at end (kind_of self.entry) (seen_word self.entry) }
    {
        match self {
            Word::Mark(part) => part_fault(WordKind::Mark, part, end),
            Word::Operation(part) => part_fault(WordKind::Operation, part, end),
            Word::Operand(part) => part_fault(WordKind::Operand, part, end),
            Word::Number(part) => part_fault(WordKind::Number, part, end),
        }
    }
}

impl Part<'_> {
    // Whether it is a word that is not there.
    pub fn is_missing(self) -> bool
        ensures value { result ≡ is_missing (seen self.entry) }
    {
        self.bytes.is_empty()
    }
}

fn part_fault(kind: WordKind, part: Part, end: LineEnd) -> WordFault
    ensures value { result ≡ fault_at end kind (seen part.entry) }
{
    if part.is_missing() {
        return WordFault {
            kind,
            flaw: Flaw::Missing,
            line: end.line,
            column: end.column,
        };
    }
    WordFault {
        kind,
        flaw: Flaw::Malformed,
        line: end.line,
        column: part.column,
    }
}

// The next word from a column on: what stands behind the spaces, up to the next space.
pub fn word_from(code: &[u8], column: usize) -> Part<'_>
    ensures value { seen result ≡ word_from code.now column }
    ensures bound { result.column + length result.bytes.now ≤ max column (length code.now + 1) }
{
    word_in(tail(code, column.saturating_sub(1)), column)
}

// The first four words from a column on.
pub fn words_from(code: &[u8], column: usize) -> Words<'_>
    ensures value { seen_words result ≡ words_from code.now column }
{
    let operation = word_from(code, column);
    let operand = word_from(code, operation.column + operation.bytes.len());
    let value = word_from(code, operand.column + operand.bytes.len());
    let extra = word_from(code, value.column + value.bytes.len());
    Words {
        operation,
        operand,
        value,
        extra,
    }
}

// The first word of what is left of a line from a column on.
fn word_in(rest: &[u8], column: usize) -> Part<'_>
    requires { column + length rest.now < 2 ^ 64 }
    ensures value { seen result ≡ word_in rest.now column }
    ensures bound { result.column + length result.bytes.now ≤ column + length rest.now }
{
    let spaces = ByteClass::Space.front(rest);
    let word = tail(rest, spaces);
    let size = ByteClass::Ink.front(word);
    Part {
        bytes: &word[0..size],
        column: column + spaces,
    }
}
