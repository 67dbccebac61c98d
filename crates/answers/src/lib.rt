// The answers of the desk protocol, and how each is written. It knows nothing of the calls.
#![tactic(auto)]

ghost use Rattle.std.specs.Prelude.{◌≡◌, IfOk, Some, string_bytes};
ghost use Rattle.answers.specs.Told.{yes_no, told, word_told};
ghost use Rattle.answers.specs.Written.{written};

use awl::names::BlockName;
use awl::refusals::Refusal;
use hex::{write_bytes, write_words};
use std::alloc::{AllocError, Global};
use std::fmt;

mod hex;

// What a call is answered.
#[derive(Drop)]
pub enum Answer {
    Done, // ok
    Yes,
    No,
    Number(u32), // 255
    Nothing, // none
    Refused(Refusal), // refused 8
    RefusedAt {
        refusal: Refusal,
        line: usize,
        column: usize,
    }, // refused 3 1 3
    Pass,
    // The fault by its number: any that a caller knows can be written, so that no crate of faults is needed here.
    Fault {
        block: BlockName,
        statement: u8,
        number: u8,
    }, // K OB 1 0 9
    Bytes([u8; 128]), // two digits each
    Words(Vec<u16>), // four digits each
    BadLine, // bad line
}

impl Answer {
    // The answer as it is written, without the end of its line.
    pub fn text(&self, heap: Global) -> Result<String, AllocError>
        ensures value { IfOk result (λ s. string_bytes s ≡ written self.now) }
    {
        self.to_string(heap)
    }
}

// As it is written, without the end of its line.
impl fmt::Display for Answer {
    ghost output = { λ a. Some (written a) };

    fn fmt<W: fmt::Write>(&self, f: &mut fmt::Formatter<W>) -> fmt::Result {
        match self {
            Answer::Done => f.write_str("ok"),
            Answer::Yes => f.write_str("yes"),
            Answer::No => f.write_str("no"),
            Answer::Number(number) => write!(f, "{number}"),
            Answer::Nothing => f.write_str("none"),
            Answer::Refused(refusal) => {
                let number = refusal.number();
                write!(f, "refused {number}")
            }
            Answer::RefusedAt {
                refusal,
                line,
                column,
            } => {
                let number = refusal.number();
                write!(f, "refused {number} {line} {column}")
            }
            Answer::Pass => f.write_str("pass"),
            Answer::Fault {
                block,
                statement,
                number,
            } => write!(f, "K {block} {statement} {number}"),
            Answer::Bytes(bytes) => write_bytes(bytes, f),
            Answer::Words(words) => write_words(words.as_slice(), f),
            Answer::BadLine => f.write_str("bad line"),
        }
    }
}

// Yes or no.
impl From<bool> for Answer {
    ghost from_gives = { λ b a. a ≡ yes_no b };

    fn from(yes: bool) -> Answer {
        if yes { Answer::Yes } else { Answer::No }
    }
}

// A call that is done, or refused by a number.
impl From<Result<(), Refusal>> for Answer {
    ghost from_gives = { λ r a. a ≡ told r };

    fn from(done: Result<(), Refusal>) -> Answer {
        match done {
            Ok(()) => Answer::Done,
            Err(refusal) => Answer::Refused(refusal),
        }
    }
}

// A word, or none.
impl From<Option<u16>> for Answer {
    ghost from_gives = { λ w a. a ≡ word_told w };

    fn from(word: Option<u16>) -> Answer {
        word.map_or(Answer::Nothing, |word| Answer::Number(u32::from(word)))
    }
}
