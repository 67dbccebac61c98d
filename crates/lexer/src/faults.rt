// What can be wrong with a word, and where. It knows nothing of how a word is read.
ghost use Rattle.std.specs.Prelude.{◌≡◌};
ghost use Rattle.lexer.specs.Faults.{kind_refusal};

use awl::refusals::Refusal;

// What a word stands for in its line.
#[derive(Clone, Copy)]
pub enum WordKind {
    Mark, // before the colon, and behind the = of a jump
    Operation, // the first word behind the colon
    Operand, // the letters behind the operation, and any word too many
    Number, // the number or bit behind the letters
}

#[derive(Clone, Copy)]
pub enum Flaw {
    Missing, // the line ends before the word
    Malformed, // the word is none of its kind here
    Extra, // the statement was complete without the word
}

// A word that is not as it must be.
#[derive(Clone, Copy)]
pub struct WordFault {
    pub kind: WordKind,
    pub flaw: Flaw,
    pub line: usize,
    pub column: usize,
}

impl WordKind {
    // The refusal of a word of this kind.
    pub fn refusal(self) -> Refusal
        ensures value { result ≡ kind_refusal self }
    {
        match self {
            WordKind::Mark => Refusal::Mark,
            WordKind::Operation => Refusal::Operation,
            WordKind::Operand => Refusal::Operand,
            WordKind::Number => Refusal::Number,
        }
    }
}
