// Names of blocks, their order, and how they are written. It knows nothing of what a block holds.
ghost use Rattle.std.specs.Prelude.{◌≡◌, Some, Decides};
ghost use Rattle.awl.specs.Names.{kind_letters, block_name_text};
ghost use Rattle.awl.specs.Order.{kind_rank, Before};

use std::fmt;

// Blocks of a kind that stands earlier come first.
#[derive(Clone, Copy, PartialEq, Eq, PartialOrd, Ord)]
pub enum BlockKind {
    Organisation = 0, // OB
    Program = 1, // PB
    Function = 2, // FB
}

// In order by kind, then by number.
#[derive(Clone, Copy, PartialEq, Eq, PartialOrd, Ord)]
pub struct BlockName {
    pub kind: BlockKind,
    pub number: u8,
}

impl BlockKind {
    // The place of the kind in the order of blocks: OB, PB, FB.
    pub fn rank(self) -> u8
        ensures value { result ≡ kind_rank self }
    {
        self as u8
    }

    // The two letters of the kind.
    pub fn letters(self) -> &'static str
        ensures value { result.now ≡ kind_letters self }
    {
        match self {
            BlockKind::Organisation => "OB",
            BlockKind::Program => "PB",
            BlockKind::Function => "FB",
        }
    }
}

impl BlockName {
    // Whether this block comes before the other: by kind, then by number.
    pub fn precedes(self, other: BlockName) -> bool
        ensures value { Decides result (Before self other) }
    {
        self < other
    }
}

// The two letters of the kind: PB.
impl fmt::Display for BlockKind {
    ghost output = { λ k. Some (kind_letters k) };

    fn fmt<W: fmt::Write>(&self, f: &mut fmt::Formatter<W>) -> fmt::Result {
        f.write_str(self.letters())
    }
}

// Kind and number: PB 3.
impl fmt::Display for BlockName {
    ghost output = { λ n. Some (block_name_text n) };

    fn fmt<W: fmt::Write>(&self, f: &mut fmt::Formatter<W>) -> fmt::Result {
        let kind = self.kind;
        let number = self.number;
        write!(f, "{kind} {number}")
    }
}
