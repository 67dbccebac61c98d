// What can be wrong with a text, and where: a word's fault stands whole in the line's, and that in the block's.
// It knows nothing of how a text is read.
ghost use Rattle.std.specs.Prelude.{◌≡◌};
ghost use Rattle.reader.specs.Faults.{line_refusal, line_of_line, column_of_line, block_refusal, line_of_block, column_of_block};
ghost use Rattle.reader.specs.declared.faults.LineFault.TheVariants.{Word};
ghost use Rattle.reader.specs.declared.faults.BlockFault.TheVariants.{Line};

use awl::refusals::Refusal;
use lexer::faults::WordFault;

#[derive(Clone, Copy)]
pub enum LineFault {
    Byte { line: usize, column: usize }, // a byte other than 32 to 126
    Colon { line: usize, column: usize }, // no colon before any ;
    Word(WordFault),
}

#[derive(Clone, Copy)]
pub enum BlockFault {
    Line(LineFault),
    MarkTwice { line: usize, column: usize }, // the mark stands at an earlier statement too
    Full { line: usize }, // a 256th statement
    Empty, // no statement at all
}

impl From<WordFault> for LineFault {
    ghost from_gives = { λ w r. r ≡ Word w };

    fn from(word: WordFault) -> LineFault {
        LineFault::Word(word)
    }
}

impl From<LineFault> for BlockFault {
    ghost from_gives = { λ l r. r ≡ Line l };

    fn from(line: LineFault) -> BlockFault {
        BlockFault::Line(line)
    }
}

impl LineFault {
    pub fn refusal(self) -> Refusal
        ensures value { result ≡ line_refusal self }
    {
        match self {
            LineFault::Byte { .. } => Refusal::Byte,
            LineFault::Colon { .. } => Refusal::Operation,
            LineFault::Word(fault) => fault.kind.refusal(),
        }
    }

    // The line, from 1.
    pub fn line(self) -> usize
        ensures value { result ≡ line_of_line self }
    {
        match self {
            LineFault::Byte { line, .. } | LineFault::Colon { line, .. } => line,
            LineFault::Word(fault) => fault.line,
        }
    }

    // The column, from 1; one past the line's last byte where something is missing.
    pub fn column(self) -> usize
        ensures value { result ≡ column_of_line self }
    {
        match self {
            LineFault::Byte { column, .. } | LineFault::Colon { column, .. } => column,
            LineFault::Word(fault) => fault.column,
        }
    }
}

impl BlockFault {
    pub fn refusal(self) -> Refusal
        ensures value { result ≡ block_refusal self }
    {
        match self {
            BlockFault::Line(fault) => fault.refusal(),
            BlockFault::MarkTwice { .. } => Refusal::Mark,
            BlockFault::Full { .. } | BlockFault::Empty => Refusal::StatementCount,
        }
    }

    // The line, from 1; 0 where the text has no statement.
    pub fn line(self) -> usize
        ensures value { result ≡ line_of_block self }
    {
        match self {
            BlockFault::Line(fault) => fault.line(),
            BlockFault::MarkTwice { line, .. } | BlockFault::Full { line } => line,
            BlockFault::Empty => 0,
        }
    }

    // The column, from 1; 0 where the text has no statement.
    pub fn column(self) -> usize
        ensures value { result ≡ column_of_block self }
    {
        match self {
            BlockFault::Line(fault) => fault.column(),
            BlockFault::MarkTwice { column, .. } => column,
            BlockFault::Full { .. } => 1,
            BlockFault::Empty => 0,
        }
    }
}
