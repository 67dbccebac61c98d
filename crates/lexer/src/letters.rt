// The letters of an operand, and the number, bit or mark behind them. It knows nothing of operations.
ghost use Rattle.std.specs.Prelude.{◌≡◌};
ghost use Rattle.lexer.specs.Letters.{one_letter, two_letters, span_letters, data_letters, constant_letters, block_letters, letters_of};

use awl::names::BlockKind;
use awl::places::{Area, DataPart, Width};

// What stands between an operation and its number.
#[derive(Clone, Copy)]
pub enum Letters {
    Area(Area), // E A M: a bit
    Timer, // T
    Counter, // Z
    Span(Area, Width), // EB MW AD: a byte, word or double word
    Data(DataPart), // DL DR DW DD
    Byte, // KB
    Double, // KD
    Jump, // =
    Block(BlockKind), // OB PB FB
    DataBlock, // DB
}

// The letters that a word is, or none.
#[tactic(auto, unfolding(crate::specs::Letters::letters_of))]
pub fn read_letters(word: &[u8]) -> Option<Letters>
    ensures value { result ≡ letters_of word.now }
{
    match word {
        [letter] => one_letter(char::from(*letter)),
        [first, second] => two_letters(char::from(*first), char::from(*second)),
        _ => None,
    }
}

fn one_letter(letter: char) -> Option<Letters>
    ensures value { result ≡ one_letter letter }
{
    match letter {
        'E' => Some(Letters::Area(Area::Input)),
        'A' => Some(Letters::Area(Area::Output)),
        'M' => Some(Letters::Area(Area::Flag)),
        'T' => Some(Letters::Timer),
        'Z' => Some(Letters::Counter),
        '=' => Some(Letters::Jump),
        _ => None,
    }
}

fn two_letters(first: char, second: char) -> Option<Letters>
    ensures value { result ≡ two_letters first second }
{
    match first {
        'E' => span_letters(Area::Input, second),
        'A' => span_letters(Area::Output, second),
        'M' => span_letters(Area::Flag, second),
        'D' => data_letters(second),
        'K' => constant_letters(second),
        'O' => block_letters(BlockKind::Organisation, second),
        'P' => block_letters(BlockKind::Program, second),
        'F' => block_letters(BlockKind::Function, second),
        _ => None,
    }
}

fn span_letters(area: Area, second: char) -> Option<Letters>
    ensures value { result ≡ span_letters area second }
{
    match second {
        'B' => Some(Letters::Span(area, Width::Byte)),
        'W' => Some(Letters::Span(area, Width::Word)),
        'D' => Some(Letters::Span(area, Width::Double)),
        _ => None,
    }
}

fn data_letters(second: char) -> Option<Letters>
    ensures value { result ≡ data_letters second }
{
    match second {
        'L' => Some(Letters::Data(DataPart::Left)),
        'R' => Some(Letters::Data(DataPart::Right)),
        'W' => Some(Letters::Data(DataPart::Word)),
        'D' => Some(Letters::Data(DataPart::Double)),
        'B' => Some(Letters::DataBlock),
        _ => None,
    }
}

fn constant_letters(second: char) -> Option<Letters>
    ensures value { result ≡ constant_letters second }
{
    match second {
        'B' => Some(Letters::Byte),
        'D' => Some(Letters::Double),
        _ => None,
    }
}

fn block_letters(kind: BlockKind, second: char) -> Option<Letters>
    ensures value { result ≡ block_letters kind second }
{
    match second {
        'B' => Some(Letters::Block(kind)),
        _ => None,
    }
}
