// What stands behind the letters of an operand: numbers, bits and marks, read into places that are in their range.
// It knows nothing of operations.
ghost use Rattle.std.specs.Prelude.{◌≡◌};
ghost use Rattle.std.specs.Option.{option_map};
ghost use Rattle.awl.specs.Written.{mark, timer, counter, mark_text, bit_operand, span_operand, data_operand};
ghost use Rattle.lexer.specs.Numbers.{number_of, negative_of, positive_of, double_of};
ghost use Rattle.lexer.specs.Values.{byte_of, value_of};
ghost use Rattle.lexer.specs.declared.letters.Letters.TheVariants.{Area as AreaLetter, Timer, Counter, Span as SpanLetters, Data, Jump};

use awl::bytes::{ByteClass, tail};
use awl::marks::Mark;
use awl::places::{Area, Bit, CounterName, DataPart, DataPlace, Span, TimerName, Width};

// A bit, written byte.bit.
pub fn bit_value(area: Area, word: &[u8]) -> Option<Bit>
    ensures value { option_map bit_operand result ≡ value_of (AreaLetter area) word.now }
{
    let point = ByteClass::BeforePoint.front(word);
    if point == word.len() {
        return None;
    }
    let byte = number(&word[..point])?;
    let bit = number(tail(word, point + 1))?;
    Bit::new(area, byte, bit)
}

pub fn span_value(area: Area, width: Width, word: &[u8]) -> Option<Span>
    ensures value { option_map span_operand result ≡ value_of (SpanLetters area width) word.now }
{
    Span::new(area, width, number(word)?)
}

pub fn timer_value(word: &[u8]) -> Option<TimerName>
    ensures value { option_map (λ t. timer t.number) result ≡ value_of Timer word.now }
{
    TimerName::new(number(word)?)
}

pub fn counter_value(word: &[u8]) -> Option<CounterName>
    ensures value { option_map (λ z. counter z.number) result ≡ value_of Counter word.now }
{
    CounterName::new(number(word)?)
}

pub fn data_value(part: DataPart, word: &[u8]) -> Option<DataPlace>
    ensures value { option_map data_operand result ≡ value_of (Data part) word.now }
{
    DataPlace::new(part, number(word)?)
}

// A number of one byte: KB, and the numbers of blocks and data blocks.
pub fn byte_value(word: &[u8]) -> Option<u8>
    ensures value { result ≡ byte_of word.now }
{
    u8::try_from(number(word)?).ok()
}

pub fn mark_value(word: &[u8]) -> Option<Mark>
    ensures value { option_map (λ m. mark (mark_text m)) result ≡ value_of Jump word.now }
{
    Mark::new(word)
}

// The number of a double word constant, with a minus directly before its digits or none.
pub fn double_value(bytes: &[u8]) -> Option<i32>
    ensures value { result ≡ double_of bytes.now }
{
    match bytes {
        [b'-', digits @ ..] => negative(number(digits)),
        _ => positive(number(bytes)),
    }
}

// The number of one to ten digits, or none. By hand, since what the library parses may have a plus sign and any count of zeros.
pub fn number(bytes: &[u8]) -> Option<u64>
    ensures value { result ≡ number_of bytes.now }
{
    if bytes.is_empty() || bytes.len() > 10 {
        return None;
    }
    let mut value: u64 = 0;
    for byte in bytes {
        if !ByteClass::Digit.has(*byte) {
            return None;
        }
        value = value * 10 + (*byte - b'0') as u64;
    }
    Some(value)
}

// The number below zero of this size, where 32 bits hold it.
fn negative(size: Option<u64>) -> Option<i32>
    ensures value { result ≡ negative_of size }
{
    let size = i64::try_from(size?).ok()?;
    i32::try_from(-size).ok()
}

// The number from zero on, where 32 bits hold it with a sign.
fn positive(size: Option<u64>) -> Option<i32>
    ensures value { result ≡ positive_of size }
{
    i32::try_from(size?).ok()
}
