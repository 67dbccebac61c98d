// The words of a line, and the numbers and bytes that a word writes. It knows nothing of calls.
ghost use Rattle.std.specs.Prelude.{◌≡◌, ◌≤◌, [], length, IfSome, slice_index_or};
ghost use Rattle.protocol.specs.Words.{words_of};
ghost use Rattle.protocol.specs.Numbers.{number_within};

use awl::bytes::ByteClass;

// How many words a line has.
pub(crate) fn word_count(line: &[u8]) -> usize
    ensures value { result ≡ length (words_of line.now) }
{
    line.split(|byte| *byte == b' ').count()
}

// Word n of a line, from 0; no bytes where the line has fewer words.
pub(crate) fn word_at(line: &[u8], n: usize) -> &[u8]
    ensures value { result.now ≡ slice_index_or (words_of line.now) n [] }
{
    line.split(|byte| *byte == b' ').nth(n).unwrap_or(&[])
}

// The number that a word of digits writes, unless it is above `most`. A loop of its own beside the lexer's, which counts digits
// and knows no most: what both say of digits is defined and proved once, in `awl`.
pub(crate) fn number(word: &[u8], most: u32) -> Option<u32>
    ensures value { result ≡ number_within most word.now }
    ensures bound { IfSome result (λ n. n ≤ most) }
{
    if word.is_empty() {
        return None;
    }
    let mut value: u64 = 0;
    for byte in word {
        if !ByteClass::Digit.has(*byte) {
            return None;
        }
        value = value * 10 + (*byte - b'0') as u64;
        if value > most as u64 {
            return None;
        }
    }
    Some(value as u32)
}

// A number of one byte.
pub(crate) fn byte_number(word: &[u8]) -> Option<u8>
    ensures value { result ≡ number_within 255 word.now }
{
    Some(number(word, 255)? as u8)
}
