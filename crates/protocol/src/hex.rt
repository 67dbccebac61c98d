// Bytes in hexadecimal. It knows nothing of lines and calls.
ghost use Rattle.std.specs.Prelude.{◌≡◌, ◌<◌, IfSome, IfOk, vec_items};
ghost use Rattle.std.specs.Option.{option_map};
ghost use Rattle.protocol.specs.Hex.{hex_digit, hex_byte, hex_bytes, is_dash, hex_of};

use std::alloc::{AllocError, Global};

// The bytes of a word that is HEX, or none.
pub(crate) fn hex(heap: Global, word: &[u8]) -> Result<Option<Vec<u8>>, AllocError>
    ensures value { IfOk result (λ o. option_map vec_items o ≡ hex_of word.now) }
{
    if word.is_empty() {
        return Ok(None);
    }
    if is_dash(word) {
        return Ok(Some(Vec::new(heap)));
    }
    hex_bytes(heap, word)
}

// Whether the word stands for no byte at all.
fn is_dash(word: &[u8]) -> bool
    ensures value { result ≡ is_dash word.now }
{
    matches!(word, b"-")
}

// The bytes that digits spell, two a byte; none where a byte is no digit, or one digit is left over.
fn hex_bytes(heap: Global, digits: &[u8]) -> Result<Option<Vec<u8>>, AllocError>
    ensures value { IfOk result (λ o. option_map vec_items o ≡ hex_bytes digits.now) }
{
    let mut bytes = Vec::new(heap);
    let mut rest = digits;
    while let [high, low, behind @ ..] = rest {
        let Some(byte) = hex_byte(*high, *low) else {
            return Ok(None);
        };
        bytes.push(byte)?;
        rest = behind;
    }
    Ok(rest.is_empty().then_some(bytes))
}

// The byte that two digits spell.
fn hex_byte(high: u8, low: u8) -> Option<u8>
    ensures value { result ≡ hex_byte (hex_digit high) (hex_digit low) }
{
    Some(hex_digit(high)? * 16 + hex_digit(low)?)
}

// By hand, since the library's digits have capitals too. A frame line's digits are read in another crate, which this one
// doesn't see: a crate for these lines alone would be no plainer.
fn hex_digit(digit: u8) -> Option<u8>
    ensures value { result ≡ hex_digit digit }
    ensures bound { IfSome result (λ n. n < 16) }
{
    match digit {
        b'0'..=b'9' => Some(digit - b'0'),
        b'a'..=b'f' => Some(digit - b'a' + 10),
        _ => None,
    }
}
