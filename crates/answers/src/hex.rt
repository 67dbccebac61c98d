// Numbers in hexadecimal, nothing between. It knows nothing of which answer is given.
ghost use Rattle.std.specs.Prelude.{◌≡◌, ◌<◌, [], ◌∷◌};
ghost use Rattle.std.specs.Fmt.{WritesOnOk};
ghost use Rattle.std.specs.List.{flat_map};
ghost use Rattle.answers.specs.Written.{hex_char, hex_pair, hex_quad};

use std::fmt;

// Two digits a byte.
pub(crate) fn write_bytes<W: fmt::Write>(bytes: &[u8], f: &mut fmt::Formatter<W>) -> fmt::Result
    ensures value { WritesOnOk W.write_str_gives f.old result (flat_map hex_pair bytes.now) f.new }
{
    for byte in bytes {
        write_byte(*byte, f)?;
    }
    Ok(())
}

// Four digits a word of 16 bits. Byte by byte, since a row of two bytes for each word takes a quarter more.
pub(crate) fn write_words<W: fmt::Write>(words: &[u16], f: &mut fmt::Formatter<W>) -> fmt::Result
    ensures value { WritesOnOk W.write_str_gives f.old result (flat_map hex_quad words.now) f.new }
{
    for word in words {
        let [high, low] = word.to_be_bytes();
        write_byte(high, f)?;
        write_byte(low, f)?;
    }
    Ok(())
}

// The digits of a byte, the higher first. Digit by digit, since by the format `{byte:02x}` a long row takes two to three times as
// long; and inlined, since a call for each byte takes a quarter more.
#[inline(always)]
fn write_byte<W: fmt::Write>(byte: u8, f: &mut fmt::Formatter<W>) -> fmt::Result
    ensures value { WritesOnOk W.write_str_gives f.old result (hex_pair byte) f.new }
{
    f.write_str(digit(byte / 16))?;
    f.write_str(digit(byte % 16))
}

// A digit, in lower case.
fn digit(value: u8) -> &'static str
    requires { value < 16 }
    ensures value { result.now ≡ hex_char value ∷ [] }
{
    match value {
        0 => "0",
        1 => "1",
        2 => "2",
        3 => "3",
        4 => "4",
        5 => "5",
        6 => "6",
        7 => "7",
        8 => "8",
        9 => "9",
        10 => "a",
        11 => "b",
        12 => "c",
        13 => "d",
        14 => "e",
        _ => "f",
    }
}
