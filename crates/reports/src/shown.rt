// Bytes of a text as they are shown. It knows nothing of lines or blocks.
ghost use Rattle.std.specs.Prelude.{◌≡◌, map, IfOk, string_bytes};
ghost use Rattle.reports.specs.Shown.{shown_byte};

use awl::bytes::ByteClass;
use std::alloc::{AllocError, Global};

// The bytes as text, with ? for each that is not printable.
pub fn shown(heap: Global, bytes: &[u8]) -> Result<String, AllocError>
    ensures value { IfOk result (λ s. string_bytes s ≡ map shown_byte bytes.now) }
{
    bytes.iter().map(|byte| shown_byte(*byte)).collect(heap)
}

// The byte as a character, or ? where it is not printable.
fn shown_byte(byte: u8) -> char
    ensures value { result ≡ shown_byte byte }
{
    if ByteClass::Printable.has(byte) {
        byte as char
    } else {
        '?'
    }
}
