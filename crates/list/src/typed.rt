// The statement of a line as it is typed. It knows nothing of what a statement means.
ghost use Rattle.std.specs.Prelude.{◌≡◌};
ghost use Rattle.list.specs.Typed.{typed, before_spaces};

use awl::bytes::{ByteClass, tail};
use reader::blocks::code_of;

// The statement of a line as it is typed: what stands behind the colon, without outer spaces and comment.
pub fn statement_text(line: &[u8]) -> &[u8]
    ensures value { result.now ≡ typed line.now }
{
    let code = code_of(line);
    let behind = tail(code, ByteClass::BeforeColon.front(code) + 1);
    without_end_spaces(tail(behind, ByteClass::Space.front(behind)))
}

// The bytes up to the last that is no space.
fn without_end_spaces(bytes: &[u8]) -> &[u8]
    ensures value { result.now ≡ before_spaces bytes.now }
{
    let mut left = bytes;
    while let [front @ .., b' '] = left {
        left = front;
    }
    left
}
