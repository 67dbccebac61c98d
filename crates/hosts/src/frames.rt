// Frame lines: which texts are accepted, and the frames that their lines write. It knows nothing of hosts, and keeps no
// place in a text.

ghost use Rattle.std.specs.Prelude.{◌≡◌, ◌+◌, ◌^◌, ◌<◌, ◌≤◌, ◌||◌, true, [], ◌∷◌, length, drop, Some, None, IfSome};
ghost use Rattle.std.specs.List.{list_all};
ghost use Rattle.lines.specs.Lines.{lines_of};
ghost use Rattle.hosts.specs.Frames.{is_decimal, is_a_to_f, digit, hex, formed_byte, well_formed, frame_of, frames, accepted};

use lines::Lines;

// What one advance of a feed brings: the milliseconds elapsed, and the inputs.
#[derive(Clone, Copy)]
pub struct Frame {
    pub elapsed: u32,
    pub inputs: [u8; 4],
}

// A frame taken from a text, and the byte at which the next line starts.
#[derive(Clone, Copy)]
pub(crate) struct Taken {
    pub(crate) frame: Frame,
    pub(crate) next: usize,
}

// Whether a text has a line, and nothing but frame lines.
pub(crate) fn accepted(text: &[u8]) -> bool
    ensures value { result ≡ accepted text.now }
{
    !text.is_empty() && Lines::of(text).all(|line| well_formed(line))
}

// The frame of the line that starts at byte `at`; none past the text's end.
pub(crate) fn take_frame(text: &[u8], at: usize) -> Option<Taken>
    requires { list_all well_formed (lines_of (drop at text.now)) ≡ true }
    ensures value { elim result [ Some t ↦ frames (drop at text.now) ≡ t.frame ∷ frames (drop t.next text.now) | None ↦ frames (drop at text.now) ≡ [] ] }
    ensures formed { IfSome result (λ t. list_all well_formed (lines_of (drop t.next text.now)) ≡ true) }
{
    let line = Lines::of(text.get(at..)?).next()?;
    Some(Taken {
        frame: frame_of(line),
        next: at + line.len() + 1,
    })
}

// Whether a line is a frame line.
fn well_formed(line: &[u8]) -> bool
    ensures value { result ≡ well_formed line.now }
{
    line.len() == 17
        && line
            .iter()
            .enumerate()
            .all(|(place, c)| formed_byte(place, *c))
}

// Whether a byte may stand at a place of a frame line.
fn formed_byte(place: usize, c: u8) -> bool
    ensures value { result ≡ formed_byte place c }
{
    if place == 8 { c == b' ' } else { is_digit(c) }
}

// Whether a byte is a hexadecimal digit.
fn is_digit(c: u8) -> bool
    ensures value { result ≡ (is_decimal c || is_a_to_f c) }
{
    matches!(c, b'0'..=b'9' | b'a'..=b'f')
}

// The frame that a frame line writes.
fn frame_of(line: &[u8]) -> Frame
    requires { length line.now ≡ 17 }
    ensures value { result ≡ frame_of line.now }
{
    Frame {
        elapsed: hex_at(line, 0, 8),
        inputs: [
            hex_at(line, 9, 2) as u8,
            hex_at(line, 11, 2) as u8,
            hex_at(line, 13, 2) as u8,
            hex_at(line, 15, 2) as u8,
        ],
    }
}

// The number that so many digits of a line write, from a place on.
#[tactic(auto, using(crate::proofs::Hexes::hex_part))]
fn hex_at(line: &[u8], from: usize, count: usize) -> u32
    requires few { count ≤ 8 }
    requires within { from + count ≤ length line.now }
    ensures value { result ≡ hex line.now from count }
    ensures bound { result < 16 ^ count }
{
    hex(&line[from..from + count])
}

// The number that digits write.
fn hex(digits: &[u8]) -> u32
    requires { length digits.now ≤ 8 }
    ensures value { result ≡ hex digits.now 0 (length digits.now) }
    ensures bound { result < 16 ^ length digits.now }
{
    let mut number = 0;
    for c in digits {
        number = number * 16 + u32::from(digit(*c));
    }
    number
}

// The value of a digit; 0 for a byte that is none. By hand, since the library's digits have capitals too.
fn digit(c: u8) -> u8
    ensures value { result ≡ digit c }
    ensures bound { result < 16 }
{
    match c {
        b'0'..=b'9' => c - b'0',
        b'a'..=b'f' => c - b'a' + 10,
        _ => 0,
    }
}
