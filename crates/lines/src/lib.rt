// The lines of a text, one after another. It knows nothing of what stands in a line.
#![tactic(auto)]

ghost use Rattle.std.specs.Prelude.{◌≡◌, ◌≤◌, not, ◌==◌, length, drop};
ghost use Rattle.std.specs.Iterator.{YieldsFirstRef, item_count};
ghost use Rattle.std.specs.List.{take_while};
ghost use Rattle.lines.specs.Lines.{lines_of};

use std::marker::Model;

// The lines of a text that are still to come. Each ends at byte 10, which the last may lack and no line holds.
#[derive(Drop)]
pub struct Lines<'a> {
    rest: &'a [u8],
}

// Seen as the text that is still to come.
impl<'a> Model for Lines<'a> {
    ghost use Rattle.std.specs.Prelude.{List, ℕ};

    ghost Value = { List ℕ };

    ghost view = { λ l. l.rest.now };
}

impl<'a> Lines<'a> {
    // All lines of a text, which are no more than it has bytes.
    #[tactic(auto, using(crate::proofs::Cutting::lines_few))]
    pub fn of(text: &'a [u8]) -> Lines<'a>
        ensures value { result ≡ text.now }
        ensures few { length (lines_of text.now) ≤ length text.now }
    {
        Lines { rest: text }
    }

    // The text behind the lines that came.
    pub fn rest(&self) -> &'a [u8]
        ensures value { result.now ≡ self.now }
    {
        self.rest
    }
}

impl<'a> Iterator for Lines<'a> {
    type Item = &'a [u8];

    ghost next_gives = { YieldsFirstRef lines_of };

    ghost remaining = { item_count lines_of };

    fn next(&mut self) -> Option<&'a [u8]> {
        if self.rest.is_empty() {
            return None;
        }
        let (line, behind) = self.rest.split_at(size_of_line(self.rest));
        *self = Lines::of(without_first(behind));
        Some(line)
    }
}

// How many bytes stand before the first byte 10, or before the end where there is none.
fn size_of_line(text: &[u8]) -> usize
    ensures value { result ≡ length (take_while (λ b. not (b == 10)) text.now) }
    ensures bound { result ≤ length text.now }
{
    text.iter()
        .copied()
        .take_while(|byte| *byte != b'\n')
        .count()
}

// The bytes without the first, which ends a line; none where there is none.
fn without_first(bytes: &[u8]) -> &[u8]
    ensures value { result.now ≡ drop 1 bytes.now }
{
    bytes.get(1..).unwrap_or(&[])
}
