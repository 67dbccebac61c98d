// The lines of a text by their numbers. It knows nothing of what stands in a line.
ghost use Rattle.std.specs.Prelude.{◌≡◌, ◌-◌, [], slice_index_or};
ghost use Rattle.lines.specs.Lines.{lines_of};

use lines::Lines;

// The line of a number, from 1; no bytes where the text has fewer lines.
pub fn line_numbered(text: &[u8], number: usize) -> &[u8]
    ensures value { result.now ≡ slice_index_or (lines_of text.now) (number - 1) [] }
{
    line_at(text, number.saturating_sub(1))
}

// The line at an index, from 0; no bytes where the text has fewer lines.
fn line_at(text: &[u8], index: usize) -> &[u8]
    ensures value { result.now ≡ slice_index_or (lines_of text.now) index [] }
{
    Lines::of(text).nth(index).unwrap_or(&[])
}
