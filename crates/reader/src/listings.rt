// The statements of a block as they are read, at most 255. It knows nothing of text.
ghost use Rattle.std.specs.Prelude.{◌≡◌, ◌≤◌, length, take};

use awl::marks::Mark;
use awl::statements::Statement;

// A statement that was read: the number of its line, its mark if it carries one, and what it says.
#[derive(Clone, Copy)]
pub struct Line {
    pub number: usize,
    pub mark: Option<Mark>,
    pub statement: Statement,
}

// The first `count` of the lines are read. A row of lines with its count: nothing is allocated, and what is read is copied
// as a whole.
#[derive(Clone, Copy)]
pub struct Listing {
    pub lines: [Line; 255],
    pub count: usize,
    ghost room: { length lines ≡ 255 },
    ghost few: { count ≤ 255 },
}

// The statements of a block: the first `count` of the lines, 1 to 255. With the fields of a listing and not over one, so
// that who reads a block's lines need not know of listings.
#[derive(Clone, Copy)]
pub struct Block {
    pub lines: [Line; 255],
    pub count: usize,
    ghost room: { length lines ≡ 255 },
    ghost few: { count ≤ 255 },
    ghost some: { 1 ≤ count },
}

impl Listing {
    // The lines that are read.
    pub(crate) fn lines(&self) -> &[Line]
        ensures value { result.now ≡ take self.now.count self.now.lines }
    {
        first_lines(&self.lines, self.count)
    }
}

impl Block {
    ghost use Rattle.std.specs.Prelude.{◌-◌, ◌&&◌, is_some, IfSome, nat_le, slice_index_or};
    ghost use Rattle.reader.specs.Listed.{entry, listed};

    // The lines of its statements.
    pub fn lines(&self) -> &[Line]
        ensures value { result.now ≡ take self.now.count self.now.lines }
    {
        first_lines(&self.lines, self.count)
    }

    // The statement of a number from 1, or none.
    pub fn line(&self, number: u8) -> Option<Line>
        ensures test { is_some result ≡ (nat_le 1 number && nat_le number self.now.count) }
        ensures value { IfSome result (λ l. slice_index_or (listed self.now.lines self.now.count) (number - 1) (entry l) ≡ entry l) }
    {
        let index = usize::from(number).checked_sub(1)?;
        self.lines().get(index).copied()
    }
}

fn first_lines(lines: &[Line; 255], count: usize) -> &[Line]
    requires { count ≤ length lines.now }
    ensures value { result.now ≡ take count lines.now }
{
    &lines[..count]
}
