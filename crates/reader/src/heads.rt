// What a line is parted into. It knows nothing of how it is read.
use awl::marks::Mark;
use lexer::words::Words;

// A mark and the column where it stands.
#[derive(Clone, Copy)]
pub struct PlacedMark {
    pub mark: Mark,
    pub column: usize,
}

// A line parted at its colon: the mark before it if any, and the words behind it.
#[derive(Clone, Copy)]
pub struct Head<'a> {
    pub mark: Option<PlacedMark>,
    pub words: Words<'a>,
}
