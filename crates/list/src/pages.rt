// What the program writes of a text: its listing, or the report on its fault. It knows nothing of where text comes
// from.
ghost use Rattle.std.specs.Prelude.{◌≡◌, IfOk, string_bytes};
ghost use Rattle.reader.specs.Listed.{listed};
ghost use Rattle.reader.specs.Reading.{reading};
ghost use Rattle.list.specs.Pages.{listing_of, page_of, is_refused};

use crate::counts::{lost_jumps, marks};
use crate::rows::{lost_rows, statement_rows};
use reader::blocks::read;
use reader::listings::Block;
use reports::refused::report;
use std::alloc::{AllocError, Global};

// What is written of a text, and whether the text is refused. Not an enum of the two: the text is written either way.
#[derive(Drop)]
pub struct Page {
    pub text: String,
    pub refused: bool,
}

impl Page {
    // The listing of the text, or the report on its first fault.
    pub fn new(heap: Global, text: &[u8]) -> Result<Page, AllocError>
        ensures value { IfOk result (λ p. (string_bytes p.text ≡ page_of (reading text.now) text.now) × (p.refused ≡ is_refused (reading text.now))) }
    {
        match read(text) {
            Ok(block) => Ok(Page {
                text: listing(heap, &block, text)?,
                refused: false,
            }),
            Err(fault) => Ok(Page {
                text: report(heap, fault, text)?,
                refused: true,
            }),
        }
    }
}

// The rows of the statements, and behind them how many statements, marks and jumps without their mark there are.
fn listing(heap: Global, block: &Block, text: &[u8]) -> Result<String, AllocError>
    ensures value { IfOk result (λ s. string_bytes s ≡ listing_of (listed block.now.lines block.now.count) text.now) }
{
    let rows = statement_rows(heap, block, text)?;
    let statements = block.count;
    let marks = marks(block);
    let lost = lost_jumps(block);
    let lost_rows = lost_rows(heap, block)?;
    format!(in heap;
        "{rows}\nstatements: {statements}\nmarks: {marks}\njumps without their mark: {lost}\n{lost_rows}"
    )
}
