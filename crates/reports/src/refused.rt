// The report on a refusal: its number and place and what is wrong, and the line where it stands. It knows nothing of
// how a text is read.
ghost use Rattle.std.specs.Prelude.{◌≡◌, IfOk, string_bytes};
ghost use Rattle.reports.specs.Refused.{sentence, pointer, report_at, spot_of, report_of};

use crate::numbered::line_numbered;
use crate::shown::shown;
use crate::words::block_words;
use awl::refusals::Refusal;
use reader::faults::BlockFault;
use std::alloc::{AllocError, Global};

// Where a text is refused: line and column, from 1.
#[derive(Clone, Copy)]
pub struct Spot {
    pub line: usize,
    pub column: usize,
}

// Where a block's fault stands.
impl From<BlockFault> for Spot {
    ghost from_gives = { λ f r. r ≡ spot_of f };

    fn from(fault: BlockFault) -> Spot {
        Spot {
            line: fault.line(),
            column: fault.column(),
        }
    }
}

// The report on the fault of a block's text; without the line and the caret where the text has no statement.
pub fn report(heap: Global, fault: BlockFault, text: &[u8]) -> Result<String, AllocError>
    ensures value { IfOk result (λ s. string_bytes s ≡ report_of fault text.now) }
{
    let refusal = fault.refusal();
    let spot = Spot::from(fault);
    let words = block_words(fault);
    match fault {
        BlockFault::Empty => sentence(heap, refusal, spot, words),
        _ => report_at(heap, refusal, spot, words, text),
    }
}

// The refusal in one line, then the line of the text where it stands, with a caret under the column.
pub fn report_at(
    heap: Global,
    refusal: Refusal,
    spot: Spot,
    words: &str,
    text: &[u8],
) -> Result<String, AllocError>
    ensures value { IfOk result (λ s. string_bytes s ≡ report_at refusal spot words.now text.now) }
{
    let sentence = sentence(heap, refusal, spot, words)?;
    let pointer = pointer(heap, spot, text)?;
    format!(in heap; "{sentence}{pointer}")
}

// The line of the spot, and below it a caret under the column.
pub fn pointer(heap: Global, spot: Spot, text: &[u8]) -> Result<String, AllocError>
    ensures value { IfOk result (λ s. string_bytes s ≡ pointer spot text.now) }
{
    let line = shown(heap, line_numbered(text, spot.line))?;
    let spaces = " ".repeat(heap, spot.column.saturating_sub(1))?;
    format!(in heap; "{line}\n{spaces}^\n")
}

// Number, line, column, and what is wrong.
fn sentence(heap: Global, refusal: Refusal, spot: Spot, words: &str) -> Result<String, AllocError>
    ensures value { IfOk result (λ s. string_bytes s ≡ sentence refusal spot words.now) }
{
    let number = refusal.number();
    let line = spot.line;
    let column = spot.column;
    format!(in heap; "refused {number} at line {line}, column {column}: {words}\n")
}
