// What is told of the first fault that a check finds: which, where, and what it means in plain words. It knows nothing
// of how the fault is found.
ghost use Rattle.std.specs.Prelude.{◌≡◌, IfOk, string_bytes};
ghost use Rattle.verdicts.specs.Found.{fault_words, place_told, placed_report, placeless_report, found_report};

use checker::verdicts::Found;
use reports::numbered::line_numbered;
use reports::shown::shown;
use std::alloc::{AllocError, Global};
use walk::faults::Fault;

// The report on a fault that stands at a line of the file, or at none.
pub fn found_report(
    heap: Global,
    found: Found,
    line: Option<usize>,
    file: &[u8],
) -> Result<String, AllocError>
    ensures value { IfOk result (λ s. string_bytes s ≡ found_report found line file.now) }
{
    match line {
        Some(line) => placed_report(heap, found, line, file),
        None => placeless_report(heap, found.fault),
    }
}

// Where a fault stands, what it means, and the line itself.
fn placed_report(heap: Global, found: Found, line: usize, file: &[u8]) -> Result<String, AllocError>
    ensures value { IfOk result (λ s. string_bytes s ≡ placed_report found line file.now) }
{
    let place = place(heap, found, line)?;
    let words = fault_words(found.fault);
    let text = shown(heap, line_numbered(file, line))?;
    format!(in heap; "{place}: {words}\n{text}\n")
}

// Number, line, block and statement.
fn place(heap: Global, found: Found, line: usize) -> Result<String, AllocError>
    ensures value { IfOk result (λ s. string_bytes s ≡ place_told found line) }
{
    let number = found.fault.number();
    let block = found.block;
    let statement = found.statement;
    format!(in heap; "K{number} at line {line}, {block}, statement {statement}")
}

// Number and what it means.
fn placeless_report(heap: Global, fault: Fault) -> Result<String, AllocError>
    ensures value { IfOk result (λ s. string_bytes s ≡ placeless_report fault) }
{
    let number = fault.number();
    let words = fault_words(fault);
    format!(in heap; "K{number}: {words}\n")
}

// What a fault means. No display of it: to the walk it is all one how a person is told.
fn fault_words(fault: Fault) -> &'static str
    ensures value { result.now ≡ fault_words fault }
{
    match fault {
        Fault::MarkMissing => "no statement of the block carries the mark of this jump",
        Fault::BlockNotHeld => "the block that is called here is not in the project",
        Fault::SixthBracket => "a sixth bracket can be opened here, and five is the most",
        Fault::NoneOpen => "a bracket can be closed here where none is open",
        Fault::BracketsOpen => "a call or a block's end that can be come to with a bracket open",
        Fault::RunsOut => "the block ends here, and a scan can run on past its last statement",
        Fault::DataNotHeld => "the data block that is chosen here is not in the project",
        Fault::EleventhCall => "an eleventh call can be open here, and ten is the most",
        Fault::NoStart => "there is no OB 1, so no scan can start",
    }
}
