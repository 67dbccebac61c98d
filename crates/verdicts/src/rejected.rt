// What is told of a section that is refused: its name, the refusal's number, where it stands in the file, and what is
// wrong in plain words. It knows nothing of how a section is judged.
ghost use Rattle.std.specs.Prelude.{◌≡◌, IfOk, string_bytes};
ghost use Rattle.verdicts.specs.Rejected.{text_report, whole_report, cause_report, rejected_report};

use crate::loading::{Cause, Rejected};
use awl::refusals::Refusal;
use reader::faults::BlockFault;
use reports::refused::{Spot, report_at};
use reports::words::{block_words, refusal_words};
use std::alloc::{AllocError, Global};

// The report on a section that is refused.
pub fn rejected_report(heap: Global, rejected: Rejected, file: &[u8]) -> Result<String, AllocError>
    ensures value { IfOk result (λ s. string_bytes s ≡ rejected_report rejected file.now) }
{
    let report = cause_report(heap, rejected.line, rejected.cause, file)?;
    let head = rejected.head;
    format!(in heap; "{head}: {report}")
}

// Why the section below a head line is refused.
fn cause_report(heap: Global, line: usize, cause: Cause, file: &[u8]) -> Result<String, AllocError>
    ensures value { IfOk result (λ s. string_bytes s ≡ cause_report line cause file.now) }
{
    match cause {
        Cause::Text(fault) => text_report(heap, line, fault, file),
        Cause::Whole(refusal) => whole_report(heap, line, refusal, file),
    }
}

// A fault of a text, at its line of the file. A text without a statement is told at its head.
fn text_report(
    heap: Global,
    line: usize,
    fault: BlockFault,
    file: &[u8],
) -> Result<String, AllocError>
    ensures value { IfOk result (λ s. string_bytes s ≡ text_report line fault file.now) }
{
    let spot = Spot {
        line: line.saturating_add(fault.line()),
        column: fault.column().max(1),
    };
    report_at(heap, fault.refusal(), spot, block_words(fault), file)
}

// A refusal of the section as it is, at its head.
fn whole_report(
    heap: Global,
    line: usize,
    refusal: Refusal,
    file: &[u8],
) -> Result<String, AllocError>
    ensures value { IfOk result (λ s. string_bytes s ≡ whole_report line refusal file.now) }
{
    report_at(
        heap,
        refusal,
        Spot { line, column: 1 },
        refusal_words(refusal),
        file,
    )
}
