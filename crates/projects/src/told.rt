// What is told of a project file that cannot be cut, and the names of blocks as heads have them. It knows nothing of
// how a file is cut.
ghost use Rattle.std.specs.Prelude.{◌≡◌, Some, IfOk, string_bytes};
ghost use Rattle.projects.specs.Told.{block_name, head_name, flaw_words, head_report, stray_report, twice_report, file_report};

use crate::heads::{Head, HeadFault, HeadFlaw};
use crate::sections::FileFault;
use awl::names::BlockName;
use reports::refused::{Spot, pointer};
use std::alloc::{AllocError, Global};
use std::fmt;

// What is wrong with the file, and the line where it stands with a caret under the column.
pub fn file_report(heap: Global, fault: FileFault, file: &[u8]) -> Result<String, AllocError>
    ensures value { IfOk result (λ s. string_bytes s ≡ file_report fault file.now) }
{
    match fault {
        FileFault::Head { line, fault } => head_report(heap, line, fault, file),
        FileFault::Stray { line } => stray_report(heap, line, file),
        FileFault::Twice { name, first, line } => twice_report(heap, name, first, line, file),
    }
}

// What is wrong with a head.
impl fmt::Display for HeadFlaw {
    ghost output = { λ f. Some (flaw_words f) };

    fn fmt<W: fmt::Write>(&self, f: &mut fmt::Formatter<W>) -> fmt::Result {
        f.write_str(match self {
            HeadFlaw::Byte => "a byte that is no printable character",
            HeadFlaw::Kind => "OB, PB, FB or DB has to stand here",
            HeadFlaw::Number => "a number from 0 to 255 has to stand here",
            HeadFlaw::Length => "a number of words has to stand here",
            HeadFlaw::Extra => "a word too many",
        })
    }
}

// As heads have them, without the length of a data block: PB 3, DB 5.
impl fmt::Display for Head {
    ghost output = { λ h. Some (head_name h) };

    fn fmt<W: fmt::Write>(&self, f: &mut fmt::Formatter<W>) -> fmt::Result {
        match *self {
            Head::Block(name) => write!(f, "{name}"),
            Head::Data { number, .. } => write!(f, "DB {number}"),
        }
    }
}

// The block or data block as its head names it, without the length.
pub fn head_name(heap: Global, head: Head) -> Result<String, AllocError>
    ensures value { IfOk result (λ s. string_bytes s ≡ head_name head) }
{
    format!(in heap; "{head}")
}

// Kind and number: PB 3.
pub fn block_name(heap: Global, name: BlockName) -> Result<String, AllocError>
    ensures value { IfOk result (λ s. string_bytes s ≡ block_name name) }
{
    format!(in heap; "{name}")
}

// A line that starts with a star and is no head.
fn head_report(
    heap: Global,
    line: usize,
    fault: HeadFault,
    file: &[u8],
) -> Result<String, AllocError>
    ensures value { IfOk result (λ s. string_bytes s ≡ head_report line fault file.now) }
{
    let HeadFault { flaw, column } = fault;
    let there = pointer(heap, Spot { line, column }, file)?;
    format!(in heap; "no head at line {line}, column {column}: {flaw}\n{there}")
}

// A line that belongs to no block.
fn stray_report(heap: Global, line: usize, file: &[u8]) -> Result<String, AllocError>
    ensures value { IfOk result (λ s. string_bytes s ≡ stray_report line file.now) }
{
    let there = pointer(heap, Spot { line, column: 1 }, file)?;
    format!(in heap;
        "no block at line {line}: no head of a block, such as * OB 1, stands above it\n{there}"
    )
}

// A block that is given a second time.
fn twice_report(
    heap: Global,
    name: BlockName,
    first: usize,
    line: usize,
    file: &[u8],
) -> Result<String, AllocError>
    ensures value { IfOk result (λ s. string_bytes s ≡ twice_report name first line file.now) }
{
    let there = pointer(heap, Spot { line, column: 1 }, file)?;
    format!(in heap; "twice at line {line}: {name} is given at line {first} already\n{there}")
}
