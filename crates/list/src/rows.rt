// The rows of a listing: one for each statement, and one for each jump without its mark. It knows nothing of faults.
ghost use Rattle.std.specs.Prelude.{◌≡◌, ◌+◌, ◌^◌, ◌<◌, ◌==◌, IfOk, string_bytes, decimal};
ghost use Rattle.awl.specs.Written.{mark_text};
ghost use Rattle.parser.specs.Statements.{written};
ghost use Rattle.lines.specs.Lines.{lines_of};
ghost use Rattle.reader.specs.Listed.{entry, listed};
ghost use Rattle.list.specs.Rows.{statement_row, statement_rows, lost_row, lost_target_row, lost_rows};
ghost use Rattle.list.specs.Shown.{right_aligned};

use crate::cells::mark_cell;
use crate::typed::statement_text;
use awl::statements::{Statement, Target};
use lines::Lines;
use reader::listings::{Block, Line};
use reports::shown::shown;
use std::alloc::{AllocError, Global};

// A row for each statement of the block, in the order of the text that the block was read from. Text and block are gone over side
// by side, so that no line is looked for twice: a search for each statement's line would take the square of the time. What
// stands below the last statement is not gone over.
pub fn statement_rows(heap: Global, block: &Block, text: &[u8]) -> Result<String, AllocError>
    ensures value { IfOk result (λ s. string_bytes s ≡ statement_rows (listed block.now.lines block.now.count) 1 1 (lines_of text.now)) }
{
    let mut rows = String::new(heap);
    let mut done = 0;
    for (index, line) in Lines::of(text).enumerate() {
        if let Some(next) = block.lines().get(done)
            && stands_at(*next, index)
        {
            done += 1;
            rows.push_str(statement_row(heap, done, *next, line)?.as_str())?;
            if done == block.count {
                break;
            }
        }
    }
    Ok(rows)
}

// Whether a statement was read from the line at an index, from 0.
fn stands_at(statement: Line, index: usize) -> bool
    requires { index + 1 < 2 ^ 64 }
    ensures value { result ≡ ((entry statement).line == index + 1) }
{
    statement.number == index + 1
}

// Statement number, line number, mark, and the statement as typed.
fn statement_row(heap: Global, number: usize, line: Line, text: &[u8]) -> Result<String, AllocError>
    ensures value { IfOk result (λ s. string_bytes s ≡ statement_row number (entry line) text.now) }
{
    let statement_number = number_cell(heap, number, 3)?;
    let line_number = number_cell(heap, line.number, 5)?;
    let mark = mark_cell(heap, line.mark)?;
    let statement = shown(heap, statement_text(text))?;
    format!(in heap; "{statement_number} {line_number} {mark} {statement}\n")
}

// The number in decimal, right-aligned.
fn number_cell(heap: Global, number: usize, width: usize) -> Result<String, AllocError>
    ensures value { IfOk result (λ s. string_bytes s ≡ right_aligned width (decimal number)) }
{
    format!(in heap; "{number:>width$}")
}

// A row for each jump whose mark no statement carries.
pub fn lost_rows(heap: Global, block: &Block) -> Result<String, AllocError>
    ensures value { IfOk result (λ s. string_bytes s ≡ lost_rows 1 (listed block.now.lines block.now.count)) }
{
    let mut rows = String::new(heap);
    for (index, line) in block.lines().iter().enumerate() {
        rows.push_str(lost_row(heap, index + 1, line.statement)?.as_str())?;
    }
    Ok(rows)
}

// The row of a jump whose mark no statement carries; no bytes for any other statement.
fn lost_row(heap: Global, number: usize, statement: Statement) -> Result<String, AllocError>
    ensures value { IfOk result (λ s. string_bytes s ≡ lost_row number (written statement)) }
{
    match statement {
        Statement::Jump(_, target) => lost_target_row(heap, number, target),
        _ => Ok(String::new(heap)),
    }
}

// The row of a jump to a mark that no statement carries; no bytes where one does.
fn lost_target_row(heap: Global, number: usize, target: Target) -> Result<String, AllocError>
    ensures value { IfOk result (λ s. string_bytes s ≡ lost_target_row number (mark_text target.mark) target.statement) }
{
    if target.statement.is_some() {
        return Ok(String::new(heap));
    }
    let mark = shown(heap, target.mark.text())?;
    format!(in heap; "  statement {number}: = {mark}\n")
}
