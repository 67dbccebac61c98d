// Columns of text as they are shown in a listing. It knows nothing of lines or blocks.
ghost use Rattle.std.specs.Prelude.{◌≡◌, IfOk, string_bytes};
ghost use Rattle.std.specs.Option.{option_map};
ghost use Rattle.awl.specs.Written.{mark_text};
ghost use Rattle.list.specs.Shown.{left_aligned, mark_cell};

use awl::marks::Mark;
use reports::shown::shown;
use std::alloc::{AllocError, Global};

// The text with spaces behind up to a width. Not by the width of a format, which counts characters: bytes are counted.
fn left_aligned(heap: Global, text: &str, width: usize) -> Result<String, AllocError>
    ensures value { IfOk result (λ s. string_bytes s ≡ left_aligned width text.now) }
{
    let spaces = " ".repeat(heap, width.saturating_sub(text.len()))?;
    format!(in heap; "{text}{spaces}")
}

// The mark left-aligned in six columns, or six spaces where there is none.
pub fn mark_cell(heap: Global, mark: Option<Mark>) -> Result<String, AllocError>
    ensures value { IfOk result (λ s. string_bytes s ≡ mark_cell (option_map mark_text mark)) }
{
    let text = match mark {
        Some(mark) => shown(heap, mark.text())?,
        None => String::new(heap),
    };
    left_aligned(heap, text.as_str(), 6)
}
