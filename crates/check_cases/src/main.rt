// Verdicts on many small projects. Standard input has cases: a line that starts with = gives a case its title, and the lines
// below it are a project file. Each case is answered with one line: its title, and the first line of what `verdict` says.
// It knows nothing of how projects are read or checked.
#![tactic(auto)]

ghost use Rattle.std.specs.Prelude.{◌≤◌, length};

use awl::bytes::tail;
use lines::Lines;
use reader::blocks::line_at;
use reports::shown::shown;
use std::alloc::{AllocError, Global};
use std::io::Read;
use verdicts::pages::Page;

fn main(rt: HostRuntime) -> anyhow::Result<()> {
    let mut input = Vec::new(rt.alloc());
    rt.stdin().read_to_end(&mut input)?;
    let text = answers(rt.alloc(), input.as_slice())?;
    rt.print(text.as_str())?;
    Ok(())
}

// One line for each case.
fn answers(heap: Global, input: &[u8]) -> Result<String, AllocError> {
    let mut out = String::new(heap);
    let mut rest = input;
    while let Some(head) = Lines::of(rest).next() {
        let below = tail(rest, head.len() + 1);
        let (file, behind) = below.split_at(case_size(below));
        out.push_str(answer(heap, head, file)?.as_str())?;
        rest = behind;
    }
    Ok(out)
}

// The answer to one case.
fn answer(heap: Global, head: &[u8], file: &[u8]) -> Result<String, AllocError> {
    let page = Page::new(heap, file)?;
    let title = shown(heap, tail(head, 2))?;
    let said = shown(heap, line_at(page.text.as_bytes(), 0))?;
    format!(in heap; "{title}: {said}\n")
}

// The bytes before the next line that starts with =, or all. By pairs of bytes and not by lines, of which short ones would
// take most of the time.
fn case_size(rest: &[u8]) -> usize
    ensures bound { result ≤ length rest.now }
{
    if rest.first() == Some(&b'=') {
        return 0;
    }
    let end = rest
        .windows(2)
        .position(|pair| matches!(pair, [b'\n', b'=']));
    end.map_or(rest.len(), |end| end + 1).min(rest.len())
}
