// The listing of a block's text: its statements numbered, its marks and its jumps counted, or its fault with the line
// where it stands. It knows nothing of projects, checks or machines.
#![tactic(auto)]

mod cells;
mod counts;
mod pages;
mod rows;
mod typed;

use anyhow::anyhow;
use pages::Page;
use std::io::Read;

fn main(rt: HostRuntime) -> anyhow::Result<()> {
    let mut text = Vec::new(rt.alloc());
    rt.stdin().read_to_end(&mut text)?;
    let page = Page::new(rt.alloc(), text.as_slice())?;
    rt.print(page.text.as_str())?;
    if page.refused {
        return Err(anyhow!("the text is refused"));
    }
    Ok(())
}
