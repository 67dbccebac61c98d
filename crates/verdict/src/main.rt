// The verdict on the project file at standard input: whether the project can ever get stuck, and where. It knows nothing
// of how a project is read or checked.
#![tactic(auto)]

use anyhow::anyhow;
use std::io::Read;
use verdicts::pages::Page;

fn main(rt: HostRuntime) -> anyhow::Result<()> {
    let mut file = Vec::new(rt.alloc());
    rt.stdin().read_to_end(&mut file)?;
    let page = Page::new(rt.alloc(), file.as_slice())?;
    rt.print(page.text.as_str())?;
    if !page.passed {
        return Err(anyhow!("the project does not pass"));
    }
    Ok(())
}
