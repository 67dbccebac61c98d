// The program by which editors and scripts drive the engine over a pipe: a line in, a line out. It knows nothing of what a
// call does.
#![tactic(auto)]

mod desks;

use desks::Desk;
use std::io::{BufRead, BufReader};

// Each answer is written before the next line is read. What a line asks and what is answered is proved below; that lines
// are read and answers written, one by one and in their order, is tested.
fn main(rt: HostRuntime) -> anyhow::Result<()> {
    let heap = rt.alloc();
    let mut desk = Desk::empty();
    let mut input = BufReader::new(heap, rt.stdin())?;
    let mut line = Vec::new(heap);
    for _ in 0..u64::MAX {
        line.clear();
        if input.read_until(b'\n', &mut line)? == 0 {
            break;
        }
        if let Some(answer) = desk.reply(heap, line.as_slice())? {
            rt.println(answer)?;
        }
    }
    Ok(())
}
