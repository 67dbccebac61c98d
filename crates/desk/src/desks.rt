// The desk: a project slot and a host slot, and the answer to a line. It knows nothing of where lines come from.
ghost use Rattle.std.specs.Prelude.{◌≡◌, IfOk, vec_items, string_bytes, MatchResult, OnOk};
ghost use Rattle.std.specs.Option.{option_map};
ghost use Rattle.protocol.specs.Calls.{texts};
ghost use Rattle.desk.specs.Desks.{desk_of, empty_desk, Answered, after_call, line_of, Replied, after_line};

use answers::Answer;
use host_desk::slots::HostSlot;
use project_desk::slots::ProjectSlot;
use protocol::calls::Call;
use protocol::reading::{is_silent, read};
use std::alloc::{AllocError, Global};

#[derive(Drop)]
pub(crate) struct Desk {
    project: ProjectSlot,
    host: HostSlot,
}

impl Desk {
    // A desk with both slots empty.
    pub(crate) fn empty() -> Desk
        ensures value { desk_of result ≡ empty_desk }
    {
        Desk {
            project: ProjectSlot::empty(),
            host: HostSlot::empty(),
        }
    }

    // What is written in answer to a line, which may end in byte 10; none where the line gets no answer.
    pub(crate) fn reply(&mut self, heap: Global, line: &[u8]) -> Result<Option<String>, AllocError>
        ensures value { IfOk result (λ o. Replied (desk_of self.old) (line_of line.now) (option_map string_bytes o)) }
        ensures after { OnOk result (desk_of self.new ≡ after_line (desk_of self.old) (line_of line.now)) }
    {
        let line = without_end(line);
        if is_silent(line) {
            return Ok(None);
        }
        let answer = match read(heap, line)? {
            Some(call) => self.answer(heap, call)?,
            None => Answer::BadLine,
        };
        Ok(Some(answer.text(heap)?))
    }

    // The answer to a call, and what it leaves on the desk; for want of memory no answer and no change.
    fn answer(&mut self, heap: Global, call: Call<Vec<u8>>) -> Result<Answer, AllocError>
        ensures value { IfOk result (λ a. Answered (desk_of self.old) (texts vec_items call) a) }
        ensures after { MatchResult result (λ _. desk_of self.new ≡ after_call (desk_of self.old) (texts vec_items call)) (λ _. desk_of self.new ≡ desk_of self.old) }
    {
        match call {
            Call::Project(call) => self.project.answer(heap, call),
            Call::NewHost(host) => Ok(self.host.set(host)),
            Call::Host(call) => Ok(self.host.answer(call)),
        }
    }
}

// The line without the byte 10 that ends it.
fn without_end(line: &[u8]) -> &[u8]
    ensures value { result.now ≡ line_of line.now }
{
    match line {
        [front @ .., b'\n'] => front,
        _ => line,
    }
}
