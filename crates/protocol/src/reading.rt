// Lines to calls. It knows nothing of what a call does.
ghost use Rattle.std.specs.Prelude.{◌≡◌, IfOk, vec_items};
ghost use Rattle.std.specs.Option.{option_map};
ghost use Rattle.protocol.specs.Calls.{texts, call_of, is_silent};

use crate::calls::Call;
use crate::host_lines::host_call;
use crate::names::{Verb, verb_named};
use crate::new_host_lines::new_host;
use crate::project_lines::project_call;
use crate::words::{number, word_at};
use std::alloc::{AllocError, Global};

// Whether a line gets no answer: an empty one, and one that starts with #.
pub fn is_silent(line: &[u8]) -> bool
    ensures value { result ≡ is_silent line.now }
{
    matches!(line, [] | [b'#', ..])
}

// The call that a line asks for, or none where the line is a bad one. The line is without the byte 10 that ends it.
pub fn read(heap: Global, line: &[u8]) -> Result<Option<Call<Vec<u8>>>, AllocError>
    ensures value { IfOk result (λ o. option_map (texts vec_items) o ≡ call_of line.now) }
{
    if number(word_at(line, 1), 0).is_none() {
        return Ok(None);
    }
    match verb_named(word_at(line, 0)) {
        Some(Verb::Project(verb)) => Ok(project_call(heap, verb, line)?.map(Call::Project)),
        Some(Verb::NewHost) => Ok(new_host(heap, line)?.map(Call::NewHost)),
        Some(Verb::Host(verb)) => Ok(host_call(verb, line).map(Call::Host)),
        None => Ok(None),
    }
}
