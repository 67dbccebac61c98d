// Lines to calls of the host that is there. It knows nothing of other lines.
ghost use Rattle.std.specs.Prelude.{◌≡◌};
ghost use Rattle.protocol.specs.Words.{words_of, nth};
ghost use Rattle.protocol.specs.Calls.{host_size, host_call, sized};

use crate::calls::HostCall;
use crate::names::HostVerb;
use crate::words::{byte_number, number, word_at, word_count};

// The call of the host that a line with this first word asks for.
pub(crate) fn host_call(verb: HostVerb, line: &[u8]) -> Option<HostCall>
    ensures value { result ≡ sized (host_size verb) (words_of line.now) (host_call verb (nth (words_of line.now) 2) (nth (words_of line.now) 3)) }
{
    if word_count(line) == host_size(verb) {
        host_arguments(verb, word_at(line, 2), word_at(line, 3))
    } else {
        None
    }
}

// How many words a call of the host has.
fn host_size(verb: HostVerb) -> usize
    ensures value { result ≡ host_size verb }
{
    match verb {
        HostVerb::Elapsed | HostVerb::Outputs | HostVerb::Advance => 2,
        HostVerb::SetElapsed | HostVerb::Input | HostVerb::Output | HostVerb::Taken => 3,
        HostVerb::SetInput | HostVerb::Give => 4,
    }
}

// The call of the host with these words behind the slot.
fn host_arguments(verb: HostVerb, first: &[u8], second: &[u8]) -> Option<HostCall>
    ensures value { result ≡ host_call verb first.now second.now }
{
    match verb {
        HostVerb::SetElapsed => Some(HostCall::SetElapsed {
            elapsed: number(first, u32::MAX)?,
        }),
        HostVerb::SetInput => Some(HostCall::SetInput {
            number: byte_number(first)?,
            value: byte_number(second)?,
        }),
        HostVerb::Input => Some(HostCall::Input {
            number: byte_number(first)?,
        }),
        HostVerb::Output => Some(HostCall::Output {
            number: byte_number(first)?,
        }),
        HostVerb::Elapsed => Some(HostCall::Elapsed),
        HostVerb::Taken => Some(HostCall::Taken {
            number: byte_number(first)?,
        }),
        HostVerb::Outputs => Some(HostCall::Outputs),
        HostVerb::Give => Some(HostCall::Give {
            number: byte_number(first)?,
            value: byte_number(second)?,
        }),
        HostVerb::Advance => Some(HostCall::Advance),
    }
}
