// The calls that any host takes, of whichever kind it is. It knows nothing of the kinds.
ghost use Rattle.std.specs.Prelude.{◌≡◌};
ghost use Rattle.host_desk.specs.HostCalls.{any_answer, AnyAfter, output_row};

use answers::Answer;
use hosts::Host;
use protocol::calls::HostCall;

// The answer to a call that any host takes; the calls of a bench are bad lines here, and change nothing.
pub(crate) fn any_answer<H: Host>(host: &mut H, call: HostCall) -> Answer
    ensures value { result ≡ any_answer (H.Host.meaning host.old) call }
    ensures after { AnyAfter H.Host.meaning H.Host.gives H.Host.advances call host.old host.new }
{
    match call {
        HostCall::SetElapsed { .. } | HostCall::SetInput { .. } => Answer::BadLine,
        HostCall::Input { number } => Answer::Number(u32::from(host.input(number))),
        HostCall::Output { number } => Answer::Number(u32::from(host.output(number))),
        HostCall::Elapsed => Answer::Number(host.elapsed()),
        HostCall::Taken { number } => host.takes(number).into(),
        HostCall::Outputs => Answer::Bytes(outputs(host)),
        HostCall::Give { number, value } => {
            host.give(number, value);
            Answer::Done
        }
        HostCall::Advance => {
            host.advance();
            Answer::Done
        }
    }
}

// Output bytes 0 to 127.
fn outputs<H: Host>(host: &H) -> [u8; 128]
    ensures value { result ≡ output_row (H.Host.meaning host.now) }
{
    let mut row = [0; 128];
    for (n, byte) in row.iter_mut().enumerate() {
        *byte = host.output(n as u8);
    }
    row
}
