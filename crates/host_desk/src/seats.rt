// The host that is there, of one of two kinds. It knows nothing of how a call is written.
ghost use Rattle.std.specs.Prelude.{◌≡◌, is_ok, vec_items, MatchResult};
ghost use Rattle.awl.specs.declared.refusals.Refusal.TheVariants.{Frame};
ghost use Rattle.protocol.specs.Calls.{host_texts};
ghost use Rattle.host_desk.specs.Seats.{seated, first_seated, is_accepted, call_answer, after_call};
ghost use Rattle.host_desk.specs.declared.seats.Seat.TheVariants.{ByHand};

use crate::questions::any_answer;
use answers::Answer;
use awl::refusals::Refusal;
use hosts::bench::Bench;
use hosts::feed::Feed;
use hosts::mask::Mask;
use protocol::calls::{HostCall, NewHost};

// Each under a mask: one of no bits holds nothing back.
#[derive(Drop)]
pub(crate) enum Seat {
    ByHand(Mask<Bench>),
    Fed(Mask<Feed>),
}

impl Seat {
    // The host that is asked for; a feed of frame lines that are not accepted is refused.
    pub(crate) fn new(host: NewHost<Vec<u8>>) -> Result<Seat, Refusal>
        ensures test { is_ok result ≡ is_accepted (host_texts vec_items host) }
        ensures value { MatchResult result (λ s. seated s ≡ first_seated (host_texts vec_items host)) (λ e. e ≡ Frame) }
    {
        match host {
            NewHost::Bench {
                mask,
                inputs,
                outputs,
            } => {
                let bench = Bench::new(inputs, outputs);
                Ok(Seat::ByHand(Mask::new(bench, mask.unwrap_or(0))))
            }
            NewHost::Feed { mask, frames } => {
                let feed = Feed::new(frames).map_err(|_| Refusal::Frame)?;
                Ok(Seat::Fed(Mask::new(feed, mask.unwrap_or(0))))
            }
        }
    }

    // The answer to a call, and what the call leaves of the host.
    pub(crate) fn answer(&mut self, call: HostCall) -> Answer
        ensures value { result ≡ call_answer (seated self.old) call }
        ensures after { seated self.new ≡ after_call (seated self.old) call }
    {
        match self {
            Seat::ByHand(mask) => bench_answer(mask, call),
            Seat::Fed(mask) => any_answer(mask, call),
        }
    }
}

// The answer of a bench, which is set through its mask.
fn bench_answer(mask: &mut Mask<Bench>, call: HostCall) -> Answer
    ensures value { result ≡ call_answer (seated (ByHand mask.old)) call }
    ensures after { seated (ByHand mask.new) ≡ after_call (seated (ByHand mask.old)) call }
{
    match call {
        HostCall::SetElapsed { elapsed } => {
            mask.host_mut().set_elapsed(elapsed);
            Answer::Done
        }
        HostCall::SetInput { number, value } => mask.host_mut().set_input(number, value).into(),
        _ => any_answer(mask, call),
    }
}
