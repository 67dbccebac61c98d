// The slot for a host: empty until a host is set, and then always full. It knows nothing of how a call is written.
ghost use Rattle.std.specs.Prelude.{◌≡◌, false, None, vec_items};
ghost use Rattle.protocol.specs.Calls.{host_texts};
ghost use Rattle.host_desk.specs.Seats.{is_accepted, host_in, set_answer, after_set, slot_answer, slot_after};

use crate::seats::Seat;
use answers::Answer;
use protocol::calls::{HostCall, NewHost};

#[derive(Drop)]
pub struct HostSlot {
    seat: Option<Seat>,
}

impl HostSlot {
    // A slot without a host.
    pub fn empty() -> HostSlot
        ensures value { host_in result ≡ None }
    {
        HostSlot { seat: None }
    }

    // Puts a new host in the place of the old one; one that is refused changes nothing.
    pub fn set(&mut self, host: NewHost<Vec<u8>>) -> Answer
        ensures value { result ≡ set_answer (host_texts vec_items host) }
        ensures after { host_in self.new ≡ after_set (host_in self.old) (host_texts vec_items host) }
        ensures refused { is_accepted (host_texts vec_items host) ≡ false → self.new ≡ self.old }
    {
        match Seat::new(host) {
            Ok(seat) => {
                self.seat = Some(seat);
                Answer::Done
            }
            Err(refusal) => Answer::Refused(refusal),
        }
    }

    // The answer to a call of the host, and what the call leaves of it; on an empty slot a bad line.
    pub fn answer(&mut self, call: HostCall) -> Answer
        ensures value { result ≡ slot_answer (host_in self.old) call }
        ensures after { host_in self.new ≡ slot_after (host_in self.old) call }
    {
        match &mut self.seat {
            Some(seat) => seat.answer(call),
            None => Answer::BadLine,
        }
    }
}
