// What can be wrong on a walk, K1 to K9, and which of it one place can have by itself. It knows nothing of other blocks.
ghost use Rattle.std.specs.Prelude.{◌≡◌};
ghost use Rattle.walk.specs.Faults.{fault_number};
ghost use Rattle.walk.specs.Places.{fault_of, lower_of};

use crate::flows::Flow;
use crate::lesser::lesser;

#[derive(Clone, Copy, PartialEq, Eq, PartialOrd, Ord)]
pub enum Fault {
    MarkMissing = 1, // K1: a jump without its mark
    BlockNotHeld = 2, // K2: a call of a block that is not held
    SixthBracket = 3, // K3: a bracket opened where five are open
    NoneOpen = 4, // K4: ) with none open
    BracketsOpen = 5, // K5: a call or a block's end with brackets open
    RunsOut = 6, // K6: running on from the last statement
    DataNotHeld = 7, // K7: an A DB of a data block that is not held
    EleventhCall = 8, // K8: a call that ends a chain of eleven
    NoStart = 9, // K9: no OB 1
}

impl Fault {
    // The number by which users know the fault.
    pub fn number(self) -> u8
        ensures value { result ≡ fault_number self }
    {
        self as u8
    }
}

// The one of lower number; of none and a fault, the fault.
pub fn lower(one: Option<Fault>, other: Option<Fault>) -> Option<Fault>
    ensures value { result ≡ lower_of one other }
{
    lesser(one, other)
}

// The lowest of K1, K3, K4, K5 and K6 that a statement has with `brackets` open and `behind` statements behind it.
pub(crate) fn fault_of(flow: Flow, brackets: u8, behind: usize) -> Option<Fault>
    ensures value { result ≡ fault_of flow brackets behind }
{
    match flow {
        Flow::Jump(None) | Flow::Branch(None) => Some(Fault::MarkMissing),
        Flow::Open if brackets == 5 => Some(Fault::SixthBracket),
        Flow::Close if brackets == 0 => Some(Fault::NoneOpen),
        Flow::Call(_) | Flow::End | Flow::MayEnd if brackets != 0 => Some(Fault::BracketsOpen),
        Flow::Jump(Some(_)) | Flow::End | Flow::Stop => None,
        _ => (behind == 0).then_some(Fault::RunsOut),
    }
}
