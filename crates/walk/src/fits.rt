// A block that is fit to be walked, and what its walk meets at a place and where it goes on from there. It knows nothing
// of how the walk is searched.
ghost use Rattle.std.specs.Prelude.{◌≡◌, ◌<◌, ◌≤◌, length, Decides, MatchOption};
ghost use Rattle.walk.specs.Flows.{flows_of};
ghost use Rattle.walk.specs.Places.{fault_at, on_from, jump_from};
ghost use Rattle.walk.specs.Walk.{Fit, AimedInto, flow_at};

use crate::faults::{Fault, fault_of};
use crate::flows::{Flow, flow_of};
use crate::places::{Nexts, Place, jump_from, step_from, target};
use awl::statements::Statement;

// A block of 1 to 255 statements, in which every jump that finds its mark goes to one of them.
#[derive(Clone, Copy)]
pub(crate) struct FitBlock<'a> {
    pub(crate) statements: &'a [Statement],
    ghost fit: { Fit (flows_of statements.now) },
}

impl<'a> FitBlock<'a> {
    // The block of these statements, where it is fit.
    pub(crate) fn of(statements: &'a [Statement]) -> Option<FitBlock<'a>>
        ensures value { MatchOption result (Fit (flows_of statements.now) → ⊥) (λ b. b.statements.now ≡ statements.now) }
    {
        if is_fit(statements) {
            Some(FitBlock { statements })
        } else {
            None
        }
    }

    // The flow of a statement.
    pub(crate) fn flow_at(self, statement: u8) -> Flow
        requires { (1 ≤ statement) × (statement ≤ length self.statements.now) }
        ensures value { result ≡ flow_at (flows_of self.entry.statements.now) statement }
    {
        flow_of(self.statements[statement as usize - 1])
    }

    // The lowest fault that a place has by itself.
    pub(crate) fn fault_at(self, place: Place) -> Option<Fault>
        requires { (1 ≤ place.statement) × (place.statement ≤ length self.statements.now) }
        ensures value { result ≡ fault_at (flows_of self.entry.statements.now) place }
    {
        let behind = self.statements.len() - place.statement as usize;
        fault_of(self.flow_at(place.statement), place.brackets, behind)
    }

    // Where the walk goes on from a place.
    pub(crate) fn goes_to(self, place: Place) -> Nexts
        requires low { 1 ≤ place.statement }
        requires high { place.statement ≤ length self.statements.now }
        requires brackets { place.brackets < 6 }
        ensures on { result.on ≡ on_from (flows_of self.entry.statements.now) place }
        ensures jump { result.jump ≡ jump_from (flows_of self.entry.statements.now) place }
    {
        if self.fault_at(place).is_some() {
            return Nexts {
                on: None,
                jump: None,
            };
        }
        let flow = self.flow_at(place.statement);
        Nexts {
            on: step_from(flow, place),
            jump: jump_from(flow, place),
        }
    }
}

// Whether a block is one that can be read.
fn is_fit(block: &[Statement]) -> bool
    ensures value { Decides result (Fit (flows_of block.now)) }
{
    if block.is_empty() || block.len() > 255 {
        return false;
    }
    for statement in block {
        if !is_aimed(flow_of(*statement), block.len()) {
            return false;
        }
    }
    true
}

// Whether a statement that jumps to one goes to one of so many.
fn is_aimed(flow: Flow, count: usize) -> bool
    ensures value { Decides result (AimedInto flow count) }
{
    target(flow).is_none_or(|target| 1 <= target && target as usize <= count)
}
