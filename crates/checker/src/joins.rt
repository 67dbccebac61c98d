// The verdict, joined from what the walk of each block found and from the names held. It reads no statement.
ghost use Rattle.std.specs.Prelude.{◌≡◌, ◌<◌, ◌&&◌, is_some, if◌then◌else◌, Some, None};
ghost use Rattle.awl.specs.declared.names.BlockName.{BlockName as Name};
ghost use Rattle.store.specs.Held.{slot_of, name_at, blocks, data_blocks};
ghost use Rattle.walk.specs.Walk.{Fit};
ghost use Rattle.checker.specs.Inside.{JudgesIn, fault_seen, entered_by, outward_of};
ghost use Rattle.checker.specs.Joins.{Earlier, IsOf, FoundTo, EntersTo, CallsTo, Reach, Reached, JudgesTo, JudgesHere};
ghost use Rattle.checker.specs.Project.{project_of, Holds, flows_in, outermost};
ghost use Rattle.checker.specs.Verdicts.{Judges};

use crate::chains::{SlotSet, entered, tenth};
use crate::surveys::Survey;
use crate::verdicts::{Found, Verdict};
use awl::names::{BlockKind, BlockName};
use store::store::Store;
use walk::faults::{Fault, lower};
use walk::flows::Flow;
use walk::sights::{Finding, Sight};

// OB 1, where a scan starts.
const OUTERMOST: BlockName = BlockName {
    kind: BlockKind::Organisation,
    number: 1,
};

// What is found where there is no OB 1.
const NO_START: Found = Found {
    block: OUTERMOST,
    statement: 0,
    fault: Fault::NoStart,
};

// A survey of a store that has an OB 1, with the slots that chains of calls enter, and those that ten calls lead into.
#[derive(Drop)]
struct Join<'a> {
    survey: &'a Survey<'a>,
    reach: SlotSet,
    last: SlotSet,
}

impl Survey<'_> {
    // For each slot the slots of the blocks that its block enters.
    fn call_table(&self) -> [SlotSet; 32]
        requires { FoundTo self.now.store.now self.now.findings 32 }
        ensures value { CallsTo self.now.store.now result 32 }
    {
        let mut calls = [SlotSet::NONE; 32];
        for (slot, finding) in self.findings.iter().enumerate() {
            if self.store.name_at(slot as u8).is_some() {
                calls[slot] = entered_from(self.store, finding);
            }
        }
        calls
    }

    // The slots of the blocks that chains of calls enter; none where there is no OB 1.
    pub(crate) fn reach(&self) -> SlotSet
        requires { FoundTo self.now.store.now self.now.findings 32 }
        ensures value { Reach self.now.store.now result }
    {
        let Some(start) = self.store.find(OUTERMOST) else {
            return SlotSet::NONE;
        };
        entered(&self.call_table(), start)
    }

    // The verdict on the store.
    pub(crate) fn verdict(&self) -> Verdict
        requires { FoundTo self.now.store.now self.now.findings 32 }
        ensures value { Judges (project_of self.now.store.now) result }
    {
        let start = self.store.find(OUTERMOST).ok_or(NO_START)?;
        let calls = self.call_table();
        let join = Join {
            survey: self,
            reach: entered(&calls, start),
            last: tenth(&calls, start),
        };
        join.first().map_or(Ok(()), Err)
    }
}

impl Join<'_> {
    // The first fault of the block in a slot: none where the slot has no block, or one that is not entered.
    fn first_at(&self, slot: u8, finding: &Finding) -> Option<Found>
        requires reached { Reached self.now.survey.now.store.now self.now.reach self.now.last }
        requires start { Holds (project_of self.now.survey.now.store.now) outermost }
        requires slot { slot < 32 }
        requires of { (b : Name) → name_at self.now.survey.now.store.now slot ≡ Some b → IsOf finding.now self.now.survey.now.store.now b }
        ensures value { JudgesHere self.now.survey.now.store.now slot result }
    {
        match self.survey.store.name_at(slot) {
            Some(name) if self.reach.has(slot) => {
                first_in(self.survey.store, name, finding, self.last.has(slot))
            }
            _ => None,
        }
    }

    // The first fault of all blocks that are entered.
    #[tactic(auto, using(crate::proofs::Judging::judges_more))]
    fn first(&self) -> Option<Found>
        requires found { FoundTo self.now.survey.now.store.now self.now.survey.now.findings 32 }
        requires reached { Reached self.now.survey.now.store.now self.now.reach self.now.last }
        requires start { Holds (project_of self.now.survey.now.store.now) outermost }
        ensures value { JudgesTo self.now.survey.now.store.now 32 result }
    {
        let mut best = None;
        for (slot, finding) in self.survey.findings.iter().enumerate() {
            let here = self.first_at(slot as u8, finding);
            best = earlier(best, here);
        }
        best
    }
}

// Of two faults, the one whose block comes first; of two in one block the first. Not by the generic lesser, which goes on to
// statement and fault.
fn earlier(best: Option<Found>, other: Option<Found>) -> Option<Found>
    ensures value { Earlier best other result }
{
    match (best, other) {
        (Some(mine), Some(theirs)) if theirs.block.precedes(mine.block) => other,
        _ => best.or(other),
    }
}

// The slot of the block that a statement's call enters, as a set; empty where it enters none that is held.
fn entered_by(store: &Store, sight: Sight) -> SlotSet
    ensures value { result ≡ entered_by (slot_of store.now) sight }
{
    match sight.flow {
        Flow::Call(name) if sight.bare => store.find(name).map_or(SlotSet::NONE, SlotSet::of),
        _ => SlotSet::NONE,
    }
}

// The slots of the blocks that a block enters, by its finding.
fn entered_from(store: &Store, finding: &Finding) -> SlotSet
    ensures value { (b : Name) → IsOf finding.now store.now b → EntersTo store.now b finding.now.count result }
{
    let mut out = SlotSet::NONE;
    for sight in finding.sights() {
        out = out | entered_by(store, *sight);
    }
    out
}

// The fault that a statement has by what stands outside its block: K2, K7 or K8. `deep`: ten calls lead into its block.
fn outward_fault(store: &Store, sight: Sight, deep: bool) -> Option<Fault>
    ensures value { result ≡ (if sight.walked then outward_of (λ d. is_some (blocks store.now d)) (λ n. is_some (data_blocks store.now n)) (sight.bare && deep) sight.flow else None) }
{
    if !sight.walked {
        return None;
    }
    match sight.flow {
        Flow::Call(name) if !store.holds(name) => Some(Fault::BlockNotHeld),
        Flow::Call(_) if sight.bare && deep => Some(Fault::EleventhCall),
        Flow::Choose(number) if !store.lays(number) => Some(Fault::DataNotHeld),
        _ => None,
    }
}

// The lowest fault of a statement.
#[tactic(auto, unfolding(crate::specs::Inside::fault_seen))]
fn fault_seen(store: &Store, sight: Sight, deep: bool) -> Option<Fault>
    ensures value { result ≡ fault_seen (project_of store.now) deep sight }
{
    lower(sight.fault, outward_fault(store, sight, deep))
}

// The first fault of the block of a name.
fn first_in(store: &Store, name: BlockName, finding: &Finding, deep: bool) -> Option<Found>
    requires of { IsOf finding.now store.now name }
    requires fit { Fit (flows_in (project_of store.now) name) }
    ensures value { JudgesIn (project_of store.now) name deep result }
{
    for (i, sight) in finding.sights().iter().enumerate() {
        if let Some(fault) = fault_seen(store, *sight, deep) {
            return Some(Found {
                block: name,
                statement: i as u8 + 1,
                fault,
            });
        }
    }
    None
}
