// What the walk of each block of a store finds, each block by itself. It knows nothing of calls from block to block.
ghost use Rattle.std.specs.Prelude.{◌≡◌, ◌<◌, ◌≤◌, length, drop, Some, MatchResult};
ghost use Rattle.awl.specs.declared.names.BlockName.{BlockName};
ghost use Rattle.awl.specs.declared.refusals.Refusal.TheVariants.{ShortTable};
ghost use Rattle.store.specs.Held.{name_at};
ghost use Rattle.walk.specs.Search.{cleared};
ghost use Rattle.checker.specs.Joins.{IsOf, FoundTo};

use awl::refusals::Refusal;
use store::store::Store;
use walk::findings::finding_of;
use walk::places::Place;
use walk::sights::Finding;

// A store, with what was found in the block of each slot.
// No ghost field says so: it is told by ways through the blocks, and a ghost field holds what has one proof at most.
#[derive(Drop)]
pub(crate) struct Survey<'a> {
    pub(crate) store: &'a Store,
    pub(crate) findings: [Finding; 32],
}

impl<'a> Survey<'a> {
    // Walks each block. The places are cleared afterwards; too few of them are refused.
    pub(crate) fn of(store: &'a Store, places: &mut [Place]) -> Result<Survey<'a>, Refusal>
        ensures value { MatchResult result (λ survey. (survey.store.now ≡ store.now) × FoundTo store.now survey.findings 32) (λ e. (e ≡ ShortTable) × (length places.old < 1530)) }
        ensures after { MatchResult result (λ _. places.new ≡ cleared places.old) (λ _. places.new ≡ places.old) }
    {
        if places.len() < 1530 {
            return Err(Refusal::ShortTable);
        }
        let findings = findings_of(store, places);
        clear(places);
        Ok(Survey { store, findings })
    }
}

// What the walk of each block finds, slot by slot.
// That the places are enough is asked of each call and held in no type: they are lent as a slice, and lent on as one.
fn findings_of(store: &Store, places: &mut [Place]) -> [Finding; 32]
    requires { 1530 ≤ length places.old }
    ensures value { FoundTo store.now result 32 }
    ensures rest { drop 1530 places.new ≡ drop 1530 places.old }
{
    let mut findings = [Finding::none(); 32];
    for (slot, finding) in findings.iter_mut().enumerate() {
        *finding = finding_at(store, places, slot as u8);
    }
    findings
}

// What the walk of the block in a slot finds; nothing where there is no block.
fn finding_at(store: &Store, places: &mut [Place], slot: u8) -> Finding
    requires { 1530 ≤ length places.old }
    ensures value { (b : BlockName) → name_at store.now slot ≡ Some b → IsOf result store.now b }
    ensures rest { drop 1530 places.new ≡ drop 1530 places.old }
{
    finding_of(store.statements_at(slot), places).unwrap_or(Finding::none())
}

// Sets the first 1,530 places to 0.
fn clear(places: &mut [Place])
    requires { 1530 ≤ length places.old }
    ensures after { places.new ≡ cleared places.old }
{
    places[..1530].fill(Place {
        statement: 0,
        brackets: 0,
    });
}
