// A block's walk as a value of its own, made of the block alone. It knows nothing of other blocks.
ghost use Rattle.std.specs.Prelude.{◌≡◌, ◌-◌, ◌<◌, ◌≤◌, length, take, drop, MatchOption, slice_index_or};
ghost use Rattle.walk.specs.Findings.{Sighted, SightedTo, Found, unseen};
ghost use Rattle.walk.specs.Flows.{flows_of};
ghost use Rattle.walk.specs.Search.{Exact};
ghost use Rattle.walk.specs.Walk.{Fit};

use crate::faults::lower;
use crate::fits::FitBlock;
use crate::flows::Flow;
use crate::marks::Marks;
use crate::places::Place;
use crate::search::marks_of;
use crate::sights::{Finding, Sight};
use awl::statements::Statement;

// What is found at a statement that does not exist.
const UNSEEN: Sight = Sight {
    flow: Flow::Stop,
    fault: None,
    walked: false,
    bare: false,
};

// What the marks tell of a statement.
fn sight_at(block: FitBlock, marks: &Marks, statement: u8) -> Sight
    requires exact { Exact (flows_of block.statements.now) marks.now.marked }
    requires low { 1 ≤ statement }
    requires high { statement ≤ length block.statements.now }
    ensures value { Sighted (flows_of block.entry.statements.now) statement result }
{
    let mut fault = None;
    let mut walked = false;
    for brackets in 0..6 {
        let place = Place {
            statement,
            brackets,
        };
        if marks.has(place) {
            walked = true;
            fault = lower(fault, block.fault_at(place));
        }
    }
    let entry = Place {
        statement,
        brackets: 0,
    };
    Sight {
        flow: block.flow_at(statement),
        fault,
        walked,
        bare: marks.has(entry),
    }
}

// The sights of all statements, by the marks.
fn sights_of(block: FitBlock, marks: &Marks) -> [Sight; 255]
    requires { Exact (flows_of block.statements.now) marks.now.marked }
    ensures value { SightedTo (flows_of block.entry.statements.now) result (length block.entry.statements.now) }
    ensures size { length result ≡ 255 }
{
    let mut sights = [UNSEEN; 255];
    let told = &mut sights[..block.statements.len()];
    for (i, sight) in told.iter_mut().enumerate() {
        *sight = sight_at(block, marks, i as u8 + 1);
    }
    sights
}

// What the walk of a block finds at each of its statements. None where there are fewer than 1,530 places to work in, or
// the block is not one that can be read. Places from 1,530 on are not touched.
pub fn finding_of(block: &[Statement], places: &mut [Place]) -> Option<Finding>
    ensures value { MatchOption result (Fit (flows_of block.now) → 1530 ≤ length places.old → ⊥) (λ f. Found (flows_of block.now) f.sights f.count) }
    ensures rest { drop 1530 places.new ≡ drop 1530 places.old }
{
    if places.len() < 1530 {
        return None;
    }
    let block = FitBlock::of(block)?;
    let marks = marks_of(block, places);
    Some(Finding {
        sights: sights_of(block, &marks),
        count: block.statements.len(),
    })
}

impl Finding {
    // Nothing found: no statement.
    pub fn none() -> Finding
        ensures value { result.count ≡ 0 }
    {
        Finding {
            sights: [UNSEEN; 255],
            count: 0,
        }
    }

    // What was found, statement by statement.
    pub fn sights(&self) -> &[Sight]
        ensures value { result.now ≡ take self.now.count self.now.sights }
    {
        &self.sights[..self.count]
    }

    // What was found at a statement, from 1.
    pub fn sight(&self, statement: u8) -> Sight
        ensures value { result ≡ slice_index_or self.now.sights (statement - 1) unseen }
    {
        self.entry(statement.saturating_sub(1))
    }

    // The sight at an index.
    fn entry(&self, index: u8) -> Sight
        requires { index < 255 }
        ensures value { result ≡ slice_index_or self.now.sights index result }
    {
        self.sights[index as usize]
    }
}
