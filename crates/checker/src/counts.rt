// How many statements the walk comes to, from what was found in each block. It reads no statement.
ghost use Rattle.std.specs.Prelude.{◌≡◌, ◌<◌, ◌≤◌};
ghost use Rattle.checker.specs.Counts.{Counts, seen_in, seen_at};
ghost use Rattle.checker.specs.Joins.{FoundTo};

use crate::chains::SlotSet;
use crate::surveys::Survey;
use walk::sights::Finding;

// The statements of a block that its walk comes to.
fn walked_in(finding: &Finding) -> usize
    ensures value { result ≡ seen_in finding.now }
    ensures bound { result ≤ 255 }
{
    finding.sights().iter().filter(|sight| sight.walked).count()
}

// The same of the block in a slot; 0 where the slot is not among those that are entered.
fn seen_at(reach: SlotSet, slot: u8, finding: &Finding) -> usize
    requires { slot < 32 }
    ensures value { result ≡ seen_at reach slot finding.now }
    ensures bound { result ≤ 255 }
{
    if reach.has(slot) {
        walked_in(finding)
    } else {
        0
    }
}

impl Survey<'_> {
    // The statements of all blocks that the walk comes to.
    pub(crate) fn walked(&self) -> usize
        requires { FoundTo self.now.store.now self.now.findings 32 }
        ensures value { Counts self.now.store.now result }
    {
        let reach = self.reach();
        let mut total = 0;
        for (slot, finding) in self.findings.iter().enumerate() {
            let slot = slot as u8;
            if self.store.name_at(slot).is_some() {
                total += seen_at(reach, slot, finding);
            }
        }
        total
    }
}
