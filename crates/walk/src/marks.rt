// Which places of a block are marked. It knows nothing of which are to be.
ghost use Rattle.std.specs.Prelude.{◌≡◌, ◌<◌, ◌≤◌, false, true, not, length, replicate, Decides, slice_index_or, slice_set};
ghost use Rattle.walk.specs.Search.{Marked, spot};

use crate::places::Place;
use std::mem;

// Six entries a statement, by the number of open brackets.
#[derive(Drop)]
pub(crate) struct Marks {
    marked: [bool; 1530],
    ghost size: { length marked ≡ 1530 },
}

impl Marks {
    // No place is marked.
    pub(crate) fn none() -> Marks
        ensures value { result.marked ≡ replicate 1530 false }
    {
        Marks {
            marked: [false; 1530],
        }
    }

    // Whether a place is marked.
    pub(crate) fn has(&self, place: Place) -> bool
        requires { (1 ≤ place.statement) × ((place.statement ≤ 255) × (place.brackets < 6)) }
        ensures value { Decides result (Marked self.now.marked place.statement place.brackets) }
    {
        self.marked[spot(place)]
    }

    // Marks a place, and says whether it was not marked before.
    pub(crate) fn mark(&mut self, place: Place) -> bool
        requires low { 1 ≤ place.statement }
        requires inside { spot place < 1530 }
        ensures value { result ≡ not (slice_index_or self.old.marked (spot place) false) }
        ensures after { self.new.marked ≡ slice_set self.old.marked (spot place) true }
    {
        !mem::replace(&mut self.marked[spot(place)], true)
    }
}

// Where a place has its mark.
fn spot(place: Place) -> usize
    requires { 1 ≤ place.statement }
    ensures value { result ≡ spot place }
{
    (place.statement as usize - 1) * 6 + place.brackets as usize
}
