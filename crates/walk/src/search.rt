// The search of a block's walk: each place is marked when it is first come to, and then waits on the stack to be visited.
// It knows nothing of what is wrong at a place.
ghost use Rattle.std.specs.Prelude.{◌≡◌, ◌+◌, ◌*◌, ◌<◌, ◌≤◌, ◌∷◌, length, drop, IfSome};
ghost use Rattle.walk.specs.Flows.{flows_of};
ghost use Rattle.walk.specs.Search.{waiting_on, Hunt, Exact, Marked, spot, unmarked, marking, joining};

use crate::fits::FitBlock;
use crate::marks::Marks;
use crate::places::Place;
use stack::Stack;

// Marks a place, if any, and lets it wait unless it was marked before.
// Marks and stack apart: once a struct has held the stack, no proof knows what it left in the slice that was lent to it.
fn note(marks: &mut Marks, waiting: &mut Stack<Place>, place: Option<Place>)
    requires inside { IfSome place (λ q. (1 ≤ q.statement) × (spot q < 1530)) }
    requires room { waiting.old.depth + unmarked marks.old.marked ≤ 1530 }
    requires slots { 1530 ≤ length waiting.old.slots.now }
    ensures seen { marks.new.marked ≡ marking marks.old.marked place }
    ensures waiting { waiting_on waiting.new.slots.now waiting.new.depth ≡ joining marks.old.marked (waiting_on waiting.old.slots.now waiting.old.depth) place }
    ensures size { length waiting.new.slots.now ≡ length waiting.old.slots.now }
    ensures rest { drop 1530 waiting.new.slots.now ≡ drop 1530 waiting.old.slots.now }
    ensures same { waiting.new.slots.ghost_name ≡ waiting.old.slots.ghost_name }
{
    if let Some(place) = place
        && marks.mark(place)
    {
        let _ = waiting.push(place);
    }
}

// Notes the places that the walk goes on to from one.
fn visit(block: FitBlock, place: Place, marks: &mut Marks, waiting: &mut Stack<Place>)
    requires hunt { Hunt (flows_of block.statements.now) marks.old.marked (place ∷ waiting_on waiting.old.slots.now waiting.old.depth) }
    requires slots { 1530 ≤ length waiting.old.slots.now }
    ensures hunt { Hunt (flows_of block.entry.statements.now) marks.new.marked (waiting_on waiting.new.slots.now waiting.new.depth) }
    ensures first { Marked marks.old.marked 1 0 → Marked marks.new.marked 1 0 }
    ensures shorter { waiting.new.depth + 2 * unmarked marks.new.marked ≤ waiting.old.depth + 2 * unmarked marks.old.marked }
    ensures size { length waiting.new.slots.now ≡ length waiting.old.slots.now }
    ensures rest { drop 1530 waiting.new.slots.now ≡ drop 1530 waiting.old.slots.now }
    ensures same { waiting.new.slots.ghost_name ≡ waiting.old.slots.ghost_name }
{
    let to = block.goes_to(place);
    note(marks, waiting, to.on);
    note(marks, waiting, to.jump);
}

// The places of the block's walk, as marks.
pub(crate) fn marks_of(block: FitBlock, places: &mut [Place]) -> Marks
    requires { 1530 ≤ length places.old }
    ensures exact { Exact (flows_of block.entry.statements.now) result.marked }
    ensures rest { drop 1530 places.new ≡ drop 1530 places.old }
{
    let mut marks = Marks::none();
    let mut waiting = Stack::over(places, 0);
    let first = Place {
        statement: 1,
        brackets: 0,
    };
    note(&mut marks, &mut waiting, Some(first));
    while let Some(place) = waiting.pop() {
        visit(block, place, &mut marks, &mut waiting);
    }
    marks
}
