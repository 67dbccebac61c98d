// Places of a block's walk, and where the walk goes on from one. It knows nothing of how the walk is searched.
ghost use Rattle.std.specs.Prelude.{◌≡◌, ◌+◌, ◌<◌, true};
ghost use Rattle.walk.specs.Places.{stepped, jumped, place_at};
ghost use Rattle.walk.specs.Walk.{goes_on, leaves, jumps_to};

use crate::flows::Flow;

// A statement, from 1, with the number of brackets open before it. What its numbers may be is asked where they are used:
// places are lent to be worked in with any numbers, and a check leaves the first 1,530 as 0 and 0.
#[derive(Clone, Copy)]
pub struct Place {
    pub statement: u8,
    pub brackets: u8,
}

// The places that the walk goes on to from one: the next statement's, and the jump's.
#[derive(Clone, Copy)]
pub(crate) struct Nexts {
    pub(crate) on: Option<Place>,
    pub(crate) jump: Option<Place>,
}

// Whether the walk can go on to the next statement.
fn goes_on(flow: Flow) -> bool
    ensures value { result ≡ goes_on flow }
{
    !matches!(flow, Flow::Jump(_) | Flow::End | Flow::Stop)
}

// The statement that a jump can go to.
pub(crate) fn target(flow: Flow) -> Option<u8>
    ensures value { result ≡ jumps_to flow }
{
    match flow {
        Flow::Jump(target) | Flow::Branch(target) => target,
        _ => None,
    }
}

// The brackets open behind a statement.
fn left_open(flow: Flow, brackets: u8) -> u8
    requires { brackets < 6 }
    ensures value { result ≡ leaves flow brackets }
{
    match flow {
        Flow::Open => brackets + 1,
        Flow::Close => brackets.saturating_sub(1),
        _ => brackets,
    }
}

// The next statement's place, where the walk can go on to it.
pub(crate) fn step_from(flow: Flow, place: Place) -> Option<Place>
    requires room { goes_on flow ≡ true → place.statement < 255 }
    requires few { place.brackets < 6 }
    ensures value { result ≡ stepped (goes_on flow) (place_at (place.statement + 1) (leaves flow place.brackets)) }
{
    if !goes_on(flow) {
        return None;
    }
    Some(Place {
        statement: place.statement + 1,
        brackets: left_open(flow, place.brackets),
    })
}

// The place of the jump's target, where there is one.
pub(crate) fn jump_from(flow: Flow, place: Place) -> Option<Place>
    ensures value { result ≡ jumped (jumps_to flow) place.brackets }
{
    target(flow).map(|statement| Place {
        statement,
        brackets: place.brackets,
    })
}
