// What a walk found, statement by statement. It knows nothing of how it is found.
ghost use Rattle.std.specs.Prelude.{◌≡◌, ◌≤◌, length};

use crate::faults::Fault;
use crate::flows::Flow;

// What the walk found at a statement. Two flags and no enum of three: who counts statements asks the one, who follows calls
// the other, and a match of cases would be no plainer in either.
#[derive(Clone, Copy)]
pub struct Sight {
    pub flow: Flow,
    pub fault: Option<Fault>, // the lowest of K1, K3, K4, K5 and K6 that a place of it has
    pub walked: bool, // the walk comes to it
    pub bare: bool, // the walk comes to it with no bracket open, so that a call enters its block
}

// What the walk found in a block: the first `count` of the sights, one a statement. An array with its count, since nothing
// is allocated here.
#[derive(Clone, Copy)]
pub struct Finding {
    pub sights: [Sight; 255],
    pub count: usize,
    ghost room: { length sights ≡ 255 },
    ghost few: { count ≤ 255 },
}
