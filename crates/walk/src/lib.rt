// One block by itself: the places that a scan can come to in it, whatever inputs and time do, and what stands there.
// It knows nothing of other blocks, of projects or machines.
#![tactic(auto)]

pub mod faults;
pub mod findings;
mod fits;
pub mod flows;
pub mod lesser;
mod marks;
pub mod places;
mod search;
pub mod sights;
