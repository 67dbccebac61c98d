// The host half of the desk: the host that is there, and what the host calls of the protocol make of it. It knows nothing
// of lines and projects.
#![tactic(auto)]

mod questions;
mod seats;
pub mod slots;
