// The project half of the desk: the project that is open, and what the project calls of the protocol make of it. It knows
// nothing of lines and hosts.
#![tactic(auto)]

mod calls;
pub mod slots;
mod telling;
