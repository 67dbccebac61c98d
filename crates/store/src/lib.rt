// The tables of a project: blocks of statements by name, and data blocks by number.
// It knows nothing of checks, machines, hosts or scans.
#![tactic(auto)]

pub mod refusals;
pub mod slots;
pub mod store;
mod tables;
