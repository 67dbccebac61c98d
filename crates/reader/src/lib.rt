// The text of a block, read: bytes to statements, or the first fault with its line and column.
// It knows nothing of projects, checks or machines.
#![tactic(auto)]

pub mod blocks;
pub mod faults;
pub mod heads;
pub mod listings;
mod typed_lines;
