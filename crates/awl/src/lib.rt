// What a statement list is made of: block names, marks, places, operations and statements, and the numbers of the
// refusals. It knows nothing of text lines, projects or machines.
#![tactic(auto)]

pub mod bytes;
pub mod marks;
pub mod names;
pub mod places;
pub mod refusals;
pub mod statements;
