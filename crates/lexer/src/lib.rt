// The words of a line and what each can mean: marks, operation names, operand letters, numbers.
// It knows nothing of whole statements.
#![tactic(auto)]

pub mod faults;
pub mod letters;
pub mod names;
pub mod values;
pub mod words;
