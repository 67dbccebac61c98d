// The project file: its cutting into blocks with their texts and data blocks, by the head lines. It knows nothing of
// where blocks are kept or how they are checked.
#![tactic(auto)]

pub mod heads;
pub mod origins;
pub mod sections;
pub mod told;
