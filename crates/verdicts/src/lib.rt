// The verdict on a project file as a person reads it: that it passes, or where it does not and why. It knows nothing of
// where the file comes from.
#![tactic(auto)]

pub mod found;
pub mod loading;
pub mod pages;
pub mod rejected;
