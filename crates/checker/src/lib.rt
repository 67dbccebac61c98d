// Whether a project can ever get stuck, judged without running it: the walk over all of its blocks, and the first of the
// faults K1 to K9 on it. It knows nothing of machines or hosts.
#![tactic(auto)]

mod chains;
pub mod check;
mod counts;
mod joins;
mod surveys;
pub mod verdicts;
