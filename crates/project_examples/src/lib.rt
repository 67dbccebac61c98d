// A project's tables and its check at their limits, through their calls. It knows nothing of how blocks are kept or walked.
#![tactic(auto)]

#[cfg(test)]
mod limits;
#[cfg(test)]
mod samples;
#[cfg(test)]
mod tables;
