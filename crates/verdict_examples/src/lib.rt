// Project files, and what is said of each. It knows nothing of how a file is judged.
#![tactic(auto)]

#[cfg(test)]
mod tests;
