// The reader at its boundaries: texts, and what is told of each. It knows nothing of how a text is read.
#![tactic(auto)]

#[cfg(test)]
mod tests;
