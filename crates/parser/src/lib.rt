// Words to a statement. It knows nothing of lines, marks and blocks.
#![tactic(auto)]

pub mod statements;
