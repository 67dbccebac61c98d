// The calls of the desk protocol, and which of them a line asks for. It knows nothing of projects, hosts and answers.
#![tactic(auto)]

pub mod calls;
mod hex;
mod host_lines;
mod names;
mod new_host_lines;
mod project_lines;
pub mod reading;
mod words;
