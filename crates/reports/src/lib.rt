// The report on a text that is refused: what is wrong in plain words, the line where it stands, and a caret under the
// column. It knows nothing of how a text is read or where it comes from.
#![tactic(auto)]

pub mod numbered;
pub mod refused;
pub mod shown;
pub mod words;
