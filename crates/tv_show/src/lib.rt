//! Texts for people: a structure in one line.
#![tactic(auto)]

mod laws;
mod line;

pub use laws::lines_tell_structures;
pub use line::append_line;
