//! The text of what is recorded of an abstract step: its stages, each in a line.
#![tactic(auto)]

mod laws;
mod stages;
mod words;

pub use laws::slow_steps_are_over;
pub use stages::StageWriter;
