//! Traces: the edges that a run takes, the individuals that it picks, and the values that it gives freely.
#![tactic(auto)]

mod laws;
mod read;
mod syntax;
mod trace;

pub use laws::{one_meaning, one_reading};
pub use read::read_trace;
pub use trace::{Move, Moves, Trace};
