//! Traces to their texts.
#![tactic(auto)]

mod laws;
mod write;

pub use laws::traces_are_read_again;
pub use write::{append_picks, append_step, write_trace};
