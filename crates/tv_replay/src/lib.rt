//! A given run, replayed: each step of one heap along given edges, and what is judged of each state.
#![tactic(auto)]

mod run;
mod states;
mod write;

pub use run::replay;
pub use write::{write_states, write_stuck};
