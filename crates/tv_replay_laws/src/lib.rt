//! A given run, step by step: what a step of one heap is, what is judged of each state, and the run that this
//! shows; no code.
#![tactic(auto)]

mod laws;
mod state;

pub use laws::{judged_rules_are_the_programs, replays_show_runs, runs_have_one_ending};
pub use state::{ListedCover, ReplayError, State, StateList, States, Why};
