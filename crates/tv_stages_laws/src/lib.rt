//! One abstract step, stage by stage: what is recorded of it, and the laws that tie this to the step; no
//! code.
#![tactic(auto)]

mod laws;
mod record;

pub use laws::{slow_steps_are_steps, stages_end_in_results};
pub use record::{
    Choice, Choices, End, Fate, FocusRow, FocusRows, FocusedAt, FocusedEach, Given, GivenEach,
    Picked, PickedUpdate, PickedUpdates, SlowStep, UpdatedAt, UpdatedEach,
};
