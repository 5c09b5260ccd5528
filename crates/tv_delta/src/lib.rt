//! Finite differencing: updates of defined predicates that are formed, and not written by hand.
#![tactic(auto)]

mod action;
mod answer;
mod atoms;
mod flags;
mod kinds;
mod laws;
mod lists;
mod lowest;
mod memo;
mod opening;
mod parts;
mod program;
mod uses;
mod vocab;

pub use answer::difference;
pub use kinds::Difference;
pub use laws::depth_is_enough;
pub use program::differenced;
