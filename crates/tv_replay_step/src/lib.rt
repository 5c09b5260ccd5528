//! One step of a given run: what an action makes of a heap by chosen individuals and given values, or the
//! first reason why it can't be made.
#![tactic(auto)]

mod enabled;
mod finished;
mod free;
mod moved;
mod picks;
mod step;
mod updated;

pub use moved::{Halt, Moved};
pub use step::{Ordered, next};
