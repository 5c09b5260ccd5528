//! The text of losses.
#![tactic(auto)]

mod claims;
mod lines;
mod report;

pub use report::{LossReport, explain_losses};
