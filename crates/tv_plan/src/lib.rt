//! What becomes of the value of each defined predicate along each control edge, as text.
#![tactic(auto)]

mod fates;
mod laws;
mod orders;
mod plan;

pub use laws::fates_are_true;
pub use plan::plan_text;
