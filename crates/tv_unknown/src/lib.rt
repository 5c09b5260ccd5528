//! At how many tuples predicates are unknown, and at how many more in another structure.
#![tactic(auto)]

mod count;
mod rise;

pub use count::unknown_count;
pub use rise::{Rise, Rises, rises};
