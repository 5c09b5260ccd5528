//! Structures, completed: the defined predicates that aren't named get the values of their definitions.
#![tactic(auto)]

mod kept;
mod laws;
mod structures;

pub use laws::completions_are_one;
pub use structures::complete;
