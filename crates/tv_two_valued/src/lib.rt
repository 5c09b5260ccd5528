//! Heaps of at most 256 individuals as structures whose values are Yes and No alone, and truth in them.
#![tactic(auto)]

mod laws;
mod truth;
mod whether;

pub use laws::{heaps_are_told, truth_is_told};
pub use truth::holds;
pub use whether::{is_definite, is_two_valued};
