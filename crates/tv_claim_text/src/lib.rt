//! The words by which the declarations of a program are told.
#![tactic(auto)]

mod names;

pub use names::ClaimNames;
