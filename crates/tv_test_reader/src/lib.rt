//! Programs and structures as texts, for the tests of the crates below.
#![tactic(auto)]

mod lists;
mod reader;

pub use lists::{individuals, put_list, unfolded};
pub use reader::{PREDICATES, program, structure, structures, whole_program};
