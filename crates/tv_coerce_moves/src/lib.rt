//! Which changes may make a formula greater, and for each change the members of rules that it may make so. A
//! change gives a predicate values that meet a head, or makes a summary an ordinary individual.
#![tactic(auto)]

mod equality;
mod list;
mod occurrences;

pub use equality::{has_equality, is_equality};
pub use list::{Member, Moving, Occurrence, OccurrenceList};
pub use occurrences::Occurrences;
