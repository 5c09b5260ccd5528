//! Quantifiers, runs of them, and questions about formulas that their evaluation asks.
#![tactic(auto)]

mod chains;
mod edges;
mod height;
mod order;
mod parts;
mod quantifier;
mod relation;
mod runs;
mod variables;

pub use chains::{Link, Shape, are_linked, sign_of, split};
pub use edges::{Edges, are_same, has_outer, is_same};
pub use height::program_height;
pub use order::{are_few, begins_with, has_few, is_slower};
pub use parts::{Parts, lone};
pub use quantifier::Quantifier;
pub use relation::{Part, Relation};
pub use runs::{Level, Levels, advance, begins_long_run, opened};
pub use variables::{Variables, is_literal_without};
