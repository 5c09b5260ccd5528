//! Lists of structures, one for each node of a program, and what an analysis lists and reports.
#![tactic(auto)]

mod analysis;
mod hashed;
mod listing;
mod node;

pub use analysis::{Analysis, Item, MapLine, MapLines, MessageLine, MessageLines, Rejection};
pub use listing::Listing;
