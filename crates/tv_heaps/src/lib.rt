//! All heaps of few cells that belong to a structure, up to copies: its summaries are made several
//! individuals, and its unknown values definite, one at a time, with coerce in between.
#![tactic(auto)]

mod error;
mod heaps;
mod judged;
mod listed;
mod rulebook;

pub use error::HeapsError;
pub use heaps::heaps_in;
pub use judged::lies_in;
pub use rulebook::Rulebook;
