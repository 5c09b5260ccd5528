//! Structures without summaries below which all heaps of few cells of a structure lie, and the unknown values
//! of which they are to be made two.
#![tactic(auto)]

mod gap;
mod opened;
mod parts;

pub use gap::{Gap, first_gap};
pub use opened::openings;
