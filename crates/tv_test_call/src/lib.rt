//! Whole calls over files and sinks in memory, and texts that several tests of them have.
#![tactic(auto)]

mod call;
mod row;
mod texts;

pub use call::{CALM, Ending, Found, Outside, called, files_of};
pub use row::{PLAIN, Row, wrong_part};
pub use texts::{FLIP, FLIP_INITIAL, FLIP_REPORT, LIST, LIST_PREDICATES, USAGE};
