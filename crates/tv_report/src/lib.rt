//! Reports of an analysis, as they are written and read.
#![tactic(auto)]

mod laws;
mod lines;
mod matching;
mod names;
mod nodes;
mod program;
mod read;
mod syntax;
mod write;

pub use laws::{one_meaning, one_reading, reports_are_read_again};
pub use matching::read_written;
pub use read::read_report;
pub use write::write_report;
