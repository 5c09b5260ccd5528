//! Three-valued logical structures, and the table that keeps their values.
#![tactic(auto)]

mod analysis;
mod compared;
mod drawn;
mod flags;
mod layout;
mod nowhere;
mod origins;
mod planes;
mod structure;
mod table;

pub use analysis::{Numbers, StageError};
pub use nowhere::is_nowhere;
pub use structure::{Structure, Structures};
pub use table::{Table, Tuple};
