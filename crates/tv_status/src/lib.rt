//! How a call of the whole program ends: its status, its exit code, and the text that tells it.
#![tactic(auto)]

mod names;
mod status;
mod tell;

pub use status::{FileKind, Role, Status, Teller};
pub use tell::{write_line, write_status, write_told};
