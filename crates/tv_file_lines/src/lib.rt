//! Lines of files: where the bytes of a gathered text came from.
#![tactic(auto)]

mod count;
mod lines;
mod numbered;

pub use lines::{FileLine, FileLines, append_file_line};
pub use numbered::append_numbered;
