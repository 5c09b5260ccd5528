//! The text of structures with the values of those defined predicates that it doesn't name.
#![tactic(auto)]

mod ends;
mod error;
mod lines;
mod named;
mod read_again;
mod text;

pub use error::CompletionError;
pub use text::completed_text;
