//! Source programs of the small pointer language, read from their texts: names become numbers.
#![tactic(auto)]

mod declare;
mod error;
mod laws;
mod number;
mod read;

pub use error::SourceReadError;
pub use laws::one_meaning;
pub use read::read_source;
