//! Texts of a small pointer language, compiled to programs of predicates and actions.
#![tactic(auto)]

mod actions;
mod arcs;
mod error;
mod formulas;
mod laws;
mod nodes;
mod predicates;
mod statements;
mod text;
mod whole;

pub use error::SourceError;
pub use laws::{one_meaning, one_refusal};
pub use text::compile;
