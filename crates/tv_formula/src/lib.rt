//! Formulas, read off the front of tokens.
#![tactic(auto)]

mod binder;
mod build;
mod laws;
mod leaves;
mod link;
mod parser;
mod words;

pub use laws::{formulas_are_read, one_formula, printed_formulas, read_formulas};
pub use parser::formula;
pub use words::{behind_arrow, name_of_phrase, spelling, spellings};
