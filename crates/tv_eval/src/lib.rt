//! The value of a formula with transitive closure in a three-valued structure.
#![tactic(auto)]

mod assignment;
mod caps;
mod evaluator;
mod kept;
mod laws;
mod leaf_words;
mod leaves;
mod scratch;
mod values;

pub use assignment::Assignment;
pub use evaluator::{Evaluator, eval};
pub use laws::{made_scratches_fit, program_formulas_are_over};
pub use leaf_words::{chunks, places, same_as};
pub use scratch::Scratch;
