//! Which texts are gathered as they stand, and what the text of a compiled program means as a file; no code.
#![tactic(auto)]

mod laws;

pub use laws::{compiled_texts_are_programs, whole_texts_are_gathered};
