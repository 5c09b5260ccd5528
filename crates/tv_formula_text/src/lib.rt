//! Formulas, atoms and the entries of updates as text, as the grammar of programs reads them.
#![tactic(auto)]

mod entry;
mod formula;

pub use entry::{append_change, append_entry};
pub use formula::{append_atom, append_equality, append_formula, append_number, append_terms};
