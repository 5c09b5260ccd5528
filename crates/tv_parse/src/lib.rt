//! Programs, read from their tokens.
#![tactic(auto)]

mod actions;
mod decls;
mod height;
mod kinds;
mod laws;
mod program;
mod sets;
mod updates;

pub use laws::{
    formulas_begin, one_action, one_declaration, one_edge, one_set, one_tree, one_update,
    programs_are_read, programs_are_spelled,
};
pub use program::parse_program;
