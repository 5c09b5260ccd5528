//! Resolution: the program that a flat tree stands for, or the first reason why it stands for none.
#![tactic(auto)]

mod actions;
mod cycles;
mod draw;
mod graph;
mod laws;
mod parts;
mod resolution;
mod rules;
mod updates;
mod vocabulary;
mod walk;

pub use laws::{
    acyclic_definitions_have_ranks, cycles_are_found, flat_forms_are_resolvable,
    items_have_32_variables,
};
pub use resolution::resolve;
pub use tv_names::ResolveError;
