//! Programs without sets, `foreach` and parameters: what a tree stands for.
#![tactic(auto)]

mod apart;
mod block;
mod declare;
mod error;
mod gather;
mod idle;
mod laws;
mod marks;
mod room;
mod sets;
mod whole;
mod wiring;
mod words;

pub use error::ExpandError;
pub use laws::{each_rule_has_origin, limits_are_exact};
pub use tv_flat::{Flat, FlatAction, FlatEdge};
pub use whole::{Expanded, expand, expand_marked};
