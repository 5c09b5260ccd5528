//! The heads of control edges: the line of a file in which an edge stands, and the edge as it is printed.
#![tactic(auto)]

mod heads;
mod laws;
mod places;

pub use heads::{edge_heads, head_at};
pub use laws::heads_are_one;
