//! What seems to stand in a text that has the layout in which structures are written. Of what is found here
//! nothing is promised but that it fits: who takes it compares it with the text.
#![tactic(auto)]

mod structure;
mod text;

pub use structure::take_structure;
pub use text::{behind, split_line, take_number};
