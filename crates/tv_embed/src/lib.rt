//! Embeddings of structures in structures: whether a given map is one, and whether there is any.
//!
//! A structure that embeds in another stands for no heap that the other doesn't stand for (Sagiv, Reps
//! and Wilhelm 2002, section 4.3).
#![tactic(auto)]

mod bounds;
mod candidates;
mod fits;
mod laws;
mod least;
mod maps;
mod search;

pub use laws::structures_embed_in_themselves;
pub use least::find;
pub use maps::check_map;
