//! Three-valued logical structures of any size, as mathematical values, and embeddings of one in
//! another. The definitions stand in `specs/`; the functions do nothing, and their contracts are the
//! laws.
#![tactic(auto)]

mod laws;

pub use laws::{
    Pick, below_is_by_values, embeddings_add_up, embeddings_compose, embeddings_for_some_compose,
    heaps_read_as_structures,
};
