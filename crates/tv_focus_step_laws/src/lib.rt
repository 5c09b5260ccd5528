//! Choices of focus refuted before they are made, as mathematics (compare Sagiv, Reps and Wilhelm 2002,
//! sections 6.3 and 6.4): a structure into which whatever is stable below a choice embeds, made sharper by
//! the vectors that the choice gives and by coerce. The definitions stand in `specs/`; the functions do
//! nothing, and their contracts are the laws.
#![tactic(auto)]

mod laws;

pub use laws::{
    ordinaries_refute, sharpened_lead, singles_lead, splits_lead, structures_lead, vectors_lead,
    vectors_refute, whole_coerce_alike,
};
