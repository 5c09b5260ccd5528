//! Blur, or canonical abstraction (Sagiv, Reps and Wilhelm 2002, section 4.3): individuals of a structure
//! that the abstraction predicates don't tell apart become one.
#![tactic(auto)]

mod ascending;
mod canonical;
mod class;
mod classes;
mod laws;
mod merge;
mod names;
mod values;
mod words;

pub use ascending::is_blurred;
pub use canonical::{blur, into_blurred};
pub use laws::{
    blur_is_one, blur_keeps_names, blur_keeps_stable, merging_covers, merging_keeps_stable,
};
