//! Structures that are stable under rules, as mathematical values. The definitions stand in `specs/`;
//! the functions do nothing, and their contracts are the laws.
#![tactic(auto)]

mod laws;

pub use laws::{
    images_are_stable, joins_are_stable, one_cells_are_judged, sharpening_loses_no_heap,
    sharpening_loses_no_stable, stable_heaps_meet_rules, stable_structures_stay,
};
