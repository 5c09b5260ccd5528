//! Kleene's values of formulas with transitive closure in three-valued structures of any size, as
//! mathematical values, and the laws about them, above all the embedding theorem. The definitions
//! stand in `specs/`; the functions do nothing, and their contracts are the laws.
//!
//! Source: Sagiv, Reps and Wilhelm, "Parametric shape analysis via 3-valued logic" (2002), sections
//! 4.2 and 4.3.
#![tactic(auto)]

mod laws;

pub use laws::{
    closures_are_greatest, definite_values_are_sound, definite_values_come_down, embedding_theorem,
    heaps_tell_truth, list_values_are_these, only_free_variables_matter, values_are_kept,
    values_are_local, values_are_monotone, values_meet_thresholds,
};
