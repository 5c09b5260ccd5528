//! Finite differencing of the definitions of instrumentation predicates: definitions and laws, no code.
//!
//! For a defined predicate and an action, `specs/` says whether the predicate stays as it is, is updated
//! by a formula over the heap before the step, or has to be evaluated anew.
#![tactic(auto)]

mod laws;

pub use laws::{
    differenced_is_valid, kept_predicates_stay, putting_in_keeps_truth, runs_are_differenced,
    simplifying_keeps_truth, updates_tell_the_truth,
};
