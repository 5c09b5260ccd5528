//! Splits of structures and what they keep, as mathematical values. The definitions stand in `specs/`; the
//! functions do nothing, and their contracts are the laws. They say which rules need not be tried again
//! after a change.
#![tactic(auto)]

mod laws;

pub use laws::{
    splits_are_stable, splits_have_limits, splits_keep_values, splits_of_summaries_are_stable,
    untouched_rules_stay_stable,
};
