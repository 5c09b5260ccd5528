//! Sets of rules, each found by a list of predicates, so that what depends on the same predicates shares one;
//! and those that may be unmet where values of predicates changed.
#![tactic(auto)]

mod found;
mod preds;
mod turned;
mod unmet;

pub use found::{Found, Kept, found_for, keep, none_found};
pub use preds::{mentioned, updated};
pub use unmet::with_changed;
