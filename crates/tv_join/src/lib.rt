//! The partly disjunctive analysis: at each node at most one structure for the same individuals and the same
//! nullary values, so that programs whose exact listing is too large can still be answered.
#![tactic(auto)]

mod follow;
mod joined;
mod joins;
mod key;
mod keyed;
mod laws;
mod members;
mod pairwise;
mod places;
mod rounds;
mod telling;
mod values;

pub use joined::analyze_joined;
pub use laws::joined_analyses_are_one;
