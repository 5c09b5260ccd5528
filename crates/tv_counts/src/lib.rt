//! How many structures an analysis lists at each node, also where it stops at more than were allowed.
#![tactic(auto)]

mod counts;

pub use counts::counts_text;
