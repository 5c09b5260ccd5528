//! Three-valued structures as tables of any size: what they say, how writes, splits and draws read, and their
//! laws; no code.
#![tactic(auto)]

mod laws;

pub use laws::{
    drawn_structures_read, entries_are_separate, entries_determine_structures, halves_are_counted,
    lists_embed, lowering_goes_below, new_structures_are_no, origins_are_told,
};
