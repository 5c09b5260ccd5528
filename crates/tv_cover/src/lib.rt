//! The structures that are listed at a node, and the first of them that covers a structure, found by what
//! they say at a glance.
#![tactic(auto)]

mod glance;
mod noted;
mod profile;
mod targets;

pub use targets::{Targets, all_targets};
