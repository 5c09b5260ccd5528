//! Shortest abstract runs: what a trail is, when it is a shortest one, and the laws of a breadth-first search
//! for one.
#![tactic(auto)]

mod laws;
mod trail;

pub use laws::{
    first_levels_hold, last_levels_reach_no_goal, next_levels_hold, trails_of_goals_are_shortest,
};
pub use trail::{Goal, Link, Links, Origin, Trail};
