//! The search for a shortest abstract run: breadth first from the openings of initial structures to a goal.
#![tactic(auto)]

mod cause;
mod follow;
mod goal;
mod laws;
mod level;
mod listed;
mod quest;
mod raised;
mod search;
mod trail;

pub use laws::trails_lead_to_lines;
pub use listed::trail_to_listed;
pub use raised::{Raised, trail_to_message};
pub use trail::shortest_trail;
