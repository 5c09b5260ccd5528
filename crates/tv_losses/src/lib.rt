//! What an analysis may owe its silence to: initial structures without an opening, nodes at which nothing is
//! listed, and edges along which rules drop all that an action gives.
#![tactic(auto)]

mod along;
mod analyzed;
mod apart;
mod case;
mod edges;
mod enabled;
mod task;
mod told;

pub use analyzed::losses;
pub use enabled::is_enabled_at_hand;
pub use told::{EdgeLoss, EdgeLosses, Losses, Places};
