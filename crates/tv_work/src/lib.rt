//! The worklist: all that abstract steps reach from initial structures, listed by node.
#![tactic(auto)]

mod analysis;
mod error;
mod follow;
mod laws;
mod leaving;
mod outcome;
mod search;
mod task;
mod told;

pub use analysis::{analysis_of, analyze, analyze_or_stop};
pub use error::WorkError;
pub use laws::analyses_are_one;
pub use leaving::leaving_edges;
pub use outcome::Outcome;
pub use task::Task;
pub use told::Told;
