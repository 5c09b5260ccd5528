//! One abstract step, recorded stage by stage. What is recorded is defined in `tv_stages_laws`.
#![tactic(auto)]

mod course;
mod fate;
mod focus;
mod kept;
mod lists;
mod stager;
mod stages;
mod task;
mod turn;
mod updates;

pub use stager::Stager;
