//! Abstract steps: what an action makes of a structure along an edge, and openings (Sagiv, Reps and Wilhelm
//! 2002, section 6). What they are is defined in `tv_step_laws`.
#![tactic(auto)]

mod changed;
mod coerced;
mod engine;
mod focus;
mod job;
mod messages;
mod opened;
mod order;
mod picks;
mod setting;
mod step;
mod stepper;
mod waiting;

pub use messages::Values;
pub use opened::opening;
pub use step::{StepOut, abstract_step};
pub use stepper::Stepper;
