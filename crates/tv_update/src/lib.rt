//! What an action does to a three-valued structure: it adds an individual, updates predicates,
//! drops individuals, and evaluates the definitions that are changed.
#![tactic(auto)]

mod application;
mod define;
mod definitions;
mod draft;
mod kept;
mod new;
mod order;
mod plan;
mod prepare;
mod rows;
mod stage;
mod updates;

pub use definitions::{order_of, redefine};
pub use draft::moves;
pub use plan::{Order, Plan, plan_for};
pub use stage::{update, update_by_plan, update_middle};
