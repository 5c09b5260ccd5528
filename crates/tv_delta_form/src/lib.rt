//! Formulas that finite differencing forms: simplified, under limits, with arguments put in.
#![tactic(auto)]

mod deltas;
mod heads;
mod made;
mod putting;
mod shape;
mod shared;
mod simple;
mod size;
mod stop;

pub use deltas::{
    Delta, again, alike, both, choice, delta_of_defined, delta_of_set, either, every, negated,
    some, stored_update, unchanged,
};
pub use heads::head_of;
pub use made::{atom, share};
pub use putting::{Kept, own_variables, small_put};
pub use shape::Shape;
pub use shared::Shared;
pub use stop::Stop;
