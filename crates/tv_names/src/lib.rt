//! The numbers of predicates and of variables, and the resolution of one formula.
#![tactic(auto)]

mod binding;
mod formula;
mod laws;
mod naming;
mod picks;
mod place;
mod refusal;
mod symbols;

pub use formula::resolve_formula;
pub use laws::{items_have_32_numbers, numbers_follow_sights, too_many_have_no_room};
pub use naming::{Naming, Slot};
pub use picks::picks_in;
pub use place::{Known, Others, Place};
pub use refusal::ResolveError;
pub use symbols::{KnownSymbol, Symbols, is_reserved};
