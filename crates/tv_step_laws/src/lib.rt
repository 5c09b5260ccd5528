//! Abstract steps, as mathematics (Sagiv, Reps and Wilhelm 2002, section 6): what a step makes of a
//! structure, what its budgets are, and closed listings. The definitions stand in `specs/`; the
//! functions do nothing, and their contracts are the laws.
#![tactic(auto)]

mod laws;

pub use laws::{
    closed_listings_cover_runs, openings_lose_no_heap, steps_are_exact, steps_lose_no_heap,
};
