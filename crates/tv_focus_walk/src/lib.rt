//! The choices of a focus stage, walked through depth first (Sagiv, Reps and Wilhelm 2002, sections 6.3 and
//! 6.4): individual by individual, with coerce in between, so that what contradicts the rules is given up
//! with all choices that begin so. Why that loses none is said in `tv_focus_step_laws`.
#![tactic(auto)]

mod apart;
mod fits;
mod lent;
mod narrow;
mod since;
mod split;
mod walk;

pub use walk::{Walk, walk_choices};
