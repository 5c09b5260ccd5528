//! Focus: a structure is split, so that an atom of a formula becomes definite (Sagiv, Reps and Wilhelm 2002,
//! section 6.3). What the choices are is defined in `tv_focus_laws`.
#![tactic(auto)]

mod aim;
mod anchors;
mod atoms;
mod chosen;
mod count;
mod focused;
mod known;
mod laws;
mod put;
mod sets;
mod stage;
mod vector;

pub use aim::Aim;
pub use atoms::{FocusAtoms, atom_count};
pub use chosen::make_choice;
pub use focused::{Choosing, Focused};
pub use laws::{formulas_have_atoms_over, sharp_atoms_stay};
pub use put::put_vector;
pub use sets::{Sets, VectorSet, copied};
pub use stage::{focus_stage, into_focused, is_known};
pub use vector::Vector;
