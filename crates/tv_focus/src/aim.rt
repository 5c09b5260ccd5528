//! What focus does with an atom.

ghost use Rattle.std.specs.Prelude.{◌≡◌, All, map, IfOk};
ghost use Rattle.tv_model.specs.Form.{vars_of};
ghost use Rattle.tv_structure_form.specs.StructureForm.{arities_of, structure_of};
ghost use Rattle.tv_focus_laws.specs.Choices.{split_of, split_by};
ghost use Rattle.tv_focus_laws.specs.FocusAtoms.{anchors_in};
ghost use Rattle.tv_focus.specs.Anchored.{IsAtomOver};
ghost use Rattle.tv_focus.specs.Seen.{anchors_form, atom_of, split_form};

use crate::anchors::{Anchors, anchors_in};
use crate::atoms::FocusAtom;
use std::alloc::{AllocError, Global};
use tv_model::{Terms, Var};
use tv_struct::Structure;

/// At which tuples of an individual a predicate is made definite: at the individual alone, or at it and each
/// of the anchors, before them or behind them.
#[derive(Debug, Drop)]
pub enum Aim {
    Alone,
    Before(Vec<u32>),
    Behind(Vec<u32>),
}

/// What focus does with an atom: nothing, make a nullary predicate definite, or split individuals.
#[derive(Drop)]
pub enum Split {
    Nothing,
    Whole,
    Each(Aim),
}

/// What focus does with an atom of these variables, in a formula of these atoms. Anchors are looked for only
/// where the atom has two variables.
pub fn split_of(
    alloc: Global,
    s: &Structure,
    atoms: &[FocusAtom],
    terms: Terms,
) -> Result<Split, AllocError>
    requires { All (λ atom. IsAtomOver (arities_of s.now) (atom_of atom)) atoms.now }
    ensures { IfOk result (λ split. split_form split
        ≡ split_of (anchors_in (structure_of s.now) (map atom_of atoms.now)) (vars_of terms)) }
{
    match terms {
        Terms::Zero => Ok(Split::Whole),
        Terms::One(_) => Ok(Split::Each(Aim::Alone)),
        Terms::Two(v, w) => {
            if v.0 == w.0 {
                Ok(Split::Nothing)
            } else {
                let given = anchors_in(alloc, s, atoms)?;
                split_by(alloc, given.as_slice(), v, w)
            }
        }
    }
}

/// By the variable that was given anchors first.
fn split_by(alloc: Global, given: &[Anchors], v: Var, w: Var) -> Result<Split, AllocError>
    ensures { IfOk result (λ split. split_form split ≡ split_by (map anchors_form given.now) v.0 w.0) }
{
    match given {
        [] => Ok(Split::Nothing),
        [one, rest @ ..] => {
            if one.var.0 == v.0 {
                Ok(Split::Each(Aim::Behind(Vec::from_slice(alloc, one.individuals.as_slice())?)))
            } else if one.var.0 == w.0 {
                Ok(Split::Each(Aim::Before(Vec::from_slice(alloc, one.individuals.as_slice())?)))
            } else {
                split_by(alloc, rest, v, w)
            }
        }
    }
}
