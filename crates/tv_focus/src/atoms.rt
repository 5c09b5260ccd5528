//! The focus atoms of a formula.

ghost use Rattle.std.specs.Prelude.{◌≡◌, ◌++◌, min, length, map, IfOk, OnOk};
ghost use Rattle.tv_model.specs.Form.{form_of};
ghost use Rattle.tv_focus_laws.specs.FocusAtoms.{focus_atoms};
ghost use Rattle.tv_focus.specs.Seen.{atom_of};

use std::alloc::{AllocError, Global};
use std::marker::Model;
use tv_model::{Formula, PredId, Terms};

/// How many focus atoms the formula has: its atoms, without those under a closure. A number past the largest
/// `usize` counts as that. Takes no memory.
pub fn atom_count(f: &Formula) -> usize
    ensures { result ≡ min (length (focus_atoms (form_of f.now))) usize.MAX }
{
    match f {
        Formula::Zero | Formula::One | Formula::IsNew(_) | Formula::Same(_, _) => 0,
        Formula::Closure { .. } => 0,
        Formula::Atom(_, _) => 1,
        Formula::Not(g) | Formula::Exists(_, g) | Formula::Forall(_, g) => atom_count(g),
        Formula::And(g, h) | Formula::Or(g, h) | Formula::Iff(g, h) => {
            atom_count(g).saturating_add(atom_count(h))
        }
        Formula::Cond(c, g, h) => {
            atom_count(c).saturating_add(atom_count(g).saturating_add(atom_count(h)))
        }
    }
}

/// A predicate and its variables.
#[derive(Clone, Copy, Debug)]
pub struct FocusAtom {
    pub pred: PredId,
    pub terms: Terms,
}

/// Puts the focus atoms of the formula behind the given ones, in reading order.
pub fn gather(f: &Formula, atoms: &mut Vec<FocusAtom>) -> Result<(), AllocError>
    ensures { OnOk result
        (map atom_of atoms.new.items ≡ map atom_of atoms.old.items ++ focus_atoms (form_of f.now)) }
{
    match f {
        Formula::Zero | Formula::One | Formula::IsNew(_) | Formula::Same(_, _) => {}
        Formula::Closure { .. } => {}
        Formula::Atom(p, terms) => atoms.push(FocusAtom {
            pred: *p,
            terms: *terms,
        })?,
        Formula::Not(g) | Formula::Exists(_, g) | Formula::Forall(_, g) => gather(g, atoms)?,
        Formula::And(g, h) | Formula::Or(g, h) | Formula::Iff(g, h) => {
            gather(g, atoms)?;
            gather(h, atoms)?;
        }
        Formula::Cond(c, g, h) => {
            gather(c, atoms)?;
            gather(g, atoms)?;
            gather(h, atoms)?;
        }
    }
    Ok(())
}

/// A formula with its focus atoms, which are listed once for many stages. A contract sees the formula.
#[derive(Debug, Drop)]
pub struct FocusAtoms<'a> {
    formula: &'a Formula,
    atoms: Vec<FocusAtom>,
}

impl<'a> Model for FocusAtoms<'a> {
    ghost use Rattle.std.specs.Prelude.{◌≡◌, map};
    ghost use Rattle.std.specs.Coded.{codes};
    ghost use Rattle.tv_model.specs.contracts.formula.Formula as boxed;
    ghost use Rattle.tv_model.specs.declared.formula.Formula.{Formula};
    ghost use Rattle.tv_model.specs.Form.{form_of};
    ghost use Rattle.tv_focus_laws.specs.FocusAtoms.{focus_atoms};
    ghost use Rattle.tv_focus.specs.Seen.{atom_of};

    ghost Value = { Formula };

    ghost coded = { Prim.hlevel (codes, boxed.the_row.coded) };

    ghost view = { λ a. a.formula.now };

    ghost invariant = { λ a. map atom_of a.atoms.items ≡ focus_atoms (form_of a.formula.now) };
}

impl<'a> FocusAtoms<'a> {
    /// The formula with its atoms. The only error is lack of memory.
    pub fn new(alloc: Global, formula: &'a Formula) -> Result<FocusAtoms<'a>, AllocError>
        ensures { IfOk result (λ atoms. atoms ≡ formula.now) }
    {
        let mut atoms = Vec::new(alloc);
        gather(formula, &mut atoms)?;
        Ok(FocusAtoms { formula, atoms })
    }

    /// How many there are.
    pub fn count(&self) -> usize
        ensures { result ≡ length (focus_atoms (form_of self.now)) }
    {
        self.atoms.len()
    }

    /// The atoms in reading order.
    pub(crate) fn as_slice(&self) -> &[FocusAtom]
        ensures { map atom_of result.now ≡ focus_atoms (form_of self.now) }
    {
        self.atoms.as_slice()
    }
}
