//! The anchors of variables: ordinary individuals for which a variable surely may stand.

ghost use Rattle.std.specs.Prelude.{◌≡◌, ◌<◌, ◌≤◌, ◌+◌, ◌++◌, Some, [], ◌∷◌, length, map, slice_get};
ghost use Rattle.std.specs.Prelude.{slice_index_or, IfOk, OnOk, MatchOption, true, false, All, if◌then◌else◌};
ghost use Rattle.std.specs.List.{range_with_len, list_any};
ghost use Rattle.tv_kleene.specs.declared.K3.TheVariants.{No};
ghost use Rattle.tv_kleene.specs.Kleene.{is_yes};
ghost use Rattle.tv_model.specs.Form.{vars_of};
ghost use Rattle.tv_structure_form.specs.StructureForm.{arities_of, structure_of, value_at};
ghost use Rattle.tv_struct.specs.TupleForm.{tuple_of};
ghost use Rattle.tv_focus_laws.specs.FocusAtoms.{ordinary, is_anchored, anchors_of, by_unary};
ghost use Rattle.tv_focus_laws.specs.FocusAtoms.{by_binary, anchors_in};
ghost use Rattle.tv_focus.specs.Anchored.{pair_of, IsAtomOver, IsReached, AreWithin, given_by_unary};
ghost use Rattle.tv_focus.specs.Seen.{atom_of, anchors_form};

use crate::atoms::FocusAtom;
use std::alloc::{AllocError, Global};
use tv_kleene::K3;
use tv_model::{PredId, Terms, Var};
use tv_row::Row;
use tv_struct::{Structure, Tuple};

/// A variable and the individuals that it was given, maybe none.
#[derive(Debug, Drop)]
pub struct Anchors {
    pub var: Var,
    pub individuals: Vec<u32>,
}

/// The place of an anchor in a pair.
#[derive(Clone, Copy, Debug)]
pub enum Place {
    First,
    Second,
}

/// The pair of an anchor in that place and an individual in the other.
pub fn pair(place: Place, anchor: u32, individual: u32) -> Tuple
    ensures { tuple_of result ≡ pair_of place anchor individual }
{
    match place {
        Place::First => Tuple::Two(anchor, individual),
        Place::Second => Tuple::Two(individual, anchor),
    }
}

/// The values of the predicate at the pairs of an anchor and each individual.
pub fn line(s: &Structure, p: PredId, place: Place, anchor: u32) -> Row
    requires arity { slice_get (arities_of s.now) p.0 ≡ Some 2 }
    requires anchor { anchor < s.now.size }
    ensures { result ≡ map (λ u. value_at s.now p.0 (pair_of place anchor u)) (range_with_len 0 s.now.size) }
{
    match place {
        Place::First => s.row(p, anchor),
        Place::Second => s.column(p, anchor),
    }
}

/// A row that is `Yes` where the predicate is on the individual together with one of the anchors.
fn reached(s: &Structure, p: PredId, place: Place, anchors: &[u32]) -> Row
    requires arity { slice_get (arities_of s.now) p.0 ≡ Some 2 }
    requires anchors { All (λ a. a < s.now.size) anchors.now }
    ensures { IsReached s.now p.0 place anchors.now result }
{
    match anchors {
        [] => Row::of(s.size(), K3::No),
        [a, rest @ ..] => line(s, p, place, *a).or(&reached(s, p, place, rest)),
    }
}

/// The ordinary individuals on which the row is `Yes`, in order.
fn ordinary_in(alloc: Global, s: &Structure, row: &Row) -> Result<Vec<u32>, AllocError>
    requires { length row.now ≡ s.now.size }
    ensures { IfOk result
        (λ found. found.items ≡ ordinary (structure_of s.now) (λ u. is_yes (slice_index_or row.now u No))) }
{
    let _ = row.size();
    let mut found = Vec::new(alloc);
    let mut from = 0;
    while let Some(u) = row.next_yes(from) {
        push_if(&mut found, u, !s.summary(u))?;
        from = u + 1;
    }
    Ok(found)
}

/// The ordinary individuals on which the predicate is `Yes`, in order.
fn unary_anchors(alloc: Global, s: &Structure, p: PredId) -> Result<Vec<u32>, AllocError>
    requires arity { slice_get (arities_of s.now) p.0 ≡ Some 1 }
    ensures { IfOk result (λ anchors. anchors.items
        ≡ ordinary (structure_of s.now) (λ u. is_yes (value_at s.now p.0 (u ∷ [])))) }
{
    ordinary_in(alloc, s, &s.unary_row(p))
}

/// The ordinary individuals on which the predicate is `Yes` together with one of the anchors, in order.
fn binary_anchors(
    alloc: Global,
    s: &Structure,
    p: PredId,
    place: Place,
    anchors: &[u32],
) -> Result<Vec<u32>, AllocError>
    requires arity { slice_get (arities_of s.now) p.0 ≡ Some 2 }
    requires anchors { All (λ a. a < s.now.size) anchors.now }
    ensures { IfOk result (λ found. found.items ≡ ordinary (structure_of s.now)
        (λ u. list_any (λ a. is_yes (value_at s.now p.0 (pair_of place a u))) anchors.now)) }
{
    ordinary_in(alloc, s, &reached(s, p, place, anchors))
}

fn push_if(anchors: &mut Vec<u32>, u: u32, is_kept: bool) -> Result<(), AllocError>
    ensures { OnOk result (anchors.new.items ≡ anchors.old.items ++ (if is_kept then u ∷ [] else [])) }
{
    if is_kept {
        anchors.push(u)?;
    }
    Ok(())
}

/// What the variable was given: nothing yet, or these individuals.
fn anchors_for(given: &[Anchors], v: Var) -> Option<&Anchors>
    ensures none { MatchOption result
        (is_anchored (map anchors_form given.now) v.0 ≡ false)
        (λ one. (is_anchored (map anchors_form given.now) v.0 ≡ true)
        × (one.now.individuals.items ≡ anchors_of (map anchors_form given.now) v.0)) }
{
    match given {
        [] => None,
        [one, rest @ ..] => {
            if one.var.0 == v.0 {
                Some(one)
            } else {
                anchors_for(rest, v)
            }
        }
    }
}

/// Gives the variable of a unary atom its anchors, unless it has been given some before.
fn by_unary(
    alloc: Global,
    s: &Structure,
    atom: FocusAtom,
    given: &mut Vec<Anchors>,
) -> Result<(), AllocError>
    requires arity { IsAtomOver (arities_of s.now) (atom_of atom) }
    ensures { OnOk result (map anchors_form given.new.items
        ≡ by_unary (structure_of s.now) (map anchors_form given.old.items) atom.pred.0 (vars_of atom.terms)) }
{
    match atom.terms {
        Terms::Zero | Terms::Two(_, _) => Ok(()),
        Terms::One(v) => match anchors_for(given.as_slice(), v) {
            Some(_) => Ok(()),
            None => {
                let individuals = unary_anchors(alloc, s, atom.pred)?;
                Ok(given.push(Anchors {
                    var: v,
                    individuals,
                })?)
            }
        },
    }
}

/// Gives one variable of a binary atom its anchors, where the other alone has been given some before.
fn by_binary(
    alloc: Global,
    s: &Structure,
    atom: FocusAtom,
    given: &mut Vec<Anchors>,
) -> Result<(), AllocError>
    requires arity { IsAtomOver (arities_of s.now) (atom_of atom) }
    requires within { AreWithin s.now.size (map anchors_form given.old.items) }
    ensures { OnOk result (map anchors_form given.new.items
        ≡ by_binary (structure_of s.now) (map anchors_form given.old.items) atom.pred.0
        (vars_of atom.terms)) }
{
    match atom.terms {
        Terms::Zero | Terms::One(_) => Ok(()),
        Terms::Two(v, w) => match (
            anchors_for(given.as_slice(), v),
            anchors_for(given.as_slice(), w),
        ) {
            (Some(one), None) => {
                let individuals = binary_anchors(
                    alloc,
                    s,
                    atom.pred,
                    Place::First,
                    &one.individuals,
                )?;
                Ok(given.push(Anchors {
                    var: w,
                    individuals,
                })?)
            }
            (None, Some(one)) => {
                let individuals = binary_anchors(
                    alloc,
                    s,
                    atom.pred,
                    Place::Second,
                    &one.individuals,
                )?;
                Ok(given.push(Anchors {
                    var: v,
                    individuals,
                })?)
            }
            (Some(_), Some(_)) | (None, None) => Ok(()),
        },
    }
}

/// The anchors that unary atoms give, in the order in which they are given.
fn unary_given(
    alloc: Global,
    s: &Structure,
    atoms: &[FocusAtom],
) -> Result<Vec<Anchors>, AllocError>
    requires arity { All (λ atom. IsAtomOver (arities_of s.now) (atom_of atom)) atoms.now }
    ensures { IfOk result (λ given. map anchors_form given.items
        ≡ given_by_unary (structure_of s.now) (map atom_of atoms.now)) }
{
    let mut given = Vec::new(alloc);
    for atom in atoms {
        by_unary(alloc, s, *atom, &mut given)?;
    }
    Ok(given)
}

/// The variables of the atoms with their anchors, in the order in which they are given: those of unary atoms
/// first.
pub fn anchors_in(
    alloc: Global,
    s: &Structure,
    atoms: &[FocusAtom],
) -> Result<Vec<Anchors>, AllocError>
    requires arity { All (λ atom. IsAtomOver (arities_of s.now) (atom_of atom)) atoms.now }
    ensures { IfOk result
        (λ given. map anchors_form given.items ≡ anchors_in (structure_of s.now) (map atom_of atoms.now)) }
{
    let mut given = unary_given(alloc, s, atoms)?;
    for atom in atoms {
        by_binary(alloc, s, *atom, &mut given)?;
    }
    Ok(given)
}
