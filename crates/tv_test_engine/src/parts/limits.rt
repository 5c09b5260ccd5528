//! The limits of focus, and marks.

ghost use Rattle.std.specs.Prelude.{◌≡◌, ◌<◌, ◌≤◌, [], ◌∷◌, map, IfOk, None};
ghost use Rattle.tv_model.specs.Form.{form_of};
ghost use Rattle.tv_model.specs.Valid.{IsFormulaOver};
ghost use Rattle.tv_structure_form.specs.StructureForm.{arities_of};

use super::shown::core;
use std::alloc::{AllocError, Global};
use std::test::Fail;
use tv_focus::{atom_count, focus_stage, formulas_have_atoms_over};
use tv_kleene::K3;
use tv_model::{Formula, Items, PredId, Terms, Var, Vocab};
use tv_struct::{StageError, Structure, Structures, Tuple};

/// The predicates `a(v)`, `b(v)`, `c(v)` and `x(v)`.
fn four(alloc: Global) -> Result<Vocab, AllocError>
    ensures { IfOk result (λ v. map (λ pred. pred.arity) v.preds ≡ 1 ∷ 1 ∷ 1 ∷ 1 ∷ []) }
{
    let mut preds = Items::new(alloc);
    preds.push(core(alloc, 1, true))?;
    preds.push(core(alloc, 1, true))?;
    preds.push(core(alloc, 1, true))?;
    preds.push(core(alloc, 1, true))?;
    Ok(Vocab { preds })
}

fn sure(holds: bool) -> K3 {
    if holds { K3::Yes } else { K3::No }
}

/// Gives the individual the last three bits of its number at `a`, `b` and `c`, and makes `x` unknown.
fn make_unknown(s: &mut Structure, u: u32, is_summary: bool)
    requires over { arities_of s.old ≡ 1 ∷ 1 ∷ 1 ∷ 1 ∷ [] }
    requires individual { u < s.old.size }
    requires fresh { s.old.fresh ≡ None }
    ensures over { arities_of s.new ≡ 1 ∷ 1 ∷ 1 ∷ 1 ∷ [] }
    ensures size { s.new.size ≡ s.old.size }
    ensures fresh { s.new.fresh ≡ None }
{
    s.set(PredId(0), Tuple::One(u), sure(u / 4 % 2 == 1));
    s.set(PredId(1), Tuple::One(u), sure(u / 2 % 2 == 1));
    s.set(PredId(2), Tuple::One(u), sure(u % 2 == 1));
    s.set(PredId(3), Tuple::One(u), K3::Half);
    s.set_summary(u, is_summary);
}

/// So many individuals, of which the first ones have `x` unknown and are summaries or aren't.
#[derive(Clone, Copy, Debug)]
struct Unknown {
    size: u32,
    first: u32,
    are_summaries: bool,
}

fn structure(alloc: Global, unknown: Unknown) -> Result<Structure, AllocError>
    requires { unknown.size ≤ 256 }
    ensures over { IfOk result (λ s. arities_of s ≡ 1 ∷ 1 ∷ 1 ∷ 1 ∷ []) }
    ensures size { IfOk result (λ s. s.size ≡ unknown.size) }
{
    let mut s = Structure::new(alloc, &four(alloc)?, unknown.size)?;
    for u in 0..unknown.first.min(unknown.size) {
        make_unknown(&mut s, u, unknown.are_summaries);
    }
    Ok(s)
}

/// `x(v)`.
fn unary() -> Formula
    ensures { IsFormulaOver (1 ∷ 1 ∷ 1 ∷ 1 ∷ []) (form_of result) }
{
    Formula::Atom(PredId(3), Terms::One(Var(0)))
}

/// The choices of `x(v)`.
fn focused(alloc: Global, s: &Structure) -> Result<Structures, StageError>
    requires { arities_of s.now ≡ 1 ∷ 1 ∷ 1 ∷ 1 ∷ [] }
{
    let f = unary();
    if atom_count(&f) == 0 {
        return Ok(Structures::new(alloc));
    }
    formulas_have_atoms_over();
    focus_stage(alloc, &four(alloc)?, &f, 0, s)
}

/// How many choices there are, and how many individuals the last one has.
fn outcome(alloc: Global, unknown: Unknown) -> Result<(usize, u32), StageError>
    requires { unknown.size ≤ 256 }
{
    let found = focused(alloc, &structure(alloc, unknown)?)?;
    let last = found.as_slice().last().map_or(0, |t| t.size());
    Ok((found.len(), last))
}

/// So many summaries, and at most 256.
fn summaries(first: u32, size: u32) -> Unknown
    requires { size ≤ 256 }
    ensures { result.size ≡ size }
{
    Unknown {
        size,
        first,
        are_summaries: true,
    }
}

fn ordinary(first: u32) -> Unknown
    requires { first ≤ 256 }
    ensures { result.size ≡ first }
{
    Unknown {
        size: first,
        first,
        are_summaries: false,
    }
}

#[test]
fn choices_reach_their_limits(rt: HostRuntime) -> Result<(), Fail> {
    let alloc = rt.alloc();
    let (splits, individuals) = (Err(StageError::Splits), Err(StageError::Individuals));
    assert!(rt; outcome(alloc, summaries(7, 7)) == Ok((2187, 14)));
    assert!(rt; outcome(alloc, summaries(8, 8)) == splits);
    assert!(rt; outcome(alloc, ordinary(12)) == Ok((4096, 12)));
    assert!(rt; outcome(alloc, ordinary(13)) == splits);
    assert!(rt; outcome(alloc, summaries(1, 255)) == Ok((3, 256)));
    assert!(rt; outcome(alloc, summaries(1, 256)) == individuals);
    assert!(rt; outcome(alloc, summaries(13, 256)) == splits);
    Ok(())
}

/// Whether the choices of a summary with an ordinary individual behind it, which is marked, have these marks.
fn are_marks(alloc: Global, wanted: &[Option<u32>]) -> Result<bool, StageError> {
    let s = structure(alloc, summaries(1, 1))?.with_new(alloc)?;
    let found = focused(alloc, &s)?;
    let mut same = found.len() == wanted.len();
    for (t, mark) in found.as_slice().iter().zip(wanted) {
        same &= t.fresh() == *mark;
    }
    Ok(same)
}

#[test]
fn marks_follow_their_individual(rt: HostRuntime) -> Result<(), Fail> {
    assert!(rt; are_marks(rt.alloc(), &[Some(1), Some(1), Some(2)])?);
    Ok(())
}
