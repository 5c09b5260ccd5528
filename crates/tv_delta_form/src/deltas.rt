//! Deltas of connectives and quantifiers over the deltas of their parts.

ghost use Rattle.std.specs.Prelude.{◌≡◌, ◌&&◌, Some, IfOk};
ghost use Rattle.tv_model.specs.Form.{form_of, FNot, FAnd, FOr, FExists, FForall};
ghost use Rattle.tv_delta_laws.specs.Simple.{is_small, simple_not, simple_and, simple_or, simple_exists};
ghost use Rattle.tv_delta_laws.specs.Simple.{simple_forall, simple_cond};
ghost use Rattle.tv_delta_laws.specs.Deltas.{delta_by, after, if_small, unchanged, negated, both, either};
ghost use Rattle.tv_delta_laws.specs.Deltas.{some, every, delta_of_set, delta_of_defined};
ghost use Rattle.tv_delta_form.specs.Views.{GivesFormed, form_at, delta_form, small_form};

use crate::made::{and, exists, forall, not, or, zero};
use crate::shared::Shared;
use crate::simple::{simple_and, simple_cond, simple_exists, simple_forall, simple_not, simple_or};
use crate::stop::Stop;
use std::alloc::{AllocError, Global};
use tv_model::{Formula, Var};

/// A formula before a step, where the step makes it true, and where it makes it false. The formula
/// after the step follows from these.
#[derive(Debug, Drop)]
pub struct Delta {
    pub before: Shared,
    pub up: Shared,
    pub down: Shared,
}

/// The formula `f & g | x & y`, simplified.
fn or_of_ands(
    alloc: Global,
    f: &Shared,
    g: &Shared,
    x: &Shared,
    y: &Shared,
) -> Result<Shared, AllocError>
    ensures { IfOk result (λ z. form_at z
        ≡ simple_or (simple_and (form_at f.now) (form_at g.now))
        (simple_and (form_at x.now) (form_at y.now))) }
{
    let a = simple_and(alloc, f, g)?;
    let b = simple_and(alloc, x, y)?;
    simple_or(alloc, &a, &b)
}

/// That some individual makes `f` true and none `g`, simplified.
fn some_and_none(alloc: Global, v: Var, f: &Shared, g: &Shared) -> Result<Shared, AllocError>
    ensures { IfOk result (λ x. form_at x
        ≡ simple_and (simple_exists v.0 (form_at f.now)) (simple_not (simple_exists v.0 (form_at g.now)))) }
{
    let a = simple_exists(alloc, v, f)?;
    let b = simple_exists(alloc, v, g)?;
    let c = simple_not(alloc, &b)?;
    simple_and(alloc, &a, &c)
}

/// That some individual makes `f` true and all make `g`, simplified.
fn some_and_all(alloc: Global, v: Var, f: &Shared, g: &Shared) -> Result<Shared, AllocError>
    ensures { IfOk result (λ x. form_at x
        ≡ simple_and (simple_exists v.0 (form_at f.now)) (simple_forall v.0 (form_at g.now))) }
{
    let a = simple_exists(alloc, v, f)?;
    let b = simple_forall(alloc, v, g)?;
    simple_and(alloc, &a, &b)
}

/// The formula after the step.
fn after(alloc: Global, d: &Delta) -> Result<Shared, AllocError>
    ensures { IfOk result (λ f. form_at f ≡ after (delta_form d.now)) }
{
    let stays = simple_not(alloc, &d.down)?;
    simple_cond(alloc, &d.before, &stays, &d.up)
}

fn are_small(f: &Shared, g: &Shared) -> bool
    ensures { result ≡ (is_small (form_at f.now) && is_small (form_at g.now)) }
{
    f.is_small() && g.is_small()
}

/// The delta, if what it says of the step is small.
fn if_small(d: Delta) -> Result<Delta, Stop>
    ensures { GivesFormed delta_form result (if_small (delta_form d)) }
{
    if are_small(&d.up, &d.down) {
        Ok(d)
    } else {
        Err(Stop::Unformed)
    }
}

/// A formula that the step leaves as it is.
#[tactic(auto, using(crate::proofs::Steps::memory_fails))]
pub fn unchanged(alloc: Global, f: Shared) -> Result<Delta, Stop>
    ensures { GivesFormed delta_form result (unchanged (form_at f)) }
{
    let up = zero(alloc)?;
    let down = zero(alloc)?;
    Ok(Delta {
        before: f,
        up,
        down,
    })
}

/// The negation.
#[tactic(auto, using(crate::proofs::Steps::memory_fails))]
pub fn negated(alloc: Global, d: &Delta) -> Result<Delta, Stop>
    ensures { GivesFormed delta_form result (negated (Some (delta_form d.now))) }
{
    let before = not(alloc, &d.before)?;
    let up = d.down.again()?;
    let down = d.up.again()?;
    Ok(Delta { before, up, down })
}

/// Two formulas after the step.
#[derive(Debug, Drop)]
struct Afters {
    left: Shared,
    right: Shared,
}

#[tactic(auto, using(crate::proofs::Steps::memory_fails, crate::proofs::Steps::delta_is))]
fn both_over(alloc: Global, f: &Delta, g: &Delta, then: &Afters) -> Result<Delta, Stop>
    ensures { GivesFormed delta_form result
        (if_small (delta_by (FAnd (form_at f.now.before) (form_at g.now.before))
        (simple_or (simple_and (form_at f.now.up) (form_at then.now.right))
        (simple_and (form_at then.now.left) (form_at g.now.up)))
        (simple_or (simple_and (form_at f.now.down) (form_at g.now.before))
        (simple_and (form_at f.now.before) (form_at g.now.down))))) }
{
    let before = and(alloc, &f.before, &g.before)?;
    let up = or_of_ands(alloc, &f.up, &then.right, &then.left, &g.up)?;
    let down = or_of_ands(alloc, &f.down, &g.before, &f.before, &g.down)?;
    if_small(Delta { before, up, down })
}

/// The conjunction.
#[tactic(auto, using(crate::proofs::Steps::memory_fails, crate::proofs::Steps::untested_two, crate::proofs::Steps::both_tested))]
pub fn both(alloc: Global, f: &Delta, g: &Delta) -> Result<Delta, Stop>
    ensures { GivesFormed delta_form result (both (Some (delta_form f.now)) (Some (delta_form g.now))) }
{
    let left = after(alloc, f)?;
    let right = after(alloc, g)?;
    if !are_small(&left, &right) {
        return Err(Stop::Unformed);
    }
    both_over(alloc, f, g, &Afters { left, right })
}

fn or_up(alloc: Global, f: &Delta, g: &Delta) -> Result<Shared, AllocError>
    ensures { IfOk result (λ x. form_at x
        ≡ simple_or (simple_and (form_at f.now.up) (simple_not (form_at g.now.before)))
        (simple_and (simple_not (form_at f.now.before)) (form_at g.now.up))) }
{
    let not_f = simple_not(alloc, &f.before)?;
    let not_g = simple_not(alloc, &g.before)?;
    or_of_ands(alloc, &f.up, &not_g, &not_f, &g.up)
}

fn or_down(alloc: Global, f: &Delta, g: &Delta, then: &Afters) -> Result<Shared, AllocError>
    ensures { IfOk result (λ x. form_at x
        ≡ simple_or (simple_and (form_at f.now.down) (simple_not (form_at then.now.right)))
        (simple_and (simple_not (form_at then.now.left)) (form_at g.now.down))) }
{
    let not_f = simple_not(alloc, &then.left)?;
    let not_g = simple_not(alloc, &then.right)?;
    or_of_ands(alloc, &f.down, &not_g, &not_f, &g.down)
}

#[tactic(auto, using(crate::proofs::Steps::memory_fails, crate::proofs::Steps::delta_is))]
fn either_over(alloc: Global, f: &Delta, g: &Delta, then: &Afters) -> Result<Delta, Stop>
    ensures { GivesFormed delta_form result
        (if_small (delta_by (FOr (form_at f.now.before) (form_at g.now.before))
        (simple_or (simple_and (form_at f.now.up) (simple_not (form_at g.now.before)))
        (simple_and (simple_not (form_at f.now.before)) (form_at g.now.up)))
        (simple_or (simple_and (form_at f.now.down) (simple_not (form_at then.now.right)))
        (simple_and (simple_not (form_at then.now.left)) (form_at g.now.down))))) }
{
    let before = or(alloc, &f.before, &g.before)?;
    let up = or_up(alloc, f, g)?;
    let down = or_down(alloc, f, g, then)?;
    if_small(Delta { before, up, down })
}

/// The disjunction.
#[tactic(auto, using(crate::proofs::Steps::memory_fails, crate::proofs::Steps::untested_two, crate::proofs::Steps::either_tested))]
pub fn either(alloc: Global, f: &Delta, g: &Delta) -> Result<Delta, Stop>
    ensures { GivesFormed delta_form result (either (Some (delta_form f.now)) (Some (delta_form g.now))) }
{
    let left = after(alloc, f)?;
    let right = after(alloc, g)?;
    if !are_small(&left, &right) {
        return Err(Stop::Unformed);
    }
    either_over(alloc, f, g, &Afters { left, right })
}

#[tactic(auto, using(crate::proofs::Steps::memory_fails, crate::proofs::Steps::delta_is))]
fn some_over(alloc: Global, v: Var, f: &Delta, then: &Shared) -> Result<Delta, Stop>
    ensures { GivesFormed delta_form result (if_small (delta_by (FExists v.0 (form_at f.now.before))
        (simple_and (simple_exists v.0 (form_at f.now.up))
        (simple_not (simple_exists v.0 (form_at f.now.before))))
        (simple_and (simple_exists v.0 (form_at f.now.down))
        (simple_not (simple_exists v.0 (form_at then.now)))))) }
{
    let before = exists(alloc, v, &f.before)?;
    let up = some_and_none(alloc, v, &f.up, &f.before)?;
    let down = some_and_none(alloc, v, &f.down, then)?;
    if_small(Delta { before, up, down })
}

/// That some individual makes it true.
#[tactic(auto, using(crate::proofs::Steps::memory_fails, crate::proofs::Steps::untested, crate::proofs::Steps::some_tested))]
pub fn some(alloc: Global, v: Var, f: &Delta) -> Result<Delta, Stop>
    ensures { GivesFormed delta_form result (some v.0 (Some (delta_form f.now))) }
{
    let then = after(alloc, f)?;
    if !then.is_small() {
        return Err(Stop::Unformed);
    }
    some_over(alloc, v, f, &then)
}

#[tactic(auto, using(crate::proofs::Steps::memory_fails, crate::proofs::Steps::delta_is))]
fn every_over(alloc: Global, v: Var, f: &Delta, then: &Shared) -> Result<Delta, Stop>
    ensures { GivesFormed delta_form result (if_small (delta_by (FForall v.0 (form_at f.now.before))
        (simple_and (simple_exists v.0 (form_at f.now.up)) (simple_forall v.0 (form_at then.now)))
        (simple_and (simple_exists v.0 (form_at f.now.down)) (simple_forall v.0 (form_at f.now.before))))) }
{
    let before = forall(alloc, v, &f.before)?;
    let up = some_and_all(alloc, v, &f.up, then)?;
    let down = some_and_all(alloc, v, &f.down, &f.before)?;
    if_small(Delta { before, up, down })
}

/// That every individual makes it true.
#[tactic(auto, using(crate::proofs::Steps::memory_fails, crate::proofs::Steps::untested, crate::proofs::Steps::every_tested))]
pub fn every(alloc: Global, v: Var, f: &Delta) -> Result<Delta, Stop>
    ensures { GivesFormed delta_form result (every v.0 (Some (delta_form f.now))) }
{
    let then = after(alloc, f)?;
    if !then.is_small() {
        return Err(Stop::Unformed);
    }
    every_over(alloc, v, f, &then)
}

/// The delta once more.
pub fn again(d: &Delta) -> Result<Delta, AllocError>
    ensures { IfOk result (λ x. delta_form x ≡ delta_form d.now) }
{
    let before = d.before.again()?;
    let up = d.up.again()?;
    let down = d.down.again()?;
    Ok(Delta { before, up, down })
}

/// That `g` is true where `f` is, as `!f | g`.
#[tactic(auto, using(crate::proofs::DeltaSteps::stops))]
fn implied(alloc: Global, f: &Delta, g: &Delta) -> Result<Delta, Stop>
    ensures { GivesFormed delta_form result
        (either (negated (Some (delta_form f.now))) (Some (delta_form g.now))) }
{
    let not_f = negated(alloc, f)?;
    Ok(either(alloc, &not_f, g)?)
}

/// The equivalence, as `(!f | g) & (!g | f)`.
#[tactic(auto, using(crate::proofs::DeltaSteps::stops))]
pub fn alike(alloc: Global, f: &Delta, g: &Delta) -> Result<Delta, Stop>
    ensures { GivesFormed delta_form result
        (both (either (negated (Some (delta_form f.now))) (Some (delta_form g.now)))
        (either (negated (Some (delta_form g.now))) (Some (delta_form f.now)))) }
{
    let there = implied(alloc, f, g)?;
    let back = implied(alloc, g, f)?;
    Ok(both(alloc, &there, &back)?)
}

/// That `c` is false and `g` true.
#[tactic(auto, using(crate::proofs::DeltaSteps::stops))]
fn but_not(alloc: Global, c: &Delta, g: &Delta) -> Result<Delta, Stop>
    ensures { GivesFormed delta_form result
        (both (negated (Some (delta_form c.now))) (Some (delta_form g.now))) }
{
    let not_c = negated(alloc, c)?;
    Ok(both(alloc, &not_c, g)?)
}

/// The conditional, as `c & f | !c & g`.
#[tactic(auto, using(crate::proofs::DeltaSteps::stops))]
pub fn choice(alloc: Global, c: &Delta, f: &Delta, g: &Delta) -> Result<Delta, Stop>
    ensures { GivesFormed delta_form result (either (both (Some (delta_form c.now)) (Some (delta_form f.now)))
        (both (negated (Some (delta_form c.now))) (Some (delta_form g.now)))) }
{
    let first = both(alloc, c, f)?;
    let second = but_not(alloc, c, g)?;
    Ok(either(alloc, &first, &second)?)
}

/// An atom whose predicate is set to what `f` says of it.
#[tactic(auto, using(crate::proofs::Steps::memory_fails, crate::proofs::Steps::delta_is))]
pub fn delta_of_set(alloc: Global, atom: Shared, f: &Shared) -> Result<Delta, Stop>
    ensures { GivesFormed delta_form result (delta_of_set (form_at atom) (form_at f.now)) }
{
    let not_atom = simple_not(alloc, &atom)?;
    let not_f = simple_not(alloc, f)?;
    let up = simple_and(alloc, f, &not_atom)?;
    let down = simple_and(alloc, &atom, &not_f)?;
    if_small(Delta {
        before: atom,
        up,
        down,
    })
}

/// An atom whose definition has the delta `d`.
pub fn delta_of_defined(atom: Shared, d: Delta) -> Delta
    ensures { Some (delta_form result) ≡ delta_of_defined (form_at atom) (delta_form d) }
{
    let Delta { up, down, .. } = d;
    Delta {
        before: atom,
        up,
        down,
    }
}

/// The update of the stored predicate, the atom, by the delta of its definition, if it is small: what is
/// stored stays true where the step doesn't make it false, and becomes true where the step makes it so.
#[tactic(auto, using(crate::proofs::Steps::memory_fails, crate::proofs::Steps::small_gives))]
pub fn stored_update(alloc: Global, atom: &Shared, d: &Delta) -> Result<Formula, Stop>
    ensures { GivesFormed form_of result
        (small_form (simple_cond (form_at atom.now) (simple_not (delta_form d.now).down)
        (delta_form d.now).up)) }
{
    let stays = simple_not(alloc, &d.down)?;
    let f = simple_cond(alloc, atom, &stays, &d.up)?;
    if !f.is_small() {
        return Err(Stop::Unformed);
    }
    Ok(f.formula(alloc)?)
}
