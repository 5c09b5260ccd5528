//! Deltas of atoms: those that are known, those of core predicates, and how definitions are opened.

ghost use Rattle.std.specs.Prelude.{ℕ, ◌≡◌, Option, Some, None, map, true, option_and_then};
ghost use Rattle.tv_model.specs.Form.{form_of, vars_of, FAtom};
ghost use Rattle.tv_model.specs.Program.{program_of, change_of, update_of, kind_of};
ghost use Rattle.tv_model.specs.Step.{update_for};
ghost use Rattle.tv_delta_laws.specs.Deltas.{Delta as DeltaForm, is_flagged, unchanged, delta_by_update};
ghost use Rattle.tv_delta_laws.specs.Deltas.{delta_by_change, delta_of_set, delta_of_defined};
ghost use Rattle.tv_delta_form.specs.Views.{GivesFormed, delta_form};
ghost use Rattle.tv_delta.specs.Opening.{reserved_for, atom_at, AreKnownAt, EndsWithin, Starts, StartsByKind};

use crate::flags::{is_flagged, pred_at};
use crate::memo::{Entry, Memo, delta_in, entry_of, remember};
use crate::opening::{Opening, kept};
use std::alloc::Global;
use tv_delta_form::{
    Delta, Stop, again, atom, delta_of_defined, delta_of_set, share, small_put, unchanged,
};
use tv_model::{Change, Formula, Kind, PredId, Terms, Update};

/// What is told of an atom at once: its delta, or the formula that defines it.
#[derive(Debug, Drop)]
pub enum Start {
    Done(Result<Delta, Stop>),
    Inside(Formula),
}

/// The delta of an atom that is set to what `f` says.
#[tactic(auto, using(tv_delta_form::proofs::Steps::memory_fails))]
fn set_delta(alloc: Global, q: PredId, args: Terms, f: &Formula) -> Result<Delta, Stop>
    ensures { GivesFormed delta_form result (delta_of_set (FAtom q.0 (vars_of args)) (form_of f.now)) }
{
    let to = share(alloc, f)?;
    Ok(delta_of_set(alloc, atom(alloc, q, args)?, &to)?)
}

/// The delta of an atom of a core predicate that this update changes.
#[tactic(auto, using(tv_delta_form::proofs::Steps::stop_steps))]
fn delta_by_change(
    alloc: Global,
    o: &Opening<'_>,
    w: &Update,
    q: PredId,
    args: Terms,
) -> Result<Delta, Stop>
    ensures { GivesFormed delta_form result
        (delta_by_change (reserved_for o.now) (FAtom q.0 (vars_of args)) (vars_of w.now.vars) (vars_of args)
        (change_of w.now.change)) }
{
    match &w.change {
        Change::Free => Err(Stop::Unformed),
        Change::To(f) => {
            let x = small_put(alloc, &kept(o), f, &w.vars, &args)?;
            set_delta(alloc, q, args, &x)
        }
    }
}

/// The delta of an atom of a core predicate, by the first of these updates that is its own.
fn delta_by_update(
    alloc: Global,
    o: &Opening<'_>,
    updates: &[Update],
    q: PredId,
    args: Terms,
) -> Result<Delta, Stop>
    ensures { GivesFormed delta_form result
        (delta_by_update (reserved_for o.now) (FAtom q.0 (vars_of args)) (vars_of args)
        (update_for q.0 (map update_of updates.now))) }
{
    match updates {
        [] => Err(Stop::Unformed),
        [w, rest @ ..] => {
            if w.pred.0 == q.0 {
                delta_by_change(alloc, o, w, q, args)
            } else {
                delta_by_update(alloc, o, rest, q, args)
            }
        }
    }
}

/// What is told of an atom by the kind of its predicate.
#[tactic(auto, using(tv_delta_form::proofs::Steps::stop_steps))]
fn start_by_kind(alloc: Global, o: &Opening<'_>, kind: &Kind, q: PredId, args: Terms) -> Start
    ensures { StartsByKind o.now q.0 (vars_of args) (kind_of kind.now) result }
{
    match kind {
        Kind::Core => {
            let updates = o.action.updates.as_slice();
            Start::Done(delta_by_update(alloc, o, updates, q, args))
        }
        Kind::Defined { vars, body } => match small_put(alloc, &kept(o), body, vars, &args) {
            Ok(x) => Start::Inside(x),
            Err(stop) => Start::Done(Err(stop)),
        },
    }
}

/// What is told of an atom of an affected predicate.
#[tactic(auto, using(crate::proofs::AtomSteps::starts_nowhere))]
fn opened(alloc: Global, o: &Opening<'_>, q: PredId, args: Terms) -> Start
    ensures { (depth : ℕ) → is_flagged o.now.affected.now q.0 ≡ true
        → EndsWithin (program_of o.now.program.now) depth (FAtom q.0 (vars_of args))
        → Starts o.now depth q.0 (vars_of args) result }
{
    match pred_at(o.program, q) {
        None => Start::Done(Err(Stop::Unformed)),
        Some(pred) => start_by_kind(alloc, o, &pred.kind, q, args),
    }
}

#[tactic(auto, using(tv_delta_form::proofs::Steps::memory_fails))]
fn unaffected(alloc: Global, q: PredId, args: Terms) -> Result<Delta, Stop>
    ensures { GivesFormed delta_form result (unchanged (FAtom q.0 (vars_of args))) }
{
    let x = atom(alloc, q, args)?;
    Ok(unchanged(alloc, x)?)
}

/// What is told of an atom.
#[inline(never)]
#[tactic(auto, using(crate::proofs::AtomSteps::unflagged_is, crate::proofs::AtomSteps::known_gives))]
pub fn atom_start(alloc: Global, o: &Opening<'_>, memo: &Memo, q: PredId, args: Terms) -> Start
    requires known { AreKnownAt o.now memo.now.entries.items }
    ensures { (depth : ℕ) → EndsWithin (program_of o.now.program.now) depth (FAtom q.0 (vars_of args))
        → Starts o.now depth q.0 (vars_of args) result }
{
    if !is_flagged(o.affected, q) {
        return Start::Done(unaffected(alloc, q, args));
    }
    match entry_of(memo, o.own, q, args) {
        Some(e) => Start::Done(delta_in(e)),
        None => opened(alloc, o, q, args),
    }
}

/// The delta of an atom over that of its definition.
#[tactic(auto, using(tv_delta_form::proofs::Steps::memory_fails))]
fn over_definition(alloc: Global, q: PredId, args: Terms, d: Delta) -> Result<Delta, Stop>
    ensures { GivesFormed delta_form result (delta_of_defined (FAtom q.0 (vars_of args)) (delta_form d)) }
{
    let x = atom(alloc, q, args)?;
    Ok(delta_of_defined(x, d))
}

/// The entry of an atom whose definition has this delta.
fn entry(o: &Opening<'_>, q: PredId, args: Terms, delta: Option<Delta>) -> Entry
    ensures { result ≡ record { own = o.now.own; pred = q; args = args; delta = delta } }
{
    Entry {
        own: o.own,
        pred: q,
        args,
        delta,
    }
}

/// Puts the delta of an atom behind what is known, and gives it back.
#[tactic(auto, using(tv_delta_form::proofs::Steps::memory_fails))]
fn kept_delta(
    o: &Opening<'_>,
    memo: &mut Memo,
    q: PredId,
    args: Terms,
    d: Delta,
) -> Result<Delta, Stop>
    ensures delta { GivesFormed delta_form result (Some (delta_form d)) }
    ensures known { AreKnownAt o.now memo.old.entries.items
        → atom_at o.now q.0 (vars_of args) ≡ Some (delta_form d)
        → AreKnownAt o.now memo.new.entries.items }
{
    let kept = again(&d)?;
    remember(memo, entry(o, q, args, Some(kept)))?;
    Ok(d)
}

/// Notes that the atom has no delta.
#[tactic(auto, using(tv_delta_form::proofs::Steps::memory_fails))]
fn no_delta(o: &Opening<'_>, memo: &mut Memo, q: PredId, args: Terms) -> Result<Delta, Stop>
    ensures delta { GivesFormed delta_form result None }
    ensures known { AreKnownAt o.now memo.old.entries.items → atom_at o.now q.0 (vars_of args) ≡ None
        → AreKnownAt o.now memo.new.entries.items }
{
    remember(memo, entry(o, q, args, None))?;
    Err(Stop::Unformed)
}

/// The delta of an atom over what was formed of its definition, put behind what is known.
#[inline(never)]
pub fn atom_end(
    alloc: Global,
    o: &Opening<'_>,
    memo: &mut Memo,
    q: PredId,
    args: Terms,
    d: Result<Delta, Stop>,
) -> Result<Delta, Stop>
    ensures delta { (p : Option DeltaForm) → GivesFormed delta_form d p
        → GivesFormed delta_form result (option_and_then (delta_of_defined (FAtom q.0 (vars_of args))) p) }
    ensures known { (p : Option DeltaForm) → AreKnownAt o.now memo.old.entries.items
        → GivesFormed delta_form d p
        → atom_at o.now q.0 (vars_of args) ≡ option_and_then (delta_of_defined (FAtom q.0 (vars_of args))) p
        → AreKnownAt o.now memo.new.entries.items }
{
    match d {
        Err(Stop::Memory) => Err(Stop::Memory),
        Err(Stop::Unformed) => no_delta(o, memo, q, args),
        Ok(d) => match over_definition(alloc, q, args, d) {
            Err(stop) => Err(stop),
            Ok(delta) => kept_delta(o, memo, q, args, delta),
        },
    }
}
