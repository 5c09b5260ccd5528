//! Whether an action takes one plain heap to another, through a given middle heap.

ghost use Rattle.std.specs.Prelude.{ℕ, ◌≡◌, ◌↔◌, ◌∷◌, [], ◌++◌, IsTrue, IfOk, IfSome, Some, All, Contains};
ghost use Rattle.std.specs.Prelude.{map, option_copied, option_map, true};
ghost use Rattle.tv_model.specs.Program.{KCore, EachPred, kind_of, picks_of, pre_of, pred_of, program_of};
ghost use Rattle.tv_model.specs.Program.{retain_of, update_of};
ghost use Rattle.tv_model.specs.Rules.{IsHeap};
ghost use Rattle.tv_model.specs.Step.{IsMiddle, update_for};
ghost use Rattle.tv_model.specs.Truth.{Truth};
ghost use Rattle.tv_concrete.specs.Lists.{assignment_of, heap_of};
ghost use Rattle.tv_concrete.specs.Steps.{AllowsIn, CoreFollows, FollowsIn, KeepsIn, StepsBy};

use crate::{
    Acting, HeapList, Step, Tuple, Values, holds, is_concrete, is_heap, put_tuple, same, tuples,
};
use std::alloc::{AllocError, Global};
use tv_model::{Change, Formula, Items, Kind, Pred, Program, Retain, Update, Var};

/// Whether the action takes the old heap to the new one through the middle one, by the picked
/// individuals.
pub fn steps_through(
    alloc: Global,
    acting: &Acting<'_>,
    step: &Step<'_>,
) -> Result<bool, AllocError>
    ensures { IfOk result (λ b. IsTrue b ↔ StepsBy acting.now step.now) }
{
    let action = acting.action;
    if !picks_individuals(step.old, &step.picked, action.picks.as_slice()) {
        return Ok(false);
    }
    if !meets_precondition(step.old, step.picked, &action.pre) {
        return Ok(false);
    }
    if !is_middle(action.fresh, step.old, step.middle) {
        return Ok(false);
    }
    if !has_only_kept(step, &action.retain) {
        return Ok(false);
    }
    if !has_all_kept(step, &action.retain) {
        return Ok(false);
    }
    let preds = acting.program.vocab.preds.as_slice();
    if !updates_all(alloc, preds, action.updates.as_slice(), step)? {
        return Ok(false);
    }
    if !are_heaps(acting.program, step.old, step.new) {
        return Ok(false);
    }
    is_concrete(alloc, acting.program, step.new)
}

fn are_heaps(program: &Program, old: &HeapList, new: &HeapList) -> bool
    ensures { IsTrue result ↔ (IsHeap (program_of program.now) (heap_of old.now)
        × IsHeap (program_of program.now) (heap_of new.now)) }
{
    is_heap(program, old) && is_heap(program, new)
}

fn picks_individuals(old: &HeapList, picked: &Values, picks: &[Var]) -> bool
    ensures { IsTrue result ↔ All (λ v. Contains (heap_of old.now).individuals (assignment_of picked.now v))
        (picks_of picks.now) }
{
    for v in picks {
        if !old.has(picked.at(*v)) {
            return false;
        }
    }
    true
}

fn meets_precondition(old: &HeapList, picked: Values, pre: &Option<Formula>) -> bool
    ensures { IsTrue result ↔ IfSome (pre_of pre.now) (Truth (heap_of old.now) (assignment_of picked)) }
{
    match pre {
        None => true,
        Some(f) => holds(old, picked, f),
    }
}

/// Whether the middle heap is the old one, or the old one with a new individual that is marked.
fn is_middle(fresh: bool, old: &HeapList, middle: &HeapList) -> bool
    ensures { IsTrue result ↔ IsMiddle fresh (heap_of old.now) (heap_of middle.now) }
{
    if fresh {
        return is_with_new(old, middle);
    }
    is_same(old, middle)
}

fn is_same(old: &HeapList, middle: &HeapList) -> bool
    ensures { IsTrue result ↔ (heap_of middle.now ≡ heap_of old.now) }
{
    if !same(middle.individuals.as_slice(), old.individuals.as_slice()) {
        return false;
    }
    if !same_extents(&middle.extents, &old.extents) {
        return false;
    }
    middle.fresh == old.fresh
}

fn is_with_new(old: &HeapList, middle: &HeapList) -> bool
    ensures { IsTrue result ↔ IsMiddle true (heap_of old.now) (heap_of middle.now) }
{
    match middle.fresh {
        None => false,
        Some(u) => is_with(old, middle, u),
    }
}

/// Whether the middle heap, in which `u` is marked, is the old one with `u`.
fn is_with(old: &HeapList, middle: &HeapList, u: u32) -> bool
    requires { middle.now.fresh ≡ Some u }
    ensures { IsTrue result ↔ IsMiddle true (heap_of old.now) (heap_of middle.now) }
{
    if old.has(u) {
        return false;
    }
    if !same_extents(&middle.extents, &old.extents) {
        return false;
    }
    is_pushed(old.individuals.as_slice(), u, middle.individuals.as_slice())
}

/// Whether `longer` is `shorter` with `u` behind it.
fn is_pushed(shorter: &[u32], u: u32, longer: &[u32]) -> bool
    ensures { IsTrue result ↔ (longer.now ≡ shorter.now ++ u ∷ []) }
{
    if longer.len() == 0 {
        return false;
    }
    let last = longer.len() - 1;
    longer[last] == u && same(&longer[..last], shorter)
}

fn same_extents(xs: &Items<Items<Tuple>>, ys: &Items<Items<Tuple>>) -> bool
    ensures { IsTrue result ↔ (xs.now ≡ ys.now) }
{
    xs == ys
}

/// Whether each individual of the new heap is one of the middle heap that is kept.
fn has_only_kept(step: &Step<'_>, retain: &Option<Retain>) -> bool
    ensures { IsTrue result ↔ All (λ u. Contains (heap_of step.now.middle.now).individuals u
        × KeepsIn step.now (retain_of retain.now) u) (heap_of step.now.new.now).individuals }
{
    for u in step.new.individuals.as_slice() {
        if !is_kept(step, retain, *u) {
            return false;
        }
    }
    true
}

fn is_kept(step: &Step<'_>, retain: &Option<Retain>, u: u32) -> bool
    ensures { IsTrue result ↔ (Contains (heap_of step.now.middle.now).individuals u
        × KeepsIn step.now (retain_of retain.now) u) }
{
    step.middle.has(u) && keeps(step, retain, u)
}

/// Whether each individual of the middle heap that is kept is one of the new heap.
fn has_all_kept(step: &Step<'_>, retain: &Option<Retain>) -> bool
    ensures { IsTrue result ↔ All (λ u. KeepsIn step.now (retain_of retain.now) u
        → Contains (heap_of step.now.new.now).individuals u) (heap_of step.now.middle.now).individuals }
{
    for u in step.middle.individuals.as_slice() {
        if !is_there_if_kept(step, retain, *u) {
            return false;
        }
    }
    true
}

fn is_there_if_kept(step: &Step<'_>, retain: &Option<Retain>, u: u32) -> bool
    ensures { IsTrue result ↔ (KeepsIn step.now (retain_of retain.now) u
        → Contains (heap_of step.now.new.now).individuals u) }
{
    !keeps(step, retain, u) || step.new.has(u)
}

/// Whether the retain formula is true of the individual.
fn keeps(step: &Step<'_>, retain: &Option<Retain>, u: u32) -> bool
    ensures { IsTrue result ↔ KeepsIn step.now (retain_of retain.now) u }
{
    match retain {
        None => true,
        Some(retain) => holds(step.middle, step.picked.with(retain.var, u), &retain.keep),
    }
}

/// Whether each core predicate follows its update, or else stays as it was.
fn updates_all(
    alloc: Global,
    preds: &[Pred],
    updates: &[Update],
    step: &Step<'_>,
) -> Result<bool, AllocError>
    ensures { IfOk result (λ b. IsTrue b
        ↔ EachPred (map pred_of preds.now) (CoreFollows step.now (map update_of updates.now))) }
{
    for (q, pred) in preds.iter().enumerate() {
        if !updates_one(alloc, q, pred, updates, step)? {
            return Ok(false);
        }
    }
    Ok(true)
}

fn updates_one(
    alloc: Global,
    q: usize,
    pred: &Pred,
    updates: &[Update],
    step: &Step<'_>,
) -> Result<bool, AllocError>
    ensures { IfOk result
        (λ b. IsTrue b ↔ CoreFollows step.now (map update_of updates.now) q (pred_of pred.now)) }
{
    if !is_core(&pred.kind) {
        return Ok(true);
    }
    let all = tuples(alloc, step.new.individuals.as_slice(), pred.arity)?;
    Ok(follows_update_at_all(q, updates, step, all.as_slice()))
}

/// Whether the predicate has no definition.
pub(crate) fn is_core(kind: &Kind) -> bool
    ensures { IsTrue result ↔ (kind_of kind.now ≡ KCore) }
{
    match kind {
        Kind::Core => true,
        Kind::Defined { .. } => false,
    }
}

fn follows_update_at_all(q: usize, updates: &[Update], step: &Step<'_>, all: &[Tuple]) -> bool
    ensures { IsTrue result ↔ All (FollowsIn step.now q (map update_of updates.now)) all.now }
{
    for tuple in all {
        if !follows_update(q, updates, step, tuple) {
            return false;
        }
    }
    true
}

/// Whether the predicate holds of the tuple in the new heap as its update says, or else as before.
fn follows_update(q: usize, updates: &[Update], step: &Step<'_>, tuple: &Tuple) -> bool
    ensures { IsTrue result ↔ FollowsIn step.now q (map update_of updates.now) tuple.now }
{
    match find_update(q, updates) {
        None => {
            step.new.holds_of(q, tuple.as_slice()) == step.middle.holds_of(q, tuple.as_slice())
        }
        Some(update) => allows_change(q, update, step, tuple),
    }
}

/// The first update of the predicate.
pub fn find_update(q: usize, updates: &[Update]) -> Option<&Update>
    ensures { option_map update_of (option_copied result) ≡ update_for q (map update_of updates.now) }
{
    for update in updates {
        if update.pred.0 as usize == q {
            return Some(update);
        }
    }
    None
}

/// Whether the predicate holds of the tuple in the new heap as the update says.
pub fn allows_change(q: usize, update: &Update, step: &Step<'_>, tuple: &Tuple) -> bool
    ensures { IsTrue result ↔ AllowsIn step.now q (update_of update.now) tuple.now }
{
    match &update.change {
        Change::Free => true,
        Change::To(f) => {
            let tuple = tuple.as_slice();
            let values = put_tuple(step.picked, &update.vars, tuple);
            step.new.holds_of(q, tuple) == holds(step.middle, values, f)
        }
    }
}
