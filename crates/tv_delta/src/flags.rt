//! Which predicates an action affects: those that it changes, and those whose definitions rest on such.

ghost use Rattle.std.specs.Prelude.{ℕ, Bool, List, ◌≡◌, ◌+◌, ◌≤◌, ◌<◌, ◌++◌, Some, true, false, length, map};
ghost use Rattle.std.specs.Prelude.{is_some};
ghost use Rattle.std.specs.Prelude.{slice_get, option_map, option_copied, IfSome, IfNone, IfOk, OnOk};
ghost use Rattle.tv_model.specs.Form.{form_of};
ghost use Rattle.tv_model.specs.Program.{PredForm, program_of, action_of, pred_of, kind_of, update_of};
ghost use Rattle.tv_model.specs.Program.{is_core_kind};
ghost use Rattle.tv_model.specs.Step.{update_for};
ghost use Rattle.tv_delta_laws.specs.Deltas.{is_flagged, touches};
ghost use Rattle.tv_delta_laws.specs.Differences.{AreAffected};
ghost use Rattle.tv_delta.specs.Flags.{changed_from, tells, AreMarked, AreMentionLists, IsMarking};

use crate::uses::Uses;
use std::alloc::{AllocError, Global};
use tv_model::{Action, Formula, Kind, Pred, PredId, Program, Update};

/// Whether the predicate's flag is set.
pub fn is_flagged(flags: &[bool], q: PredId) -> bool
    ensures { result ≡ is_flagged flags.now q.0 }
{
    flags.get(q.0 as usize).copied().unwrap_or(false)
}

/// Whether an atom of the formula has a predicate whose flag is set.
pub fn touches(flags: &[bool], f: &Formula) -> bool
    ensures { result ≡ touches flags.now (form_of f.now) }
{
    match f {
        Formula::Zero | Formula::One | Formula::IsNew(_) | Formula::Same(_, _) => false,
        Formula::Atom(q, _) => is_flagged(flags, *q),
        Formula::Not(g) | Formula::Exists(_, g) | Formula::Forall(_, g) => touches(flags, g),
        Formula::And(g, h) | Formula::Or(g, h) | Formula::Iff(g, h) => {
            touches(flags, g) || touches(flags, h)
        }
        Formula::Cond(c, g, h) => { touches(flags, c) || touches(flags, g) || touches(flags, h) }
        Formula::Closure { body, .. } => touches(flags, body),
    }
}

/// How many predicates the program has.
pub fn pred_count(program: &Program) -> usize
    ensures { result ≡ length (program_of program.now).preds }
{
    program.vocab.preds.len()
}

/// The predicate of this number.
#[tactic(auto, using(crate::proofs::AtomSteps::place_steps))]
pub fn pred_at(program: &Program, q: PredId) -> Option<&Pred>
    ensures { option_map pred_of (option_copied result) ≡ slice_get (program_of program.now).preds q.0 }
{
    program.vocab.preds.as_slice().get(q.0 as usize)
}

/// Whether the predicate is free of a definition.
pub fn is_core(pred: &Pred) -> bool
    ensures { result ≡ is_core_kind (pred_of pred.now).kind }
{
    match &pred.kind {
        Kind::Core => true,
        Kind::Defined { .. } => false,
    }
}

/// Whether one of the updates is of this predicate.
fn has_update(updates: &[Update], q: u32) -> bool
    ensures { result ≡ is_some (update_for q (map update_of updates.now)) }
{
    match updates {
        [] => false,
        [w, rest @ ..] => w.pred.0 == q || has_update(rest, q),
    }
}

/// Puts behind the flags those of these predicates, numbered from `q` on: whether the updates change it.
fn push_changed(
    preds: &[Pred],
    q: u32,
    updates: &[Update],
    flags: &mut Vec<bool>,
) -> Result<(), AllocError>
    requires { q + length preds.now ≤ 512 }
    ensures { OnOk result (flags.new.items
        ≡ flags.old.items ++ changed_from q (map pred_of preds.now) (map update_of updates.now)) }
{
    match preds {
        [] => Ok(()),
        [pred, rest @ ..] => {
            let changed = is_core(pred) && has_update(updates, q);
            flags.push(changed)?;
            push_changed(rest, q + 1, updates, flags)
        }
    }
}

/// Sets the flag of the predicate where its definition mentions one whose flag is set.
fn mark_one(uses: &Uses, flags: &mut Vec<bool>, q: usize)
    ensures long { length flags.new.items ≡ length flags.old.items }
    ensures marks { (preds : List PredForm) (old : List Bool) → AreMentionLists preds uses.now.lists.items
        → IsMarking preds old flags.old.items → IsMarking preds old flags.new.items }
{
    if q >= flags.len() {
        return;
    }
    if !uses.rests(flags.as_slice(), q) {
        return;
    }
    flags[q] = true;
}

/// Sets the flags of predicates whose definitions rest on flagged ones: of all where the order is one.
fn mark_in_order(uses: &Uses, flags: &mut Vec<bool>)
    ensures long { length flags.new.items ≡ length flags.old.items }
    ensures marks { (preds : List PredForm) (old : List Bool) → AreMentionLists preds uses.now.lists.items
        → IsMarking preds old flags.old.items → IsMarking preds old flags.new.items }
{
    for q in uses.order.as_slice() {
        mark_one(uses, flags, *q);
    }
}

/// The first predicate whose flag isn't set and whose definition mentions one whose flag is.
fn next_affected(uses: &Uses, flags: &[bool]) -> Option<usize>
    requires { length uses.now.lists.items ≡ length flags.now }
    ensures some { IfSome result (λ q. (q < length flags.now) × (is_flagged flags.now q ≡ false)
        × (tells flags.now (slice_get uses.now.lists.items q) ≡ true)) }
    ensures none { IfNone result ((q : ℕ) → tells flags.now (slice_get uses.now.lists.items q) ≡ true
        → is_flagged flags.now q ≡ true) }
{
    for q in 0..flags.len() {
        if !flags[q] && uses.rests(flags, q) {
            return Some(q);
        }
    }
    None
}

/// Sets the flags of all predicates whose definitions rest on flagged ones.
fn mark(uses: &Uses, flags: &mut Vec<bool>)
    requires { length uses.now.lists.items ≡ length flags.old.items }
    ensures { (preds : List PredForm) → AreMentionLists preds uses.now.lists.items
        → AreMarked preds flags.old.items flags.new.items }
{
    mark_in_order(uses, flags);
    while let Some(q) = next_affected(uses, flags.as_slice()) {
        flags[q] = true;
    }
}

/// The flags of all predicates: whether the action affects it.
pub fn affected_flags(
    alloc: Global,
    program: &Program,
    uses: &Uses,
    action: &Action,
) -> Result<Vec<bool>, AllocError>
    requires few { length (program_of program.now).preds ≤ 512 }
    requires uses { AreMentionLists (program_of program.now).preds uses.now.lists.items }
    ensures { IfOk result (λ flags. AreAffected (program_of program.now) (action_of action.now) flags.items) }
{
    let preds = program.vocab.preds.as_slice();
    let mut flags = Vec::with_capacity(alloc, preds.len())?;
    push_changed(preds, 0, action.updates.as_slice(), &mut flags)?;
    mark(uses, &mut flags);
    Ok(flags)
}
