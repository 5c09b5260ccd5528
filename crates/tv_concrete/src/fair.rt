//! Whether a step of an action is fair, through a given middle heap.

ghost use Rattle.std.specs.Prelude.{◌≡◌, ◌↔◌, IsTrue, IfOk, All, Some, map};
ghost use Rattle.std.specs.Prelude.{option_copied, option_map};
ghost use Rattle.tv_model.specs.Program.{EachPred, UpdateForm, action_of, pred_of, program_of, update_of};
ghost use Rattle.tv_model.specs.Step.{AgreesWithGiven, IsFairThrough};
ghost use Rattle.tv_concrete.specs.Lists.{assignment_of, heap_of};
ghost use Rattle.tv_concrete.specs.Steps.{AllowsIn, GivenAgrees};

use crate::{
    Acting, Step, Tuple, allows_change, find_update, is_core, meets_program, steps_through, tuples,
};
use std::alloc::{AllocError, Global};
use tv_model::{Mode, Pred, Update};

/// Whether the action takes the old heap to the new one through the middle one, by the picked
/// individuals, in a fair step: both heaps meet the program's rules, and in mode `Given` the updates
/// that are given for defined predicates agree with these.
pub fn is_fair_through(
    alloc: Global,
    acting: &Acting<'_>,
    step: &Step<'_>,
) -> Result<bool, AllocError>
    ensures { IfOk result (λ b. IsTrue b
        ↔ IsFairThrough (program_of acting.now.program.now) acting.now.mode (action_of acting.now.action.now)
        (assignment_of step.now.picked)
        (heap_of step.now.old.now) (heap_of step.now.middle.now) (heap_of step.now.new.now)) }
{
    if !steps_through(alloc, acting, step)? {
        return Ok(false);
    }
    if !agrees_with_given(alloc, acting, step)? {
        return Ok(false);
    }
    if !meets_program(alloc, acting.program, step.old)? {
        return Ok(false);
    }
    meets_program(alloc, acting.program, step.new)
}

/// Whether the updates that are given for defined predicates agree with these, where the mode asks.
fn agrees_with_given(
    alloc: Global,
    acting: &Acting<'_>,
    step: &Step<'_>,
) -> Result<bool, AllocError>
    ensures { IfOk result (λ b. IsTrue b
        ↔ AgreesWithGiven (program_of acting.now.program.now) acting.now.mode
        (action_of acting.now.action.now)
        (assignment_of step.now.picked) (heap_of step.now.middle.now) (heap_of step.now.new.now)) }
{
    match acting.mode {
        Mode::Recompute => Ok(true),
        Mode::Given => {
            let preds = acting.program.vocab.preds.as_slice();
            agree_all(alloc, preds, acting.action.updates.as_slice(), step)
        }
    }
}

fn agree_all(
    alloc: Global,
    preds: &[Pred],
    updates: &[Update],
    step: &Step<'_>,
) -> Result<bool, AllocError>
    ensures { IfOk result (λ b. IsTrue b
        ↔ EachPred (map pred_of preds.now) (GivenAgrees step.now (map update_of updates.now))) }
{
    for (q, pred) in preds.iter().enumerate() {
        if !agrees_one(alloc, q, pred, updates, step)? {
            return Ok(false);
        }
    }
    Ok(true)
}

fn agrees_one(
    alloc: Global,
    q: usize,
    pred: &Pred,
    updates: &[Update],
    step: &Step<'_>,
) -> Result<bool, AllocError>
    ensures { IfOk result
        (λ b. IsTrue b ↔ GivenAgrees step.now (map update_of updates.now) q (pred_of pred.now)) }
{
    if is_core(&pred.kind) {
        return Ok(true);
    }
    let all = tuples(alloc, step.new.individuals.as_slice(), pred.arity)?;
    Ok(agrees_found(q, find_update(q, updates), step, all.as_slice()))
}

fn agrees_found(q: usize, found: Option<&Update>, step: &Step<'_>, all: &[Tuple]) -> bool
    ensures { IsTrue result ↔ ((w : UpdateForm) → option_map update_of (option_copied found.entry) ≡ Some w
        → All (AllowsIn step.now q w) all.now) }
{
    match found {
        None => true,
        Some(update) => allows_at_all(q, update, step, all),
    }
}

fn allows_at_all(q: usize, update: &Update, step: &Step<'_>, all: &[Tuple]) -> bool
    ensures { IsTrue result ↔ All (AllowsIn step.now q (update_of update.now)) all.now }
{
    for tuple in all {
        if !allows_change(q, update, step, tuple) {
            return false;
        }
    }
    true
}
