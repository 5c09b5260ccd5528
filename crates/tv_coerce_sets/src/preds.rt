//! The predicates for which a set is found.

ghost use Rattle.std.specs.Prelude.{ℕ, ◌≡◌, ◌<◌, ◌≤◌, ◌⊎◌, map, All, Contains, IfOk, IsTrue, OnOk};
ghost use Rattle.tv_model.specs.Form.{form_of, Mentions};
ghost use Rattle.tv_coerce_sets.specs.Listed.{AreListed};

use std::alloc::{AllocError, Global};
use tv_model::{Formula, PredId, Update, mentions};

/// Whether a formula mentions the predicate.
fn are_about(formulas: &[Formula], pred: PredId) -> bool
    ensures { All (λ f. Mentions pred.0 (form_of f) → IsTrue result) formulas.now }
{
    for formula in formulas {
        if mentions(formula, pred) {
            return true;
        }
    }
    false
}

/// Puts the predicate behind the others, if the flag is set.
fn push_if(preds: &mut Vec<u32>, on: bool, number: usize) -> Result<(), AllocError>
    requires { number < 512 }
    ensures { OnOk result ((q : ℕ) → Contains preds.old.items q ⊎ ((q ≡ number) × IsTrue on)
        → Contains preds.new.items q) }
{
    if !on {
        return Ok(());
    }
    Ok(preds.push(number as u32)?)
}

/// The predicates, of so many, that the formulas mention, in ascending order.
pub fn mentioned(alloc: Global, count: usize, formulas: &[Formula]) -> Result<Vec<u32>, AllocError>
    requires { count ≤ 512 }
    ensures { IfOk result (λ preds. AreListed count formulas.now preds.items) }
{
    let mut preds = Vec::new(alloc);
    for number in 0..count {
        push_if(
            &mut preds,
            are_about(formulas, PredId(number as u32)),
            number,
        )?;
    }
    Ok(preds)
}

/// The predicates of the updates, one after the other.
fn listed(alloc: Global, updates: &[Update]) -> Result<Vec<u32>, AllocError>
    ensures { IfOk result (λ preds. preds.items ≡ map (λ w. w.pred.0) updates.now) }
{
    let mut preds = Vec::with_capacity(alloc, updates.len())?;
    for update in updates {
        preds.push(update.pred.0)?;
    }
    Ok(preds)
}

/// The updated predicates, in ascending order: updates that stand in another order share a set.
pub fn updated(alloc: Global, updates: &[Update]) -> Result<Vec<u32>, AllocError>
    ensures { IfOk result (λ preds. (q : ℕ) → Contains (map (λ w. w.pred.0) updates.now) q
        → Contains preds.items q) }
{
    let mut preds = listed(alloc, updates)?;
    preds.sort_unstable();
    Ok(preds)
}
