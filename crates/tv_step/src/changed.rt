//! The rules that may be unmet in a structure that came of a stable one over the same individuals.

ghost use Rattle.std.specs.Prelude.{ℕ, ◌≡◌, ◌<◌, ◌++◌, [], length, map, IfOk, IsTrue, slice_get, unwrap_or};
ghost use Rattle.std.specs.List.{range_with_len};
ghost use Rattle.tv_coerce.specs.RuleSets.{HasFewer, IsStableBut};
ghost use Rattle.tv_coerce_sets.specs.Turned.{AreAlike};
ghost use Rattle.tv_coerce_sets.specs.Unmet.{WaitsAmong};
ghost use Rattle.tv_model.specs.Valid.{IsValid};
ghost use Rattle.tv_rules.specs.Closing.{closed_rules};
ghost use Rattle.tv_rules.specs.EntryForms.{rules_of};
ghost use Rattle.tv_structure_form.specs.StructureForm.{arities_of};
ghost use Rattle.tv_step.specs.Changed.{DiffersWithin, IsFew};
ghost use Rattle.tv_step.specs.Redefined.{IsMetBy, IsOfRedefined};
ghost use Rattle.tv_step.specs.Setting.{form_in, IsStableIn};

use crate::setting::Setting;
use std::alloc::AllocError;
use tv_coerce::RuleSet;
use tv_coerce_sets::with_changed;
use tv_model::{PredId, Update};
use tv_rules::Numbers;
use tv_struct::Structure;

/// Where a structure may differ from the one that it came of.
#[derive(Clone, Copy)]
pub enum Reach<'a> {
    /// In its individuals, in its summaries, and in each predicate.
    Anywhere,
    /// In the predicates of the updates and in the further predicates.
    Of(&'a [Update], &'a [PredId]),
}

/// Predicates that have the values of their definitions, and by each predicate numbers of rules that came of
/// its definition, which are met by that.
#[derive(Clone, Copy)]
pub struct Redefined<'a> {
    pub preds: &'a [PredId],
    pub defining: &'a [Numbers],
}

impl<'a> Redefined<'a> {
    /// No predicates.
    pub fn none() -> Redefined<'a>
        ensures { (n : ℕ) → ¬ IsOfRedefined result n }
    {
        Redefined {
            preds: &[],
            defining: &[],
        }
    }
}

/// A stable structure, where those that came of it may differ from it, and what was evaluated anew in them.
#[derive(Clone, Copy)]
pub struct Parent<'a> {
    pub from: &'a Structure,
    pub reach: Reach<'a>,
    pub redefined: Redefined<'a>,
}

/// Whether the structures have the same individuals and the same summaries.
fn are_alike(s: &Structure, t: &Structure) -> bool
    ensures { IsTrue result → AreAlike s.now t.now }
{
    s.size() == t.size() && s.summary_row().equals(&t.summary_row())
}

/// The rules about any predicate whose values differ.
fn waiting_in_all(
    x: &Setting,
    from: &Structure,
    s: &Structure,
) -> Result<Option<RuleSet>, AllocError>
    requires size { from.now.size ≡ s.now.size }
    requires over { arities_of from.now ≡ arities_of s.now }
    ensures { IfOk result (WaitsAmong (range_with_len 0 (length (arities_of from.now)))
        (rules_of x.now.closed.now) from.now s.now) }
{
    let mut found = None;
    for number in 0..from.pred_count() {
        found = with_changed(x.alloc, x.closed, from, s, PredId(number), found)?;
    }
    Ok(found)
}

/// The rules about an updated predicate whose values differ.
fn waiting_in_updated(
    x: &Setting,
    from: &Structure,
    s: &Structure,
    updates: &[Update],
) -> Result<Option<RuleSet>, AllocError>
    requires size { from.now.size ≡ s.now.size }
    requires over { arities_of from.now ≡ arities_of s.now }
    ensures { IfOk result (WaitsAmong (map (λ w. w.pred.0) updates.now)
        (rules_of x.now.closed.now) from.now s.now) }
{
    let mut found = None;
    for update in updates {
        found = with_changed(x.alloc, x.closed, from, s, update.pred, found)?;
    }
    Ok(found)
}

/// The rules about an updated predicate, or one of the further predicates, whose values differ.
fn waiting_in_some(
    x: &Setting,
    from: &Structure,
    s: &Structure,
    updates: &[Update],
    preds: &[PredId],
) -> Result<Option<RuleSet>, AllocError>
    requires size { from.now.size ≡ s.now.size }
    requires over { arities_of from.now ≡ arities_of s.now }
    ensures { IfOk result (WaitsAmong (map (λ w. w.pred.0) updates.now ++ map (λ p. p.0) preds.now)
        (rules_of x.now.closed.now) from.now s.now) }
{
    let mut found = waiting_in_updated(x, from, s, updates)?;
    for p in preds {
        found = with_changed(x.alloc, x.closed, from, s, *p, found)?;
    }
    Ok(found)
}

/// The rules that may be unmet in what came of a stable structure, where only those that wait may be: fewer,
/// where it is over the same individuals and summaries, and none told where no value differs, so that it is
/// stable.
fn waiting_by_changes(
    x: &Setting,
    waiting: &RuleSet,
    parent: &Parent<'_>,
    s: &Structure,
) -> Result<Option<RuleSet>, AllocError>
    requires valid { IsValid (form_in x.now) }
    requires rules { rules_of x.now.closed.now ≡ closed_rules (form_in x.now) }
    requires like { arities_of parent.now.from.now ≡ arities_of s.now }
    requires from { IsStableIn (form_in x.now) parent.now.from.now }
    requires within { DiffersWithin parent.now.reach parent.now.from.now s.now }
    requires count { length waiting.now ≡ length (rules_of x.now.closed.now) }
    requires rest { IsStableBut (rules_of x.now.closed.now) waiting.now s.now }
    ensures { IfOk result (IsFew (form_in x.now) (rules_of x.now.closed.now) s.now) }
{
    match parent.reach {
        Reach::Anywhere => {
            if !are_alike(parent.from, s) {
                return Ok(Some(waiting.copy(x.alloc)?));
            }
            waiting_in_all(x, parent.from, s)
        }
        Reach::Of(updates, preds) => waiting_in_some(x, parent.from, s, updates, preds),
    }
}

/// The list at the predicate's number, if there is one.
fn defining_at(lists: &[Numbers], p: PredId) -> &[usize]
    ensures { result.now ≡ unwrap_or (slice_get lists.now p.0) [] }
{
    match lists.get(p.0 as usize) {
        None => &[],
        Some(numbers) => numbers.as_slice(),
    }
}

/// Takes the rules out of the set that are met by what was evaluated anew.
fn remove_met(redefined: Redefined<'_>, set: &mut RuleSet)
    requires { (n : ℕ) → IsOfRedefined redefined n → n < length set.old }
    ensures { HasFewer (IsOfRedefined redefined.entry) set.old set.new }
{
    for p in redefined.preds {
        set.remove_all(defining_at(redefined.defining, *p));
    }
}

/// The rules that may be unmet in what came of a stable structure, without those that came of definitions
/// which were evaluated anew: these are met.
pub fn waiting_in(
    x: &Setting,
    waiting: &RuleSet,
    parent: &Parent<'_>,
    s: &Structure,
) -> Result<Option<RuleSet>, AllocError>
    requires valid { IsValid (form_in x.now) }
    requires rules { rules_of x.now.closed.now ≡ closed_rules (form_in x.now) }
    requires like { arities_of parent.now.from.now ≡ arities_of s.now }
    requires from { IsStableIn (form_in x.now) parent.now.from.now }
    requires within { DiffersWithin parent.now.reach parent.now.from.now s.now }
    requires count { length waiting.now ≡ length (rules_of x.now.closed.now) }
    requires rest { IsStableBut (rules_of x.now.closed.now) waiting.now s.now }
    requires met { IsMetBy parent.now.redefined (rules_of x.now.closed.now) s.now }
    ensures { IfOk result (IsFew (form_in x.now) (rules_of x.now.closed.now) s.now) }
{
    match waiting_by_changes(x, waiting, parent, s)? {
        None => Ok(None),
        Some(mut set) => {
            remove_met(parent.redefined, &mut set);
            Ok(Some(set))
        }
    }
}
