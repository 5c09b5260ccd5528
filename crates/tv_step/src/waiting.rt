//! The rules that are tried again after focus and after an update.

ghost use Rattle.std.specs.Prelude.{◌≡◌, ◌<◌, ◌≤◌, ◌↔◌, false, length, map, replicate, All};
ghost use Rattle.std.specs.Prelude.{Contains, IfOk, IsTrue, OnOk};
ghost use Rattle.tv_update_laws.specs.Applied.{kind_at};
ghost use Rattle.tv_model.specs.Form.{form_of};
ghost use Rattle.tv_model.specs.Program.{action_of};
ghost use Rattle.tv_rules.specs.EntryForms.{rules_of};
ghost use Rattle.tv_update.specs.Plan.{IsDefined};
ghost use Rattle.tv_step.specs.Redefined.{AreOfDefinitions};
ghost use Rattle.tv_step.specs.Setting.{form_in};
ghost use Rattle.tv_step.specs.Waiting.{HasRulesOf, IsShared, WaitsAbout, WaitsAfter, WaitsAt};
ghost use Rattle.tv_step.specs.Waiting.{WaitsFor};

use crate::setting::Setting;
use std::alloc::AllocError;
use std::rc::Rc;
use tv_coerce::RuleSet;
use tv_coerce_sets::{Found, found_for, keep, mentioned, none_found, updated};
use tv_model::{Action, Formula, Items, Kind, PredId, Update};
use tv_rules::Numbers;
use tv_update::moves;

/// Puts the rules in which one of the predicates stands into the set.
fn add_all(x: &Setting, preds: &[u32], waiting: &mut RuleSet)
    requires { length waiting.old ≡ length (rules_of x.now.closed.now) }
    ensures { HasRulesOf (Contains preds.now) (rules_of x.now.closed.now) waiting.old waiting.new }
{
    for pred in preds {
        waiting.add_pred(x.closed, PredId(*pred));
    }
}

/// Whether the predicate has a definition.
fn is_defined(x: &Setting, number: usize) -> bool
    requires { number < length x.now.program.now.vocab.preds }
    ensures { IsTrue result ↔ IsDefined (kind_at (form_in x.now) number) }
{
    matches!(
        x.program.vocab.preds.as_slice()[number].kind,
        Kind::Defined { .. }
    )
}

/// Puts the rules in which the predicate stands into the set, if the flag is set.
fn add_if(x: &Setting, on: bool, number: usize, waiting: &mut RuleSet)
    requires few { number < 512 }
    requires count { length waiting.old ≡ length (rules_of x.now.closed.now) }
    ensures { HasRulesOf (λ q. (q ≡ number) × IsTrue on) (rules_of x.now.closed.now) waiting.old waiting.new }
{
    if !on {
        return;
    }
    waiting.add_pred(x.closed, PredId(number as u32));
}

/// Puts the rules in which a defined predicate stands into the set.
fn add_defined(x: &Setting, waiting: &mut RuleSet)
    requires few { length x.now.program.now.vocab.preds ≤ 512 }
    requires count { length waiting.old ≡ length (rules_of x.now.closed.now) }
    ensures { HasRulesOf (λ q. IsDefined (kind_at (form_in x.now) q)) (rules_of x.now.closed.now)
        waiting.old waiting.new }
{
    for number in 0..x.program.vocab.preds.len() {
        add_if(x, is_defined(x, number), number, waiting);
    }
}

/// Sets of rules that the actions of a program share.
#[derive(Drop)]
pub struct Shared {
    pub all: Rc<RuleSet>,
    /// Those in which a predicate stands that has a definition.
    pub defined: RuleSet,
    /// Those that wait after updates, by the updated predicates.
    pub after: Found,
    /// Those that wait at focus, by the predicates that the formulas mention.
    pub at: Found,
    /// By each predicate numbers of rules that came of its definition.
    pub defining: Rc<Items<Numbers>>,
}

/// By each predicate numbers of rules that came of its definition.
fn defining_rules(x: &Setting) -> Result<Items<Numbers>, AllocError>
    requires { length x.now.program.now.vocab.preds ≤ 512 }
    ensures { IfOk result (AreOfDefinitions (form_in x.now) x.now.closed.now) }
{
    let preds = x.program.vocab.preds.as_slice();
    let mut lists = Items::new(x.alloc);
    for number in 0..preds.len() {
        let p = PredId(number as u32);
        lists.push(x.closed.defining(x.alloc, p, &preds[number].kind)?)?;
    }
    Ok(lists)
}

/// The sets that all actions share.
pub fn shared_sets(x: &Setting) -> Result<Shared, AllocError>
    requires { length x.now.program.now.vocab.preds ≤ 512 }
    ensures { IfOk result (IsShared (form_in x.now) (rules_of x.now.closed.now)) }
{
    let all = Rc::new(x.alloc, RuleSet::of_all(x.alloc, x.closed)?)?;
    let mut defined = RuleSet::of_none(x.alloc, x.closed)?;
    add_defined(x, &mut defined);
    let after = none_found(x.alloc);
    let at = none_found(x.alloc);
    let defining = Rc::new(x.alloc, defining_rules(x)?)?;
    Ok(Shared {
        all,
        defined,
        after,
        at,
        defining,
    })
}

/// The rules that see which individuals are summaries, and those about one of these predicates.
fn made_at(x: &Setting, preds: &[u32]) -> Result<Rc<RuleSet>, AllocError>
    ensures { IfOk result (λ set. WaitsAbout preds.now (rules_of x.now.closed.now) set.value) }
{
    let mut waiting = RuleSet::of_none(x.alloc, x.closed)?;
    waiting.add_seeing(x.closed);
    add_all(x, preds, &mut waiting);
    Ok(Rc::new(x.alloc, waiting)?)
}

/// The rules that a choice of focus on an atom of one of the formulas may leave unmet, where the structure
/// was stable: those that see which individuals are summaries, and those about a predicate that a formula
/// mentions.
pub fn waiting_at(
    x: &Setting,
    shared: &mut Shared,
    formulas: &[Formula],
) -> Result<Rc<RuleSet>, AllocError>
    requires few { length x.now.program.now.vocab.preds ≤ 512 }
    requires shared { IsShared (form_in x.now) (rules_of x.now.closed.now) shared.old }
    ensures waits { IfOk result (λ set. All (λ f. WaitsAt (length x.now.program.now.vocab.preds) (form_of f)
        (rules_of x.now.closed.now) set.value) formulas.now) }
    ensures shared { OnOk result (IsShared (form_in x.now) (rules_of x.now.closed.now) shared.new) }
{
    let preds = mentioned(x.alloc, x.program.vocab.preds.len(), formulas)?;
    if let Some(kept) = found_for(&shared.at, &preds) {
        return kept.set.clone();
    }
    let set = made_at(x, preds.as_slice())?;
    keep(&mut shared.at, preds, &set)?;
    Ok(set)
}

/// The rules in which one of these predicates stands or one that has a definition.
fn made_after(x: &Setting, defined: &RuleSet, preds: &[u32]) -> Result<Rc<RuleSet>, AllocError>
    requires { HasRulesOf (λ q. IsDefined (kind_at (form_in x.now) q)) (rules_of x.now.closed.now)
        (replicate (length (rules_of x.now.closed.now)) false) defined.now }
    ensures { IfOk result
        (λ set. WaitsAfter (form_in x.now) preds.now (rules_of x.now.closed.now) set.value) }
{
    let mut waiting = defined.copy(x.alloc)?;
    add_all(x, preds, &mut waiting);
    Ok(Rc::new(x.alloc, waiting)?)
}

/// The rules that updates may leave unmet in a structure that was stable, where no individual comes or goes:
/// those in which a predicate stands that is updated or has a definition.
fn after_updates(
    x: &Setting,
    shared: &mut Shared,
    updates: &[Update],
) -> Result<Rc<RuleSet>, AllocError>
    requires { IsShared (form_in x.now) (rules_of x.now.closed.now) shared.old }
    ensures waits { IfOk result (λ set. WaitsAfter (form_in x.now) (map (λ w. w.pred.0) updates.now)
        (rules_of x.now.closed.now) set.value) }
    ensures shared { OnOk result (IsShared (form_in x.now) (rules_of x.now.closed.now) shared.new) }
{
    let preds = updated(x.alloc, updates)?;
    if let Some(kept) = found_for(&shared.after, &preds) {
        return kept.set.clone();
    }
    let set = made_after(x, &shared.defined, preds.as_slice())?;
    keep(&mut shared.after, preds, &set)?;
    Ok(set)
}

/// The rules that the action may leave unmet in a structure that was stable: all, where individuals may come
/// or go; else those in which a predicate stands that is updated or has a definition. All will do for an
/// action that no edge names.
pub fn waiting_after(
    x: &Setting,
    shared: &mut Shared,
    action: &Action,
    is_named: bool,
) -> Result<Rc<RuleSet>, AllocError>
    requires { IsShared (form_in x.now) (rules_of x.now.closed.now) shared.old }
    ensures waits { IfOk result
        (λ set. WaitsFor (form_in x.now) (action_of action.now) (rules_of x.now.closed.now) set.value) }
    ensures shared { OnOk result (IsShared (form_in x.now) (rules_of x.now.closed.now) shared.new) }
{
    if !is_named {
        return shared.all.clone();
    }
    if moves(action) {
        return shared.all.clone();
    }
    after_updates(x, shared, action.updates.as_slice())
}
