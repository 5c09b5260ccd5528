//! A plan in the making.

ghost use Rattle.std.specs.Prelude.{ℕ, ◌≡◌, ◌↔◌, ◌⊎◌, ◌<◌, ◌≤◌, ◌++◌, [], ◌∷◌, length, false, IsTrue, OnOk};
ghost use Rattle.std.specs.Prelude.{IfSome, IfNone, slice_set, if◌then◌else◌};
ghost use Rattle.tv_model.specs.Form.{form_of};
ghost use Rattle.tv_model.specs.Program.{program_of, action_of};
ghost use Rattle.tv_update_laws.specs.Applied.{kind_at, moves_individuals};
ghost use Rattle.tv_update.specs.Drafts.{IsDraftOf, IsReadyIn};
ghost use Rattle.tv_update.specs.Plan.{is_set, MentionsSet, RestsOn};

use crate::application::Application;
use std::alloc::AllocError;
use tv_model::{Action, Formula, Kind, PredId, Program};

/// A plan in the making.
#[derive(Debug, Drop)]
pub struct Draft {
    /// The predicates of which it isn't known yet whether they are changed.
    pub waiting: Vec<bool>,
    pub changed: Vec<bool>,
    /// The changed predicates without an update that counts, in order.
    pub plan: Vec<PredId>,
}

/// A waiting predicate whose definition rests on no waiting one.
#[derive(Clone, Copy, Debug)]
pub struct Ready {
    pub pred: PredId,
    /// Whether its definition rests on a changed predicate.
    pub is_touched: bool,
}

/// What a definition mentions: a predicate that waits, a changed one.
#[derive(Clone, Copy, Debug)]
struct Marks {
    waiting: bool,
    changed: bool,
}

const NO_MARKS: Marks = Marks {
    waiting: false,
    changed: false,
};

impl Marks {
    fn or(self, other: Marks) -> Marks
        ensures waiting { IsTrue result.waiting ↔ (IsTrue self.waiting ⊎ IsTrue other.waiting) }
        ensures changed { IsTrue result.changed ↔ (IsTrue self.changed ⊎ IsTrue other.changed) }
    {
        Marks {
            waiting: self.waiting || other.waiting,
            changed: self.changed || other.changed,
        }
    }
}

/// Whether the flag of the predicate is set.
fn is_set(flags: &[bool], p: PredId) -> bool
    ensures { result ≡ is_set flags.now p.0 }
{
    flags.get(p.0 as usize).copied().unwrap_or(false)
}

/// What the formula mentions.
fn mentioned(f: &Formula, waiting: &[bool], changed: &[bool]) -> Marks
    ensures waiting { IsTrue result.waiting ↔ MentionsSet waiting.now (form_of f.now) }
    ensures changed { IsTrue result.changed ↔ MentionsSet changed.now (form_of f.now) }
{
    match f {
        Formula::Zero | Formula::One | Formula::IsNew(_) | Formula::Same(_, _) => NO_MARKS,
        Formula::Atom(p, _) => Marks {
            waiting: is_set(waiting, *p),
            changed: is_set(changed, *p),
        },
        Formula::Not(g) | Formula::Exists(_, g) | Formula::Forall(_, g) => {
            mentioned(g, waiting, changed)
        }
        Formula::And(g, h) | Formula::Or(g, h) | Formula::Iff(g, h) => {
            mentioned(g, waiting, changed).or(mentioned(h, waiting, changed))
        }
        Formula::Cond(c, g, h) => {
            let parts = mentioned(g, waiting, changed).or(mentioned(h, waiting, changed));
            mentioned(c, waiting, changed).or(parts)
        }
        Formula::Closure { body, .. } => mentioned(body, waiting, changed),
    }
}

/// What the definition of the predicate mentions; nothing where it has none.
fn rests_on(program: &Program, p: PredId, waiting: &[bool], changed: &[bool]) -> Marks
    requires { p.0 < length program.now.vocab.preds }
    ensures waiting { IsTrue result.waiting ↔ RestsOn waiting.now (kind_at (program_of program.now) p.0) }
    ensures changed { IsTrue result.changed ↔ RestsOn changed.now (kind_at (program_of program.now) p.0) }
{
    match &program.vocab.preds.as_slice()[p.0 as usize].kind {
        Kind::Core => NO_MARKS,
        Kind::Defined { body, .. } => mentioned(body, waiting, changed),
    }
}

/// The predicate, if it waits and its definition rests on no waiting one.
#[tactic(auto, using(crate::proofs::Plans::set_below))]
fn ready_at(program: &Program, draft: &Draft, p: PredId) -> Option<Ready>
    requires { length draft.now.waiting.items ≡ length program.now.vocab.preds }
    ensures some { IfSome result (IsReadyIn (program_of program.now) draft.now) }
    ensures none { IfNone result (IsTrue (is_set draft.now.waiting.items p.0)
        → RestsOn draft.now.waiting.items (kind_at (program_of program.now) p.0)) }
{
    let waiting = draft.waiting.as_slice();
    if !is_set(waiting, p) {
        return None;
    }
    let found = rests_on(program, p, waiting, draft.changed.as_slice());
    if found.waiting {
        return None;
    }
    Some(Ready {
        pred: p,
        is_touched: found.changed,
    })
}

/// The first waiting predicate whose definition rests on no waiting one.
fn first_ready(program: &Program, draft: &Draft) -> Option<Ready>
    requires count { length draft.now.waiting.items ≡ length program.now.vocab.preds }
    requires few { length program.now.vocab.preds ≤ 512 }
    ensures some { IfSome result (IsReadyIn (program_of program.now) draft.now) }
    ensures none { IfNone result ((q : ℕ) → IsTrue (is_set draft.now.waiting.items q)
        → RestsOn draft.now.waiting.items (kind_at (program_of program.now) q)) }
{
    for p in 0..draft.waiting.len() {
        let found = ready_at(program, draft, PredId(p as u32));
        if found.is_some() {
            return found;
        }
    }
    None
}

/// Whether the action adds individuals or drops some.
pub fn moves(action: &Action) -> bool
    ensures { result ≡ moves_individuals (action_of action.now) }
{
    action.fresh || action.retain.is_some()
}

/// Puts the predicate behind the others if the flag is set.
fn push_if(plan: &mut Vec<PredId>, p: PredId, on: bool) -> Result<(), AllocError>
    ensures { OnOk result (plan.new.items ≡ plan.old.items ++ (if on then p ∷ [] else [])) }
{
    if on {
        plan.push(p)?;
        return Ok(());
    }
    Ok(())
}

/// Whether a predicate without an update that counts is changed: where individuals may come or go,
/// or where its definition rests on a changed one.
fn is_changed(action: &Action, ready: Ready) -> bool
    ensures { IsTrue result ↔ (IsTrue (moves_individuals (action_of action.now)) ⊎ IsTrue ready.is_touched) }
{
    moves(action) || ready.is_touched
}

/// Goes on with a predicate that waits no longer.
fn settle(applied: &Application, draft: &mut Draft, ready: Ready) -> Result<(), AllocError>
    requires so_far { IsDraftOf applied.now draft.old }
    requires ready { IsReadyIn (program_of applied.now.program.now) draft.old ready }
    ensures so_far { OnOk result (IsDraftOf applied.now draft.new) }
    ensures waiting { draft.new.waiting.items ≡ slice_set draft.old.waiting.items ready.pred.0 false }
{
    let p = ready.pred.0 as usize;
    let on = is_changed(applied.action, ready);
    draft.waiting[p] = false;
    draft.changed[p] = on;
    push_if(&mut draft.plan, ready.pred, on)
}

/// Goes on with those of these predicates, one after the other, that wait and rest on no waiting one then.
pub fn settle_hinted(
    applied: &Application,
    hint: &[PredId],
    draft: &mut Draft,
) -> Result<(), AllocError>
    requires { IsDraftOf applied.now draft.old }
    ensures { OnOk result (IsDraftOf applied.now draft.new) }
{
    for p in hint {
        if let Some(ready) = ready_at(applied.program, draft, *p) {
            settle(applied, draft, ready)?;
        }
    }
    Ok(())
}

/// Goes on until each waiting predicate rests on a waiting one.
pub fn settle_rest(applied: &Application, draft: &mut Draft) -> Result<(), AllocError>
    requires so_far { IsDraftOf applied.now draft.old }
    requires few { length applied.now.program.now.vocab.preds ≤ 512 }
    ensures so_far { OnOk result (IsDraftOf applied.now draft.new) }
    ensures none { OnOk result ((q : ℕ) → IsTrue (is_set draft.new.waiting.items q)
        → RestsOn draft.new.waiting.items (kind_at (program_of applied.now.program.now) q)) }
{
    while let Some(ready) = first_ready(applied.program, draft) {
        settle(applied, draft, ready)?;
    }
    Ok(())
}
