//! What finite differencing says of a defined predicate and an action.

ghost use Rattle.std.specs.Prelude.{◌<◌, ◌≡◌, length, map, IfOk};
ghost use Rattle.tv_model.specs.Form.{form_of, vars_of, FAtom};
ghost use Rattle.tv_model.specs.Program.{program_of, action_of, pred_of};
ghost use Rattle.tv_model.specs.Valid.{IsValid, IsFormula, IsKind};
ghost use Rattle.tv_delta_laws.specs.Differences.{answer_for, answer_by_kind, AreAffected};
ghost use Rattle.tv_delta_laws.specs.Simple.{simple_not, simple_cond};
ghost use Rattle.tv_delta_form.specs.Views.{GivesFormed, delta_form, small_form};
ghost use Rattle.tv_delta.specs.Opening.{AreKnown, AreKnownAt};
ghost use Rattle.tv_delta.specs.Answers.{IsDefined, IsDifference, KeepsWhere, TellsTruth, SaysAnswer};
ghost use Rattle.tv_delta.specs.Causes.{EvaluatesWhere};
ghost use Rattle.tv_delta.specs.Formed.{Forms, definition_delta, formula_for, formed_at};

use crate::flags::{affected_flags, is_flagged, pred_count};
use crate::kinds::Difference;
use crate::lowest::work_out;
use crate::memo::{Memo, empty};
use crate::opening::{Opening, delta_of, kept};
use crate::uses::Uses;
use std::alloc::{AllocError, Global};
use tv_delta_form::{Delta, Stop, atom, own_variables, small_put, stored_update};
use tv_delta_laws::{kept_predicates_stay, updates_tell_the_truth};
use tv_model::{Action, Change, Formula, Kind, Pred, PredId, Program, Terms, Update};

/// An action of a program, and the flags of the predicates that it affects.
#[derive(Clone, Copy, Debug)]
pub struct Affecting<'a> {
    pub program: &'a Program,
    pub action: &'a Action,
    pub affected: &'a [bool],
}

/// The delta of a definition with arguments put in: no chain of definitions is longer than the vocabulary.
#[tactic(auto, using(crate::proofs::AtomSteps::put_ends, tv_delta_form::proofs::Steps::memory_fails))]
fn whole_delta(
    alloc: Global,
    o: &Opening<'_>,
    memo: &mut Memo,
    vars: Terms,
    body: &Formula,
) -> Result<Delta, Stop>
    requires valid { IsValid (program_of o.now.program.now) }
    requires formula { IsFormula (program_of o.now.program.now) (form_of body.now) }
    requires known { AreKnownAt o.now memo.old.entries.items }
    ensures delta { GivesFormed delta_form result (definition_delta o.now (vars_of vars) (form_of body.now)) }
    ensures known { AreKnownAt o.now memo.new.entries.items }
{
    match small_put(alloc, &kept(o), body, &vars, &o.own) {
        Err(stop) => Err(stop),
        Ok(x) => {
            work_out(alloc, o, memo, &x)?;
            delta_of(alloc, o, pred_count(o.program), memo, &x)
        }
    }
}

/// The update of the stored predicate `q` by the delta of its definition.
#[tactic(auto, using(tv_delta_form::proofs::Steps::memory_fails))]
fn update_formula(alloc: Global, q: PredId, own: Terms, d: &Delta) -> Result<Formula, Stop>
    ensures { GivesFormed form_of result (small_form (simple_cond (FAtom q.0 (vars_of own))
        (simple_not (delta_form d.now).down) (delta_form d.now).up)) }
{
    let stored = atom(alloc, q, own)?;
    Ok(stored_update(alloc, &stored, d)?)
}

/// The update's formula for the predicate `q`, defined by the body over the variables.
#[tactic(auto, using(tv_delta_form::proofs::Steps::stop_steps))]
fn formed_formula(
    alloc: Global,
    o: &Opening<'_>,
    memo: &mut Memo,
    q: PredId,
    vars: Terms,
    body: &Formula,
) -> Result<Formula, Stop>
    requires valid { IsValid (program_of o.now.program.now) }
    requires formula { IsFormula (program_of o.now.program.now) (form_of body.now) }
    requires known { AreKnownAt o.now memo.old.entries.items }
    ensures formula { GivesFormed form_of result (formula_for o.now q.0 (vars_of vars) (form_of body.now)) }
    ensures known { AreKnownAt o.now memo.new.entries.items }
{
    match whole_delta(alloc, o, memo, vars, body) {
        Err(stop) => Err(stop),
        Ok(d) => update_formula(alloc, q, o.own, &d),
    }
}

/// The update of the predicate `q`, defined by the body over the variables, if it can be formed.
fn formed(
    alloc: Global,
    a: &Affecting<'_>,
    memo: &mut Memo,
    q: PredId,
    vars: Terms,
    body: &Formula,
) -> Result<Update, Stop>
    requires valid { IsValid (program_of a.now.program.now) }
    requires formula { IsFormula (program_of a.now.program.now) (form_of body.now) }
    requires known { AreKnown a.now.program.now a.now.action.now a.now.affected.now memo.old.entries.items }
    ensures forms { Forms q.0 result (formed_at a.now q.0 (vars_of vars) (form_of body.now)) }
    ensures known { AreKnown a.now.program.now a.now.action.now a.now.affected.now memo.new.entries.items }
{
    let own = own_variables(a.action.picks.as_slice(), vars, body)?;
    let o = Opening {
        program: a.program,
        action: a.action,
        affected: a.affected,
        own,
    };
    let f = formed_formula(alloc, &o, memo, q, vars, body)?;
    Ok(Update {
        pred: q,
        vars: own,
        change: Change::To(f),
    })
}

/// The answer for the predicate `q`, defined by the body over the variables.
fn answer_for(
    alloc: Global,
    a: &Affecting<'_>,
    memo: &mut Memo,
    q: PredId,
    vars: Terms,
    body: &Formula,
) -> Result<Difference, AllocError>
    requires valid { IsValid (program_of a.now.program.now) }
    requires formula { IsFormula (program_of a.now.program.now) (form_of body.now) }
    requires known { AreKnown a.now.program.now a.now.action.now a.now.affected.now memo.old.entries.items }
    ensures known { AreKnown a.now.program.now a.now.action.now a.now.affected.now memo.new.entries.items }
    ensures says { IfOk result (λ x. SaysAnswer q.0 x
        (answer_for (program_of a.now.program.now) (action_of a.now.action.now) a.now.affected.now q.0
        (vars_of vars) (form_of body.now))) }
{
    if a.action.fresh || a.action.retain.is_some() {
        return Ok(Difference::Evaluate);
    }
    if !is_flagged(a.affected, q) {
        return Ok(Difference::Keep);
    }
    match formed(alloc, a, memo, q, vars, body) {
        Ok(w) => Ok(Difference::To(w)),
        Err(Stop::Unformed) => Ok(Difference::Evaluate),
        Err(Stop::Memory) => Err(AllocError),
    }
}

/// The answer for the predicate of this number; a core one has none and stays as its updates say.
pub fn answer_at(
    alloc: Global,
    a: &Affecting<'_>,
    memo: &mut Memo,
    q: PredId,
    pred: &Pred,
) -> Result<Difference, AllocError>
    requires valid { IsValid (program_of a.now.program.now) }
    requires kind { IsKind (program_of a.now.program.now) pred.now.arity (pred_of pred.now).kind }
    requires known { AreKnown a.now.program.now a.now.action.now a.now.affected.now memo.old.entries.items }
    ensures known { AreKnown a.now.program.now a.now.action.now a.now.affected.now memo.new.entries.items }
    ensures says { IfOk result (λ x. SaysAnswer q.0 x
        (answer_by_kind (program_of a.now.program.now) (action_of a.now.action.now) a.now.affected.now q.0
        (pred_of pred.now).kind)) }
{
    match &pred.kind {
        Kind::Core => Ok(Difference::Keep),
        Kind::Defined { vars, body } => answer_for(alloc, a, memo, q, *vars, body),
    }
}

/// The answer for the defined predicate `pred` at the action of this number. It is `Keep` exactly where
/// the action neither affects the predicate nor adds or drops individuals; `Evaluate` exactly where the
/// action adds or drops individuals, or where no update can be formed: since its definition rests on a freely
/// updated predicate, since an affected one stands under a closure in it or in one that it rests on, for want
/// of a slot, or since a formula is over the limits; and else the update that differencing forms, which tells
/// in the heap before the step what the definition is after it. R. Paige and S. Koenig, Finite differencing
/// of computable expressions, TOPLAS 4(3), 1982; T. Reps, M. Sagiv, A. Loginov, Finite differencing of
/// logical formulas, TOPLAS 32(6), 2010.
pub fn difference(
    alloc: Global,
    program: &Program,
    action: u32,
    pred: PredId,
) -> Result<Difference, AllocError>
    requires valid { IsValid (program_of program.now) }
    requires action { action < length program.now.actions }
    requires defined { IsDefined (program_of program.now) pred.0 }
    ensures exact { IfOk result (IsDifference (program_of program.now) action pred.0) }
    ensures keep { IfOk result (KeepsWhere (program_of program.now) action pred.0) }
    ensures evaluate { IfOk result (EvaluatesWhere (program_of program.now) action pred.0) }
    ensures truth { IfOk result (TellsTruth (program_of program.now) action pred.0) }
{
    updates_tell_the_truth();
    kept_predicates_stay();
    let action = &program.actions.as_slice()[action as usize];
    let uses = Uses::new(alloc, program.vocab.preds.as_slice())?;
    let affected = affected_flags(alloc, program, &uses, action)?;
    let a = Affecting {
        program,
        action,
        affected: &affected,
    };
    let mut memo = empty(alloc);
    answer_at(
        alloc,
        &a,
        &mut memo,
        pred,
        &program.vocab.preds.as_slice()[pred.0 as usize],
    )
}
