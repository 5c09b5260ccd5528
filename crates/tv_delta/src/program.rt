//! The differenced program.

ghost use Rattle.std.specs.Prelude.{◌≡◌, ◌+◌, ◌≤◌, ◌++◌, ◌∷◌, [], if◌then◌else◌, length, map, filter};
ghost use Rattle.std.specs.Prelude.{slice_get, All, IfOk, OnOk};
ghost use Rattle.std.specs.List.{AllZip};
ghost use Rattle.tv_model.specs.Program.{program_of, action_of, pred_of, update_of, is_core_pred};
ghost use Rattle.tv_model.specs.Valid.{IsValid, IsPred};
ghost use Rattle.tv_delta_laws.specs.Differences.{IsDifferenced, IsDifferencedAction, differenced_updates};
ghost use Rattle.tv_delta_laws.specs.Differences.{answers_from, with_updates, with_actions};
ghost use Rattle.tv_delta.specs.Answers.{HasRuns, UpdatesTellTruth, update_list};
ghost use Rattle.tv_delta.specs.Flags.{AreMentionLists};
ghost use Rattle.tv_delta.specs.Opening.{AreKnown};

use crate::action::{copy_formulas, copy_messages, copy_pre, copy_retain, copy_update};
use crate::answer::{Affecting, answer_at};
use crate::flags::{affected_flags, is_core, pred_at};
use crate::kinds::Difference;
use crate::lists::{copy_edges, copy_names, copy_vars};
use crate::memo::{Memo, empty};
use crate::uses::Uses;
use crate::vocab::{copy_rules, copy_vocab};
use std::alloc::{AllocError, Global};
use tv_delta_laws::{differenced_is_valid, runs_are_differenced, updates_tell_the_truth};
use tv_model::{Action, Actions, Pred, PredId, Program, Update, Updates};

fn is_core_at(program: &Program, q: PredId) -> bool
    ensures { result ≡ is_core_pred (slice_get (program_of program.now).preds q.0) }
{
    match pred_at(program, q) {
        None => false,
        Some(pred) => is_core(pred),
    }
}

/// Puts a copy of the update behind the others if it is one of a core predicate.
fn push_if_core(
    alloc: Global,
    program: &Program,
    w: &Update,
    out: &mut Vec<Update>,
) -> Result<(), AllocError>
    ensures { OnOk result (map update_of out.new.items ≡ map update_of out.old.items
        ++ (if is_core_pred (slice_get (program_of program.now).preds w.now.pred.0) then update_of w.now ∷ []
        else [])) }
{
    if is_core_at(program, w.pred) {
        out.push(copy_update(alloc, w)?)?;
        return Ok(());
    }
    Ok(())
}

/// Puts copies of the updates of core predicates behind the others, in their order.
fn push_core(
    alloc: Global,
    program: &Program,
    updates: &[Update],
    out: &mut Vec<Update>,
) -> Result<(), AllocError>
    ensures { OnOk result (map update_of out.new.items ≡ map update_of out.old.items
        ++ filter (λ w. is_core_pred (slice_get (program_of program.now).preds w.pred))
        (map update_of updates.now)) }
{
    match updates {
        [] => Ok(()),
        [w, rest @ ..] => {
            push_if_core(alloc, program, w, out)?;
            push_core(alloc, program, rest, out)
        }
    }
}

/// Puts the answer behind the others if it is an update.
fn push_answer(x: Difference, out: &mut Vec<Update>) -> Result<(), AllocError>
    ensures { OnOk result (map update_of out.new.items ≡ map update_of out.old.items ++ update_list x) }
{
    match x {
        Difference::Keep | Difference::Evaluate => Ok(()),
        Difference::To(w) => {
            out.push(w)?;
            Ok(())
        }
    }
}

/// Puts the answers for these predicates, numbered from `q` on, that are updates behind the others.
#[tactic(auto, using(crate::proofs::Answered::says_updates))]
fn push_answers(
    alloc: Global,
    a: &Affecting<'_>,
    memo: &mut Memo,
    preds: &[Pred],
    q: u32,
    out: &mut Vec<Update>,
) -> Result<(), AllocError>
    requires count { q + length preds.now ≤ 512 }
    requires valid { IsValid (program_of a.now.program.now) }
    requires preds { All (λ d. IsPred (program_of a.now.program.now) (pred_of d)) preds.now }
    requires known { AreKnown a.now.program.now a.now.action.now a.now.affected.now memo.old.entries.items }
    ensures { OnOk result (map update_of out.new.items ≡ map update_of out.old.items
        ++ answers_from (program_of a.now.program.now) (action_of a.now.action.now) a.now.affected.now q
        (map pred_of preds.now)) }
{
    match preds {
        [] => Ok(()),
        [pred, rest @ ..] => {
            let x = answer_at(alloc, a, memo, PredId(q), pred)?;
            push_answer(x, out)?;
            push_answers(alloc, a, memo, rest, q + 1, out)
        }
    }
}

/// The updates of core predicates, and behind them those that differencing forms.
fn updates_for(alloc: Global, a: &Affecting<'_>) -> Result<Updates, AllocError>
    requires { IsValid (program_of a.now.program.now) }
    ensures { IfOk result (λ ws. map update_of ws
        ≡ differenced_updates (program_of a.now.program.now)
        (action_of a.now.action.now) a.now.affected.now) }
{
    let mut out = Vec::new(alloc);
    push_core(alloc, a.program, a.action.updates.as_slice(), &mut out)?;
    let mut memo = empty(alloc);
    push_answers(
        alloc,
        a,
        &mut memo,
        a.program.vocab.preds.as_slice(),
        0,
        &mut out,
    )?;
    Ok(Updates::from_vec(out))
}

/// The action with these updates.
fn with_updates(alloc: Global, action: &Action, updates: Updates) -> Result<Action, AllocError>
    ensures { IfOk result (λ b. action_of b ≡ with_updates (action_of action.now) (map update_of updates)) }
{
    let pre = copy_pre(alloc, &action.pre)?;
    let picks = copy_vars(alloc, &action.picks)?;
    let focus = copy_formulas(alloc, &action.focus)?;
    let messages = copy_messages(alloc, &action.messages)?;
    let retain = copy_retain(alloc, &action.retain)?;
    Ok(Action {
        pre,
        picks,
        focus,
        messages,
        fresh: action.fresh,
        retain,
        updates,
    })
}

/// The action with the updates that differencing gives it.
fn differenced_action(
    alloc: Global,
    program: &Program,
    uses: &Uses,
    action: &Action,
) -> Result<Action, AllocError>
    requires valid { IsValid (program_of program.now) }
    requires uses { AreMentionLists (program_of program.now).preds uses.now.lists.items }
    ensures { IfOk result
        (λ b. IsDifferencedAction (program_of program.now) (action_of action.now) (action_of b)) }
{
    let affected = affected_flags(alloc, program, uses, action)?;
    let a = Affecting {
        program,
        action,
        affected: &affected,
    };
    let updates = updates_for(alloc, &a)?;
    with_updates(alloc, action, updates)
}

/// The actions with the updates that differencing gives them.
#[tactic(auto, using(crate::proofs::Zips::zip_more))]
fn differenced_actions(alloc: Global, program: &Program) -> Result<Actions, AllocError>
    requires { IsValid (program_of program.now) }
    ensures { IfOk result (λ bs. AllZip (IsDifferencedAction (program_of program.now))
        (map action_of program.now.actions) (map action_of bs)) }
{
    let uses = Uses::new(alloc, program.vocab.preds.as_slice())?;
    let actions = program.actions.as_slice();
    let mut out = Vec::with_capacity(alloc, actions.len())?;
    for action in actions {
        out.push(differenced_action(alloc, program, &uses, action)?)?;
    }
    Ok(Actions::from_vec(out))
}

/// A copy of the program with other actions.
fn with_actions(alloc: Global, program: &Program, actions: Actions) -> Result<Program, AllocError>
    ensures { IfOk result
        (λ new. program_of new ≡ with_actions (program_of program.now) (map action_of actions)) }
{
    let vocab = copy_vocab(alloc, &program.vocab)?;
    let rules = copy_rules(alloc, &program.rules)?;
    let edges = copy_edges(alloc, &program.edges)?;
    let nodes = copy_names(alloc, &program.nodes)?;
    Ok(Program {
        vocab,
        rules,
        actions,
        edges,
        nodes,
    })
}

/// The program in which the updates of each action are first its own updates of core predicates, in
/// their order, and then those that differencing forms, in the order of their predicates; all else
/// stays. Each run of the first program in which defined predicates are evaluated anew is a run of this
/// one in which its updates are taken for their values.
pub fn differenced(alloc: Global, program: &Program) -> Result<Program, AllocError>
    requires valid { IsValid (program_of program.now) }
    ensures exact { IfOk result (λ new. IsDifferenced (program_of program.now) (program_of new)) }
    ensures valid { IfOk result (λ new. IsValid (program_of new)) }
    ensures runs { IfOk result (λ new. HasRuns (program_of program.now) (program_of new)) }
    ensures truth { IfOk result (λ new. UpdatesTellTruth (program_of program.now) (program_of new)) }
{
    differenced_is_valid();
    runs_are_differenced();
    updates_tell_the_truth();
    let actions = differenced_actions(alloc, program)?;
    with_actions(alloc, program, actions)
}
