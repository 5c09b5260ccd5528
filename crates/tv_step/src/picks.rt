//! The individuals that an action picks in a structure, and what it gives under them.

ghost use Rattle.std.specs.Prelude.{◌≡◌, ◌<◌, ◌≤◌, ◌↔◌, All, IsTrue, IfErr, OnOk, [], ◌∷◌, length, min};
ghost use Rattle.std.specs.Prelude.{true};
ghost use Rattle.std.specs.List.{range_with_len};
ghost use Rattle.tv_update_laws.specs.Picks.{lists_of};
ghost use Rattle.tv_eval.specs.AssignmentForm.{assignment_of};
ghost use Rattle.tv_model.specs.Program.{picks_of};
ghost use Rattle.tv_model.specs.Valid.{IsVariable};
ghost use Rattle.tv_step.specs.Job.{IsCase, ArePicked, ArePickedBut, case_program, case_action, case_mode};
ghost use Rattle.tv_step.specs.Job.{action_in, case_structure};
ghost use Rattle.tv_step.specs.Changed.{IsReachOf};
ghost use Rattle.tv_step.specs.Steps.{Adds, passes, PickGives, PicksGive, PickKeepsLimits, PicksKeepLimits};
ghost use Rattle.tv_step.specs.Steps.{IsCauseOfPick, IsCauseOfPicks, StepsIn, KeepsUpdateLimits};
ghost use Rattle.tv_step.specs.Steps.{IsCauseOfUpdate};
ghost use Rattle.tv_step.specs.Allowed.{precondition_values};

use crate::changed::{Parent, Reach, Redefined};
use crate::coerced::{Ending, coerce_all};
use crate::job::Job;
use crate::setting::Setting;
use tv_eval::{Assignment, Evaluator, Scratch, eval};
use tv_kleene::K3;
use tv_model::Var;
use tv_row::Row;
use tv_struct::{StageError, Structure, Structures};
use tv_update::{moves, update_by_plan};

/// The most lists of individuals that an action may pick in one structure.
const MAX_PICKS: u32 = 4096;

/// An action that is applied to a stable structure at hand.
#[derive(Clone, Copy)]
pub struct Case<'a, 'b> {
    pub setting: &'a Setting<'a, 'a>,
    pub job: &'a Job<'b>,
    pub from: &'a Structure,
}

/// Whether there are at most 4,096 lists of `count` individuals.
fn are_few(size: u32, count: usize) -> bool
    requires { size ≤ 256 }
    ensures { IsTrue result ↔ (length (lists_of (range_with_len 0 size) count) ≤ 4096) }
{
    let mut total: u32 = 1;
    for _ in 0..count {
        total = (total * size).min(MAX_PICKS + 1);
    }
    total <= MAX_PICKS
}

/// Whether the precondition isn't `No`.
fn is_passed(c: &Case, picks: &Assignment, scratch: &mut Scratch) -> bool
    requires case { IsCase c.now scratch.old }
    requires picks { ArePicked c.now picks.now }
    ensures value { result ≡ passes (case_action c.now) (case_structure c.now) (assignment_of picks.now) }
    ensures scratch { scratch.new ≡ scratch.old }
{
    match &c.job.action.pre {
        None => true,
        Some(pre) => match eval(pre, c.from, picks, scratch) {
            K3::No => false,
            K3::Half | K3::Yes => true,
        },
    }
}

/// Where what the action gives may differ from a structure that it is applied to.
fn reach_of<'a>(job: &'a Job<'_>) -> Reach<'a>
    ensures { IsReachOf (action_in job.now) job.now.plan result }
{
    if moves(job.action) {
        return Reach::Anywhere;
    }
    Reach::Of(job.action.updates.as_slice(), job.plan.as_slice())
}

/// Applies the action under picked individuals that pass its precondition. What it gives is coerced, blurred
/// and put behind the others.
fn apply_under(
    c: &Case,
    picks: &Assignment,
    scratch: &mut Scratch,
    out: &mut Structures,
) -> Result<(), StageError>
    requires case { IsCase c.now scratch.old }
    requires picks { ArePicked c.now picks.now }
    requires passed { passes (case_action c.now) (case_structure c.now) (assignment_of picks.now) ≡ true }
    ensures out { OnOk result (Adds (PickGives (case_program c.now) (case_mode c.now) (case_action c.now)
        (case_structure c.now)) (assignment_of picks.now) out.old out.new) }
    ensures within { OnOk result
        (PickKeepsLimits (case_action c.now) (case_structure c.now) (assignment_of picks.now)) }
    ensures cause { IfErr result
        (IsCauseOfPick (case_action c.now) (case_structure c.now) (assignment_of picks.now)) }
    ensures scratch { scratch.new ≡ scratch.old }
{
    let x = c.setting;
    let given = update_by_plan(
        x.alloc,
        x.program,
        c.job.number,
        x.mode,
        &c.job.plan,
        c.from,
        picks,
        scratch,
    )?;
    let parent = Parent {
        from: c.from,
        reach: reach_of(c.job),
        redefined: Redefined {
            preds: c.job.plan.as_slice(),
            defining: c.job.defining.as_slice(),
        },
    };
    coerce_all(
        x,
        Ending::Blurred,
        &c.job.waiting,
        &parent,
        given,
        scratch,
        out,
    )?;
    Ok(())
}

/// Applies the action under the picked individuals, unless its precondition is `No` there.
fn apply_if_passed(
    c: &Case,
    picks: &Assignment,
    scratch: &mut Scratch,
    out: &mut Structures,
) -> Result<(), StageError>
    requires case { IsCase c.now scratch.old }
    requires picks { ArePicked c.now picks.now }
    ensures out { OnOk result (Adds (PickGives (case_program c.now) (case_mode c.now) (case_action c.now)
        (case_structure c.now)) (assignment_of picks.now) out.old out.new) }
    ensures within { OnOk result
        (PickKeepsLimits (case_action c.now) (case_structure c.now) (assignment_of picks.now)) }
    ensures cause { IfErr result
        (IsCauseOfPick (case_action c.now) (case_structure c.now) (assignment_of picks.now)) }
    ensures scratch { scratch.new ≡ scratch.old }
{
    if !is_passed(c, picks, scratch) {
        return Ok(());
    }
    apply_under(c, picks, scratch, out)
}

/// The values of the precondition for all individuals, put for `v`; `Yes` where there is none.
fn precondition_row(c: &Case, v: Var, picks: &Assignment, scratch: &mut Scratch) -> Row
    requires case { IsCase c.now scratch.old }
    requires variable { IsVariable v.0 }
    requires picks { ArePickedBut c.now (v.0 ∷ []) picks.now }
    ensures row { result ≡ precondition_values (case_action c.now) (case_structure c.now)
        (assignment_of picks.now) v.0 }
    ensures scratch { scratch.new ≡ scratch.old }
{
    match &c.job.action.pre {
        None => Row::of(c.from.size(), K3::Yes),
        Some(pre) => {
            let mut evaluator = Evaluator::new(c.from, scratch);
            let row = evaluator.row(pre, v, picks);
            evaluator.finish(scratch);
            row
        }
    }
}

/// Applies the action with each individual put for the last variable. Only those are tried under which the
/// precondition isn't `No`, which one row of its values tells.
fn pick_last(
    c: &Case,
    v: Var,
    picks: &Assignment,
    scratch: &mut Scratch,
    out: &mut Structures,
) -> Result<(), StageError>
    requires case { IsCase c.now scratch.old }
    requires variable { IsVariable v.0 }
    requires picks { ArePickedBut c.now (v.0 ∷ []) picks.now }
    ensures out { OnOk result (Adds (PicksGive (case_program c.now) (case_mode c.now) (case_action c.now)
        (case_structure c.now) (v.0 ∷ [])) (assignment_of picks.now) out.old out.new) }
    ensures within { OnOk result (PicksKeepLimits (case_action c.now) (case_structure c.now)
        (v.0 ∷ []) (assignment_of picks.now)) }
    ensures cause { IfErr result (IsCauseOfPicks (case_action c.now) (case_structure c.now)
        (v.0 ∷ []) (assignment_of picks.now)) }
    ensures scratch { scratch.new ≡ scratch.old }
{
    let row = precondition_row(c, v, picks, scratch);
    let mut here = *picks;
    let mut from = 0;
    while let Some(u) = row.next_possible(from) {
        here.set(v, u);
        apply_under(c, &here, scratch, out)?;
        from = u + 1;
    }
    Ok(())
}

/// Applies the action with each list of individuals put for the variables that are left, in lexicographic
/// order.
#[cycle(picked)]
fn pick_left(
    c: &Case,
    left: &[Var],
    picks: &Assignment,
    scratch: &mut Scratch,
    out: &mut Structures,
) -> Result<(), StageError>
    requires case { IsCase c.now scratch.old }
    requires left { All IsVariable (picks_of left.now) }
    requires picks { ArePickedBut c.now (picks_of left.now) picks.now }
    ensures out { OnOk result (Adds (PicksGive (case_program c.now) (case_mode c.now) (case_action c.now)
        (case_structure c.now) (picks_of left.now)) (assignment_of picks.now) out.old out.new) }
    ensures within { OnOk result (PicksKeepLimits (case_action c.now) (case_structure c.now)
        (picks_of left.now) (assignment_of picks.now)) }
    ensures cause { IfErr result (IsCauseOfPicks (case_action c.now) (case_structure c.now)
        (picks_of left.now) (assignment_of picks.now)) }
    ensures scratch { scratch.new ≡ scratch.old }
{
    match left {
        [] => apply_if_passed(c, picks, scratch, out),
        [v, rest @ ..] => pick_each(c, *v, rest, picks, scratch, out),
    }
}

/// Applies the action with each individual put for `v`, and each list for the variables that are left.
#[cycle(picked)]
fn pick_each(
    c: &Case,
    v: Var,
    left: &[Var],
    picks: &Assignment,
    scratch: &mut Scratch,
    out: &mut Structures,
) -> Result<(), StageError>
    requires case { IsCase c.now scratch.old }
    requires variable { IsVariable v.0 }
    requires left { All IsVariable (picks_of left.now) }
    requires picks { ArePickedBut c.now (v.0 ∷ picks_of left.now) picks.now }
    ensures out { OnOk result (Adds (PicksGive (case_program c.now) (case_mode c.now) (case_action c.now)
        (case_structure c.now) (v.0 ∷ picks_of left.now)) (assignment_of picks.now) out.old out.new) }
    ensures within { OnOk result (PicksKeepLimits (case_action c.now) (case_structure c.now)
        (v.0 ∷ picks_of left.now) (assignment_of picks.now)) }
    ensures cause { IfErr result (IsCauseOfPicks (case_action c.now) (case_structure c.now)
        (v.0 ∷ picks_of left.now) (assignment_of picks.now)) }
    ensures scratch { scratch.new ≡ scratch.old }
{
    if left.is_empty() {
        return pick_last(c, v, picks, scratch, out);
    }
    let mut here = *picks;
    for u in 0..c.from.size() {
        here.set(v, u);
        pick_left(c, left, &here, scratch, out)?;
    }
    Ok(())
}

/// Applies the action to the structure under all that it may pick, and puts what it gives behind the others.
pub fn apply_action(c: &Case, scratch: &mut Scratch, out: &mut Structures) -> Result<(), StageError>
    requires case { IsCase c.now scratch.old }
    ensures out { OnOk result (Adds (StepsIn (case_program c.now) (case_mode c.now) (case_action c.now))
        (case_structure c.now) out.old out.new) }
    ensures within { OnOk result (KeepsUpdateLimits (case_action c.now) (case_structure c.now)) }
    ensures cause { IfErr result (IsCauseOfUpdate (case_action c.now) (case_structure c.now)) }
    ensures scratch { scratch.new ≡ scratch.old }
{
    let picked = c.job.action.picks.as_slice();
    if !are_few(c.from.size(), picked.len()) {
        return Err(StageError::Splits);
    }
    pick_left(c, picked, &Assignment::new(), scratch, out)
}
