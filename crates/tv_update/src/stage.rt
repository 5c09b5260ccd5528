//! What an action does to a structure.

ghost use Rattle.std.specs.Prelude.{◌≡◌, ◌<◌, ◌≤◌, [], ◌∷◌, length, map, All, IfOk, IfErr, OnOk};
ghost use Rattle.tv_model.specs.Program.{program_of, action_of};
ghost use Rattle.tv_model.specs.Valid.{IsValid};
ghost use Rattle.tv_structure_form.specs.Halves.{row_halves};
ghost use Rattle.tv_structure_form.specs.StructureForm.{IsOver, structure_of};
ghost use Rattle.tv_eval.specs.AssignmentForm.{IsAssigned, assignment_of};
ghost use Rattle.tv_eval.specs.ScratchForm.{IsMadeFor};
ghost use Rattle.tv_update_laws.specs.Choices.{AreGiven};
ghost use Rattle.tv_update_laws.specs.Tables.{middle_table, IsGivenOver};
ghost use Rattle.tv_update.specs.Applying.{CanBeApplied, IsUpdated, IsPlanOf, IsGivenBy, IsAnswerTo};
ghost use Rattle.tv_update.specs.Applying.{IsCauseFor, values_to_keep};
ghost use Rattle.tv_update.specs.Plan.{IsPlanFor};
ghost use Rattle.tv_update.specs.Staying.{AllStay, IsStaying};
ghost use Rattle.tv_update.specs.Update.{action_at, IsWithinLimits, IsUpdateCause, IsSole, KeepsSteps};
ghost use Rattle.tv_update.specs.Update.{IsFull, IsGivenOf};
ghost use Rattle.tv_update.specs.Updated.{IsPrepareCause, keep_values};

use crate::application::Application;
use crate::definitions::order_of;
use crate::kept::{Staying, choices};
use crate::new::{self, Recipe, new_structures, whole_structure};
use crate::plan::{Order, Plan, plan_for};
use crate::prepare::{Prepared, prepare, stays_unasked};
use crate::rows::Rows;
use crate::updates::make_all;
use std::alloc::{AllocError, Global};
use tv_eval::{Assignment, Evaluator, Scratch};
use tv_kleene::K3;
use tv_model::{Mode, Program};
use tv_struct::{StageError, Structure, Structures};

/// The most individuals of a structure.
const MAX_INDIVIDUALS: u32 = 256;

/// Reads all that is read in the middle structure, with the room of the scratch.
fn read(
    alloc: Global,
    applied: &Application,
    middle: &Structure,
    scratch: &mut Scratch,
) -> Result<Prepared, StageError>
    requires can { CanBeApplied applied.now middle.now scratch.old }
    ensures staying { IfOk result
        (λ x. IsStaying (values_to_keep applied.now middle.now) x.staying) }
    ensures few { OnOk result (row_halves (values_to_keep applied.now middle.now) ≤ 12) }
    ensures made { IfOk result (λ x. IsUpdated applied.now middle.now x.updated) }
    ensures cause { IfErr result (IsPrepareCause (values_to_keep applied.now middle.now)) }
    ensures scratch { scratch.new ≡ scratch.old }
{
    let mut e = Evaluator::new(middle, scratch);
    let prepared = prepare(alloc, applied, middle, &mut e);
    e.finish(scratch);
    prepared
}

/// Makes the updates that count in `t`, an equal of the middle structure, with the room of the scratch.
fn update_copy(
    alloc: Global,
    applied: &Application,
    middle: &Structure,
    t: &mut Structure,
    scratch: &mut Scratch,
) -> Result<(), AllocError>
    requires can { CanBeApplied applied.now middle.now scratch.old }
    requires same { t.old ≡ middle.now }
    ensures made { OnOk result (IsUpdated applied.now middle.now t.new) }
    ensures scratch { scratch.new ≡ scratch.old }
{
    let mut e = Evaluator::new(middle, scratch);
    let mut rows = Rows::new(alloc, middle.size());
    let made = make_all(
        applied,
        &mut e,
        applied.action.updates.as_slice(),
        t,
        &mut rows,
    );
    e.finish(scratch);
    made
}

/// Makes what the action gives of `t`, an equal of the middle structure, where all individuals stay: it loses
/// its mark alone.
fn finish_copy(
    alloc: Global,
    applied: &Application,
    plan: &Plan,
    middle: &Structure,
    t: &mut Structure,
    scratch: &mut Scratch,
) -> Result<(), AllocError>
    requires can { CanBeApplied applied.now middle.now scratch.old }
    requires plan { IsPlanOf applied.now plan.now }
    requires whole { AllStay (values_to_keep applied.now middle.now) }
    requires same { t.old ≡ middle.now }
    ensures given { OnOk result (IsGivenBy applied.now middle.now (t.new ∷ [])) }
    ensures scratch { scratch.new ≡ scratch.old }
{
    update_copy(alloc, applied, middle, t, scratch)?;
    let _ = t.size();
    t.unmark();
    new::finish_whole(alloc, applied.program, plan.as_slice(), t, scratch)
}

/// The structures that the action gives, one for each choice of the individuals that stay by these values.
fn finish_by(
    alloc: Global,
    applied: &Application,
    plan: &Plan,
    middle: &Structure,
    updated: &Structure,
    values: &[K3],
    scratch: &mut Scratch,
) -> Result<Structures, AllocError>
    requires can { CanBeApplied applied.now middle.now scratch.old }
    requires plan { IsPlanOf applied.now plan.now }
    requires keep { values.now ≡ values_to_keep applied.now middle.now }
    requires made { IsUpdated applied.now middle.now updated.now }
    ensures given { IfOk result (IsGivenBy applied.now middle.now) }
    ensures scratch { scratch.new ≡ scratch.old }
{
    let _ = updated.size();
    let choices = choices(alloc, values)?;
    let recipe = Recipe {
        program: applied.program,
        order: plan.as_slice(),
        updated,
    };
    new_structures(alloc, &recipe, choices.as_slice(), scratch)
}

/// The only structure that the action gives, where all individuals stay.
fn finish_whole(
    alloc: Global,
    applied: &Application,
    plan: &Plan,
    middle: &Structure,
    updated: Structure,
    scratch: &mut Scratch,
) -> Result<Structures, AllocError>
    requires can { CanBeApplied applied.now middle.now scratch.old }
    requires plan { IsPlanOf applied.now plan.now }
    requires whole { AllStay (values_to_keep applied.now middle.now) }
    requires made { IsUpdated applied.now middle.now updated }
    ensures given { IfOk result (IsGivenBy applied.now middle.now) }
    ensures scratch { scratch.new ≡ scratch.old }
{
    let mut whole = updated;
    let _ = whole.size();
    whole.unmark();
    whole_structure(alloc, applied.program, plan.as_slice(), whole, scratch)
}

/// The structures that the action gives of what was read.
fn finish(
    alloc: Global,
    applied: &Application,
    plan: &Plan,
    middle: &Structure,
    prepared: Prepared,
    scratch: &mut Scratch,
) -> Result<Structures, AllocError>
    requires can { CanBeApplied applied.now middle.now scratch.old }
    requires plan { IsPlanOf applied.now plan.now }
    requires staying { IsStaying (values_to_keep applied.now middle.now) prepared.staying }
    requires made { IsUpdated applied.now middle.now prepared.updated }
    ensures given { IfOk result (IsGivenBy applied.now middle.now) }
    ensures scratch { scratch.new ≡ scratch.old }
{
    let Prepared { updated, staying } = prepared;
    match staying {
        Staying::Whole => finish_whole(alloc, applied, plan, middle, updated, scratch),
        Staying::By(values) => finish_by(
            alloc,
            applied,
            plan,
            middle,
            &updated,
            values.as_slice(),
            scratch,
        ),
    }
}

/// The only structure that the action gives, where it is known without reading that all individuals stay. It
/// is made in its place in the list.
fn give_whole(
    alloc: Global,
    applied: &Application,
    plan: &Plan,
    middle: &Structure,
    scratch: &mut Scratch,
) -> Result<Structures, AllocError>
    requires can { CanBeApplied applied.now middle.now scratch.old }
    requires plan { IsPlanOf applied.now plan.now }
    requires whole { AllStay (values_to_keep applied.now middle.now) }
    ensures given { IfOk result (IsGivenBy applied.now middle.now) }
    ensures scratch { scratch.new ≡ scratch.old }
{
    let mut only = Vec::with_capacity(alloc, 1)?;
    only.push(middle.copy(alloc)?)?;
    finish_copy(alloc, applied, plan, middle, &mut only[0], scratch)?;
    Ok(Structures::from_vec(only))
}

/// The structures that the action gives where this is the middle structure.
fn in_middle(
    alloc: Global,
    applied: &Application,
    plan: &Plan,
    middle: &Structure,
    scratch: &mut Scratch,
) -> Result<Structures, StageError>
    requires can { CanBeApplied applied.now middle.now scratch.old }
    requires plan { IsPlanOf applied.now plan.now }
    ensures given { IfOk result (IsGivenBy applied.now middle.now) }
    ensures few { OnOk result (row_halves (values_to_keep applied.now middle.now) ≤ 12) }
    ensures cause { IfErr result (IsPrepareCause (values_to_keep applied.now middle.now)) }
    ensures scratch { scratch.new ≡ scratch.old }
{
    if stays_unasked(applied) {
        return Ok(give_whole(alloc, applied, plan, middle, scratch)?);
    }
    let prepared = read(alloc, applied, middle, scratch)?;
    Ok(finish(alloc, applied, plan, middle, prepared, scratch)?)
}

/// The structures that the action gives, where `middle` is the middle structure of `s`.
fn answer(
    alloc: Global,
    applied: &Application,
    plan: &Plan,
    s: &Structure,
    middle: &Structure,
    scratch: &mut Scratch,
) -> Result<Structures, StageError>
    requires can { CanBeApplied applied.now s.now scratch.old }
    requires plan { IsPlanOf applied.now plan.now }
    requires middle { middle.now ≡ middle_table (action_of applied.now.action.now).fresh s.now }
    requires room { ¬ IsFull (action_of applied.now.action.now) s.now }
    ensures answer { IfOk result (IsAnswerTo applied.now s.now) }
    ensures cause { IfErr result (IsCauseFor applied.now s.now) }
    ensures scratch { scratch.new ≡ scratch.old }
{
    let _ = s.size();
    in_middle(alloc, applied, plan, middle, scratch)
}

/// The structures that the action gives from `s`.
fn apply(
    alloc: Global,
    applied: &Application,
    plan: &Plan,
    s: &Structure,
    scratch: &mut Scratch,
) -> Result<Structures, StageError>
    requires can { CanBeApplied applied.now s.now scratch.old }
    requires plan { IsPlanOf applied.now plan.now }
    ensures answer { IfOk result (IsAnswerTo applied.now s.now) }
    ensures cause { IfErr result (IsCauseFor applied.now s.now) }
    ensures scratch { scratch.new ≡ scratch.old }
{
    if !applied.action.fresh {
        return answer(alloc, applied, plan, s, s, scratch);
    }
    if s.size() == MAX_INDIVIDUALS {
        return Err(StageError::Individuals);
    }
    let middle = s.with_new(alloc)?;
    answer(alloc, applied, plan, s, &middle, scratch)
}

/// The structures that an action of the program gives from `s` under the picked individuals, one
/// for each choice of the individuals that stay, in order.
///
/// A further individual is added where the action says so; the result is the middle structure. Each
/// updated predicate gets, for each tuple, the value of its formula in the middle structure, where
/// the update's own variables stand for the tuple and the others for the picked individuals; a free
/// update gives `Half`. The retain formula keeps an individual at `Yes` and drops it at `No`; at
/// `Half` either is chosen, dropped before kept. A defined predicate with an update that counts
/// keeps what the update gave; one that is changed otherwise gets the values of its definition in
/// the new structure. In the mode `Recompute` updates of defined predicates don't count. No
/// individual is marked as fresh in the end.
///
/// Each heap, however large, that a fair step of the action makes of a concrete heap of `s` is a
/// heap of one of the structures, where the step picks what the map takes to the picked
/// individuals.
///
/// `Individuals` comes exactly where the action adds an individual to 256, and `Splits` exactly
/// where it doesn't and there are over 4,096 choices.
pub fn update(
    alloc: Global,
    program: &Program,
    action: u32,
    mode: Mode,
    s: &Structure,
    picks: &Assignment,
    scratch: &mut Scratch,
) -> Result<Structures, StageError>
    requires valid { IsValid (program_of program.now) }
    requires action { action < length program.now.actions }
    requires over { IsOver program.now.vocab s.now }
    requires picks { All (IsAssigned s.now.size picks.now) (action_at program.now action).picks }
    requires scratch { IsMadeFor (program_of program.now) 256 scratch.old }
    ensures given { IfOk result (λ ts. AreGiven (program_of program.now) mode
        (action_at program.now action) (structure_of s.now) (assignment_of picks.now)
        (map structure_of ts)) }
    ensures over { IfOk result (All (IsGivenOver s.now)) }
    ensures sole { IfOk result (IsSole (program_of program.now) mode (action_at program.now action)
        s.now (assignment_of picks.now)) }
    ensures within { OnOk result (IsWithinLimits (action_at program.now action) s.now
        (assignment_of picks.now)) }
    ensures cause { IfErr result (IsUpdateCause (action_at program.now action) s.now
        (assignment_of picks.now)) }
    ensures heaps { IfOk result (KeepsSteps (program_of program.now) mode
        (action_at program.now action) s.now (assignment_of picks.now)) }
    ensures scratch { scratch.new ≡ scratch.old }
{
    let order = order_of(alloc, program)?;
    let plan = plan_for(alloc, program, &order, action, mode)?;
    update_by_plan(alloc, program, action, mode, &plan, s, picks, scratch)
}

/// The structures that an action gives from `s` under the picked individuals, by a plan made before.
pub fn update_by_plan(
    alloc: Global,
    program: &Program,
    action: u32,
    mode: Mode,
    plan: &Plan,
    s: &Structure,
    picks: &Assignment,
    scratch: &mut Scratch,
) -> Result<Structures, StageError>
    requires valid { IsValid (program_of program.now) }
    requires action { action < length program.now.actions }
    requires plan { IsPlanFor (program_of program.now) mode (action_at program.now action) plan.now }
    requires over { IsOver program.now.vocab s.now }
    requires picks { All (IsAssigned s.now.size picks.now) (action_at program.now action).picks }
    requires scratch { IsMadeFor (program_of program.now) 256 scratch.old }
    ensures given { IfOk result (λ ts. AreGiven (program_of program.now) mode
        (action_at program.now action) (structure_of s.now) (assignment_of picks.now)
        (map structure_of ts)) }
    ensures over { IfOk result (All (IsGivenOver s.now)) }
    ensures sole { IfOk result (IsSole (program_of program.now) mode (action_at program.now action)
        s.now (assignment_of picks.now)) }
    ensures within { OnOk result (IsWithinLimits (action_at program.now action) s.now
        (assignment_of picks.now)) }
    ensures cause { IfErr result (IsUpdateCause (action_at program.now action) s.now
        (assignment_of picks.now)) }
    ensures heaps { IfOk result (KeepsSteps (program_of program.now) mode
        (action_at program.now action) s.now (assignment_of picks.now)) }
    ensures scratch { scratch.new ≡ scratch.old }
{
    let _ = s.size();
    let applied = Application {
        program,
        action: &program.actions.as_slice()[action as usize],
        mode,
        picks,
    };
    apply(alloc, &applied, plan, s, scratch)
}

/// What `update` gives where `middle` is the middle structure: the structure to start from, with the
/// further individual where the action adds one. The picked individuals are some of `middle`.
///
/// `Splits` comes exactly where the retain formula has over 12 unknown values, which is over 4,096 choices;
/// so at most 4,096 structures are given.
pub fn update_middle(
    alloc: Global,
    program: &Program,
    order: &Order,
    action: u32,
    mode: Mode,
    middle: &Structure,
    picks: &Assignment,
    scratch: &mut Scratch,
) -> Result<Structures, StageError>
    requires valid { IsValid (program_of program.now) }
    requires action { action < length program.now.actions }
    requires over { IsOver program.now.vocab middle.now }
    requires picks { All (IsAssigned middle.now.size picks.now) (action_at program.now action).picks }
    requires scratch { IsMadeFor (program_of program.now) 256 scratch.old }
    ensures given { IfOk result (IsGivenOf (program_of program.now) mode (action_at program.now action)
        (assignment_of picks.now) middle.now) }
    ensures few { IfOk result (λ ts. length ts ≤ 4096) }
    ensures within { OnOk result (row_halves (keep_values middle.now (assignment_of picks.now)
        (action_at program.now action).retain) ≤ 12) }
    ensures cause { IfErr result (IsPrepareCause (keep_values middle.now (assignment_of picks.now)
        (action_at program.now action).retain)) }
    ensures scratch { scratch.new ≡ scratch.old }
{
    let _ = middle.size();
    let plan = plan_for(alloc, program, order, action, mode)?;
    let applied = Application {
        program,
        action: &program.actions.as_slice()[action as usize],
        mode,
        picks,
    };
    in_middle(alloc, &applied, &plan, middle, scratch)
}
