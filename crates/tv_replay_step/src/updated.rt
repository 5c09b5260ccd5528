//! The updates of an action, made of a heap.

ghost use Rattle.std.specs.Prelude.{ℕ, ◌≡◌, ◌∷◌, ◌<◌, [], List, length, All, IfOk, IfErr};
ghost use Rattle.tv_eval.specs.AssignmentForm.{IsAssigned, assignment_of};
ghost use Rattle.tv_eval.specs.ScratchForm.{IsMadeFor};
ghost use Rattle.tv_model.specs.Valid.{IsValid};
ghost use Rattle.tv_model.specs.declared.program.Mode.TheVariants.{Given};
ghost use Rattle.tv_structure_form.specs.Halves.{row_halves};
ghost use Rattle.tv_structure_form.specs.StructureForm.{StructureForm, IsOver};
ghost use Rattle.tv_update.specs.Update.{IsGivenOf};
ghost use Rattle.tv_update.specs.Updated.{keep_values};
ghost use Rattle.tv_replay_step.specs.Ready.{CanAct};
ghost use Rattle.tv_replay_step.specs.Turns.{action_along, program_in};
ghost use Rattle.tv_replay_step.specs.Updated.{IsUpdatedTo};
ghost use Rattle.tv_replay_step.specs.declared.moved.Halt.TheVariants.{Memory};

use crate::moved::Halt;
use crate::step::EdgeAction;
use tv_eval::{Assignment, Scratch};
use tv_model::Mode;
use tv_struct::{StageError, Structure, Structures, Table};
use tv_update::update_middle;

/// The only structure of the list.
fn only(all: Structures) -> Structure
    requires { length all ≡ 1 }
    ensures { all ≡ result ∷ [] }
{
    match all.into_vec().pop() {
        Some(t) => t,
        None => unreachable!(),
    }
}

/// What the action makes of the middle structure, where there is one choice of the individuals that stay.
fn updated_in(
    turn: &EdgeAction<'_>,
    middle: &Structure,
    picks: &Assignment,
    scratch: &mut Scratch,
) -> Result<Structure, Halt>
    requires valid { IsValid (program_in turn.now) }
    requires action { turn.now.edge.now.action < length turn.now.program.now.actions }
    requires over { IsOver turn.now.program.now.vocab middle.now }
    requires picks { All (IsAssigned middle.now.size picks.now) (action_along turn.now).picks }
    requires settled { row_halves (keep_values middle.now (assignment_of picks.now)
        (action_along turn.now).retain) ≡ 0 }
    requires one { (ts : List StructureForm) → IsGivenOf (program_in turn.now) Given
        (action_along turn.now) (assignment_of picks.now) middle.now ts → length ts ≡ 1 }
    requires scratch { IsMadeFor (program_in turn.now) 256 scratch.old }
    ensures given { IfOk result (λ t. IsGivenOf (program_in turn.now) Given (action_along turn.now)
        (assignment_of picks.now) middle.now (t ∷ [])) }
    ensures memory { IfErr result (λ e. e ≡ Memory) }
    ensures scratch { scratch.new ≡ scratch.old }
{
    match update_middle(
        turn.alloc,
        turn.program,
        turn.order,
        turn.edge.action,
        Mode::Given,
        middle,
        picks,
        scratch,
    ) {
        Ok(all) => Ok(only(all)),
        Err(StageError::Memory) => Err(Halt::Memory),
        Err(StageError::Splits | StageError::Individuals) => unreachable!(),
    }
}

/// What the action makes of the heap that `s` stands for, with the values that updates are given for defined
/// predicates, and `Half` at freely updated ones.
pub fn updated(
    turn: &EdgeAction<'_>,
    s: &Structure,
    picks: &Assignment,
    scratch: &mut Scratch,
) -> Result<Structure, Halt>
    requires action { turn.now.edge.now.action < length turn.now.program.now.actions }
    requires fresh { (action_along turn.now).fresh ≡ turn.now.action.now.fresh }
    requires over { IsOver turn.now.program.now.vocab s.now }
    requires can { CanAct (program_in turn.now) (action_along turn.now) s.now picks.now }
    requires scratch { IsMadeFor (program_in turn.now) 256 scratch.old }
    ensures updated { IfOk result (IsUpdatedTo (program_in turn.now) (action_along turn.now)
        (assignment_of picks.now) s.now) }
    ensures memory { IfErr result (λ e. e ≡ Memory) }
    ensures scratch { scratch.new ≡ scratch.old }
{
    if turn.action.fresh {
        let middle = s.with_new(turn.alloc)?;
        updated_in(turn, &middle, picks, scratch)
    } else {
        updated_in(turn, s, picks, scratch)
    }
}
