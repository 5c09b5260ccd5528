//! The turn of a focus atom.

ghost use Rattle.std.specs.Prelude.{◌≡◌, [], ◌∷◌, map, All, IfOk, IfErr, OnOk};
ghost use Rattle.std.specs.List.{AllZip};
ghost use Rattle.tv_focus.specs.Stage.{IsStageCause};
ghost use Rattle.tv_model.specs.Form.{form_of};
ghost use Rattle.tv_step_laws.specs.Shaped.{IsShaped};
ghost use Rattle.tv_step_laws.specs.Transfer.{IsTableOf, choices_at};
ghost use Rattle.tv_step.specs.Steps.{IsFocusCause, IsPlace};
ghost use Rattle.tv_stages_laws.specs.Stages.{IsFocusedAt};
ghost use Rattle.tv_stages.specs.Tasks.{task_program};
ghost use Rattle.tv_stages.specs.Turns.{CanFocus, Turned, turn_of, turn_place};

use crate::fate::choices;
use crate::kept::kept_behind;
use crate::task::{Task, Tools};
use tv_focus::focus_stage;
use tv_model::{Formula, Items};
use tv_stages_laws::{FocusRow, FocusRows, FocusedAt, FocusedEach};
use tv_struct::{StageError, Structure, Structures};

/// An atom of a focus formula, whose turn it is: the number of the formula among the action's, the formula,
/// and the atom's number in it.
#[derive(Clone, Copy)]
pub(crate) struct Turn<'a> {
    pub number: usize,
    pub formula: &'a Formula,
    pub atom: usize,
}

/// What is recorded of the turns so far, and what is at hand behind them.
#[derive(Drop)]
pub(crate) struct Progress {
    pub rows: FocusRows,
    pub at_hand: Structures,
}

/// The choices of the atom in the structure, in order.
fn stage(x: &Task, turn: &Turn, s: &Structure) -> Result<Structures, StageError>
    requires place { IsPlace (task_program x.now) (turn_place turn.now) }
    requires shaped { IsShaped (task_program x.now) s.now }
    ensures structures { IfOk result
        (λ ts. AllZip (IsTableOf (task_program x.now)) ts (choices_at s.now (turn_place turn.now))) }
    ensures cause { IfErr result (IsFocusCause (turn_place turn.now) (s.now ∷ [])) }
{
    focus_stage(x.alloc, &x.program.vocab, turn.formula, turn.atom, s)
}

/// The structure at hand, with each choice of the atom, and what coerce makes of it.
fn focused_at(
    x: &Task,
    tools: &mut Tools,
    turn: &Turn,
    s: &Structure,
) -> Result<FocusedAt, StageError>
    requires { CanFocus x.now tools.old turn.now (s.now ∷ []) }
    ensures at_hand { IfOk result (λ at. at.at_hand ≡ s.now) }
    ensures focused { IfOk result (IsFocusedAt (task_program x.now) (turn_place turn.now)) }
    ensures cause { IfErr result (IsFocusCause (turn_place turn.now) (s.now ∷ [])) }
    ensures same { tools.new ≡ tools.old }
{
    let structures = stage(x, turn, s)?;
    let choices = choices(x, tools, structures)?;
    let at_hand = s.copy(x.alloc)?;
    Ok(FocusedAt { at_hand, choices })
}

/// Each structure at hand, so focused.
fn focused_each(
    x: &Task,
    tools: &mut Tools,
    turn: &Turn,
    at_hand: &[Structure],
) -> Result<FocusedEach, StageError>
    requires { CanFocus x.now tools.old turn.now at_hand.now }
    ensures at_hand { IfOk result (λ each. map (λ at. at.at_hand) each ≡ at_hand.now) }
    ensures focused { IfOk result (All (IsFocusedAt (task_program x.now) (turn_place turn.now))) }
    ensures cause { IfErr result (IsFocusCause (turn_place turn.now) at_hand.now) }
    ensures same { tools.new ≡ tools.old }
{
    let mut each = Items::new(x.alloc);
    for s in at_hand {
        each.push(focused_at(x, tools, turn, s)?)?;
    }
    Ok(each)
}

/// Takes the turn of the atom: it is recorded, and what it keeps is at hand then.
pub(crate) fn take_turn(
    x: &Task,
    tools: &mut Tools,
    turn: &Turn,
    progress: &mut Progress,
) -> Result<(), StageError>
    requires { CanFocus x.now tools.old turn.now progress.old.at_hand }
    ensures turned { OnOk result
        (Turned (task_program x.now) (turn_of turn.now ∷ []) progress.old progress.new) }
    ensures cause { IfErr result (IsFocusCause (turn_place turn.now) progress.old.at_hand) }
    ensures same { tools.new ≡ tools.old }
{
    let at_hand = focused_each(x, tools, turn, progress.at_hand.as_slice())?;
    let row = FocusRow {
        formula: turn.number,
        atom: turn.atom,
        at_hand,
    };
    progress.at_hand = kept_behind(x.alloc, &row)?;
    progress.rows.push(row)?;
    Ok(())
}
