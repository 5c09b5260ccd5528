//! Focus, atom by atom.

ghost use Rattle.std.specs.Prelude.{◌≡◌, [], map, All, IfOk, IfErr, OnOk};
ghost use Rattle.tv_model.specs.Form.{form_of};
ghost use Rattle.tv_model.specs.Valid.{IsFormula};
ghost use Rattle.tv_step_laws.specs.Shaped.{IsShaped};
ghost use Rattle.tv_stages_laws.specs.Stages.{AreFocusRows, places_from};
ghost use Rattle.tv_stages.specs.Tasks.{IsReadyToRecord, task_program};
ghost use Rattle.tv_stages.specs.Turns.{StopsFocus, Turned, numbered_places};

use crate::task::{Task, Tools};
use crate::turn::{Progress, Turn, take_turn};
use tv_focus::FocusAtoms;
use tv_model::{Formula, Items};
use tv_struct::{StageError, Structures};

/// Takes the turns of a formula's atoms.
fn take_turns(
    x: &Task,
    tools: &mut Tools,
    number: usize,
    formula: &Formula,
    progress: &mut Progress,
) -> Result<(), StageError>
    requires ready { IsReadyToRecord x.now tools.old }
    requires formula { IsFormula (task_program x.now) (form_of formula.now) }
    requires shaped { All (IsShaped (task_program x.now)) progress.old.at_hand }
    ensures turned { OnOk result (Turned (task_program x.now)
        (numbered_places number (form_of formula.now)) progress.old progress.new) }
    ensures cause { IfErr result (StopsFocus (task_program x.now)
        (numbered_places number (form_of formula.now)) progress.old.at_hand) }
    ensures same { tools.new ≡ tools.old }
{
    let count = FocusAtoms::new(x.alloc, formula)?.count();
    for atom in 0..count {
        let turn = Turn {
            number,
            formula,
            atom,
        };
        take_turn(x, tools, &turn, progress)?;
    }
    Ok(())
}

/// Takes the turns of all atoms of these formulas, where `start` is at hand before the first.
pub(crate) fn focus(
    x: &Task,
    tools: &mut Tools,
    formulas: &[Formula],
    start: Structures,
) -> Result<Progress, StageError>
    requires ready { IsReadyToRecord x.now tools.old }
    requires formulas { All (IsFormula (task_program x.now)) (map form_of formulas.now) }
    requires shaped { All (IsShaped (task_program x.now)) start }
    ensures rows { IfOk result (λ progress. AreFocusRows (task_program x.now)
        (places_from 0 (map form_of formulas.now)) start progress.rows progress.at_hand) }
    ensures cause { IfErr result
        (StopsFocus (task_program x.now) (places_from 0 (map form_of formulas.now)) start) }
    ensures same { tools.new ≡ tools.old }
{
    let mut progress = Progress {
        rows: Items::new(x.alloc),
        at_hand: start,
    };
    for (number, formula) in formulas.iter().enumerate() {
        take_turns(x, tools, number, formula, &mut progress)?;
    }
    Ok(progress)
}
