//! The stages of a step, one after the other.

ghost use Rattle.std.specs.Prelude.{◌≡◌, ◌<◌, length, IfOk, IfErr, OnOk};
ghost use Rattle.tv_structure_form.specs.StructureForm.{IsOver};
ghost use Rattle.tv_step_laws.specs.Budgets.{IsStepCause, KeepsBudgets};
ghost use Rattle.tv_stages_laws.specs.Stages.{IsSlowStep};
ghost use Rattle.tv_stages.specs.Tasks.{IsReadyToRecord, task_program};

use crate::course::course_of;
use crate::fate::fate;
use crate::focus::focus;
use crate::kept::kept_by;
use crate::task::{Task, Tools};
use crate::turn::Progress;
use crate::updates::updates;
use tv_stages_laws::SlowStep;
use tv_step::StepOut;
use tv_struct::{StageError, Structure};

/// The step of the structure along the edge, stage by stage. The step itself is taken first, so that budgets
/// that it meets end the work before anything is recorded.
pub(crate) fn slow_step(
    x: &Task,
    tools: &mut Tools,
    edge: u32,
    s: &Structure,
) -> Result<SlowStep, StageError>
    requires ready { IsReadyToRecord x.now tools.old }
    requires edge { edge < length x.now.program.now.edges }
    requires over { IsOver x.now.program.now.vocab s.now }
    ensures slow { IfOk result (IsSlowStep (task_program x.now) x.now.mode edge s.now) }
    ensures budgets { OnOk result (KeepsBudgets (task_program x.now) edge s.now) }
    ensures cause { IfErr result (IsStepCause (task_program x.now) edge s.now) }
    ensures same { tools.new ≡ tools.old }
{
    let StepOut { results, .. } = tools.stepper.step(edge, s)?;
    let course = course_of(x, edge)?;
    let start = fate(x, tools, s)?;
    let at_hand = kept_by(x.alloc, &start)?;
    let Progress { rows, at_hand } = focus(x, tools, course.action.focus.as_slice(), at_hand)?;
    let updates = updates(x, tools, &course, at_hand)?;
    Ok(SlowStep {
        start,
        focus: rows,
        updates,
        results,
    })
}
