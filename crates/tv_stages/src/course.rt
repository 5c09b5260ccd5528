//! The action of an edge, made ready for updates.

ghost use Rattle.std.specs.Prelude.{ℕ, ◌≡◌, ◌<◌, List, length, slice_get, All, Contains, IfOk, IfErr, Some};
ghost use Rattle.tv_eval.specs.AssignmentForm.{IsAssigned, assignment_of};
ghost use Rattle.tv_model.specs.Program.{action_of, program_of};
ghost use Rattle.tv_model.specs.Valid.{IsValid};
ghost use Rattle.tv_step_laws.specs.Shaped.{IsShaped};
ghost use Rattle.tv_step_laws.specs.Transfer.{IsActionOf};
ghost use Rattle.tv_structure_form.specs.StructureForm.{structure_of};
ghost use Rattle.tv_step.specs.Steps.{IsCauseOfPick};
ghost use Rattle.tv_update_laws.specs.Picks.{picks_of, precondition_value};
ghost use Rattle.tv_stages_laws.specs.Stages.{GivesAt};
ghost use Rattle.tv_stages.specs.Tasks.{CanUpdate, IsCourse, course_action, task_program};

use crate::task::{Task, Tools};
use std::alloc::AllocError;
use tv_eval::Assignment;
use tv_kleene::K3;
use tv_model::{Action, Edge, Program};
use tv_step::Stepper;
use tv_struct::{StageError, Structure, Structures};
use tv_update::{Plan, order_of, plan_for, update_by_plan};

/// An action, its number, and by what plan its updates are made.
#[derive(Drop)]
pub(crate) struct Course<'a> {
    pub action: &'a Action,
    pub number: u32,
    pub plan: Plan,
}

/// The edge of this number.
fn edge_at(program: &Program, number: u32) -> Edge
    requires { number < length program.now.edges }
    ensures { slice_get program.now.edges number ≡ Some result }
{
    program.edges.as_slice()[number as usize]
}

/// The action of this number.
fn action_at(program: &Program, number: u32) -> &Action
    requires { number < length program.now.actions }
    ensures { slice_get (program_of program.now).actions number ≡ Some (action_of result.now) }
{
    &program.actions.as_slice()[number as usize]
}

/// The action of the edge of this number.
pub(crate) fn course_of<'a>(x: &Task<'a, '_>, edge: u32) -> Result<Course<'a>, AllocError>
    requires valid { IsValid (task_program x.now) }
    requires edge { edge < length x.now.program.now.edges }
    ensures course { IfOk result (IsCourse x.now) }
    ensures action { IfOk result (λ course. IsActionOf (task_program x.now) edge (course_action course)) }
{
    let number = edge_at(x.program, edge).action;
    let order = order_of(x.alloc, x.program)?;
    let plan = plan_for(x.alloc, x.program, &order, number, x.mode)?;
    let action = action_at(x.program, number);
    Ok(Course {
        action,
        number,
        plan,
    })
}

/// An action, and a structure at hand from which it gives something.
#[derive(Clone, Copy)]
pub(crate) struct Case<'a, 'b> {
    pub course: &'a Course<'b>,
    pub from: &'a Structure,
}

/// The value of the precondition under the picked individuals, `Yes` where there is none.
pub(crate) fn precondition(stepper: &mut Stepper, case: &Case, picks: &Assignment) -> K3
    requires valid { IsValid (program_of stepper.old.program) }
    requires action { Contains (program_of stepper.old.program).actions (course_action case.now.course.now) }
    requires shaped { IsShaped (program_of stepper.old.program) case.now.from.now }
    requires picks { All (IsAssigned case.now.from.now.size picks.now)
        (course_action case.now.course.now).picks }
    ensures value { result ≡ precondition_value (structure_of case.now.from.now) (assignment_of picks.now)
        (course_action case.now.course.now).pre }
    ensures same { stepper.new ≡ stepper.old }
{
    let _ = case.from.size();
    match &case.course.action.pre {
        None => K3::Yes,
        Some(pre) => stepper.value(pre, case.from, picks),
    }
}

/// The structures that the action gives under the picked individuals, where the precondition has this value:
/// none where it is `No`.
pub(crate) fn update(
    x: &Task,
    tools: &mut Tools,
    case: &Case,
    picks: &Assignment,
    value: K3,
) -> Result<Structures, StageError>
    requires case { CanUpdate x.now tools.old case.now }
    requires picks { All (IsAssigned case.now.from.now.size picks.now)
        (course_action case.now.course.now).picks }
    requires value { value ≡ precondition_value (structure_of case.now.from.now) (assignment_of picks.now)
        (course_action case.now.course.now).pre }
    ensures gives { IfOk result (λ ts. (picked : List ℕ)
        → assignment_of picks.now ≡ picks_of (course_action case.now.course.now) picked
        → GivesAt value (task_program x.now) x.now.mode
        (course_action case.now.course.now) case.now.from.now picked ts) }
    ensures shaped { IfOk result (All (IsShaped (task_program x.now))) }
    ensures cause { IfErr result (IsCauseOfPick (course_action case.now.course.now) case.now.from.now
        (assignment_of picks.now)) }
    ensures same { tools.new ≡ tools.old }
{
    match value {
        K3::No => Ok(Structures::new(x.alloc)),
        K3::Half | K3::Yes => update_by_plan(
            x.alloc,
            x.program,
            case.course.number,
            x.mode,
            &case.course.plan,
            case.from,
            picks,
            &mut tools.scratch,
        ),
    }
}
