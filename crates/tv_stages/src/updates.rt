//! What an action gives from the structures at hand.

ghost use Rattle.std.specs.Prelude.{◌≡◌, ◌<◌, length, map, All, IfOk, IfErr};
ghost use Rattle.tv_structure_form.specs.StructureForm.{structure_of};
ghost use Rattle.tv_step_laws.specs.Shaped.{IsShaped};
ghost use Rattle.tv_step.specs.Steps.{IsCauseOfPick, IsCauseOfUpdate, IsCauseOfUpdates};
ghost use Rattle.tv_update_laws.specs.Picks.{lists_of, picks_of};
ghost use Rattle.tv_stages_laws.specs.Stages.{IsPickedUpdate, IsUpdatedAt};
ghost use Rattle.tv_stages.specs.Tasks.{CanUpdate, IsCourse, IsReadyToRecord, course_action, task_program};

use crate::course::{Case, Course, precondition, update};
use crate::fate::given_each;
use crate::lists::{Lists, all_lists, assigned};
use crate::task::{Task, Tools};
use tv_model::Items;
use tv_stages_laws::{Picked, PickedUpdate, PickedUpdates, UpdatedAt, UpdatedEach};
use tv_struct::{StageError, Structure, Structures};

/// What the action gives for picked individuals, and what becomes of it.
fn picked_update(
    x: &Task,
    tools: &mut Tools,
    case: &Case,
    individuals: Picked,
) -> Result<PickedUpdate, StageError>
    requires case { CanUpdate x.now tools.old case.now }
    requires count { length individuals ≡ length (course_action case.now.course.now).picks }
    requires individuals { All (λ u. u < case.now.from.now.size) individuals }
    ensures individuals { IfOk result (λ u. u.individuals ≡ individuals) }
    ensures update { IfOk result (IsPickedUpdate (task_program x.now) x.now.mode
        (course_action case.now.course.now) case.now.from.now) }
    ensures cause { IfErr result (IsCauseOfPick (course_action case.now.course.now) case.now.from.now
        (picks_of (course_action case.now.course.now) individuals)) }
    ensures same { tools.new ≡ tools.old }
{
    let picks = assigned(case.course.action.picks.as_slice(), individuals.as_slice());
    let value = precondition(&mut tools.stepper, case, &picks);
    let structures = update(x, tools, case, &picks, value)?;
    let given = given_each(x, tools, structures)?;
    Ok(PickedUpdate {
        individuals,
        value,
        given,
    })
}

/// The same for each of these lists of individuals.
fn picked_each(
    x: &Task,
    tools: &mut Tools,
    case: &Case,
    lists: Lists,
) -> Result<PickedUpdates, StageError>
    requires case { CanUpdate x.now tools.old case.now }
    requires lists { lists ≡ lists_of (structure_of case.now.from.now).individuals
        (length (course_action case.now.course.now).picks) }
    ensures individuals { IfOk result (λ each. map (λ u. u.individuals) each ≡ lists) }
    ensures updates { IfOk result (All (IsPickedUpdate (task_program x.now) x.now.mode
        (course_action case.now.course.now) case.now.from.now)) }
    ensures cause { IfErr result (IsCauseOfUpdate (course_action case.now.course.now) case.now.from.now) }
    ensures same { tools.new ≡ tools.old }
{
    let mut each = Items::new(x.alloc);
    for individuals in lists.into_vec() {
        each.push(picked_update(x, tools, case, individuals)?)?;
    }
    Ok(each)
}

/// All that the action gives from a structure at hand.
fn updated_at(
    x: &Task,
    tools: &mut Tools,
    course: &Course,
    s: Structure,
) -> Result<UpdatedAt, StageError>
    requires ready { IsReadyToRecord x.now tools.old }
    requires course { IsCourse x.now course.now }
    requires shaped { IsShaped (task_program x.now) s }
    ensures at_hand { IfOk result (λ at. at.at_hand ≡ s) }
    ensures updated { IfOk result
        (IsUpdatedAt (task_program x.now) x.now.mode (course_action course.now)) }
    ensures cause { IfErr result (IsCauseOfUpdate (course_action course.now) s) }
    ensures same { tools.new ≡ tools.old }
{
    let lists = all_lists(x.alloc, s.size(), course.action.picks.len())?;
    let picks = picked_each(x, tools, &Case { course, from: &s }, lists)?;
    Ok(UpdatedAt { at_hand: s, picks })
}

/// All that the action gives from the structures at hand.
pub(crate) fn updates(
    x: &Task,
    tools: &mut Tools,
    course: &Course,
    at_hand: Structures,
) -> Result<UpdatedEach, StageError>
    requires ready { IsReadyToRecord x.now tools.old }
    requires course { IsCourse x.now course.now }
    requires shaped { All (IsShaped (task_program x.now)) at_hand }
    ensures at_hand { IfOk result (λ each. map (λ at. at.at_hand) each ≡ at_hand) }
    ensures updated { IfOk result
        (All (IsUpdatedAt (task_program x.now) x.now.mode (course_action course.now))) }
    ensures cause { IfErr result (IsCauseOfUpdates (course_action course.now) at_hand) }
    ensures same { tools.new ≡ tools.old }
{
    let mut each = Items::new(x.alloc);
    for s in at_hand.into_vec() {
        each.push(updated_at(x, tools, course, s)?)?;
    }
    Ok(each)
}
