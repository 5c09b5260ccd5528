//! Structures are opened and followed.

ghost use Rattle.std.specs.Prelude.{ℕ, ◌≡◌, ◌<◌, length, slice_get, IfErr, OnOk, IfOk, Some};
ghost use Rattle.tv_model.specs.Program.{program_of};
ghost use Rattle.tv_structure_form.specs.StructureForm.{StructureForm};
ghost use Rattle.tv_work.specs.Explored.{IsTaskCause};
ghost use Rattle.tv_work.specs.Task.{task_of, IsReady};
ghost use Rattle.tv_trail.specs.Asked.{goal_of};
ghost use Rattle.tv_trail.specs.Searched.{IsState, Meets, IsFrom, LeavesAt, AnswersAlong, AnswersHere};
ghost use Rattle.tv_trail_laws.specs.Met.{IsFirst, AreOpenedIn};

use crate::goal::{is_there, raises};
use crate::quest::Quest;
use crate::search::Search;
use tv_step::Stepper;
use tv_struct::Structure;
use tv_trail_laws::Origin;
use tv_work::{Task, WorkError};

/// Meets the opening of an initial structure at the start node, if it has one.
fn open(
    x: &Task,
    number: usize,
    s: &Structure,
    stepper: &mut Stepper,
    search: &mut Search,
) -> Result<(), WorkError>
    requires ready { IsReady x.now stepper.old }
    requires initial { slice_get x.now.initial.now number ≡ Some s.now }
    requires kept { IsState (task_of x.now) search.old }
    ensures kept { OnOk result (IsState (task_of x.now) search.new) }
    ensures meets { OnOk result (Meets IsFirst search.old search.new) }
    ensures opened { OnOk result (AreOpenedIn (task_of x.now) search.new.found s.now) }
    ensures cause { IfErr result (IsTaskCause (task_of x.now)) }
    ensures same { stepper.new ≡ stepper.old }
{
    match stepper.opening(s)? {
        None => Ok(()),
        Some(t) => search.meet(0, t, Origin::Initial(number), x.max),
    }
}

/// Meets the openings of all initial structures at the start node.
pub(crate) fn open_all(
    x: &Task,
    stepper: &mut Stepper,
    search: &mut Search,
) -> Result<(), WorkError>
    requires ready { IsReady x.now stepper.old }
    requires kept { IsState (task_of x.now) search.old }
    ensures kept { OnOk result (IsState (task_of x.now) search.new) }
    ensures meets { OnOk result (Meets IsFirst search.old search.new) }
    ensures opened { OnOk result ((number : ℕ) → (s : StructureForm)
        → slice_get x.now.initial.now number ≡ Some s → AreOpenedIn (task_of x.now) search.new.found s) }
    ensures cause { IfErr result (IsTaskCause (task_of x.now)) }
    ensures same { stepper.new ≡ stepper.old }
{
    for (number, s) in x.initial.iter().enumerate() {
        open(x, number, s, stepper, search)?;
    }
    Ok(())
}

/// Follows the structure at the place along an edge, and tells whether the message of the goal has its value
/// there; where it hasn't, the results are met at the edge's target.
fn follow_along(
    x: &Quest,
    place: usize,
    edge: u32,
    stepper: &mut Stepper,
    search: &mut Search,
) -> Result<bool, WorkError>
    requires ready { IsReady x.now.task stepper.old }
    requires place { place < length search.old.found }
    requires edge { LeavesAt (program_of x.now.task.program.now) search.old.found place edge }
    requires kept { IsState (task_of x.now.task) search.old }
    ensures kept { OnOk result (IsState (task_of x.now.task) search.new) }
    ensures meets { OnOk result (Meets (IsFrom place) search.old search.new) }
    ensures answer { IfOk result (AnswersAlong (task_of x.now.task) x.now.goal place edge search.new.found) }
    ensures cause { IfErr result (IsTaskCause (task_of x.now.task)) }
    ensures same { stepper.new ≡ stepper.old }
{
    let seen = search.at(place);
    let out = stepper.stable_step(edge, seen.structure)?;
    if raises(&x.goal, edge, out.messages.as_slice()) {
        return Ok(true);
    }
    let origin = Origin::Step {
        before: place,
        edge,
    };
    let to = x.task.program.edges.as_slice()[edge as usize].to;
    search.meet_all(to, out.results, origin, x.task.max)?;
    Ok(false)
}

/// Tells whether the goal is at the place; where it isn't, the structure is followed along each edge that
/// leaves its node.
pub(crate) fn follow(
    x: &Quest,
    place: usize,
    stepper: &mut Stepper,
    search: &mut Search,
) -> Result<bool, WorkError>
    requires ready { IsReady x.now.task stepper.old }
    requires place { place < length search.old.found }
    requires kept { IsState (task_of x.now.task) search.old }
    ensures kept { OnOk result (IsState (task_of x.now.task) search.new) }
    ensures meets { OnOk result (Meets (IsFrom place) search.old search.new) }
    ensures answer { IfOk result (AnswersHere (task_of x.now.task) (goal_of x.now) place search.new.found) }
    ensures cause { IfErr result (IsTaskCause (task_of x.now.task)) }
    ensures same { stepper.new ≡ stepper.old }
{
    let seen = search.at(place);
    let node = seen.node;
    if is_there(&x.goal, node, seen.structure) {
        return Ok(true);
    }
    for edge in x.task.leaving[node as usize].as_slice() {
        if follow_along(x, place, *edge, stepper, search)? {
            return Ok(true);
        }
    }
    Ok(false)
}
