//! Structures are followed level by level: those of one level are met in as many steps.

ghost use Rattle.std.specs.Prelude.{◌≡◌, length, IfErr, IfOk, OnOk};
ghost use Rattle.tv_work.specs.Explored.{IsTaskCause};
ghost use Rattle.tv_work.specs.Task.{task_of, IsReady};
ghost use Rattle.tv_trail.specs.Asked.{goal_of};
ghost use Rattle.tv_trail.specs.Searched.{IsState, Meets, AnswersLevel, AnswersSearch};
ghost use Rattle.tv_trail_laws.specs.Met.{IsFromBelow, IsLevel};

use crate::follow::follow;
use crate::quest::Quest;
use crate::search::Search;
use tv_step::Stepper;
use tv_work::WorkError;

/// The first place from `from` on and before `to` at which the goal is; those before it are followed.
fn follow_level(
    x: &Quest,
    from: usize,
    to: usize,
    stepper: &mut Stepper,
    search: &mut Search,
) -> Result<Option<usize>, WorkError>
    requires ready { IsReady x.now.task stepper.old }
    requires to { to ≡ length search.old.found }
    requires kept { IsState (task_of x.now.task) search.old }
    ensures kept { OnOk result (IsState (task_of x.now.task) search.new) }
    ensures meets { OnOk result (Meets (IsFromBelow to) search.old search.new) }
    ensures answer { IfOk result
        (AnswersLevel (task_of x.now.task) (goal_of x.now) from to search.new.found) }
    ensures cause { IfErr result (IsTaskCause (task_of x.now.task)) }
    ensures same { stepper.new ≡ stepper.old }
{
    for place in from..to {
        if follow(x, place, stepper, search)? {
            return Ok(Some(place));
        }
    }
    Ok(None)
}

/// The place of a goal that is met in as few steps as any, if one is reached.
pub(crate) fn find(
    x: &Quest,
    stepper: &mut Stepper,
    search: &mut Search,
) -> Result<Option<usize>, WorkError>
    requires ready { IsReady x.now.task stepper.old }
    requires kept { IsState (task_of x.now.task) search.old }
    requires level { IsLevel (task_of x.now.task) (goal_of x.now) search.old.found 0 0 }
    ensures kept { OnOk result (IsState (task_of x.now.task) search.new) }
    ensures answer { IfOk result (AnswersSearch (task_of x.now.task) (goal_of x.now) search.new.found) }
    ensures cause { IfErr result (IsTaskCause (task_of x.now.task)) }
    ensures same { stepper.new ≡ stepper.old }
{
    let mut from = 0;
    while from < search.len() {
        let to = search.len();
        if let Some(place) = follow_level(x, from, to, stepper, search)? {
            return Ok(Some(place));
        }
        from = to;
    }
    Ok(None)
}
