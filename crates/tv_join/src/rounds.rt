//! The rounds.

ghost use Rattle.std.specs.Prelude.{◌≡◌, IfOk, IfErr, OnOk, List, length};
ghost use Rattle.tv_kleene.specs.declared.K3.{K3};
ghost use Rattle.tv_work.specs.Task.{task_of};
ghost use Rattle.tv_join.specs.Stepped.{IsAtSomeRound, IsAtLastRound, IsRoundOn};
ghost use Rattle.tv_join.specs.Task.{IsReadyWithKeys, IsRoundsCause};

use crate::follow::{follow_all, openings};
use crate::joins::Joins;
use crate::keyed::KeyedTask;
use crate::telling::tell_all;
use crate::values::MessageValues;
use tv_step::Stepper;
use tv_work::{Told, WorkError};

/// What the last round lists, and the values of its messages.
#[derive(Drop)]
pub(crate) struct Ended {
    pub joins: Joins,
    pub told: Told,
}

/// What the first round lists; none of it was followed.
fn start(x: &KeyedTask, stepper: &mut Stepper) -> Result<Joins, WorkError>
    requires ready { IsReadyWithKeys x.now stepper.old }
    ensures at { IfOk result (λ joins. (values : List (List (List K3)))
        → IsAtSomeRound (task_of x.now.task) joins values) }
    ensures cause { IfErr result (IsRoundsCause (task_of x.now.task)) }
    ensures same { stepper.new ≡ stepper.old }
{
    let mut joins = Joins::new(x.task.alloc, x.task.program.nodes.len(), x.task.max)?;
    let found = openings(&x.task, stepper)?;
    joins.meet_all(x, found)?;
    Ok(joins)
}

/// Goes one round on. Only what changed is followed: the results of all else are absorbed, so joining them
/// once more would change nothing.
fn round(
    x: &KeyedTask,
    stepper: &mut Stepper,
    joins: &mut Joins,
    values: &mut MessageValues,
) -> Result<(), WorkError>
    requires ready { IsReadyWithKeys x.now stepper.old }
    requires edges { length values.old ≡ length x.now.task.program.now.edges }
    requires at { IsAtSomeRound (task_of x.now.task) joins.old values.old }
    ensures on { OnOk result (IsRoundOn (task_of x.now.task) joins.old joins.new values.new) }
    ensures edges { OnOk result (length values.new ≡ length x.now.task.program.now.edges) }
    ensures cause { IfErr result (IsRoundsCause (task_of x.now.task)) }
    ensures same { stepper.new ≡ stepper.old }
{
    let changed = joins.take_changed(x.task.alloc);
    let found = follow_all(&x.task, joins, changed, stepper, values)?;
    joins.meet_all(x, found)?;
    Ok(())
}

/// Goes on while anything changes. Each such round lists more, or structures that say less, and of both there
/// is an end.
pub(crate) fn all_rounds(x: &KeyedTask, stepper: &mut Stepper) -> Result<Ended, WorkError>
    requires ready { IsReadyWithKeys x.now stepper.old }
    ensures last { IfOk result (λ ended. IsAtLastRound (task_of x.now.task) ended.joins ended.told) }
    ensures cause { IfErr result (IsRoundsCause (task_of x.now.task)) }
{
    let mut joins = start(x, stepper)?;
    let mut values = MessageValues::new(x.task.alloc, x.task.program.edges.len())?;
    while joins.has_changed() {
        round(x, stepper, &mut joins, &mut values)?;
    }
    let told = tell_all(&x.task, &joins, &values)?;
    Ok(Ended { joins, told })
}
