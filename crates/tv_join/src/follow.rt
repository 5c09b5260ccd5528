//! Structures are opened and followed.

ghost use Rattle.std.specs.Prelude.{◌≡◌, ◌<◌, Contains, IfOk, IfErr, OnOk, length};
ghost use Rattle.tv_model.specs.Program.{program_of};
ghost use Rattle.tv_work.specs.Leaving.{LeavesBy};
ghost use Rattle.tv_join.specs.State.{IsJoinState, IsIn, IsAmongFound, members_at};
ghost use Rattle.tv_join.specs.Stepped.{AreFollowed, AreIn, AreOpenings, ChangesFrom, Finds, FindsOpening};
ghost use Rattle.tv_join.specs.Stepped.{Gathers, IsFollowCause, IsFollowedAlong, IsFollowedFrom, IsOpenable};
ghost use Rattle.tv_work.specs.Task.{task_of, IsReady};
ghost use Rattle.tv_join.specs.Values.{ChangesAlong};

use crate::joins::{Found, Joins};
use crate::places::{Place, Places};
use crate::values::MessageValues;
use std::alloc::AllocError;
use tv_step::Stepper;
use tv_struct::{Structure, Structures};
use tv_work::{Task, WorkError};

/// The openings of the initial structures, for the start node.
pub(crate) fn openings(x: &Task, stepper: &mut Stepper) -> Result<Vec<Found>, AllocError>
    requires { IsReady x.now stepper.old }
    ensures found { IfOk result (λ found. AreOpenings (task_of x.now) x.now.initial.now found.items) }
    ensures same { stepper.new ≡ stepper.old }
{
    let mut found = Vec::new(x.alloc);
    for s in x.initial {
        open(x, s, stepper, &mut found)?;
    }
    Ok(found)
}

/// Puts the opening of the initial structure, if it has one, behind what was found before.
fn open(
    x: &Task,
    s: &Structure,
    stepper: &mut Stepper,
    found: &mut Vec<Found>,
) -> Result<(), AllocError>
    requires ready { IsReady x.now stepper.old }
    requires initial { Contains x.now.initial.now s.now }
    ensures openable { OnOk result (IsOpenable (program_of x.now.program.now) s.now) }
    ensures found { OnOk result (FindsOpening (task_of x.now) s.now found.old.items found.new.items) }
    ensures same { stepper.new ≡ stepper.old }
{
    match stepper.opening(s)? {
        None => Ok(()),
        Some(structure) => {
            found.push(Found { node: 0, structure })?;
            Ok(())
        }
    }
}

/// Follows the structures at these places along all edges that leave their nodes: what is found, and the
/// values of their messages, which are kept.
pub(crate) fn follow_all(
    x: &Task,
    joins: &Joins,
    places: Places,
    stepper: &mut Stepper,
    values: &mut MessageValues,
) -> Result<Vec<Found>, WorkError>
    requires ready { IsReady x.now stepper.old }
    requires kept { IsJoinState (task_of x.now) joins.now }
    requires places { AreIn joins.now.nodes places }
    requires edges { length values.old ≡ length x.now.program.now.edges }
    ensures followed { IfOk result (λ found. AreFollowed (task_of x.now) joins.now.nodes places
        (record { found = found.items; values = values.new }) values.old) }
    ensures edges { OnOk result (length values.new ≡ length x.now.program.now.edges) }
    ensures cause { IfErr result (IsFollowCause (program_of x.now.program.now) (IsIn joins.now.nodes)) }
    ensures same { stepper.new ≡ stepper.old }
{
    let mut found = Vec::new(x.alloc);
    let mut left = places;
    while let Some(w) = left.take_first() {
        follow(x, joins, w, stepper, &mut found, values)?;
    }
    Ok(found)
}

/// Follows the structure at the place along each edge that leaves its node.
fn follow(
    x: &Task,
    joins: &Joins,
    w: Place,
    stepper: &mut Stepper,
    found: &mut Vec<Found>,
    values: &mut MessageValues,
) -> Result<(), WorkError>
    requires ready { IsReady x.now stepper.old }
    requires kept { IsJoinState (task_of x.now) joins.now }
    requires place { w.at < length (members_at joins.now.nodes w.node).structures }
    requires edges { length values.old ≡ length x.now.program.now.edges }
    ensures gathers { OnOk result (Gathers (task_of x.now) joins.now.nodes found.old.items found.new.items) }
    ensures edges { OnOk result (length values.new ≡ length x.now.program.now.edges) }
    ensures others { OnOk result (ChangesFrom (task_of x.now) w values.old values.new) }
    ensures followed { OnOk result
        (IsFollowedFrom (task_of x.now) joins.now.nodes (IsAmongFound found.new.items)
        values.new w) }
    ensures cause { IfErr result (IsFollowCause (program_of x.now.program.now) (IsIn joins.now.nodes)) }
    ensures same { stepper.new ≡ stepper.old }
{
    for edge in x.leaving[w.node as usize].as_slice() {
        follow_edge(x, joins, w, *edge, stepper, found, values)?;
    }
    Ok(())
}

/// Follows it along one edge: its results are found for the edge's target, and the values of the edge's
/// messages are kept.
fn follow_edge(
    x: &Task,
    joins: &Joins,
    w: Place,
    edge: u32,
    stepper: &mut Stepper,
    found: &mut Vec<Found>,
    values: &mut MessageValues,
) -> Result<(), WorkError>
    requires ready { IsReady x.now stepper.old }
    requires kept { IsJoinState (task_of x.now) joins.now }
    requires place { w.at < length (members_at joins.now.nodes w.node).structures }
    requires edge { LeavesBy x.now.program.now.edges w.node edge }
    requires edges { length values.old ≡ length x.now.program.now.edges }
    ensures gathers { OnOk result (Gathers (task_of x.now) joins.now.nodes found.old.items found.new.items) }
    ensures others { OnOk result (ChangesAlong edge w.at values.old values.new) }
    ensures followed { OnOk result
        (IsFollowedAlong (task_of x.now) joins.now.nodes (IsAmongFound found.new.items)
        values.new w edge) }
    ensures cause { IfErr result (IsFollowCause (program_of x.now.program.now) (IsIn joins.now.nodes)) }
    ensures same { stepper.new ≡ stepper.old }
{
    let to = x.program.edges.as_slice()[edge as usize].to;
    let s = joins.at(w);
    let out = stepper.stable_step(edge, s)?;
    values.keep(x.alloc, edge, w.at, out.messages)?;
    push_found(to, out.results, found)?;
    Ok(())
}

/// Puts the structures, found for the node, behind what was found before.
fn push_found(node: u32, structures: Structures, found: &mut Vec<Found>) -> Result<(), AllocError>
    ensures { OnOk result (Finds (λ x. (x.node ≡ node) × Contains structures x.structure) found.old.items
        found.new.items) }
{
    for structure in structures.into_vec() {
        found.push(Found { node, structure })?;
    }
    Ok(())
}
