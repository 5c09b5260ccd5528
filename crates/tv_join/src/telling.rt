//! The greatest values of messages over what is listed.

ghost use Rattle.std.specs.Prelude.{◌≡◌, ◌<◌, ◌≤◌, IfOk, OnOk, length};
ghost use Rattle.tv_model.specs.Program.{program_of};
ghost use Rattle.tv_work.specs.Explored.{AreSaid};
ghost use Rattle.tv_work.specs.Told.{IsNoted};
ghost use Rattle.tv_join.specs.State.{IsAbsorbed, listing_of};
ghost use Rattle.tv_join.specs.Stepped.{AreStepped, CanBeTold, IsToldAlong, Tells};
ghost use Rattle.tv_work.specs.Task.{task_of};
ghost use Rattle.tv_join.specs.Values.{values_at};

use crate::joins::Joins;
use crate::values::MessageValues;
use std::alloc::AllocError;
use tv_work::{Task, Told};

/// For each edge the greatest values of its messages at the structures that are listed at its source, each of
/// which was followed.
pub(crate) fn tell_all(x: &Task, joins: &Joins, values: &MessageValues) -> Result<Told, AllocError>
    requires followed { CanBeTold x.now joins.now values.now }
    ensures { IfOk result (AreStepped (task_of x.now) joins.now.nodes
        (IsAbsorbed (program_of x.now.program.now) joins.now.nodes)) }
{
    let count = x.program.edges.len();
    let mut told = Told::new(x.alloc, count)?;
    for edge in 0..count {
        tell_edge(x, joins, values, edge as u32, &mut told)?;
    }
    Ok(told)
}

/// Tells the values of one edge's messages beside those before.
fn tell_edge(
    x: &Task,
    joins: &Joins,
    values: &MessageValues,
    edge: u32,
    told: &mut Told,
) -> Result<(), AllocError>
    requires followed { CanBeTold x.now joins.now values.now }
    requires edge { edge < length x.now.program.now.edges }
    requires said { AreSaid (task_of x.now) (listing_of joins.now.nodes) told.old }
    ensures said { OnOk result (AreSaid (task_of x.now) (listing_of joins.now.nodes) told.new) }
    ensures tells { OnOk result (Tells told.old told.new) }
    ensures told { OnOk result (IsToldAlong (task_of x.now) joins.now.nodes told.new edge) }
{
    let from = x.program.edges.as_slice()[edge as usize].from;
    let structures = joins.at_node(from);
    for place in 0..structures.len() {
        tell(values, edge, place, told)?;
    }
    Ok(())
}

/// Tells the values that are kept for the edge and the structure with that place.
fn tell(values: &MessageValues, edge: u32, place: usize, told: &mut Told) -> Result<(), AllocError>
    requires edge { edge < length told.old }
    requires edges { length values.now ≡ length told.old }
    requires few { length (values_at values.now edge place) ≤ 65536 }
    ensures noted { OnOk result (IsNoted edge (values_at values.now edge place) told.old told.new) }
    ensures count { OnOk result (length told.new ≡ length told.old) }
{
    match values.get(edge, place) {
        None => Ok(()),
        Some(row) => told.note(edge, row),
    }
}
