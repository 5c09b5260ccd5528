//! Edges along which structures are lost.

ghost use Rattle.std.specs.Prelude.{◌≡◌, ◌++◌, [], IfOk, IfErr, IfSome, IfNone, OnOk};
ghost use Rattle.tv_model.specs.Program.{program_of};
ghost use Rattle.tv_losses.specs.Losses.{AreEdgeLosses};
ghost use Rattle.tv_losses.specs.Tasks.{IsLossCause, IsReady, Tells, list_of};

use crate::along::lost_along;
use crate::task::Task;
use crate::told::{EdgeLoss, EdgeLosses};
use std::alloc::AllocError;
use tv_model::Items;
use tv_step::Stepper;
use tv_work::WorkError;

/// What is told of an edge, at whose source so many structures are listed, where those at these places are
/// lost: nothing where there are none.
fn loss_of(edge: u32, listed: usize, places: &[usize]) -> Option<EdgeLoss>
    ensures some { IfSome result (Tells edge listed places.now) }
    ensures none { IfNone result (places.now ≡ []) }
{
    let first = places.first()?;
    Some(EdgeLoss {
        edge,
        lost: places.len(),
        listed,
        first: *first,
    })
}

/// Puts what is told behind the others, if anything is.
fn push_some(losses: &mut EdgeLosses, loss: Option<EdgeLoss>) -> Result<(), AllocError>
    ensures { OnOk result (losses.new ≡ losses.old ++ list_of loss) }
{
    match loss {
        None => Ok(()),
        Some(loss) => losses.push(loss),
    }
}

/// The edges along which structures are lost, in order.
pub(crate) fn lost_edges(x: &Task, stepper: &mut Stepper) -> Result<EdgeLosses, WorkError>
    requires ready { IsReady x.now stepper.old }
    ensures losses { IfOk result (AreEdgeLosses (program_of x.now.program.now) x.now.mode x.now.listing.now) }
    ensures cause { IfErr result (IsLossCause x.now) }
    ensures same { stepper.new ≡ stepper.old }
{
    let mut losses = Items::new(x.alloc);
    for (number, edge) in x.program.edges.as_slice().iter().enumerate() {
        let places = lost_along(x, number as u32, *edge, stepper)?;
        let listed = x.listing.count(edge.from);
        let loss = loss_of(number as u32, listed, places.as_slice());
        push_some(&mut losses, loss)?;
    }
    Ok(losses)
}
