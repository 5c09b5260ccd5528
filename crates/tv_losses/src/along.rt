//! What is lost along an edge.

ghost use Rattle.std.specs.Prelude.{◌≡◌, ◌<◌, ◌↔◌, Contains, IsTrue, IfOk, IfErr, Some, length, slice_get};
ghost use Rattle.tv_listing.specs.ListingForm.{at_node};
ghost use Rattle.tv_model.specs.Program.{action_of, program_of};
ghost use Rattle.tv_model.specs.Valid.{IsValid};
ghost use Rattle.tv_step_laws.specs.Transfer.{IsActionOf};
ghost use Rattle.tv_losses.specs.Losses.{AreExactly, IsLost, IsLostAt};
ghost use Rattle.tv_losses.specs.Tasks.{IsLossCause, IsReady};

use crate::enabled::is_enabled_at_hand;
use crate::task::Task;
use crate::told::{Places, push_if};
use tv_model::{Action, Edge, Items, Program};
use tv_step::Stepper;
use tv_struct::Structure;
use tv_work::WorkError;

/// The edge of this number.
fn edge_at(program: &Program, number: u32) -> Edge
    requires { number < length program.now.edges }
    ensures { slice_get program.now.edges number ≡ Some result }
{
    program.edges.as_slice()[number as usize]
}

/// The action of the edge of this number.
fn action_at(program: &Program, number: u32) -> &Action
    requires valid { IsValid (program_of program.now) }
    requires number { number < length program.now.edges }
    ensures { IsActionOf (program_of program.now) number (action_of result.now) }
{
    let edge = edge_at(program, number);
    &program.actions.as_slice()[edge.action as usize]
}

/// Whether the structure, which is listed at the edge's source, is lost along the edge.
fn is_lost(
    x: &Task,
    number: u32,
    edge: Edge,
    s: &Structure,
    stepper: &mut Stepper,
) -> Result<bool, WorkError>
    requires ready { IsReady x.now stepper.old }
    requires edge { slice_get x.now.program.now.edges number ≡ Some edge }
    requires listed { Contains (at_node x.now.listing.now edge.from) s.now }
    ensures lost { IfOk result
        (λ lost. IsTrue lost ↔ IsLost (program_of x.now.program.now) x.now.mode number s.now) }
    ensures cause { IfErr result (IsLossCause x.now) }
    ensures same { stepper.new ≡ stepper.old }
{
    let out = stepper.step(number, s)?;
    if !out.results.as_slice().is_empty() {
        return Ok(false);
    }
    let action = action_at(x.program, number);
    Ok(is_enabled_at_hand(stepper, number, action, s)?)
}

/// The places of the structures that are lost along the edge, among those listed at its source.
pub(crate) fn lost_along(
    x: &Task,
    number: u32,
    edge: Edge,
    stepper: &mut Stepper,
) -> Result<Places, WorkError>
    requires ready { IsReady x.now stepper.old }
    requires edge { slice_get x.now.program.now.edges number ≡ Some edge }
    ensures places { IfOk result (AreExactly
        (IsLostAt (program_of x.now.program.now) x.now.mode number (at_node x.now.listing.now edge.from))) }
    ensures cause { IfErr result (IsLossCause x.now) }
    ensures same { stepper.new ≡ stepper.old }
{
    let mut places = Items::new(x.alloc);
    for place in 0..x.listing.count(edge.from) {
        let s = x.listing.at(edge.from, place);
        let on = is_lost(x, number, edge, s, stepper)?;
        push_if(&mut places, on, place)?;
    }
    Ok(places)
}
