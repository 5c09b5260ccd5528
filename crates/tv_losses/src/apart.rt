//! What is lost at initial structures and at nodes.

ghost use Rattle.std.specs.Prelude.{◌≡◌, ◌≤◌, ◌↔◌, length, IfOk, IsTrue};
ghost use Rattle.tv_model.specs.Program.{program_of};
ghost use Rattle.tv_structure_form.specs.StructureForm.{IsOver};
ghost use Rattle.tv_step_laws.specs.Transfer.{HasNoOpening};
ghost use Rattle.tv_losses.specs.Losses.{AreExactly, HasNoOpeningAt, ListsNothing};
ghost use Rattle.tv_losses.specs.Tasks.{IsReady};

use crate::task::Task;
use crate::told::{Places, push_if};
use std::alloc::AllocError;
use tv_model::Items;
use tv_step::Stepper;
use tv_struct::Structure;

/// Whether the structure has no opening.
fn is_unopened(x: &Task, s: &Structure, stepper: &mut Stepper) -> Result<bool, AllocError>
    requires ready { IsReady x.now stepper.old }
    requires over { IsOver x.now.program.now.vocab s.now }
    ensures unopened { IfOk result
        (λ unopened. IsTrue unopened ↔ HasNoOpening (program_of x.now.program.now) s.now) }
    ensures same { stepper.new ≡ stepper.old }
{
    let found = stepper.opening(s)?;
    Ok(found.is_none())
}

/// The initial structures that have no opening.
pub(crate) fn unopened(x: &Task, stepper: &mut Stepper) -> Result<Places, AllocError>
    requires ready { IsReady x.now stepper.old }
    ensures places { IfOk result
        (AreExactly (HasNoOpeningAt (program_of x.now.program.now) x.now.initial.now)) }
    ensures same { stepper.new ≡ stepper.old }
{
    let mut places = Items::new(x.alloc);
    for (place, s) in x.initial.iter().enumerate() {
        let on = is_unopened(x, s, stepper)?;
        push_if(&mut places, on, place)?;
    }
    Ok(places)
}

/// The nodes at which nothing is listed.
pub(crate) fn empty_nodes(x: &Task) -> Result<Places, AllocError>
    requires nodes { length x.now.listing.now ≡ length (program_of x.now.program.now).nodes }
    requires few { length (program_of x.now.program.now).nodes ≤ 4096 }
    ensures { IfOk result (AreExactly (ListsNothing x.now.listing.now)) }
{
    let mut nodes = Items::new(x.alloc);
    for node in 0..x.program.nodes.len() {
        let on = x.listing.count(node as u32) == 0;
        push_if(&mut nodes, on, node)?;
    }
    Ok(nodes)
}
