//! The losses of an analysis.

ghost use Rattle.std.specs.Prelude.{All, IfOk, IfErr};
ghost use Rattle.tv_model.specs.Program.{program_of};
ghost use Rattle.tv_model.specs.Valid.{IsValid};
ghost use Rattle.tv_structure_form.specs.StructureForm.{IsOver};
ghost use Rattle.tv_work.specs.Analyzed.{IsWorkCause};
ghost use Rattle.tv_work.specs.Reach.{IsReached};
ghost use Rattle.tv_losses.specs.Losses.{AreLosses, AreLossesIn};
ghost use Rattle.tv_losses.specs.Tasks.{IsLossCause, IsReady};

use crate::apart::{empty_nodes, unopened};
use crate::edges::lost_edges;
use crate::task::Task;
use crate::told::Losses;
use std::alloc::Global;
use tv_model::{Mode, Program};
use tv_step::Stepper;
use tv_struct::Structures;
use tv_work::{WorkError, analyze};

/// The losses of what is listed.
fn losses_in(x: &Task, stepper: &mut Stepper) -> Result<Losses, WorkError>
    requires { IsReady x.now stepper.old }
    ensures losses { IfOk result
        (AreLossesIn (program_of x.now.program.now) x.now.mode x.now.initial.now x.now.listing.now) }
    ensures cause { IfErr result (IsLossCause x.now) }
{
    let initial = unopened(x, stepper)?;
    let nodes = empty_nodes(x)?;
    let edges = lost_edges(x, stepper)?;
    Ok(Losses {
        initial,
        nodes,
        edges,
    })
}

/// What the analysis of the program from these initial structures may owe its silence to: the initial
/// structures without an opening, the nodes at which nothing is listed, and the edges along which listed
/// structures give nothing although their action is surely enabled. Errors are those of the analysis:
/// `Structures` only where over `max` structures are reached, `Splits` and `Individuals` only where the step
/// of a reached structure meets that budget.
pub fn losses(
    alloc: Global,
    program: &Program,
    initial: &Structures,
    mode: Mode,
    max: u64,
) -> Result<Losses, WorkError>
    requires valid { IsValid (program_of program.now) }
    requires initial { All (IsOver program.now.vocab) initial.now }
    ensures losses { IfOk result (AreLosses (program_of program.now) mode initial.now max) }
    ensures cause { IfErr result (IsWorkCause (program_of program.now) max
        (IsReached (program_of program.now) mode initial.now)) }
{
    let analysis = analyze(alloc, program, initial, mode, max)?;
    let mut stepper = Stepper::new(alloc, program, mode)?;
    let task = Task {
        alloc,
        program,
        mode,
        initial: initial.as_slice(),
        listing: &analysis.listing,
    };
    losses_in(&task, &mut stepper)
}
