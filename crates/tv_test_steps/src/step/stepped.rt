//! Steps along the one edge of a program.

ghost use Rattle.tv_model.specs.Program.{program_of};
ghost use Rattle.tv_model.specs.Valid.{IsValid};
ghost use Rattle.tv_structure_form.specs.StructureForm.{IsOver};

use std::alloc::Global;
use std::test::Fail;
use tv_model::{Mode, Program};
use tv_step::{StepOut, Stepper};
use tv_struct::{StageError, Structure};

/// An answer of a step.
pub type Answer = Result<StepOut, StageError>;

/// The step of the structure.
pub fn stepped(alloc: Global, program: &Program, mode: Mode, s: &Structure) -> Result<Answer, Fail>
    requires valid { IsValid (program_of program.now) }
    requires over { IsOver program.now.vocab s.now }
{
    let mut stepper = Stepper::new(alloc, program, mode)?;
    Ok(stepper.step(0, s))
}

/// The step of the structure's opening, from which coerce is spared; nothing where there is no opening.
pub fn stepped_opening(
    alloc: Global,
    program: &Program,
    mode: Mode,
    s: &Structure,
) -> Result<Option<Answer>, Fail>
    requires valid { IsValid (program_of program.now) }
    requires over { IsOver program.now.vocab s.now }
{
    let mut stepper = Stepper::new(alloc, program, mode)?;
    match stepper.opening(s)? {
        None => Ok(None),
        Some(t) => Ok(Some(stepper.stable_step(0, &t))),
    }
}
