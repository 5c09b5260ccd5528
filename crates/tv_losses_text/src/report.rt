//! What an analysis may owe its silence to, as a text.

ghost use Rattle.std.specs.Prelude.{All, IfOk, IfErr};
ghost use Rattle.tv_model.specs.Program.{program_of};
ghost use Rattle.tv_model.specs.Valid.{IsValid};
ghost use Rattle.tv_structure_form.specs.StructureForm.{IsOver};
ghost use Rattle.tv_work.specs.Analyzed.{IsWorkCause};
ghost use Rattle.tv_work.specs.Reach.{IsReached};
ghost use Rattle.tv_losses_text.specs.Reports.{IsLossReport};

use crate::claims::first_claims;
use crate::lines::losses_text;
use std::alloc::Global;
use tv_losses::losses;
use tv_losses_unmet::Declared;
use tv_model::{Bytes, Mode, Program};
use tv_struct::Structures;
use tv_work::WorkError;

/// The text of losses, and whether there are any.
#[derive(Drop)]
pub struct LossReport {
    pub text: Vec<u8>,
    pub is_any: bool,
}

/// What the analysis of the program from these initial structures may owe its silence to, each loss in one
/// line, and whether there is any; of an initial structure without an opening the first declaration that it
/// contradicts alone, if there is one. The heads are those of the program's edges. Errors are those of the
/// analysis: `Structures` only where over `max` structures are reached, `Splits` and `Individuals` only where
/// the step of a reached structure meets that budget.
pub fn explain_losses(
    alloc: Global,
    program: &Program,
    heads: &[Bytes],
    initial: &Structures,
    mode: Mode,
    max: u64,
) -> Result<LossReport, WorkError>
    requires valid { IsValid (program_of program.now) }
    requires initial { All (IsOver program.now.vocab) initial.now }
    ensures report { IfOk result
        (IsLossReport (program_of program.now) heads.now mode initial.now max) }
    ensures cause { IfErr result (IsWorkCause (program_of program.now) max
        (IsReached (program_of program.now) mode initial.now)) }
{
    let found = losses(alloc, program, initial, mode, max)?;
    let mut declared = Declared::new(alloc, program)?;
    let claims = first_claims(
        alloc,
        &mut declared,
        initial.as_slice(),
        found.initial.as_slice(),
    )?;
    let text = losses_text(alloc, program, heads, claims.as_slice(), &found)?;
    Ok(LossReport {
        text,
        is_any: !found.are_none(),
    })
}
