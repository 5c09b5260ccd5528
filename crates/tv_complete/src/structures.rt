//! Structures, completed.

ghost use Rattle.std.specs.Prelude.{IfOk};
ghost use Rattle.tv_model.specs.Program.{program_of};
ghost use Rattle.tv_model.specs.Valid.{IsValid};
ghost use Rattle.tv_structure_form.specs.StructureForm.{IsOver};
ghost use Rattle.tv_complete.specs.Completion.{Completes};

use crate::kept::definitions_but;
use std::alloc::{AllocError, Global};
use tv_eval::Scratch;
use tv_model::Program;
use tv_struct::Structure;
use tv_tree::Spelling;
use tv_update::{order_of, redefine};

/// The structure, in which each defined predicate that isn't named has the values of its definition in the
/// structure that comes of it. Core predicates and those that are named keep their values.
pub fn complete(
    alloc: Global,
    program: &Program,
    names: &[Spelling],
    s: &Structure,
) -> Result<Structure, AllocError>
    requires valid { IsValid (program_of program.now) }
    requires over { IsOver program.now.vocab s.now }
    ensures { IfOk result (Completes (program_of program.now) names.now s.now) }
{
    let definitions = definitions_but(alloc, names, program)?;
    let order = order_of(alloc, &definitions)?;
    let mut scratch = Scratch::new(alloc, &definitions, 256)?;
    let mut t = s.copy(alloc)?;
    redefine(alloc, &definitions, &order, &mut t, &mut scratch)?;
    Ok(t)
}
