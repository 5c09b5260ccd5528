//! What a structure coerces to.

ghost use Rattle.tv_model.specs.Program.{program_of};
ghost use Rattle.tv_model.specs.Valid.{IsValid};
ghost use Rattle.tv_structure_form.specs.StructureForm.{IsOver};

use std::alloc::Global;
use std::test::Fail;
use tv_coerce::{closed_rules_can_be_tried, coerce};
use tv_eval::Scratch;
use tv_model::Program;
use tv_rules::close_rules;
use tv_struct::Structure;

/// What the structure coerces to by the closed rules of the program.
pub fn coerced(alloc: Global, program: &Program, s: &Structure) -> Result<Option<Structure>, Fail>
    requires valid { IsValid (program_of program.now) }
    requires over { IsOver program.now.vocab s.now }
{
    closed_rules_can_be_tried();
    let _ = s.size();
    let closed = close_rules(alloc, program)?;
    let mut scratch = Scratch::new(alloc, program, 256)?;
    Ok(coerce(alloc, &closed, s, &mut scratch)?)
}
