//! What coerce makes of a structure, and blur of what it leaves.

ghost use Rattle.std.specs.Prelude.{◌≡◌, map, All, IfOk};
ghost use Rattle.tv_model.specs.Program.{program_of};
ghost use Rattle.tv_structure_form.specs.StructureForm.{IsOver};
ghost use Rattle.tv_step_laws.specs.Shaped.{IsShaped};
ghost use Rattle.tv_step_laws.specs.Transfer.{IsBlurOf};
ghost use Rattle.tv_stages_laws.specs.Stages.{IsEndFrom, IsFate};
ghost use Rattle.tv_stages.specs.Tasks.{IsReadyToRecord, task_program};

use crate::task::{Task, Tools};
use std::alloc::AllocError;
use tv_blur::into_blurred;
use tv_coerce::coerce;
use tv_model::Items;
use tv_stages_laws::{Choice, Choices, End, Fate, Given, GivenEach};
use tv_struct::{Structure, Structures};

/// What coerce makes of the structure.
pub(crate) fn fate(x: &Task, tools: &mut Tools, s: &Structure) -> Result<Fate, AllocError>
    requires ready { IsReadyToRecord x.now tools.old }
    requires over { IsOver x.now.program.now.vocab s.now }
    ensures fate { IfOk result (IsFate (task_program x.now) s.now) }
    ensures same { tools.new ≡ tools.old }
{
    let _ = s.size();
    match coerce(x.alloc, x.closed, s, &mut tools.scratch)? {
        None => Ok(Fate::Dropped(tools.declared.first_unmet(s)?)),
        Some(t) => Ok(Fate::Kept(t)),
    }
}

/// The choices with these structures, and what coerce makes of each.
pub(crate) fn choices(
    x: &Task,
    tools: &mut Tools,
    structures: Structures,
) -> Result<Choices, AllocError>
    requires ready { IsReadyToRecord x.now tools.old }
    requires over { All (IsOver x.now.program.now.vocab) structures }
    ensures structures { IfOk result (λ choices. map (λ c. c.structure) choices ≡ structures) }
    ensures fates { IfOk result (All (λ c. IsFate (task_program x.now) c.structure c.fate)) }
    ensures same { tools.new ≡ tools.old }
{
    let mut choices = Items::new(x.alloc);
    for structure in structures.into_vec() {
        let fate = fate(x, tools, &structure)?;
        choices.push(Choice { structure, fate })?;
    }
    Ok(choices)
}

/// A coerced structure, blurred.
fn blurred(x: &Task, coerced: &Structure) -> Result<Structure, AllocError>
    requires { IsOver x.now.program.now.vocab coerced.now }
    ensures { IfOk result (IsBlurOf (task_program x.now) coerced.now) }
{
    into_blurred(x.alloc, &x.program.vocab, coerced.copy(x.alloc)?)
}

/// What becomes of a structure that an update gives.
fn end(x: &Task, tools: &mut Tools, s: &Structure) -> Result<End, AllocError>
    requires ready { IsReadyToRecord x.now tools.old }
    requires over { IsOver x.now.program.now.vocab s.now }
    ensures end { IfOk result (IsEndFrom (task_program x.now) s.now) }
    ensures same { tools.new ≡ tools.old }
{
    match fate(x, tools, s)? {
        Fate::Dropped(claim) => Ok(End::Lost(claim)),
        Fate::Kept(coerced) => {
            let blurred = blurred(x, &coerced)?;
            Ok(End::Blurred { coerced, blurred })
        }
    }
}

/// The given structures, and what becomes of each.
pub(crate) fn given_each(
    x: &Task,
    tools: &mut Tools,
    structures: Structures,
) -> Result<GivenEach, AllocError>
    requires ready { IsReadyToRecord x.now tools.old }
    requires over { All (IsOver x.now.program.now.vocab) structures }
    ensures structures { IfOk result (λ given. map (λ g. g.structure) given ≡ structures) }
    ensures ends { IfOk result (All (λ g. IsEndFrom (task_program x.now) g.structure g.end)) }
    ensures same { tools.new ≡ tools.old }
{
    let mut given = Items::new(x.alloc);
    for structure in structures.into_vec() {
        let end = end(x, tools, &structure)?;
        given.push(Given { structure, end })?;
    }
    Ok(given)
}
