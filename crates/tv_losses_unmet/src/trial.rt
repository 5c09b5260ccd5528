//! Which rules drop structures.

ghost use Rattle.std.specs.Prelude.{◌≡◌, ◌↔◌, All, IfOk, IsTrue};
ghost use Rattle.tv_rules.specs.EntryForms.{rules_of};
ghost use Rattle.tv_stable_laws.specs.Stable.{HasNoStable};
ghost use Rattle.tv_structure_form.specs.StructureForm.{IsOver, structure_of};
ghost use Rattle.tv_losses_unmet.specs.Kept.{CanTryOver, DropEach, IsFirstToDrop};

use std::alloc::{AllocError, Global};
use tv_coerce::coerce;
use tv_eval::Scratch;
use tv_model::Program;
use tv_rules::Closed;
use tv_struct::Structure;

/// Structures over the vocabulary of a program.
#[derive(Clone, Copy)]
pub(crate) struct Asked<'a> {
    pub alloc: Global,
    pub program: &'a Program,
    pub structures: &'a [Structure],
}

/// Whether no structure below this one is stable under the rules.
fn is_unmet(
    x: &Asked,
    closed: &Closed,
    s: &Structure,
    scratch: &mut Scratch,
) -> Result<bool, AllocError>
    requires can { CanTryOver x.now.program.now scratch.old (rules_of closed.now) }
    requires over { IsOver x.now.program.now.vocab s.now }
    ensures unmet { IfOk result
        (λ unmet. IsTrue unmet ↔ HasNoStable (rules_of closed.now) (structure_of s.now)) }
    ensures scratch { scratch.new ≡ scratch.old }
{
    let _ = s.size();
    let found = coerce(x.alloc, closed, s, scratch)?;
    Ok(found.is_none())
}

/// Whether the rules drop each of the structures.
fn drop_each(x: &Asked, closed: &Closed, scratch: &mut Scratch) -> Result<bool, AllocError>
    requires can { CanTryOver x.now.program.now scratch.old (rules_of closed.now) }
    requires over { All (IsOver x.now.program.now.vocab) x.now.structures.now }
    ensures drop { IfOk result (λ on. IsTrue on ↔ DropEach x.now.structures.now (rules_of closed.now)) }
    ensures scratch { scratch.new ≡ scratch.old }
{
    for s in x.structures {
        if !is_unmet(x, closed, s, scratch)? {
            return Ok(false);
        }
    }
    Ok(true)
}

/// The number of the first of the lists whose rules drop each of the structures.
pub(crate) fn first_to_drop(
    x: &Asked,
    lists: &[Closed],
    scratch: &mut Scratch,
) -> Result<Option<usize>, AllocError>
    requires can { All (λ bases. CanTryOver x.now.program.now scratch.old (rules_of bases)) lists.now }
    requires over { All (IsOver x.now.program.now.vocab) x.now.structures.now }
    ensures first { IfOk result (IsFirstToDrop x.now.structures.now lists.now) }
    ensures scratch { scratch.new ≡ scratch.old }
{
    for (number, closed) in lists.iter().enumerate() {
        if drop_each(x, closed, scratch)? {
            return Ok(Some(number));
        }
    }
    Ok(None)
}
