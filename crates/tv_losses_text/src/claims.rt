//! The declarations that initial structures contradict.

ghost use Rattle.std.specs.Prelude.{◌≡◌, ◌<◌, All, IfOk, Some, length, slice_get};
ghost use Rattle.tv_losses_text.specs.Reports.{AreFound};
ghost use Rattle.tv_model.specs.Program.{program_of};
ghost use Rattle.tv_structure_form.specs.StructureForm.{IsOver};

use crate::lines::number_at;
use std::alloc::{AllocError, Global};
use tv_losses_unmet::{Claim, Declared};
use tv_struct::Structure;

/// The structure of this number.
fn structure_at(structures: &[Structure], number: usize) -> &Structure
    requires { number < length structures.now }
    ensures { slice_get structures.now number ≡ Some result.now }
{
    &structures[number]
}

/// For each of the structures of these numbers, in order, the first declaration that it contradicts alone.
pub(crate) fn first_claims(
    alloc: Global,
    declared: &mut Declared<'_>,
    structures: &[Structure],
    numbers: &[usize],
) -> Result<Vec<Option<Claim>>, AllocError>
    requires over { All (IsOver declared.old.vocab) structures.now }
    requires within { All (λ number. number < length structures.now) numbers.now }
    ensures { IfOk result
        (λ claims. AreFound (program_of declared.old) structures.now numbers.now claims.items) }
{
    let mut claims = Vec::new(alloc);
    for place in 0..numbers.len() {
        let number = number_at(numbers, place);
        let s = structure_at(structures, number);
        let claim = declared.first_unmet(s)?;
        claims.push(claim)?;
    }
    Ok(claims)
}
