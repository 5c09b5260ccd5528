//! Structures in order.

ghost use Rattle.std.specs.Prelude.{◌≡◌, ◌↔◌, All, Contains, None, IfOk};
ghost use Rattle.std.specs.List.Sorted.{IsStrictlySortedBy};
ghost use Rattle.tv_struct.specs.Order.{structure_cmp};
ghost use Rattle.tv_structure_form.specs.StructureForm.{StructureForm};

use std::alloc::AllocError;
use tv_struct::Structures;

/// The structures in strict order, each once. None of them is marked.
pub fn in_order(structures: Structures) -> Result<Structures, AllocError>
    requires unmarked { All (λ s. s.fresh ≡ None) structures }
    ensures same { IfOk result (λ sorted. (t : StructureForm) → Contains sorted t ↔ Contains structures t) }
    ensures order { IfOk result (IsStrictlySortedBy structure_cmp) }
{
    if structures.len() < 2 {
        return Ok(structures);
    }
    let mut items = structures.into_vec();
    items.sort()?;
    items.dedup();
    Ok(Structures::from_vec(items))
}
