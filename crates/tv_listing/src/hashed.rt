//! A structure that is found by its signature.

ghost use Rattle.std.specs.Prelude.{◌≡◌, IfOk, refl};
ghost use Rattle.std.specs.Cmp.{partial_equiv_from_equiv, eq_by_cmp_equiv, po};
ghost use Rattle.std.specs.Hash as fed;
ghost use Rattle.std.specs.Ordering.{eq_by_cmp, as_partial_cmp};
ghost use Rattle.tv_listing.specs.Hashing.{signature_respects};
ghost use Rattle.tv_struct.specs.Order.{structure_cmp, structure_cmp_total};
ghost use Rattle.tv_struct.specs.Signature.{signature_of};

use std::alloc::{AllocError, Global};
use std::cmp::Ordering;
use std::hash::{Hash, Hasher};
use std::marker::Model;
use tv_struct::Structure;

/// A structure, hashed by its signature. Two are equal where they are but for their marks. It stands in
/// memory of its own, so that lists which grow, and are sorted, have room for a pointer alone.
#[derive(Drop)]
pub struct Hashed {
    structure: Box<Structure>,
}

impl Model for Hashed {
    ghost use Rattle.tv_structure_form.specs.StructureForm.{StructureForm};

    ghost Value = { StructureForm };

    ghost view = { λ h. h.structure.value };
}

impl Hashed {
    /// The structure, to be hashed.
    pub fn new(alloc: Global, s: Structure) -> Result<Hashed, AllocError>
        ensures { IfOk result (λ h. h ≡ s) }
    {
        Ok(Hashed {
            structure: Box::new(alloc, s)?,
        })
    }

    /// The structure itself.
    pub fn structure(&self) -> &Structure
        ensures { result.now ≡ self.now }
    {
        &self.structure
    }
}

impl PartialEq for Hashed {
    ghost eq = { eq_by_cmp structure_cmp };

    ghost laws = { partial_equiv_from_equiv (eq_by_cmp_equiv structure_cmp_total) };

    fn eq(&self, other: &Self) -> bool {
        self.structure() == other.structure()
    }
}

impl Eq for Hashed {
    ghost laws = { eq_by_cmp_equiv structure_cmp_total };
}

impl PartialOrd for Hashed {
    ghost partial_cmp = { as_partial_cmp structure_cmp };

    ghost laws = { po structure_cmp_total (λ x y. refl) };

    fn partial_cmp(&self, other: &Self) -> Option<Ordering> {
        Some(self.structure().compare(other.structure()))
    }
}

impl Ord for Hashed {
    ghost cmp = { structure_cmp };

    ghost total = { structure_cmp_total };

    ghost matches_partial_cmp = { λ x y. refl };

    ghost matches_eq = { λ x y. refl };

    fn cmp(&self, other: &Self) -> Ordering {
        self.structure().compare(other.structure())
    }
}

impl Hash for Hashed {
    ghost hash_input = { λ s. fed.u64 (signature_of s) };

    ghost respects_eq = { signature_respects };

    fn hash<H: Hasher>(&self, state: &mut H) {
        self.structure().signature().hash(state);
    }
}
