//! Changes that sharpen a structure, and what the head of a rule needs.

ghost use Rattle.std.specs.Prelude.{◌≡◌, ◌<◌, ◌≤◌, ℕ, Some, All, if◌then◌else◌, true, false};
ghost use Rattle.tv_embedding_laws.specs.Embedding.{IsBelow};
ghost use Rattle.tv_embedding_laws.specs.LogicalStructure.{LogicalStructure};
ghost use Rattle.tv_structure_form.specs.StructureForm.{StructureForm, IsStructure, arities_of, structure_of};
ghost use Rattle.tv_structure_form.specs.Halves.{half_count};
ghost use Rattle.tv_coerce.specs.Changes.{Has, IsPlace, IsOpen, changed};

use tv_kleene::K3;
use tv_model::PredId;
use tv_struct::{Structure, Tuple};

/// A change that sharpens a structure.
#[derive(Clone, Copy, Debug, PartialEq, Eq)]
pub(crate) enum Change {
    /// The predicate gets the value at the tuple.
    Value(PredId, Tuple, K3),
    /// The individual is no summary.
    Ordinary(u32),
}

/// What the head of a rule needs where the body is `Yes`.
#[derive(Clone, Copy, Debug, PartialEq, Eq)]
pub(crate) enum Need {
    /// Nothing: it is met.
    Nothing,
    /// What can't be.
    Never,
    /// This change.
    Put(Change),
}
