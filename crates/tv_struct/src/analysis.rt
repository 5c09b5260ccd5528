//! What the stages of an analysis hand on: numbers of individuals, and why there is no answer.

ghost use Rattle.std.specs.Prelude.{◌≡◌};
ghost use Rattle.tv_struct.specs.declared.analysis.StageError.TheVariants.{Memory};

use std::alloc::{AllocError, AllocFailed};
use thiserror::Error;
use tv_model::Items;

/// A list of numbers.
pub type Numbers = Items<u32>;

/// Why a stage of a step has no answer.
#[derive(Clone, Copy, Debug, PartialEq, Eq, Error)]
pub enum StageError {
    /// The stage has over 4,096 choices.
    #[error("over 4,096 choices at one stage")]
    Splits,
    /// A structure of the stage has over 256 individuals.
    #[error("over 256 individuals in one structure")]
    Individuals,
    /// There isn't enough memory.
    #[error("not enough memory")]
    Memory,
}

impl From<AllocError> for StageError {
    ghost from_gives = { λ _ e. e ≡ Memory };

    fn from(_e: AllocError) -> StageError {
        StageError::Memory
    }
}

impl<T: Drop> From<AllocFailed<T>> for StageError {
    ghost from_gives = { λ _ e. e ≡ Memory };

    fn from(_e: AllocFailed<T>) -> StageError {
        StageError::Memory
    }
}
