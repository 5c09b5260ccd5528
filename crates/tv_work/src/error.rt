//! Why an analysis, joined or not, has no answer.

ghost use Rattle.std.specs.Prelude.{◌≡◌};
ghost use Rattle.tv_work.specs.declared.error.WorkError.TheVariants.{Memory};

use std::alloc::{AllocError, AllocFailed};
use thiserror::Error;
use tv_struct::StageError;

/// Why an analysis gave no answer, one that lists all that is reached or a joined one, of which a round
/// counts.
#[derive(Clone, Copy, Debug, PartialEq, Eq, Error)]
pub enum WorkError {
    /// More structures are reached, or listed by a round, than were allowed.
    #[error("more structures are listed than were allowed")]
    Structures,
    /// The step of such a structure has a stage of over 4,096 choices.
    #[error("over 4,096 choices at one stage")]
    Splits,
    /// The step of such a structure makes one of over 256 individuals.
    #[error("over 256 individuals in one structure")]
    Individuals,
    /// There isn't enough memory.
    #[error("not enough memory")]
    Memory,
}

impl From<AllocError> for WorkError {
    ghost from_gives = { λ _ e. e ≡ Memory };

    fn from(_error: AllocError) -> WorkError {
        WorkError::Memory
    }
}

impl<T: Drop> From<AllocFailed<T>> for WorkError {
    ghost from_gives = { λ _ e. e ≡ Memory };

    fn from(_error: AllocFailed<T>) -> WorkError {
        WorkError::Memory
    }
}

impl From<StageError> for WorkError {
    ghost use Rattle.tv_work.specs.Analyzed.{work_error};

    ghost from_gives = { λ fault e. e ≡ work_error fault };

    fn from(fault: StageError) -> WorkError {
        match fault {
            StageError::Splits => WorkError::Splits,
            StageError::Individuals => WorkError::Individuals,
            StageError::Memory => WorkError::Memory,
        }
    }
}
