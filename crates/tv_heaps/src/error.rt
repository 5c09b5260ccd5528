//! Why the heaps of a structure aren't listed.

ghost use Rattle.std.specs.Prelude.{◌≡◌};
ghost use Rattle.tv_heaps.specs.declared.error.HeapsError.TheVariants.{Memory};

use std::alloc::{AllocError, AllocFailed};
use thiserror::Error;

/// Why the heaps of a structure aren't listed.
#[derive(Clone, Copy, Debug, PartialEq, Eq, Error)]
pub enum HeapsError {
    /// More structures had to be looked at than were allowed.
    #[error("more structures had to be split than were allowed")]
    TooMany,
    /// There isn't enough memory.
    #[error("not enough memory")]
    Memory,
}

impl From<AllocError> for HeapsError {
    ghost from_gives = { λ _ e. e ≡ Memory };

    fn from(_error: AllocError) -> HeapsError {
        HeapsError::Memory
    }
}
