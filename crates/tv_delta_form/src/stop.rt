//! Why a formula isn't formed.

ghost use Rattle.std.specs.Prelude.{◌≡◌};
ghost use Rattle.tv_delta_form.specs.declared.stop.Stop.TheVariants.{Memory};

use std::alloc::{AllocError, AllocFailed};

/// Why a formula isn't formed.
#[derive(Clone, Copy, Debug, PartialEq, Eq)]
pub enum Stop {
    /// It can't be: no slot is left, a formula is too large, an affected atom stands under a closure, or
    /// a predicate is left free.
    Unformed,
    /// There was no memory for it.
    Memory,
}

impl From<AllocError> for Stop {
    ghost from_gives = { λ _ e. e ≡ Memory };

    fn from(_failed: AllocError) -> Stop {
        Stop::Memory
    }
}

impl<T: Drop> From<AllocFailed<T>> for Stop {
    ghost from_gives = { λ _ e. e ≡ Memory };

    fn from(_failed: AllocFailed<T>) -> Stop {
        Stop::Memory
    }
}
