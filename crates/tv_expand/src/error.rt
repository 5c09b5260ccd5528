//! Why a tree stands for no flat program.

ghost use Rattle.std.specs.Prelude.{◌≡◌};
ghost use Rattle.tv_expand.specs.declared.error.ExpandError.TheVariants.{Memory};

use std::alloc::{AllocError, AllocFailed};
use thiserror::Error;

/// Why a tree has no flat form. The first cause in reading order is told.
#[derive(Clone, Copy, Debug, PartialEq, Eq, Error)]
pub enum ExpandError {
    /// A set that isn't declared before, or an edge whose action isn't declared.
    #[error("a set or an action that is not declared")]
    NameUnknown,
    /// A set or an action that is declared twice, or an action with one parameter twice.
    #[error("a set, an action or a parameter that is declared twice")]
    NameTwice,
    /// An edge with another number of arguments than its action has parameters.
    #[error("another number of arguments than the action has parameters")]
    ArgumentCount,
    /// More items, or more formula nodes in them, than the limits allow.
    #[error("over 65,536 items, or over 1,048,576 formula nodes in them")]
    TooManyItems,
    /// No memory was left.
    #[error("not enough memory")]
    Memory,
}

impl From<AllocError> for ExpandError {
    ghost from_gives = { λ _ e. e ≡ Memory };

    fn from(_e: AllocError) -> ExpandError {
        ExpandError::Memory
    }
}

impl<T: Drop> From<AllocFailed<T>> for ExpandError {
    ghost from_gives = { λ _ e. e ≡ Memory };

    fn from(_e: AllocFailed<T>) -> ExpandError {
        ExpandError::Memory
    }
}
