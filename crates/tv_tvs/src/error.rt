//! Why a text of structures is refused.

ghost use Rattle.std.specs.Prelude.{◌≡◌};
ghost use Rattle.tv_tvs.specs.declared.error.TvsError.TheVariants.{Memory};

use std::alloc::{AllocError, AllocFailed};
use thiserror::Error;
use tv_lex::Place;

/// Why a text of structures, or the structure that begins at a token, is refused. The whole text is
/// read before anything else is looked at. Then the structures are taken in order; in each of them the
/// number of individuals comes first, then their names, then the entries in order: an entry's name, its
/// form and the arities of its items, then the items in order.
#[derive(Clone, Copy, Debug, PartialEq, Eq, Error)]
pub enum TvsError {
    /// The tokens are no structures. The place is that of the first token that can't go on, or that of
    /// the end of the text.
    #[error("no structures at {}:{}", .0.line, .0.column)]
    Syntax(Place),
    /// A word of an item isn't one of the structure's individuals.
    #[error("an unknown individual")]
    IndividualUnknown,
    /// Two individuals of a structure have the same name.
    #[error("an individual twice")]
    IndividualTwice,
    /// An entry's name is neither a predicate's nor `sm`.
    #[error("an unknown name")]
    NameUnknown,
    /// An entry gives a value where there are arguments, or items that don't have the arity.
    #[error("a wrong number of arguments")]
    ArityWrong,
    /// An item of `sm` has the value 1: an individual is a summary (`1/2`) or isn't (`0`).
    #[error("a summary of value 1")]
    BadSm,
    /// A structure has more than 256 individuals.
    #[error("more than 256 individuals")]
    TooManyIndividuals,
    /// There was no memory for the structures.
    #[error("no memory")]
    Memory,
}

impl From<AllocError> for TvsError {
    ghost from_gives = { λ _ e. e ≡ Memory };

    fn from(_failed: AllocError) -> TvsError {
        TvsError::Memory
    }
}

impl<T: Drop> From<AllocFailed<T>> for TvsError {
    ghost from_gives = { λ _ e. e ≡ Memory };

    fn from(_failed: AllocFailed<T>) -> TvsError {
        TvsError::Memory
    }
}
