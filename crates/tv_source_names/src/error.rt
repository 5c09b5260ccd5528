//! Why a text is no source program.

ghost use Rattle.std.specs.Prelude.{◌≡◌};
ghost use Rattle.tv_source_names.specs.declared.error.SourceReadError.TheVariants.{Memory};

use std::alloc::{AllocError, AllocFailed};
use thiserror::Error;
use tv_lex::Place;

/// Why a text is no source program. How many are open is looked at first, then the grammar of the whole text,
/// then names, in the order in which they stand.
#[derive(Clone, Copy, Debug, PartialEq, Eq, Error)]
pub enum SourceReadError {
    /// Over 200 parentheses and braces are open at one place.
    #[error("over 200 parentheses and braces are open at one place")]
    TooDeep,
    /// The tokens aren't of the grammar. This is the place of the first token that can't stand there, or of
    /// the end of the text.
    #[error("no program goes on so at line {}, column {}", .0.line, .0.column)]
    Syntax(Place),
    /// A declared name is `sm` or `isNew`.
    #[error("a name that can't be declared")]
    Reserved,
    /// A name is declared twice, be it as a variable or as a field.
    #[error("a name twice")]
    NameTwice,
    /// A variable or a field isn't declared as such.
    #[error("an unknown name")]
    NameUnknown,
    /// There was no memory for the program.
    #[error("out of memory")]
    Memory,
}

impl From<AllocError> for SourceReadError {
    ghost from_gives = { λ _ e. e ≡ Memory };

    fn from(_failed: AllocError) -> SourceReadError {
        SourceReadError::Memory
    }
}

impl<T: Drop> From<AllocFailed<T>> for SourceReadError {
    ghost from_gives = { λ _ e. e ≡ Memory };

    fn from(_failed: AllocFailed<T>) -> SourceReadError {
        SourceReadError::Memory
    }
}
