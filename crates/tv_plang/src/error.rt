//! Why a text isn't compiled.

ghost use Rattle.std.specs.Prelude.{◌≡◌};
ghost use Rattle.tv_plang.specs.Errors.{of_compiling, of_reading};

use crate::whole::CompileError;
use thiserror::Error;
use tv_lex::Place;
use tv_source_names::SourceReadError;

/// Why a text isn't compiled: how many are open at a place is looked at first, then the grammar of the whole
/// text, then names in the order in which they stand, then how large the program is.
#[derive(Clone, Copy, Debug, PartialEq, Eq, Error)]
pub enum SourceError {
    /// Over 200 parentheses and braces are open at one place.
    #[error("over 200 parentheses and braces are open at one place")]
    TooDeep,
    /// The tokens aren't of the grammar. This is the place of the first token that can't stand there, or of
    /// the end of the text.
    #[error("no program goes on so at line {}, column {}", .0.line, .0.column)]
    Syntax(Place),
    /// A declared name is `sm` or `isNew`.
    #[error("a name that can't be declared")]
    Reserved,
    /// A name is declared twice, be it as a variable or as a field.
    #[error("a name twice")]
    NameTwice,
    /// A variable or a field isn't declared as such.
    #[error("an unknown name")]
    NameUnknown,
    /// There would be over 512 predicates, 4,096 nodes or 16,384 edges.
    #[error("too many predicates, nodes or edges")]
    TooMany,
    /// There was no memory for the program.
    #[error("out of memory")]
    Memory,
}

impl From<SourceReadError> for SourceError {
    ghost from_gives = { λ e fault. fault ≡ of_reading e };

    fn from(e: SourceReadError) -> SourceError {
        match e {
            SourceReadError::TooDeep => SourceError::TooDeep,
            SourceReadError::Syntax(place) => SourceError::Syntax(place),
            SourceReadError::Reserved => SourceError::Reserved,
            SourceReadError::NameTwice => SourceError::NameTwice,
            SourceReadError::NameUnknown => SourceError::NameUnknown,
            SourceReadError::Memory => SourceError::Memory,
        }
    }
}

impl From<CompileError> for SourceError {
    ghost from_gives = { λ e fault. fault ≡ of_compiling e };

    fn from(e: CompileError) -> SourceError {
        match e {
            CompileError::TooMany => SourceError::TooMany,
            CompileError::Memory => SourceError::Memory,
        }
    }
}
