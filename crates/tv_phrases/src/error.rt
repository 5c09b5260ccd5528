//! Why a phrase, or a whole text, wasn't read.

ghost use Rattle.std.specs.Prelude.{◌≡◌};
ghost use Rattle.tv_phrases.specs.declared.error.FormError.TheVariants as form;
ghost use Rattle.tv_phrases.specs.declared.error.PhraseError.TheVariants.{Memory};
ghost use Rattle.tv_phrases.specs.declared.error.SyntaxError.TheVariants as syntax;

use std::alloc::{AllocError, AllocFailed};
use thiserror::Error;
use tv_lex::{Place, Token};

/// Why a phrase wasn't read off the front of the tokens.
#[derive(Clone, Copy, Debug, Error)]
pub enum PhraseError<'a> {
    /// They don't begin with the phrase. These are the tokens from the first one on that no
    /// continuation of the phrase allows.
    #[error("a token that can't stand here")]
    Unexpected(&'a [Token]),
    /// There was no memory for its value.
    #[error("out of memory")]
    Memory,
}

/// A part of the text and the tokens behind it, or why it isn't there.
pub type Read<'a, X> = Result<(X, &'a [Token]), PhraseError<'a>>;

impl<'a> From<AllocError> for PhraseError<'a> {
    ghost from_gives = { λ _ e. e ≡ Memory };

    fn from(_failed: AllocError) -> PhraseError<'a> {
        PhraseError::Memory
    }
}

impl<'a, T: Drop> From<AllocFailed<T>> for PhraseError<'a> {
    ghost from_gives = { λ _ e. e ≡ Memory };

    fn from(_failed: AllocFailed<T>) -> PhraseError<'a> {
        PhraseError::Memory
    }
}

/// Why tokens of a nested grammar have no tree.
#[derive(Clone, Copy, Debug, PartialEq, Eq, Error)]
pub enum SyntaxError {
    /// They aren't of the grammar. This is the place of the first token that can't stand there, or of the end
    /// of the text.
    #[error("no program goes on so at line {}, column {}", .0.line, .0.column)]
    Syntax(Place),
    /// Over 200 constructs are open at one place.
    #[error("over 200 constructs are open at one place")]
    TooDeep,
    /// There was no memory for the tree.
    #[error("out of memory")]
    Memory,
}

impl From<AllocError> for SyntaxError {
    ghost from_gives = { λ _ e. e ≡ syntax.Memory };

    fn from(_failed: AllocError) -> SyntaxError {
        SyntaxError::Memory
    }
}

/// Why a text that belongs to a program isn't read. Its reader says which place it tells.
#[derive(Clone, Copy, Debug, PartialEq, Eq, Error)]
pub enum FormError {
    /// It isn't of its form, or doesn't fit the program. This is the place where that shows.
    #[error("not of this form at {}:{}", .0.line, .0.column)]
    Form(Place),
    /// There was no memory for what it means.
    #[error("no memory")]
    Memory,
}

impl From<AllocError> for FormError {
    ghost from_gives = { λ _ e. e ≡ form.Memory };

    fn from(_failed: AllocError) -> FormError {
        FormError::Memory
    }
}
