//! Why no text is given.

ghost use Rattle.std.specs.Prelude.{◌≡◌};
ghost use Rattle.tv_complete_text.specs.declared.error.CompletionError.TheVariants.{Memory};

use std::alloc::AllocError;
use thiserror::Error;

/// Why no text of completed structures is given.
#[derive(Clone, Copy, Debug, PartialEq, Eq, Error)]
pub enum CompletionError {
    /// It would have over 4,194,304 bytes, so that it wouldn't be read as structures.
    #[error("the text is too long")]
    TooLong,
    /// The text that was written doesn't mean the completed structures.
    #[error("the text means other structures")]
    Differs,
    /// There was no memory for it.
    #[error("out of memory")]
    Memory,
}

impl From<AllocError> for CompletionError {
    ghost from_gives = { λ _ e. e ≡ Memory };

    fn from(_failed: AllocError) -> CompletionError {
        CompletionError::Memory
    }
}
