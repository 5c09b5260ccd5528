//! Why no text is given of a program.

ghost use Rattle.std.specs.Prelude.{◌≡◌};
ghost use Rattle.tv_compiled.specs.declared.error.CompiledError.TheVariants.{Memory};

use std::alloc::AllocError;
use thiserror::Error;

/// Why no text is given of a compiled program.
#[derive(Clone, Copy, Debug, PartialEq, Eq, Error)]
pub enum CompiledError {
    /// It would have over 4,194,304 bytes, so that it wouldn't be read as a program.
    #[error("the text is too long")]
    TooLong,
    /// The text that was written doesn't mean the program.
    #[error("the text means another program")]
    Differs,
    /// There was no memory for the text.
    #[error("out of memory")]
    Memory,
}

impl From<AllocError> for CompiledError {
    ghost from_gives = { λ _ e. e ≡ Memory };

    fn from(_failed: AllocError) -> CompiledError {
        CompiledError::Memory
    }
}
