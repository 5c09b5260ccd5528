//! Tokens as spans of the text that they were read from.
ghost use Rattle.std.specs.Prelude.{◌≡◌};
ghost use Rattle.tv_lex.specs.Token.{text_of};
ghost use Rattle.tv_lex.specs.declared.token.LexError.TheVariants.{Memory};

use std::alloc::AllocError;
use thiserror::Error;

/// What a token is.
#[derive(Clone, Copy, Debug, PartialEq, Eq)]
pub enum TokenKind {
    /// A run of letters, digits and `_`.
    Word,
    /// `1/2`.
    Half,
    /// A string, with both of its quotes.
    Text,
    /// `%` and a run of letters.
    Directive,
    /// `%%`.
    Parts,
    /// A punctuation.
    Punct,
}

/// A token: its kind, and where it begins and ends in the text that it was read from, in bytes.
#[derive(Clone, Copy, Debug, PartialEq, Eq)]
pub struct Token {
    pub kind: TokenKind,
    /// The place of its first byte, counted from 0.
    pub start: u32,
    /// The place behind its last byte.
    pub end: u32,
}

/// The tokens of a text in their order, without blanks and comments.
#[derive(Debug, Drop)]
pub struct Tokens {
    pub list: Vec<Token>,
}

/// Why a text has no tokens.
#[derive(Clone, Copy, Debug, PartialEq, Eq, Error)]
pub enum LexError {
    /// A byte that begins no token, blank or comment, or that may not stand in a string.
    #[error("a byte that begins no token")]
    BadByte,
    /// A string that doesn't end on its line, or a block comment that doesn't end.
    #[error("a string or a block comment doesn't end")]
    Unended,
    /// There was no memory for the tokens.
    #[error("out of memory")]
    Memory,
}

impl From<AllocError> for LexError {
    ghost from_gives = { λ _ e. e ≡ Memory };

    fn from(_failed: AllocError) -> LexError {
        LexError::Memory
    }
}

/// A place in a text for a reader of it: the line and the byte in it, both counted from 1.
#[derive(Clone, Copy, Debug, PartialEq, Eq)]
pub struct Place {
    pub line: u32,
    pub column: u32,
}

/// The bytes of a token that was read from `bytes`. A span that goes past the end is cut off there,
/// so this is empty where the span lies outside.
pub fn text<'a>(bytes: &'a [u8], token: &Token) -> &'a [u8]
    ensures { result.now ≡ text_of bytes.now token.now }
{
    let end = bytes.len().min(token.end as usize);
    let start = end.min(token.start as usize);
    &bytes[start..end]
}
