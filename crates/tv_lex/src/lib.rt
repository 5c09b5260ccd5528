//! Texts with their includes put in, the tokens of a text, and places in it.
#![tactic(auto)]

mod front;
mod gatherer;
mod include;
mod laws;
mod places;
mod reader;
mod token;

pub use gatherer::{GatherError, Gathered, MAX_DEPTH, MAX_TEXT, Part, gather};
pub use laws::{
    comments_over_lines, include_lines, limits_are_told, one_reading, spaced_texts,
    tokens_in_order, tokens_of_their_kinds,
};
pub use places::{place, stop_place};
pub use reader::lex;
pub use token::{LexError, Place, Token, TokenKind, Tokens, text};
