//! Phrases of one token.

ghost use Rattle.std.specs.Prelude.{◌≡◌, ◌<◌, length, IfSome, IfOk, if◌then◌else◌, is_some, drop, take, ◌-◌};
ghost use Rattle.std.specs.Option.{option_map};
ghost use Rattle.std.specs.Str.{bytes_eq};
ghost use Rattle.tv_lex.specs.Token.{text_of, spec_token, spec_tokens};
ghost use Rattle.tv_phrases.specs.Reading.{Takes};
ghost use Rattle.tv_phrases.specs.Repeated.{begins_with, below};
ghost use Rattle.tv_phrases.specs.Tokens.{after, first, is_word, is_text, is_reserved, is_identifier};
ghost use Rattle.tv_phrases.specs.Tokens.{item_of, word_item, identifier_item, text_item, unquoted};

use crate::error::{PhraseError, Read};
use crate::kinds::Item;
use tv_lex::{Token, TokenKind, text};

/// Whether a word is spelled like the mark.
pub fn is_spelled(word: &[u8], mark: &[u8]) -> bool
    ensures { result ≡ bytes_eq word.now mark.now }
{
    word == mark
}

/// The tokens behind the first one, where it is spelled like the mark.
#[tactic(auto, unfolding(crate::specs::Tokens::after))]
pub fn after<'a>(bytes: &[u8], tokens: &'a [Token], mark: &[u8]) -> Option<&'a [Token]>
    ensures value { option_map (λ rest. spec_tokens bytes.now rest.now) result
        ≡ after mark.now (spec_tokens bytes.now tokens.now) }
    ensures shorter { IfSome result (λ rest. length rest.now < length tokens.now) }
{
    let (first, rest) = tokens.split_first()?;
    if is_spelled(text(bytes, first), mark) {
        Some(rest)
    } else {
        None
    }
}

/// Whether the first token is spelled like the mark.
pub fn begins_with(bytes: &[u8], tokens: &[Token], mark: &[u8]) -> bool
    ensures { result ≡ begins_with mark.now (spec_tokens bytes.now tokens.now) }
{
    after(bytes, tokens, mark).is_some()
}

/// One level or turn less, if there is one. There always is, since each takes a token at least.
pub fn below(depth: usize, tokens: &[Token]) -> Result<usize, PhraseError<'_>>
    ensures value { Takes (λ inner. inner) result (below depth) }
    ensures less { IfOk result (λ inner. inner < depth) }
{
    match depth.checked_sub(1) {
        Some(inner) => Ok(inner),
        None => Err(PhraseError::Unexpected(tokens)),
    }
}

/// The tokens behind the first one, which has to be spelled like the mark.
pub fn expect<'a>(
    bytes: &[u8],
    tokens: &'a [Token],
    mark: &[u8],
) -> Result<&'a [Token], PhraseError<'a>>
    ensures value { Takes (λ rest. spec_tokens bytes.now rest.now) result
        (after mark.now (spec_tokens bytes.now tokens.now)) }
    ensures shorter { IfOk result (λ rest. length rest.now < length tokens.now) }
{
    match after(bytes, tokens, mark) {
        Some(rest) => Ok(rest),
        None => Err(PhraseError::Unexpected(tokens)),
    }
}

pub(crate) fn is_word(kind: TokenKind) -> bool
    ensures { result ≡ is_word kind }
{
    matches!(kind, TokenKind::Word)
}

fn is_reserved(word: &[u8]) -> bool
    ensures { result ≡ is_reserved word.now }
{
    is_spelled(word, b"E")
        || is_spelled(word, b"A")
        || is_spelled(word, b"TC")
        || is_spelled(word, b"foreach")
        || is_spelled(word, b"in")
}

fn is_identifier(word: &[u8]) -> bool
    ensures { result ≡ is_identifier word.now }
{
    match word.first() {
        Some(first) => (first.is_ascii_alphabetic() || *first == b'_') && !is_reserved(word),
        None => false,
    }
}

fn is_item(bytes: &[u8], token: &Token, item: Item) -> bool
    ensures { item_of item (spec_token bytes.now token.now)
        ≡ (if result then Some (text_of bytes.now token.now) else None) }
{
    match item {
        Item::Word => is_word(token.kind),
        Item::Identifier => is_word(token.kind) && is_identifier(text(bytes, token)),
    }
}

/// Whether the first token is such an item.
#[tactic(auto, unfolding(crate::specs::Tokens::first))]
pub fn begins_item(bytes: &[u8], tokens: &[Token], item: Item) -> bool
    ensures { result ≡ is_some (first (item_of item) (spec_tokens bytes.now tokens.now)) }
{
    match tokens.first() {
        Some(token) => is_item(bytes, token, item),
        None => false,
    }
}

/// The first token, which has to be such an item, and the tokens behind it.
#[tactic(auto, unfolding(crate::specs::Tokens::first))]
pub(crate) fn item<'a>(bytes: &[u8], tokens: &'a [Token], item: Item) -> Read<'a, Token>
    ensures value { Takes (λ x. (text_of bytes.now x.0, spec_tokens bytes.now x.1.now)) result
        (first (item_of item) (spec_tokens bytes.now tokens.now)) }
    ensures shorter { IfOk result (λ x. length x.1.now < length tokens.now) }
{
    match tokens.split_first() {
        Some((token, rest)) if is_item(bytes, token, item) => Ok((*token, rest)),
        _ => Err(PhraseError::Unexpected(tokens)),
    }
}

/// A word, and the tokens behind it.
pub fn word<'a>(bytes: &[u8], tokens: &'a [Token]) -> Read<'a, Token>
    ensures value { Takes (λ x. (text_of bytes.now x.0, spec_tokens bytes.now x.1.now)) result
        (first word_item (spec_tokens bytes.now tokens.now)) }
    ensures shorter { IfOk result (λ x. length x.1.now < length tokens.now) }
{
    item(bytes, tokens, Item::Word)
}

/// An identifier, and the tokens behind it.
pub fn identifier<'a>(bytes: &[u8], tokens: &'a [Token]) -> Read<'a, Token>
    ensures value { Takes (λ x. (text_of bytes.now x.0, spec_tokens bytes.now x.1.now)) result
        (first identifier_item (spec_tokens bytes.now tokens.now)) }
    ensures shorter { IfOk result (λ x. length x.1.now < length tokens.now) }
{
    item(bytes, tokens, Item::Identifier)
}

fn is_text(kind: TokenKind) -> bool
    ensures { result ≡ is_text kind }
{
    matches!(kind, TokenKind::Text)
}

/// The bytes of a string without its first and last one, the quotes.
pub fn unquoted(string: &[u8]) -> &[u8]
    ensures { result.now ≡ unquoted string.now }
{
    match string {
        [_, inside @ .., _] => inside,
        _ => &string[..0],
    }
}

/// Whether the first token is a string.
#[tactic(auto, unfolding(crate::specs::Tokens::first))]
pub fn begins_string(bytes: &[u8], tokens: &[Token]) -> bool
    ensures { result ≡ is_some (first text_item (spec_tokens bytes.now tokens.now)) }
{
    match tokens.first() {
        Some(token) => is_text(token.kind),
        None => false,
    }
}

/// A string, as its token, and the tokens behind it. Its value is what stands between its quotes
/// (`unquoted`).
#[tactic(auto, unfolding(crate::specs::Tokens::first))]
pub fn string<'a>(bytes: &[u8], tokens: &'a [Token]) -> Read<'a, Token>
    ensures value { Takes (λ x. (unquoted (text_of bytes.now x.0), spec_tokens bytes.now x.1.now)) result
        (first text_item (spec_tokens bytes.now tokens.now)) }
    ensures shorter { IfOk result (λ x. length x.1.now < length tokens.now) }
{
    match tokens.split_first() {
        Some((token, rest)) if is_text(token.kind) => Ok((*token, rest)),
        _ => Err(PhraseError::Unexpected(tokens)),
    }
}
