//! Names and marks of the language.

ghost use Rattle.std.specs.Prelude.{◌≡◌, ◌<◌, is_some, map};
ghost use Rattle.tv_lex.specs.Token.{text_of, spec_tokens};
ghost use Rattle.tv_phrases.specs.Reading.{GivesReading, Takes};
ghost use Rattle.tv_phrases.specs.Repeated.{below};
ghost use Rattle.tv_source_syntax.specs.Words.{is_own_word, name_at};
ghost use Rattle.tv_source_syntax.specs.Reading.{names_at, names_in};

use crate::tree::NameTokens;
use std::alloc::Global;
use tv_lex::{Token, text};
use tv_model::Items;
use tv_phrases::{PhraseError, Read, after, below, expect, identifier, is_spelled};

/// Whether it is a word of the language, which can't be a name.
fn is_own_word(word: &[u8]) -> bool
    ensures { result ≡ is_own_word word.now }
{
    is_spelled(word, b"vars")
        || is_spelled(word, b"fields")
        || is_spelled(word, b"null")
        || is_spelled(word, b"new")
        || is_spelled(word, b"if")
        || is_spelled(word, b"else")
        || is_spelled(word, b"while")
}

/// A name, and the tokens behind it.
#[tactic(auto, unfolding(crate::specs::Words::name_at))]
pub fn name<'a>(bytes: &[u8], tokens: &'a [Token]) -> Read<'a, Token>
    ensures { Takes (λ x. (text_of bytes.now x.0, spec_tokens bytes.now x.1.now)) result
        (name_at (spec_tokens bytes.now tokens.now)) }
{
    let (word, rest) = identifier(bytes, tokens)?;
    if is_own_word(text(bytes, &word)) {
        return Err(PhraseError::Unexpected(tokens));
    }
    Ok((word, rest))
}

/// Whether a name stands here.
pub fn begins_name(bytes: &[u8], tokens: &[Token]) -> bool
    ensures { result ≡ is_some (name_at (spec_tokens bytes.now tokens.now)) }
{
    name(bytes, tokens).is_ok()
}

// One name or more, with commas between them.
#[tactic(auto, using(tv_phrases::proofs::Repeats::joined_start, tv_phrases::proofs::Repeats::no_joined, tv_phrases::proofs::Repeats::joined_end, tv_phrases::proofs::Repeats::joined_break, tv_phrases::proofs::Repeats::many_out))]
fn names<'a>(alloc: Global, bytes: &[u8], tokens: &'a [Token]) -> Read<'a, Vec<Token>>
    ensures { GivesReading (λ x. (map (text_of bytes.now) x.0.items, spec_tokens bytes.now x.1.now)) result
        (names_at (spec_tokens bytes.now tokens.now)) }
{
    let (first, mut rest) = name(bytes, tokens)?;
    let mut left = rest.len() + 1;
    let mut list = Vec::new(alloc);
    list.push(first)?;
    'names: loop {
        left = below(left, rest)?;
        let Some(next) = after(bytes, rest, b",") else {
            return Ok((list, rest));
        };
        let (further, behind) = name(bytes, next)?;
        list.push(further)?;
        rest = behind;
    }
}

/// One name or more, in braces, behind a word.
#[tactic(auto, unfolding(crate::specs::Reading::names_in))]
pub fn names_in<'a>(
    alloc: Global,
    bytes: &[u8],
    tokens: &'a [Token],
    mark: &[u8],
) -> Read<'a, NameTokens>
    ensures { GivesReading (λ x. (map (text_of bytes.now) x.0, spec_tokens bytes.now x.1.now)) result
        (names_in mark.now (spec_tokens bytes.now tokens.now)) }
{
    let behind = expect(bytes, tokens, mark)?;
    let inside = expect(bytes, behind, b"{")?;
    let (list, end) = names(alloc, bytes, inside)?;
    let rest = expect(bytes, end, b"}")?;
    Ok((Items::from_vec(list), rest))
}
