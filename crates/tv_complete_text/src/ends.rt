//! Passing over what a text of structures tells of its predicates, up to the names.

ghost use Rattle.std.specs.Prelude.{◌≡◌, ℕ, List, is_some, map};
ghost use Rattle.tv_lex.specs.Token.{text_of, spec_tokens};
ghost use Rattle.tv_phrases.specs.Reading.{GivesReading, Takes};
ghost use Rattle.tv_tvs.specs.Grammar.{value_in, begins_comma};
ghost use Rattle.tv_tvs.specs.Reading.{opening_at};
ghost use Rattle.tv_tvs.specs.Views.{name_tree};
ghost use Rattle.tv_complete_text.specs.Ends.{value_end, second_end, item_value_end, item_word};
ghost use Rattle.tv_complete_text.specs.Ends.{next_item_word};
ghost use Rattle.tv_complete_text.specs.Ends.{some_items_end, items_end, content_end, entry_name};

use std::alloc::Global;
use tv_lex::{Token, text};
use tv_phrases::{
    Item, NamePhrase, Part, PhraseError, Read, after, all_parts, begins_item, begins_with, expect,
    is_spelled, name, word,
};

/// The tokens that a phrase leaves.
type Left<'a> = Result<&'a [Token], PhraseError<'a>>;

fn is_value(word: &[u8]) -> bool
    ensures { result ≡ is_some (value_in word.now) }
{
    is_spelled(word, b"0") || is_spelled(word, b"1") || is_spelled(word, b"1/2")
}

/// Behind `0`, `1` or `1/2`.
#[tactic(auto, unfolding(crate::specs::Ends::value_end, tv_phrases::specs::Tokens::first))]
fn value_end<'a>(bytes: &[u8], tokens: &'a [Token]) -> Left<'a>
    ensures { Takes (λ rest. spec_tokens bytes.now rest.now) result
        (value_end (spec_tokens bytes.now tokens.now)) }
{
    match tokens.split_first() {
        Some((token, rest)) if is_value(text(bytes, token)) => Ok(rest),
        _ => Err(PhraseError::Unexpected(tokens)),
    }
}

/// Behind `->` and a word, where `->` stands.
#[tactic(auto, unfolding(crate::specs::Ends::second_end))]
fn second_end<'a>(bytes: &[u8], tokens: &'a [Token]) -> Left<'a>
    ensures { Takes (λ rest. spec_tokens bytes.now rest.now) result
        (second_end (spec_tokens bytes.now tokens.now)) }
{
    match after(bytes, tokens, b"->") {
        None => Ok(tokens),
        Some(behind) => Ok(word(bytes, behind)?.1),
    }
}

/// Behind `:` and a value, where `:` stands.
#[tactic(auto, unfolding(crate::specs::Ends::item_value_end))]
fn item_value_end<'a>(bytes: &[u8], tokens: &'a [Token]) -> Left<'a>
    ensures { Takes (λ rest. spec_tokens bytes.now rest.now) result
        (item_value_end (spec_tokens bytes.now tokens.now)) }
{
    match after(bytes, tokens, b":") {
        None => Ok(tokens),
        Some(behind) => value_end(bytes, behind),
    }
}

/// The first word of an item, and what stands behind the item.
#[tactic(auto, unfolding(crate::specs::Ends::item_word))]
fn item_word<'a>(bytes: &[u8], tokens: &'a [Token]) -> Read<'a, Token>
    ensures { Takes (λ x. (text_of bytes.now x.0, spec_tokens bytes.now x.1.now)) result
        (item_word (spec_tokens bytes.now tokens.now)) }
{
    let (first, behind) = word(bytes, tokens)?;
    let end = second_end(bytes, behind)?;
    let rest = item_value_end(bytes, end)?;
    Ok((first, rest))
}

/// The same of an item behind a comma.
#[tactic(auto, unfolding(crate::specs::Ends::next_item_word))]
fn next_item_word<'a>(bytes: &[u8], tokens: &'a [Token]) -> Read<'a, Token>
    ensures { Takes (λ x. (text_of bytes.now x.0, spec_tokens bytes.now x.1.now)) result
        (next_item_word (spec_tokens bytes.now tokens.now)) }
{
    let behind = expect(bytes, tokens, b",")?;
    item_word(bytes, behind)
}

/// The first word of an item behind a comma.
#[derive(Debug, Drop)]
struct ItemWord(Token);

impl<'a> Part<'a> for ItemWord {
    ghost Tree = { List ℕ };

    ghost starts = { begins_comma };

    ghost part_at = { next_item_word };

    ghost tree = { λ bytes x. text_of bytes x.0 };

    fn begins(bytes: &[u8], tokens: &[Token]) -> bool {
        begins_with(bytes, tokens, b",")
    }

    fn read(_alloc: Global, bytes: &[u8], tokens: &'a [Token]) -> Read<'a, ItemWord> {
        let (first, rest) = next_item_word(bytes, tokens)?;
        Ok((ItemWord(first), rest))
    }
}

/// Behind items with commas between them.
#[tactic(auto, unfolding(crate::specs::Ends::some_items_end))]
fn some_items_end<'a>(alloc: Global, bytes: &[u8], tokens: &'a [Token]) -> Left<'a>
    ensures { GivesReading (λ rest. spec_tokens bytes.now rest.now) result
        (some_items_end (spec_tokens bytes.now tokens.now)) }
{
    let (_, behind) = item_word(bytes, tokens)?;
    let (_, rest) = all_parts::<ItemWord>(alloc, bytes, behind)?;
    Ok(rest)
}

/// The same, where a word stands.
#[tactic(auto, unfolding(crate::specs::Ends::items_end))]
fn items_end<'a>(alloc: Global, bytes: &[u8], tokens: &'a [Token]) -> Left<'a>
    ensures { GivesReading (λ rest. spec_tokens bytes.now rest.now) result
        (items_end (spec_tokens bytes.now tokens.now)) }
{
    if begins_item(bytes, tokens, Item::Word) {
        some_items_end(alloc, bytes, tokens)
    } else {
        Ok(tokens)
    }
}

/// Behind a value, or items in braces.
#[tactic(auto, unfolding(crate::specs::Ends::content_end))]
fn content_end<'a>(alloc: Global, bytes: &[u8], tokens: &'a [Token]) -> Left<'a>
    ensures { GivesReading (λ rest. spec_tokens bytes.now rest.now) result
        (content_end (spec_tokens bytes.now tokens.now)) }
{
    match after(bytes, tokens, b"{") {
        None => value_end(bytes, tokens),
        Some(inside) => {
            let end = items_end(alloc, bytes, inside)?;
            expect(bytes, end, b"}")
        }
    }
}

/// The name of an entry, and what stands behind the entry.
#[tactic(auto, unfolding(crate::specs::Ends::entry_name))]
pub fn entry_name<'a>(alloc: Global, bytes: &[u8], tokens: &'a [Token]) -> Read<'a, NamePhrase>
    ensures { GivesReading (λ x. (name_tree bytes.now x.0, spec_tokens bytes.now x.1.now)) result
        (entry_name (spec_tokens bytes.now tokens.now)) }
{
    let (name, behind) = name(alloc, bytes, tokens)?;
    let end = expect(bytes, behind, b"=")?;
    let rest = content_end(alloc, bytes, end)?;
    Ok((name, rest))
}

/// Behind the directive, `=` and `{`.
#[tactic(auto, unfolding(tv_tvs::specs::Reading::opening_at))]
pub fn block<'a>(bytes: &[u8], tokens: &'a [Token], directive: &[u8]) -> Left<'a>
    ensures { Takes (λ rest. spec_tokens bytes.now rest.now) result
        (opening_at directive.now (spec_tokens bytes.now tokens.now)) }
{
    let behind = expect(bytes, tokens, directive)?;
    let end = expect(bytes, behind, b"=")?;
    expect(bytes, end, b"{")
}
