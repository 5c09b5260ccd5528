//! Phrases of several tokens. They give the tokens of their words; `tv_lex::text` gives a token's bytes.

ghost use Rattle.std.specs.Prelude.{◌≡◌, map};
ghost use Rattle.tv_lex.specs.Token.{text_of, spec_tokens};
ghost use Rattle.tv_phrases.specs.Reading.{GivesReading, Takes};
ghost use Rattle.tv_phrases.specs.Tokens.{item_of, identifier_item};
ghost use Rattle.tv_phrases.specs.Lists.{comma_list, optional_list, list_in, optional_list_in, params};
ghost use Rattle.tv_phrases.specs.Lists.{variables, optional_brackets, name, two_items, pair};

use crate::error::Read;
use crate::kinds::{Brackets, Item};
use crate::tokens::{after, begins_item, expect, identifier, item};
use std::alloc::Global;
use tv_lex::Token;

/// A comma list: one item or more, with commas between them.
#[tactic(auto, using(crate::proofs::CommaLists::begun, crate::proofs::CommaLists::not_begun, crate::proofs::CommaLists::more_items, crate::proofs::CommaLists::no_more_items, crate::proofs::CommaLists::broken_items))]
pub(crate) fn comma_list<'a>(
    alloc: Global,
    bytes: &[u8],
    tokens: &'a [Token],
    kind: Item,
) -> Read<'a, Vec<Token>>
    ensures { GivesReading (λ x. (map (text_of bytes.now) x.0.items, spec_tokens bytes.now x.1.now)) result
        (comma_list (item_of kind) (spec_tokens bytes.now tokens.now)) }
{
    let (first, mut rest) = item(bytes, tokens, kind)?;
    let mut list = Vec::new(alloc);
    list.push(first)?;
    while let Some(behind) = after(bytes, rest, b",") {
        let (next, further) = item(bytes, behind, kind)?;
        list.push(next)?;
        rest = further;
    }
    Ok((list, rest))
}

/// A comma list where the first token can begin it, else no items.
#[tactic(auto, unfolding(crate::specs::Lists::optional_list))]
pub fn optional_list<'a>(
    alloc: Global,
    bytes: &[u8],
    tokens: &'a [Token],
    kind: Item,
) -> Read<'a, Vec<Token>>
    ensures { GivesReading (λ x. (map (text_of bytes.now) x.0.items, spec_tokens bytes.now x.1.now)) result
        (optional_list (item_of kind) (spec_tokens bytes.now tokens.now)) }
{
    if begins_item(bytes, tokens, kind) {
        comma_list(alloc, bytes, tokens, kind)
    } else {
        Ok((Vec::new(alloc), tokens))
    }
}

/// One item or more, with commas between them, between brackets.
#[tactic(auto, unfolding(crate::specs::Lists::between))]
pub(crate) fn list_in<'a>(
    alloc: Global,
    bytes: &[u8],
    tokens: &'a [Token],
    brackets: Brackets,
    kind: Item,
) -> Read<'a, Vec<Token>>
    ensures { GivesReading (λ x. (map (text_of bytes.now) x.0.items, spec_tokens bytes.now x.1.now)) result
        (list_in brackets kind (spec_tokens bytes.now tokens.now)) }
{
    let inside = expect(bytes, tokens, brackets.opening())?;
    let (list, end) = comma_list(alloc, bytes, inside, kind)?;
    let rest = expect(bytes, end, brackets.closing())?;
    Ok((list, rest))
}

/// Any number of items, with commas between them, between brackets.
#[tactic(auto, unfolding(crate::specs::Lists::between))]
pub fn optional_list_in<'a>(
    alloc: Global,
    bytes: &[u8],
    tokens: &'a [Token],
    brackets: Brackets,
    kind: Item,
) -> Read<'a, Vec<Token>>
    ensures { GivesReading (λ x. (map (text_of bytes.now) x.0.items, spec_tokens bytes.now x.1.now)) result
        (optional_list_in brackets kind (spec_tokens bytes.now tokens.now)) }
{
    let inside = expect(bytes, tokens, brackets.opening())?;
    let (list, end) = optional_list(alloc, bytes, inside, kind)?;
    let rest = expect(bytes, end, brackets.closing())?;
    Ok((list, rest))
}

/// Parameters: identifiers with commas between them, or none, between parentheses.
pub fn params<'a>(alloc: Global, bytes: &[u8], tokens: &'a [Token]) -> Read<'a, Vec<Token>>
    ensures { GivesReading (λ x. (map (text_of bytes.now) x.0.items, spec_tokens bytes.now x.1.now)) result
        (params (spec_tokens bytes.now tokens.now)) }
{
    optional_list_in(alloc, bytes, tokens, Brackets::Round, Item::Identifier)
}

/// Variables: one identifier or more, with commas between them, between parentheses.
pub fn variables<'a>(alloc: Global, bytes: &[u8], tokens: &'a [Token]) -> Read<'a, Vec<Token>>
    ensures { GivesReading (λ x. (map (text_of bytes.now) x.0.items, spec_tokens bytes.now x.1.now)) result
        (variables (spec_tokens bytes.now tokens.now)) }
{
    list_in(alloc, bytes, tokens, Brackets::Round, Item::Identifier)
}

/// The tokens of a name: those of its first identifier, and of the identifiers in brackets behind it, if
/// there are any.
#[derive(Debug, Drop)]
pub struct NamePhrase {
    pub first: Token,
    pub brackets: Vec<Token>,
}

#[tactic(auto, unfolding(crate::specs::Lists::optional_brackets))]
fn optional_brackets<'a>(alloc: Global, bytes: &[u8], tokens: &'a [Token]) -> Read<'a, Vec<Token>>
    ensures { GivesReading (λ x. (map (text_of bytes.now) x.0.items, spec_tokens bytes.now x.1.now)) result
        (optional_brackets (spec_tokens bytes.now tokens.now)) }
{
    match after(bytes, tokens, b"[") {
        Some(_) => list_in(alloc, bytes, tokens, Brackets::Square, Item::Identifier),
        None => Ok((Vec::new(alloc), tokens)),
    }
}

/// A name: an identifier, and one identifier or more in brackets behind it where `[` stands there.
#[tactic(auto, unfolding(crate::specs::Lists::name))]
pub fn name<'a>(alloc: Global, bytes: &[u8], tokens: &'a [Token]) -> Read<'a, NamePhrase>
    ensures { GivesReading
        (λ x. (
          (text_of bytes.now x.0.first, map (text_of bytes.now) x.0.brackets.items),
          spec_tokens
              bytes.now x.1.now,
        )) result (name (spec_tokens bytes.now tokens.now)) }
{
    let (first, behind) = identifier(bytes, tokens)?;
    let (brackets, rest) = optional_brackets(alloc, bytes, behind)?;
    Ok((NamePhrase { first, brackets }, rest))
}

#[tactic(auto, unfolding(crate::specs::Lists::two_items))]
fn two_items<'a>(bytes: &[u8], tokens: &'a [Token]) -> Read<'a, (Token, Token)>
    ensures { Takes (λ x. ((text_of bytes.now x.0.0, text_of bytes.now x.0.1), spec_tokens bytes.now x.1.now))
        result (two_items (spec_tokens bytes.now tokens.now)) }
{
    let (left, behind) = identifier(bytes, tokens)?;
    let next = expect(bytes, behind, b",")?;
    let (right, rest) = identifier(bytes, next)?;
    Ok(((left, right), rest))
}

/// Two identifiers, with a comma between them, between parentheses.
#[tactic(auto, unfolding(crate::specs::Lists::between))]
pub fn pair<'a>(bytes: &[u8], tokens: &'a [Token]) -> Read<'a, (Token, Token)>
    ensures { Takes (λ x. ((text_of bytes.now x.0.0, text_of bytes.now x.0.1), spec_tokens bytes.now x.1.now))
        result (pair (spec_tokens bytes.now tokens.now)) }
{
    let inside = expect(bytes, tokens, b"(")?;
    let (words, end) = two_items(bytes, inside)?;
    let rest = expect(bytes, end, b")")?;
    Ok((words, rest))
}
