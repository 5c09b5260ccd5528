//! Tokens to the trees of structures.

ghost use Rattle.std.specs.Prelude.{◌≡◌};
ghost use Rattle.std.specs.Option.{option_map};
ghost use Rattle.tv_lex.specs.Token.{text_of, spec_tokens};
ghost use Rattle.tv_phrases.specs.Reading.{GivesReading, Takes};
ghost use Rattle.tv_phrases.specs.Tokens.{after, first};
ghost use Rattle.tv_tvs.specs.Grammar.{value_in, value_item, begins_comma, begins_name};
ghost use Rattle.tv_tvs.specs.Grammar.{begins_struct};
ghost use Rattle.tv_tvs.specs.Reading.{second_at, item_value_at, item_at, next_item_at};
ghost use Rattle.tv_tvs.specs.Reading.{one_or_more_at, items_at, one_value_at, braces_at, content_at};
ghost use Rattle.tv_tvs.specs.Reading.{entry_at, opening_at, struct_at};
ghost use Rattle.tv_tvs.specs.Reading.{text_of_structs};
ghost use Rattle.tv_tvs.specs.Tree.{ItemTree, EntryTree, StructTree};
ghost use Rattle.tv_tvs.specs.Views.{item_tree, item_trees, content_tree, entry_tree};
ghost use Rattle.tv_tvs.specs.Views.{struct_tree, struct_trees};

use std::alloc::Global;
use tv_kleene::K3;
use tv_lex::{Token, text};
use tv_phrases::{
    Item, NamePhrase, Part, PhraseError, Read, after, all_parts, begins_item, begins_with, expect,
    is_spelled, name, optional_list, word,
};

/// An item of an entry: a word, maybe a second one, and the value that is written behind, if one is.
#[derive(Clone, Copy, Debug)]
pub(crate) struct ItemText {
    pub first: Token,
    pub second: Option<Token>,
    pub value: Option<K3>,
}

/// What is written of a predicate.
#[derive(Debug, Drop)]
pub(crate) enum ContentText {
    /// One value.
    OneValue(K3),
    /// Tuples in braces.
    Listed(Vec<ItemText>),
}

/// A predicate's entry.
#[derive(Debug, Drop)]
pub(crate) struct EntryText {
    pub name: NamePhrase,
    pub content: ContentText,
}

/// A structure: the words of its individuals in order, and its entries.
#[derive(Debug, Drop)]
pub(crate) struct StructText {
    pub individuals: Vec<Token>,
    pub entries: Vec<EntryText>,
}

fn value_in(word: &[u8]) -> Option<K3>
    ensures { result ≡ value_in word.now }
{
    if is_spelled(word, b"0") {
        return Some(K3::No);
    }
    if is_spelled(word, b"1") {
        return Some(K3::Yes);
    }
    if is_spelled(word, b"1/2") {
        return Some(K3::Half);
    }
    None
}

/// `0`, `1` or `1/2`.
#[tactic(auto, unfolding(tv_phrases::specs::Tokens::first))]
fn value<'a>(bytes: &[u8], tokens: &'a [Token]) -> Read<'a, K3>
    ensures { Takes (λ x. (x.0, spec_tokens bytes.now x.1.now)) result
        (first value_item (spec_tokens bytes.now tokens.now)) }
{
    match tokens.split_first() {
        None => Err(PhraseError::Unexpected(tokens)),
        Some((token, rest)) => match value_in(text(bytes, token)) {
            None => Err(PhraseError::Unexpected(tokens)),
            Some(value) => Ok((value, rest)),
        },
    }
}

/// `->` and a word where `->` stands.
#[tactic(auto, unfolding(crate::specs::Reading::second_at))]
fn second<'a>(bytes: &[u8], tokens: &'a [Token]) -> Read<'a, Option<Token>>
    ensures { Takes (λ x. (option_map (text_of bytes.now) x.0, spec_tokens bytes.now x.1.now)) result
        (second_at (spec_tokens bytes.now tokens.now)) }
{
    match after(bytes, tokens, b"->") {
        None => Ok((None, tokens)),
        Some(behind) => {
            let (found, rest) = word(bytes, behind)?;
            Ok((Some(found), rest))
        }
    }
}

/// `:` and a value where `:` stands.
#[tactic(auto, unfolding(crate::specs::Reading::item_value_at))]
fn item_value<'a>(bytes: &[u8], tokens: &'a [Token]) -> Read<'a, Option<K3>>
    ensures { Takes (λ x. (x.0, spec_tokens bytes.now x.1.now)) result
        (item_value_at (spec_tokens bytes.now tokens.now)) }
{
    match after(bytes, tokens, b":") {
        None => Ok((None, tokens)),
        Some(behind) => {
            let (found, rest) = value(bytes, behind)?;
            Ok((Some(found), rest))
        }
    }
}

#[tactic(auto, unfolding(crate::specs::Reading::item_at))]
fn item<'a>(bytes: &[u8], tokens: &'a [Token]) -> Read<'a, ItemText>
    ensures { Takes (λ x. (item_tree bytes.now x.0, spec_tokens bytes.now x.1.now)) result
        (item_at (spec_tokens bytes.now tokens.now)) }
{
    let (first, behind) = word(bytes, tokens)?;
    let (second, end) = second(bytes, behind)?;
    let (value, rest) = item_value(bytes, end)?;
    let found = ItemText {
        first,
        second,
        value,
    };
    Ok((found, rest))
}

/// An item behind a comma.
#[tactic(auto, unfolding(crate::specs::Reading::next_item_at))]
fn next_item<'a>(bytes: &[u8], tokens: &'a [Token]) -> Read<'a, ItemText>
    ensures { Takes (λ x. (item_tree bytes.now x.0, spec_tokens bytes.now x.1.now)) result
        (next_item_at (spec_tokens bytes.now tokens.now)) }
{
    let behind = expect(bytes, tokens, b",")?;
    item(bytes, behind)
}

impl<'a> Part<'a> for ItemText {
    ghost Tree = { ItemTree };

    ghost starts = { begins_comma };

    ghost part_at = { next_item_at };

    ghost tree = { item_tree };

    fn begins(bytes: &[u8], tokens: &[Token]) -> bool {
        begins_with(bytes, tokens, b",")
    }

    fn read(_alloc: Global, bytes: &[u8], tokens: &'a [Token]) -> Read<'a, ItemText> {
        next_item(bytes, tokens)
    }
}

#[tactic(auto, unfolding(crate::specs::Reading::one_or_more_at))]
fn one_or_more<'a>(alloc: Global, bytes: &[u8], tokens: &'a [Token]) -> Read<'a, Vec<ItemText>>
    ensures { GivesReading (λ x. (item_trees bytes.now x.0.items, spec_tokens bytes.now x.1.now)) result
        (one_or_more_at (spec_tokens bytes.now tokens.now)) }
{
    let (first, behind) = item(bytes, tokens)?;
    let (mut items, rest) = all_parts::<ItemText>(alloc, bytes, behind)?;
    items.insert(0, first)?;
    Ok((items, rest))
}

/// Items with commas between them where a word stands.
#[tactic(auto, unfolding(crate::specs::Reading::items_at))]
fn items<'a>(alloc: Global, bytes: &[u8], tokens: &'a [Token]) -> Read<'a, Vec<ItemText>>
    ensures { GivesReading (λ x. (item_trees bytes.now x.0.items, spec_tokens bytes.now x.1.now)) result
        (items_at (spec_tokens bytes.now tokens.now)) }
{
    if begins_item(bytes, tokens, Item::Word) {
        one_or_more(alloc, bytes, tokens)
    } else {
        Ok((Vec::new(alloc), tokens))
    }
}

#[tactic(auto, unfolding(crate::specs::Reading::one_value_at))]
fn one_value<'a>(bytes: &[u8], tokens: &'a [Token]) -> Read<'a, ContentText>
    ensures { Takes (λ x. (content_tree bytes.now x.0, spec_tokens bytes.now x.1.now)) result
        (one_value_at (spec_tokens bytes.now tokens.now)) }
{
    let (value, rest) = value(bytes, tokens)?;
    Ok((ContentText::OneValue(value), rest))
}

/// Items and the `}` behind them.
#[tactic(auto, unfolding(crate::specs::Reading::braces_at))]
fn braces<'a>(alloc: Global, bytes: &[u8], tokens: &'a [Token]) -> Read<'a, ContentText>
    ensures { GivesReading (λ x. (content_tree bytes.now x.0, spec_tokens bytes.now x.1.now)) result
        (braces_at (spec_tokens bytes.now tokens.now)) }
{
    let (items, end) = items(alloc, bytes, tokens)?;
    let rest = expect(bytes, end, b"}")?;
    Ok((ContentText::Listed(items), rest))
}

#[tactic(auto, unfolding(crate::specs::Reading::content_at))]
fn content<'a>(alloc: Global, bytes: &[u8], tokens: &'a [Token]) -> Read<'a, ContentText>
    ensures { GivesReading (λ x. (content_tree bytes.now x.0, spec_tokens bytes.now x.1.now)) result
        (content_at (spec_tokens bytes.now tokens.now)) }
{
    match after(bytes, tokens, b"{") {
        None => one_value(bytes, tokens),
        Some(inside) => braces(alloc, bytes, inside),
    }
}

#[tactic(auto, unfolding(crate::specs::Reading::entry_at))]
fn entry<'a>(alloc: Global, bytes: &[u8], tokens: &'a [Token]) -> Read<'a, EntryText>
    ensures { GivesReading (λ x. (entry_tree bytes.now x.0, spec_tokens bytes.now x.1.now)) result
        (entry_at (spec_tokens bytes.now tokens.now)) }
{
    let (name, behind) = name(alloc, bytes, tokens)?;
    let end = expect(bytes, behind, b"=")?;
    let (content, rest) = content(alloc, bytes, end)?;
    Ok((EntryText { name, content }, rest))
}

impl<'a> Part<'a> for EntryText {
    ghost Tree = { EntryTree };

    ghost starts = { begins_name };

    ghost part_at = { entry_at };

    ghost tree = { entry_tree };

    fn begins(bytes: &[u8], tokens: &[Token]) -> bool {
        begins_item(bytes, tokens, Item::Identifier)
    }

    fn read(alloc: Global, bytes: &[u8], tokens: &'a [Token]) -> Read<'a, EntryText> {
        entry(alloc, bytes, tokens)
    }
}

/// The directive, `=` and `{`.
#[tactic(auto, unfolding(crate::specs::Reading::opening_at))]
fn opening<'a>(
    bytes: &[u8],
    tokens: &'a [Token],
    directive: &[u8],
) -> Result<&'a [Token], PhraseError<'a>>
    ensures { Takes (λ rest. spec_tokens bytes.now rest.now) result
        (opening_at directive.now (spec_tokens bytes.now tokens.now)) }
{
    let behind = expect(bytes, tokens, directive)?;
    let end = expect(bytes, behind, b"=")?;
    expect(bytes, end, b"{")
}

/// A structure.
#[tactic(auto, unfolding(crate::specs::Reading::struct_at))]
pub(crate) fn structure<'a>(
    alloc: Global,
    bytes: &[u8],
    tokens: &'a [Token],
) -> Read<'a, StructText>
    ensures { GivesReading (λ x. (struct_tree bytes.now x.0, spec_tokens bytes.now x.1.now)) result
        (struct_at (spec_tokens bytes.now tokens.now)) }
{
    let inside = opening(bytes, tokens, b"%n")?;
    let (individuals, end) = optional_list(alloc, bytes, inside, Item::Word)?;
    let behind = expect(bytes, end, b"}")?;
    let within = opening(bytes, behind, b"%p")?;
    let (entries, last) = all_parts::<EntryText>(alloc, bytes, within)?;
    let rest = expect(bytes, last, b"}")?;
    let found = StructText {
        individuals,
        entries,
    };
    Ok((found, rest))
}

impl<'a> Part<'a> for StructText {
    ghost Tree = { StructTree };

    ghost starts = { begins_struct };

    ghost part_at = { struct_at };

    ghost tree = { struct_tree };

    fn begins(bytes: &[u8], tokens: &[Token]) -> bool {
        begins_with(bytes, tokens, b"%n")
    }

    fn read(alloc: Global, bytes: &[u8], tokens: &'a [Token]) -> Read<'a, StructText> {
        structure(alloc, bytes, tokens)
    }
}

/// The structures of all the tokens.
#[tactic(auto, unfolding(crate::specs::Reading::text_of_structs))]
pub(crate) fn structures<'a>(
    alloc: Global,
    bytes: &[u8],
    tokens: &'a [Token],
) -> Result<Vec<StructText>, PhraseError<'a>>
    ensures { GivesReading (λ x. struct_trees bytes.now x.items) result
        (text_of_structs (spec_tokens bytes.now tokens.now)) }
{
    let (list, rest) = all_parts::<StructText>(alloc, bytes, tokens)?;
    if !rest.is_empty() {
        return Err(PhraseError::Unexpected(rest));
    }
    Ok(list)
}
