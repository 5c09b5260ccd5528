//! Tokens to reports whose structures aren't read yet.

ghost use Rattle.std.specs.Prelude.{◌≡◌, [], codes};
ghost use Rattle.tv_lex.specs.Token.{spec_tokens};
ghost use Rattle.tv_listing.specs.declared.analysis.MapLine.{MapLine};
ghost use Rattle.tv_listing.specs.declared.analysis.MessageLine.{MessageLine};
ghost use Rattle.tv_phrases.specs.Reading.{GivesReading, Takes};
ghost use Rattle.tv_phrases.specs.Repeated.{begins_with};
ghost use Rattle.tv_phrases.specs.Tokens.{after, first};
ghost use Rattle.tv_report.specs.Grammar.{value_spelled, message_value};
ghost use Rattle.tv_report.specs.Reading.{NodeMark, structures_end, node_at, line_at, initial_at, result_at};
ghost use Rattle.tv_report.specs.Reading.{item_at, braces_at, map_at, version_at, head_at, maps_if, end_at};
ghost use Rattle.tv_report.specs.Reading.{report_at};
ghost use Rattle.tv_report.specs.Views.{node_mark, map_lines, report_marks};

use std::alloc::Global;
use tv_kleene::K3;
use tv_lex::{Token, text};
use tv_listing::{Item, MapLine, MessageLine};
use tv_model::Items;
use tv_phrases::{
    Part, PhraseError, Read, after, all_parts, begins_with, expect, is_spelled, number,
    optional_numbers, string, word,
};
use tv_struct::Numbers;
use tv_tvs::skip_structure;

/// A node: the tokens that it begins with, its name, and its structures.
#[derive(Clone, Copy, Debug)]
pub(crate) struct NodeText<'a> {
    pub here: &'a [Token],
    pub name: Token,
    /// How many structures stand there.
    pub count: u32,
    /// The tokens from the first structure on.
    pub structures: &'a [Token],
}

/// A message, and the tokens that it begins with.
#[derive(Clone, Copy, Debug)]
pub(crate) struct MessageText<'a> {
    pub here: &'a [Token],
    pub line: MessageLine,
}

/// A map, and the tokens that it begins with.
#[derive(Debug, Drop)]
pub(crate) struct MapText<'a> {
    pub here: &'a [Token],
    pub line: MapLine,
}

/// A report whose structures aren't read yet.
#[derive(Debug, Drop)]
pub(crate) struct ReportText<'a> {
    pub nodes: Vec<NodeText<'a>>,
    pub messages: Vec<MessageText<'a>>,
    pub maps: Vec<MapText<'a>>,
}

/// The tokens behind that many structures.
#[tactic(auto, using(crate::proofs::Skips::one_skipped, crate::proofs::Skips::none_skipped, crate::proofs::Skips::all_skipped))]
fn behind_structures<'a>(
    alloc: Global,
    bytes: &[u8],
    tokens: &'a [Token],
    count: u32,
) -> Result<&'a [Token], PhraseError<'a>>
    ensures { GivesReading (λ rest. spec_tokens bytes.now rest.now) result
        (structures_end count (spec_tokens bytes.now tokens.now)) }
{
    let mut rest = tokens;
    for _ in 0..count {
        rest = skip_structure(alloc, bytes, rest)?;
    }
    Ok(rest)
}

#[tactic(auto, unfolding(crate::specs::Reading::node_at))]
fn node<'a>(alloc: Global, bytes: &[u8], tokens: &'a [Token]) -> Read<'a, NodeText<'a>>
    ensures { GivesReading (λ x. (node_mark bytes.now x.0, spec_tokens bytes.now x.1.now)) result
        (node_at (spec_tokens bytes.now tokens.now)) }
{
    let inside = expect(bytes, tokens, b"node")?;
    let (name, next) = word(bytes, inside)?;
    let behind = expect(bytes, next, b"structures")?;
    let (count, structures) = number(bytes, behind)?;
    let rest = behind_structures(alloc, bytes, structures, count)?;
    let found = NodeText {
        here: tokens,
        name,
        count,
        structures,
    };
    Ok((found, rest))
}

fn value_in(word: &[u8]) -> Option<K3>
    ensures { result ≡ value_spelled word.now }
{
    if is_spelled(word, b"1") {
        return Some(K3::Yes);
    }
    if is_spelled(word, b"1/2") {
        return Some(K3::Half);
    }
    None
}

/// `1` or `1/2`.
#[tactic(auto, unfolding(tv_phrases::specs::Tokens::first))]
fn value<'a>(bytes: &[u8], tokens: &'a [Token]) -> Read<'a, K3>
    ensures { Takes (λ x. (x.0, spec_tokens bytes.now x.1.now)) result
        (first message_value (spec_tokens bytes.now tokens.now)) }
{
    match tokens.split_first() {
        None => Err(PhraseError::Unexpected(tokens)),
        Some((token, rest)) => match value_in(text(bytes, token)) {
            None => Err(PhraseError::Unexpected(tokens)),
            Some(value) => Ok((value, rest)),
        },
    }
}

#[tactic(auto, unfolding(crate::specs::Reading::line_at))]
fn message<'a>(bytes: &[u8], tokens: &'a [Token]) -> Read<'a, MessageText<'a>>
    ensures { Takes (λ x. (x.0.line, spec_tokens bytes.now x.1.now)) result
        (line_at (spec_tokens bytes.now tokens.now)) }
{
    let inside = expect(bytes, tokens, b"message")?;
    let (edge, next) = number(bytes, inside)?;
    let (number, behind) = number(bytes, next)?;
    let (value, end) = value(bytes, behind)?;
    let (_, rest) = string(bytes, end)?;
    let line = MessageLine {
        edge,
        number,
        value,
    };
    Ok((MessageText { here: tokens, line }, rest))
}

#[tactic(auto, unfolding(crate::specs::Reading::initial_at))]
fn initial<'a>(bytes: &[u8], tokens: &'a [Token]) -> Read<'a, Item>
    ensures { Takes (λ x. (x.0, spec_tokens bytes.now x.1.now)) result
        (initial_at (spec_tokens bytes.now tokens.now)) }
{
    let (n, rest) = number(bytes, tokens)?;
    Ok((Item::Initial(n), rest))
}

/// The result of a listed structure along an edge.
#[tactic(auto, unfolding(crate::specs::Reading::result_at))]
fn step_result<'a>(bytes: &[u8], tokens: &'a [Token]) -> Read<'a, Item>
    ensures { Takes (λ x. (x.0, spec_tokens bytes.now x.1.now)) result
        (result_at (spec_tokens bytes.now tokens.now)) }
{
    let inside = expect(bytes, tokens, b"edge")?;
    let (edge, next) = number(bytes, inside)?;
    let (structure, behind) = number(bytes, next)?;
    let (place, rest) = number(bytes, behind)?;
    let found = Item::Result {
        edge,
        structure,
        result: u64::from(place),
    };
    Ok((found, rest))
}

#[tactic(auto, unfolding(crate::specs::Reading::item_at))]
fn item<'a>(bytes: &[u8], tokens: &'a [Token]) -> Read<'a, Item>
    ensures { Takes (λ x. (x.0, spec_tokens bytes.now x.1.now)) result
        (item_at (spec_tokens bytes.now tokens.now)) }
{
    match after(bytes, tokens, b"initial") {
        None => step_result(bytes, tokens),
        Some(behind) => initial(bytes, behind),
    }
}

/// Numbers in braces.
#[tactic(auto, unfolding(crate::specs::Reading::braces_at))]
fn braces<'a>(alloc: Global, bytes: &[u8], tokens: &'a [Token]) -> Read<'a, Numbers>
    ensures { GivesReading (λ x. (x.0, spec_tokens bytes.now x.1.now)) result
        (braces_at (spec_tokens bytes.now tokens.now)) }
{
    let inside = expect(bytes, tokens, b"{")?;
    let (numbers, end) = optional_numbers(alloc, bytes, inside)?;
    let rest = expect(bytes, end, b"}")?;
    Ok((Items::from_vec(numbers), rest))
}

#[tactic(auto, unfolding(crate::specs::Reading::map_at))]
fn map_line<'a>(alloc: Global, bytes: &[u8], tokens: &'a [Token]) -> Read<'a, MapText<'a>>
    ensures { GivesReading (λ x. (x.0.line, spec_tokens bytes.now x.1.now)) result
        (map_at (spec_tokens bytes.now tokens.now)) }
{
    let inside = expect(bytes, tokens, b"map")?;
    let (item, next) = item(bytes, inside)?;
    let behind = expect(bytes, next, b"to")?;
    let (target, end) = number(bytes, behind)?;
    let (map, rest) = braces(alloc, bytes, end)?;
    let line = MapLine { item, target, map };
    Ok((MapText { here: tokens, line }, rest))
}

/// Whether maps may follow, by the version.
#[tactic(auto, unfolding(crate::specs::Reading::version_at))]
fn version<'a>(bytes: &[u8], tokens: &'a [Token]) -> Read<'a, bool>
    ensures { Takes (λ x. (x.0, spec_tokens bytes.now x.1.now)) result
        (version_at (spec_tokens bytes.now tokens.now)) }
{
    match after(bytes, tokens, b"1") {
        Some(behind) => Ok((false, behind)),
        None => {
            let behind = expect(bytes, tokens, b"2")?;
            Ok((true, behind))
        }
    }
}

#[tactic(auto, unfolding(crate::specs::Reading::head_at))]
fn head<'a>(bytes: &[u8], tokens: &'a [Token]) -> Read<'a, bool>
    ensures { Takes (λ x. (x.0, spec_tokens bytes.now x.1.now)) result
        (head_at (spec_tokens bytes.now tokens.now)) }
{
    let inside = expect(bytes, tokens, b"tvla")?;
    let behind = expect(bytes, inside, b"report")?;
    version(bytes, behind)
}

impl<'a> Part<'a> for NodeText<'a> {
    ghost Tree = { NodeMark };

    ghost starts = { begins_with (codes "node") };

    ghost part_at = { node_at };

    ghost tree = { node_mark };

    fn begins(bytes: &[u8], tokens: &[Token]) -> bool
        ensures { result ≡ begins_with (codes "node") (spec_tokens bytes.now tokens.now) }
    {
        begins_with(bytes, tokens, b"node")
    }

    fn read(alloc: Global, bytes: &[u8], tokens: &'a [Token]) -> Read<'a, NodeText<'a>> {
        node(alloc, bytes, tokens)
    }
}

impl<'a> Part<'a> for MessageText<'a> {
    ghost Tree = { MessageLine };

    ghost starts = { begins_with (codes "message") };

    ghost part_at = { line_at };

    ghost tree = { λ _ found. found.line };

    fn begins(bytes: &[u8], tokens: &[Token]) -> bool
        ensures { result ≡ begins_with (codes "message") (spec_tokens bytes.now tokens.now) }
    {
        begins_with(bytes, tokens, b"message")
    }

    fn read(_alloc: Global, bytes: &[u8], tokens: &'a [Token]) -> Read<'a, MessageText<'a>> {
        message(bytes, tokens)
    }
}

impl<'a> Part<'a> for MapText<'a> {
    ghost Tree = { MapLine };

    ghost starts = { begins_with (codes "map") };

    ghost part_at = { map_at };

    ghost tree = { λ _ found. found.line };

    fn begins(bytes: &[u8], tokens: &[Token]) -> bool
        ensures { result ≡ begins_with (codes "map") (spec_tokens bytes.now tokens.now) }
    {
        begins_with(bytes, tokens, b"map")
    }

    fn read(alloc: Global, bytes: &[u8], tokens: &'a [Token]) -> Read<'a, MapText<'a>> {
        map_line(alloc, bytes, tokens)
    }
}

/// Maps in a text of the second version, and none in one of the first.
#[tactic(auto, unfolding(crate::specs::Reading::maps_if))]
fn maps_if<'a>(
    alloc: Global,
    bytes: &[u8],
    tokens: &'a [Token],
    mapped: bool,
) -> Read<'a, Vec<MapText<'a>>>
    ensures { GivesReading (λ x. (map_lines x.0.items, spec_tokens bytes.now x.1.now)) result
        (maps_if mapped (spec_tokens bytes.now tokens.now)) }
{
    if mapped {
        all_parts::<MapText<'a>>(alloc, bytes, tokens)
    } else {
        Ok((Vec::new(alloc), tokens))
    }
}

/// `end`, and nothing behind it.
#[tactic(auto, unfolding(crate::specs::Reading::end_at))]
fn end<'a>(bytes: &[u8], tokens: &'a [Token]) -> Result<(), PhraseError<'a>>
    ensures { Takes (λ _. []) result (end_at (spec_tokens bytes.now tokens.now)) }
{
    let rest = expect(bytes, tokens, b"end")?;
    if rest.is_empty() {
        Ok(())
    } else {
        Err(PhraseError::Unexpected(rest))
    }
}

/// The report of all the tokens.
#[tactic(auto, unfolding(crate::specs::Reading::report_at))]
pub(crate) fn report<'a>(
    alloc: Global,
    bytes: &[u8],
    tokens: &'a [Token],
) -> Result<ReportText<'a>, PhraseError<'a>>
    ensures { GivesReading (report_marks bytes.now) result (report_at (spec_tokens bytes.now tokens.now)) }
{
    let (mapped, inside) = head(bytes, tokens)?;
    let (nodes, next) = all_parts::<NodeText<'a>>(alloc, bytes, inside)?;
    let (messages, behind) = all_parts::<MessageText<'a>>(alloc, bytes, next)?;
    let (maps, last) = maps_if(alloc, bytes, behind, mapped)?;
    end(bytes, last)?;
    Ok(ReportText {
        nodes,
        messages,
        maps,
    })
}
