//! Updates, read off the front of tokens. A `foreach` is gone down into, and lists are loops.

ghost use Rattle.std.specs.Prelude.{◌≡◌, ◌+◌, length, map};
ghost use Rattle.tv_lex.specs.Token.{spec_tokens};
ghost use Rattle.tv_phrases.specs.Reading.{GivesReading};
ghost use Rattle.tv_tree.specs.Copies.{update_of};
ghost use Rattle.tv_parse.specs.Reading.{update_reading, lone, foreach_nest, nest, update_rows};

use crate::decls::{Signature, signature_at};
use crate::kinds::{begins_update, expect_behind};
use crate::sets::{Head, head_at};
use std::alloc::Global;
use tv_formula::formula;
use tv_lex::Token;
use tv_phrases::{Read, after, below, expect};
use tv_tree::trees::{UpdateTree, UpdateTrees};

// An update other than a `foreach`.
#[tactic(auto, using(tv_tree::proofs::Unfolds::update_of_single), unfolding(crate::specs::Reading::update_reading, crate::specs::Reading::lone))]
fn single_update<'a>(alloc: Global, bytes: &[u8], tokens: &'a [Token]) -> Read<'a, UpdateTree>
    ensures { GivesReading (λ x. (update_of x.0, spec_tokens bytes.now x.1.now)) result
        (lone (update_reading (spec_tokens bytes.now tokens.now))) }
{
    let (Signature { name, params }, next) = signature_at(alloc, bytes, tokens)?;
    let behind = expect(bytes, next, b"=")?;
    let (body, rest) = formula(alloc, bytes, behind)?;
    Ok((UpdateTree::Single { name, params, body }, rest))
}

/// Whether the last of the updates ends in a formula.
pub fn end_in_formula(updates: &UpdateTrees) -> bool {
    matches!(updates.items.last(), Some(UpdateTree::Single { .. }))
}

#[cycle(updates)]
#[tactic(auto, using(tv_tree::proofs::Unfolds::update_of_foreach, tv_tree::proofs::Unfolds::updates_of_items), unfolding(crate::specs::Reading::foreach_nest))]
fn foreach_at<'a>(
    alloc: Global,
    bytes: &[u8],
    depth: usize,
    tokens: &'a [Token],
) -> Read<'a, UpdateTree>
    ensures { GivesReading (λ x. (update_of x.0, spec_tokens bytes.now x.1.now)) result
        (foreach_nest (update_rows depth) (spec_tokens bytes.now tokens.now)) }
{
    let (Head { var, members }, behind) = head_at(alloc, bytes, tokens)?;
    let (body, end) = updates_at(alloc, bytes, depth, behind)?;
    let rest = expect_behind(bytes, end, b"}", end_in_formula(&body))?;
    Ok((UpdateTree::Foreach { var, members, body }, rest))
}

#[cycle(updates)]
#[tactic(auto, unfolding(crate::specs::Reading::nest))]
fn update_at<'a>(
    alloc: Global,
    bytes: &[u8],
    depth: usize,
    tokens: &'a [Token],
) -> Read<'a, UpdateTree>
    ensures { GivesReading (λ x. (update_of x.0, spec_tokens bytes.now x.1.now)) result
        (nest update_reading (update_rows depth) (spec_tokens bytes.now tokens.now)) }
{
    match after(bytes, tokens, b"foreach") {
        Some(behind) => foreach_at(alloc, bytes, depth, behind),
        None => single_update(alloc, bytes, tokens),
    }
}

#[cycle(updates)]
#[tactic(auto, using(crate::proofs::Lists::rows_end, crate::proofs::Lists::rows_break, crate::proofs::Lists::rows_out))]
fn updates_at<'a>(
    alloc: Global,
    bytes: &[u8],
    depth: usize,
    tokens: &'a [Token],
) -> Read<'a, UpdateTrees>
    ensures { GivesReading (λ x. (map update_of x.0.items.items, spec_tokens bytes.now x.1.now)) result
        (update_rows depth (spec_tokens bytes.now tokens.now)) }
{
    let mut items = Vec::new(alloc);
    let mut left = depth;
    let mut rest = tokens;
    'updates: loop {
        left = below(left, rest)?;
        if !begins_update(bytes, rest) {
            return Ok((UpdateTrees { items }, rest));
        }
        let (update, behind) = update_at(alloc, bytes, left, rest)?;
        items.push(update)?;
        rest = behind;
    }
}

/// As many updates as stand here, and the tokens behind them.
pub fn updates<'a>(alloc: Global, bytes: &[u8], tokens: &'a [Token]) -> Read<'a, UpdateTrees>
    ensures { GivesReading (λ x. (map update_of x.0.items.items, spec_tokens bytes.now x.1.now)) result
        (update_rows (length (spec_tokens bytes.now tokens.now) + 1) (spec_tokens bytes.now tokens.now)) }
{
    updates_at(alloc, bytes, tokens.len() + 1, tokens)
}
