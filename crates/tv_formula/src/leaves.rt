//! Formulas without formulas in them.

ghost use Rattle.std.specs.Prelude.{◌≡◌, IfOk};
ghost use Rattle.tv_lex.specs.Token.{text_of, spec_tokens};
ghost use Rattle.tv_phrases.specs.Reading.{GivesReading};
ghost use Rattle.tv_tree.specs.Forms.{FSame, FDiffer, FStar, FPlus};
ghost use Rattle.tv_tree.specs.Copies.{form_of, name_of};
ghost use Rattle.tv_formula.specs.Reading.{compared, applied, closed, behind_name, predicate, named};
ghost use Rattle.tv_formula.specs.Reading.{leaf_reading};

use crate::build::boxed;
use crate::words::{name_of_phrase, spelling, spellings};
use std::alloc::Global;
use tv_lex::Token;
use tv_phrases::{Read, after, identifier, name, pair, params};
use tv_tree::trees::{FormulaTree, Name};

#[tactic(auto, unfolding(crate::specs::Reading::compared))]
fn same_at<'a>(
    alloc: Global,
    bytes: &[u8],
    left: &Token,
    tokens: &'a [Token],
) -> Read<'a, FormulaTree>
    ensures { GivesReading (λ x. (form_of x.0, spec_tokens bytes.now x.1.now)) result
        (compared FSame (text_of bytes.now left.now) (spec_tokens bytes.now tokens.now)) }
{
    let (right, rest) = identifier(bytes, tokens)?;
    let left = spelling(alloc, bytes, left)?;
    let right = spelling(alloc, bytes, &right)?;
    Ok((FormulaTree::Same(left, right), rest))
}

#[tactic(auto, unfolding(crate::specs::Reading::compared))]
fn differ_at<'a>(
    alloc: Global,
    bytes: &[u8],
    left: &Token,
    tokens: &'a [Token],
) -> Read<'a, FormulaTree>
    ensures { GivesReading (λ x. (form_of x.0, spec_tokens bytes.now x.1.now)) result
        (compared FDiffer (text_of bytes.now left.now) (spec_tokens bytes.now tokens.now)) }
{
    let (right, rest) = identifier(bytes, tokens)?;
    let left = spelling(alloc, bytes, left)?;
    let right = spelling(alloc, bytes, &right)?;
    Ok((FormulaTree::Differ(left, right), rest))
}

#[tactic(auto, unfolding(crate::specs::Reading::applied))]
fn applied_at<'a>(
    alloc: Global,
    bytes: &[u8],
    name: Name,
    tokens: &'a [Token],
) -> Read<'a, FormulaTree>
    ensures { GivesReading (λ x. (form_of x.0, spec_tokens bytes.now x.1.now)) result
        (applied (name_of name) (spec_tokens bytes.now tokens.now)) }
{
    let (words, rest) = params(alloc, bytes, tokens)?;
    let arguments = spellings(alloc, bytes, &words)?;
    Ok((FormulaTree::Atom(name, arguments), rest))
}

#[tactic(auto, unfolding(crate::specs::Reading::closed))]
fn star_at<'a>(
    alloc: Global,
    bytes: &[u8],
    name: Name,
    tokens: &'a [Token],
) -> Read<'a, FormulaTree>
    ensures { GivesReading (λ x. (form_of x.0, spec_tokens bytes.now x.1.now)) result
        (closed FStar (name_of name) (spec_tokens bytes.now tokens.now)) }
{
    let ((from, to), rest) = pair(bytes, tokens)?;
    let from = spelling(alloc, bytes, &from)?;
    let to = spelling(alloc, bytes, &to)?;
    Ok((FormulaTree::Star(name, from, to), rest))
}

#[tactic(auto, unfolding(crate::specs::Reading::closed))]
fn plus_at<'a>(
    alloc: Global,
    bytes: &[u8],
    name: Name,
    tokens: &'a [Token],
) -> Read<'a, FormulaTree>
    ensures { GivesReading (λ x. (form_of x.0, spec_tokens bytes.now x.1.now)) result
        (closed FPlus (name_of name) (spec_tokens bytes.now tokens.now)) }
{
    let ((from, to), rest) = pair(bytes, tokens)?;
    let from = spelling(alloc, bytes, &from)?;
    let to = spelling(alloc, bytes, &to)?;
    Ok((FormulaTree::Plus(name, from, to), rest))
}

#[tactic(auto, unfolding(crate::specs::Reading::behind_name))]
fn behind_name<'a>(
    alloc: Global,
    bytes: &[u8],
    name: Name,
    tokens: &'a [Token],
) -> Read<'a, FormulaTree>
    ensures { GivesReading (λ x. (form_of x.0, spec_tokens bytes.now x.1.now)) result
        (behind_name (name_of name) (spec_tokens bytes.now tokens.now)) }
{
    if let Some(behind) = after(bytes, tokens, b"*") {
        return star_at(alloc, bytes, name, behind);
    }
    match after(bytes, tokens, b"+") {
        Some(behind) => plus_at(alloc, bytes, name, behind),
        None => applied_at(alloc, bytes, name, tokens),
    }
}

#[tactic(auto, unfolding(crate::specs::Reading::predicate))]
fn predicate_at<'a>(alloc: Global, bytes: &[u8], tokens: &'a [Token]) -> Read<'a, FormulaTree>
    ensures { GivesReading (λ x. (form_of x.0, spec_tokens bytes.now x.1.now)) result
        (predicate (spec_tokens bytes.now tokens.now)) }
{
    let (phrase, behind) = name(alloc, bytes, tokens)?;
    let name = name_of_phrase(alloc, bytes, &phrase)?;
    behind_name(alloc, bytes, name, behind)
}

#[tactic(auto, unfolding(crate::specs::Reading::named))]
fn named_at<'a>(alloc: Global, bytes: &[u8], tokens: &'a [Token]) -> Read<'a, FormulaTree>
    ensures { GivesReading (λ x. (form_of x.0, spec_tokens bytes.now x.1.now)) result
        (named (spec_tokens bytes.now tokens.now)) }
{
    let (word, behind) = identifier(bytes, tokens)?;
    if let Some(right) = after(bytes, behind, b"==") {
        return same_at(alloc, bytes, &word, right);
    }
    match after(bytes, behind, b"!=") {
        Some(right) => differ_at(alloc, bytes, &word, right),
        None => predicate_at(alloc, bytes, tokens),
    }
}

#[tactic(auto, unfolding(crate::specs::Reading::leaf_reading))]
fn plain_at<'a>(alloc: Global, bytes: &[u8], tokens: &'a [Token]) -> Read<'a, FormulaTree>
    ensures { GivesReading (λ x. (form_of x.0, spec_tokens bytes.now x.1.now)) result
        (leaf_reading (spec_tokens bytes.now tokens.now)) }
{
    if let Some(rest) = after(bytes, tokens, b"0") {
        return Ok((FormulaTree::Zero, rest));
    }
    if let Some(rest) = after(bytes, tokens, b"1") {
        return Ok((FormulaTree::One, rest));
    }
    match after(bytes, tokens, b"1/2") {
        Some(rest) => Ok((FormulaTree::Half, rest)),
        None => named_at(alloc, bytes, tokens),
    }
}

/// A constant, an equality, an atom or a closed predicate.
#[inline(never)]
pub fn leaf_at<'a>(alloc: Global, bytes: &[u8], tokens: &'a [Token]) -> Read<'a, Box<FormulaTree>>
    ensures { GivesReading (λ x. (form_of x.0.value, spec_tokens bytes.now x.1.now)) result
        (leaf_reading (spec_tokens bytes.now tokens.now)) }
{
    let (leaf, rest) = plain_at(alloc, bytes, tokens)?;
    Ok((boxed(alloc, leaf)?, rest))
}
