//! The reader of formulas. It goes down where a connective, a quantifier or a parenthesis opens, and along
//! `&`, `|` and `<->` in a loop. So it goes no deeper than such constructs are open at one place, times the
//! levels of the grammar.

ghost use Rattle.std.specs.Prelude.{◌≡◌, ◌<◌, IfOk, IfErr};
ghost use Rattle.tv_lex.specs.Token.{spec_tokens};
ghost use Rattle.tv_phrases.specs.Reading.{GivesReading, Takes, Told};
ghost use Rattle.tv_phrases.specs.Tokens.{after};
ghost use Rattle.tv_tree.specs.Copies.{form_of};
ghost use Rattle.tv_formula.specs.Grammar.{Whole, Imp, Unary, Joined, operand, IsFormula, NoFormula};
ghost use Rattle.tv_formula.specs.Reading.{reading, bound, grouped, negated, chosen, formula_reading};
ghost use Rattle.tv_phrases.specs.Repeated.{below};

use crate::binder::{begins_binder, binder_at};
use crate::build::{closed, conditional, expect_behind, implication, negation};
use crate::leaves::leaf_at;
use crate::link::Link;
use crate::words::arrow;
use std::alloc::Global;
use tv_lex::Token;
use tv_phrases::{PhraseError, Read, after};
use tv_tree::trees::FormulaTree;

fn below(depth: usize, tokens: &[Token]) -> Result<usize, PhraseError<'_>>
    ensures inner { Takes (λ inner. inner) result (below depth) }
    ensures less { IfOk result (λ inner. inner < depth) }
{
    match depth.checked_sub(1) {
        Some(inner) => Ok(inner),
        None => Err(PhraseError::Unexpected(tokens)),
    }
}

#[cycle(formula)]
#[inline(never)]
#[tactic(none)]
fn bound_at<'a>(
    alloc: Global,
    bytes: &[u8],
    depth: usize,
    tokens: &'a [Token],
) -> Read<'a, Box<FormulaTree>>
    ensures { GivesReading (λ x. (form_of x.0.value, spec_tokens bytes.now x.1.now)) result
        (bound (reading depth) (spec_tokens bytes.now tokens.now)) }
{
    let (binder, behind) = binder_at(alloc, bytes, tokens)?;
    let (body, rest) = formula_at(alloc, bytes, depth, behind)?;
    Ok((binder.over(alloc, body)?, rest))
}

#[cycle(formula)]
#[tactic(none)]
fn group_at<'a>(
    alloc: Global,
    bytes: &[u8],
    depth: usize,
    tokens: &'a [Token],
) -> Read<'a, Box<FormulaTree>>
    ensures { GivesReading (λ x. (form_of x.0.value, spec_tokens bytes.now x.1.now)) result
        (grouped (reading depth) (spec_tokens bytes.now tokens.now)) }
{
    let (inner, end) = formula_at(alloc, bytes, depth, tokens)?;
    closed(alloc, bytes, inner, end)
}

#[cycle(formula)]
#[tactic(none)]
fn negation_at<'a>(
    alloc: Global,
    bytes: &[u8],
    depth: usize,
    tokens: &'a [Token],
) -> Read<'a, Box<FormulaTree>>
    ensures { GivesReading (λ x. (form_of x.0.value, spec_tokens bytes.now x.1.now)) result
        (negated (reading depth) (spec_tokens bytes.now tokens.now)) }
{
    let (inner, rest) = unary_at(alloc, bytes, depth, tokens)?;
    Ok((negation(alloc, inner)?, rest))
}

#[cycle(formula)]
#[tactic(none)]
fn unary_at<'a>(
    alloc: Global,
    bytes: &[u8],
    depth: usize,
    tokens: &'a [Token],
) -> Read<'a, Box<FormulaTree>>
    ensures { GivesReading (λ x. (form_of x.0.value, spec_tokens bytes.now x.1.now)) result
        (reading depth Unary (spec_tokens bytes.now tokens.now)) }
{
    let inner = below(depth, tokens)?;
    if let Some(behind) = after(bytes, tokens, b"!") {
        return negation_at(alloc, bytes, inner, behind);
    }
    if let Some(behind) = after(bytes, tokens, b"(") {
        return group_at(alloc, bytes, inner, behind);
    }
    if begins_binder(bytes, tokens) {
        bound_at(alloc, bytes, inner, tokens)
    } else {
        leaf_at(alloc, bytes, tokens)
    }
}

// What a connective that groups from the left joins.
#[cycle(formula)]
#[tactic(none)]
fn operand_at<'a>(
    alloc: Global,
    bytes: &[u8],
    depth: usize,
    link: Link,
    tokens: &'a [Token],
) -> Read<'a, Box<FormulaTree>>
    ensures { GivesReading (λ x. (form_of x.0.value, spec_tokens bytes.now x.1.now)) result
        (reading depth (operand link) (spec_tokens bytes.now tokens.now)) }
{
    match link {
        Link::Iff => implication_at(alloc, bytes, depth, tokens),
        Link::Or => joined_at(alloc, bytes, depth, Link::And, tokens),
        Link::And => unary_at(alloc, bytes, depth, tokens),
    }
}

#[cycle(formula)]
#[tactic(none)]
fn joined_at<'a>(
    alloc: Global,
    bytes: &[u8],
    depth: usize,
    link: Link,
    tokens: &'a [Token],
) -> Read<'a, Box<FormulaTree>>
    ensures { GivesReading (λ x. (form_of x.0.value, spec_tokens bytes.now x.1.now)) result
        (reading depth (Joined link) (spec_tokens bytes.now tokens.now)) }
{
    let mut left = below(depth, tokens)?;
    let (mut tree, mut rest) = operand_at(alloc, bytes, left, link, tokens)?;
    'parts: loop {
        let inner = below(left, rest)?;
        let Some(behind) = after(bytes, rest, link.mark()) else {
            return Ok((tree, rest));
        };
        let (right, further) = operand_at(alloc, bytes, inner, link, behind)?;
        tree = link.join(alloc, tree, right)?;
        rest = further;
        left = inner;
    }
}

#[cycle(formula)]
#[tactic(none)]
fn implication_at<'a>(
    alloc: Global,
    bytes: &[u8],
    depth: usize,
    tokens: &'a [Token],
) -> Read<'a, Box<FormulaTree>>
    ensures { GivesReading (λ x. (form_of x.0.value, spec_tokens bytes.now x.1.now)) result
        (reading depth Imp (spec_tokens bytes.now tokens.now)) }
{
    let inner = below(depth, tokens)?;
    let (left, end) = joined_at(alloc, bytes, inner, Link::Or, tokens)?;
    let Some(behind) = arrow(bytes, end) else {
        return Ok((left, end));
    };
    let (right, rest) = implication_at(alloc, bytes, inner, behind)?;
    Ok((implication(alloc, left, right)?, rest))
}

#[cycle(formula)]
#[inline(never)]
#[tactic(none)]
fn chosen_at<'a>(
    alloc: Global,
    bytes: &[u8],
    depth: usize,
    test: Box<FormulaTree>,
    tokens: &'a [Token],
) -> Read<'a, Box<FormulaTree>>
    ensures { GivesReading (λ x. (form_of x.0.value, spec_tokens bytes.now x.1.now)) result
        (chosen (reading depth) (form_of test.value) (spec_tokens bytes.now tokens.now)) }
{
    let (yes, end) = formula_at(alloc, bytes, depth, tokens)?;
    let behind = expect_behind(bytes, end, b":")?;
    let (no, rest) = formula_at(alloc, bytes, depth, behind)?;
    Ok((conditional(alloc, test, yes, no)?, rest))
}

#[cycle(formula)]
#[tactic(none)]
fn formula_at<'a>(
    alloc: Global,
    bytes: &[u8],
    depth: usize,
    tokens: &'a [Token],
) -> Read<'a, Box<FormulaTree>>
    ensures { GivesReading (λ x. (form_of x.0.value, spec_tokens bytes.now x.1.now)) result
        (reading depth Whole (spec_tokens bytes.now tokens.now)) }
{
    let inner = below(depth, tokens)?;
    let (test, rest) = joined_at(alloc, bytes, inner, Link::Iff, tokens)?;
    match after(bytes, rest, b"?") {
        Some(behind) => chosen_at(alloc, bytes, inner, test, behind),
        None => Ok((test, rest)),
    }
}

// At a depth that suffices.
#[tactic(auto, unfolding(crate::specs::Reading::formula_reading))]
fn read_formula<'a>(alloc: Global, bytes: &[u8], tokens: &'a [Token]) -> Read<'a, FormulaTree>
    ensures { GivesReading (λ x. (form_of x.0, spec_tokens bytes.now x.1.now)) result
        (formula_reading (spec_tokens bytes.now tokens.now)) }
{
    let (tree, rest) = formula_at(alloc, bytes, 6 * tokens.len() + 6, tokens)?;
    Ok((Box::into_inner(tree), rest))
}

/// A formula, and the tokens behind it. It reaches as far as it can. Its tokens go in one reading, and the
/// calls nest as deep as parentheses, `!`, quantifiers, `->` and `?` do.
#[tactic(auto, using(crate::proofs::FormulaLaws::read_is_formula, crate::proofs::FormulaLaws::unread_is_none))]
pub fn formula<'a>(alloc: Global, bytes: &[u8], tokens: &'a [Token]) -> Read<'a, FormulaTree>
    ensures reading { GivesReading (λ x. (form_of x.0, spec_tokens bytes.now x.1.now)) result
        (formula_reading (spec_tokens bytes.now tokens.now)) }
    ensures formula { IfOk result
        (λ x. IsFormula (spec_tokens bytes.now tokens.now) (form_of x.0) (spec_tokens bytes.now x.1.now)) }
    ensures none { IfErr result (λ e. Told e (NoFormula (spec_tokens bytes.now tokens.now))) }
{
    read_formula(alloc, bytes, tokens)
}
