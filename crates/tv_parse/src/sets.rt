//! Expressions for sets, read off the front of tokens. Parentheses are gone down into, and signs are a loop.

ghost use Rattle.std.specs.Prelude.{◌≡◌, map};
ghost use Rattle.std.specs.Option.{option_map};
ghost use Rattle.tv_lex.specs.Token.{spec_tokens};
ghost use Rattle.tv_phrases.specs.Reading.{GivesReading};
ghost use Rattle.tv_tree.specs.Copies.{set_of, term_of};
ghost use Rattle.tv_parse.specs.Reading.{AllSets, sets, set_members, set_name, set_paren, set_plain};
ghost use Rattle.tv_parse.specs.Reading.{set_term, set_sign, set_reading, head_reading};

use std::alloc::Global;
use tv_formula::{spelling, spellings};
use tv_lex::Token;
use tv_phrases::{
    Brackets, Item, Read, after, begins_with, below, expect, identifier, optional_list_in,
};
use tv_tree::trees::{SetSign, SetStep, SetTerm, SetTree, Spelling};

#[tactic(auto, using(tv_tree::proofs::Unfolds::term_of_members), unfolding(crate::specs::Reading::set_members))]
fn members_at<'a>(alloc: Global, bytes: &[u8], tokens: &'a [Token]) -> Read<'a, SetTerm>
    ensures { GivesReading (λ x. (term_of x.0, spec_tokens bytes.now x.1.now)) result
        (set_members (spec_tokens bytes.now tokens.now)) }
{
    let (words, rest) = optional_list_in(alloc, bytes, tokens, Brackets::Curly, Item::Identifier)?;
    Ok((SetTerm::Members(spellings(alloc, bytes, &words)?), rest))
}

#[tactic(auto, using(tv_tree::proofs::Unfolds::term_of_named), unfolding(crate::specs::Reading::set_name))]
fn named_at<'a>(alloc: Global, bytes: &[u8], tokens: &'a [Token]) -> Read<'a, SetTerm>
    ensures { GivesReading (λ x. (term_of x.0, spec_tokens bytes.now x.1.now)) result
        (set_name (spec_tokens bytes.now tokens.now)) }
{
    let (word, rest) = identifier(bytes, tokens)?;
    Ok((SetTerm::Named(spelling(alloc, bytes, &word)?), rest))
}

#[tactic(auto, unfolding(crate::specs::Reading::set_plain))]
fn plain_at<'a>(alloc: Global, bytes: &[u8], tokens: &'a [Token]) -> Read<'a, SetTerm>
    ensures { GivesReading (λ x. (term_of x.0, spec_tokens bytes.now x.1.now)) result
        (set_plain (spec_tokens bytes.now tokens.now)) }
{
    if begins_with(bytes, tokens, b"{") {
        members_at(alloc, bytes, tokens)
    } else {
        named_at(alloc, bytes, tokens)
    }
}

#[tactic(auto, unfolding(crate::specs::Reading::set_sign))]
fn sign_at<'a>(bytes: &[u8], tokens: &'a [Token]) -> Option<(SetSign, &'a [Token])>
    ensures { option_map (λ x. (x.0, spec_tokens bytes.now x.1.now)) result
        ≡ set_sign (spec_tokens bytes.now tokens.now) }
{
    if let Some(rest) = after(bytes, tokens, b"+") {
        return Some((SetSign::Plus, rest));
    }
    match after(bytes, tokens, b"-") {
        Some(rest) => Some((SetSign::Minus, rest)),
        None => None,
    }
}

#[cycle(sets)]
#[tactic(auto, using(tv_tree::proofs::Unfolds::term_of_paren), unfolding(crate::specs::Reading::set_paren))]
fn paren_at<'a>(alloc: Global, bytes: &[u8], depth: usize, tokens: &'a [Token]) -> Read<'a, SetTerm>
    ensures { GivesReading (λ x. (term_of x.0, spec_tokens bytes.now x.1.now)) result
        (set_paren (sets depth) (spec_tokens bytes.now tokens.now)) }
{
    let (inner, end) = set_at(alloc, bytes, depth, tokens)?;
    let rest = expect(bytes, end, b")")?;
    Ok((SetTerm::Paren(Box::new(alloc, inner)?), rest))
}

#[cycle(sets)]
#[tactic(auto, unfolding(crate::specs::Reading::set_term))]
fn term_at<'a>(alloc: Global, bytes: &[u8], depth: usize, tokens: &'a [Token]) -> Read<'a, SetTerm>
    ensures { GivesReading (λ x. (term_of x.0, spec_tokens bytes.now x.1.now)) result
        (set_term (sets depth) (spec_tokens bytes.now tokens.now)) }
{
    match after(bytes, tokens, b"(") {
        Some(behind) => paren_at(alloc, bytes, depth, behind),
        None => plain_at(alloc, bytes, tokens),
    }
}

#[cycle(sets)]
#[tactic(auto, using(crate::proofs::SetSteps::start_steps, crate::proofs::SetSteps::no_start, crate::proofs::SetSteps::no_sets, crate::proofs::SetSteps::further_ends, crate::proofs::SetSteps::no_further, tv_tree::proofs::Unfolds::set_of_steps))]
fn set_at<'a>(alloc: Global, bytes: &[u8], depth: usize, tokens: &'a [Token]) -> Read<'a, SetTree>
    ensures { GivesReading (λ x. (set_of x.0, spec_tokens bytes.now x.1.now)) result
        (sets depth AllSets (spec_tokens bytes.now tokens.now)) }
{
    let mut left = below(depth, tokens)?;
    let (first, mut rest) = term_at(alloc, bytes, left, tokens)?;
    let mut more = Vec::new(alloc);
    'steps: loop {
        left = below(left, rest)?;
        let Some((sign, behind)) = sign_at(bytes, rest) else {
            return Ok((SetTree { first, more }, rest));
        };
        let (term, further) = term_at(alloc, bytes, left, behind)?;
        more.push(SetStep { sign, term })?;
        rest = further;
    }
}

/// An expression for a set, and the tokens behind it.
#[tactic(auto, unfolding(crate::specs::Reading::set_reading))]
pub fn set<'a>(alloc: Global, bytes: &[u8], tokens: &'a [Token]) -> Read<'a, SetTree>
    ensures { GivesReading (λ x. (set_of x.0, spec_tokens bytes.now x.1.now)) result
        (set_reading (spec_tokens bytes.now tokens.now)) }
{
    set_at(alloc, bytes, tokens.len() + 1, tokens)
}

/// The variable of a `foreach` and the set that it goes over.
#[derive(Drop, Debug)]
pub struct Head {
    pub var: Spelling,
    pub members: SetTree,
}

/// What stands from behind `foreach` to its brace.
#[tactic(auto, unfolding(crate::specs::Reading::head_reading))]
pub fn head_at<'a>(alloc: Global, bytes: &[u8], tokens: &'a [Token]) -> Read<'a, Head>
    ensures { GivesReading (λ x. ((x.0.var, set_of x.0.members), spec_tokens bytes.now x.1.now)) result
        (head_reading (spec_tokens bytes.now tokens.now)) }
{
    let inside = expect(bytes, tokens, b"(")?;
    let (word, next) = identifier(bytes, inside)?;
    let behind = expect(bytes, next, b"in")?;
    let (members, end) = set(alloc, bytes, behind)?;
    let closed = expect(bytes, end, b")")?;
    let rest = expect(bytes, closed, b"{")?;
    let var = spelling(alloc, bytes, &word)?;
    Ok((Head { var, members }, rest))
}
