//! What stands before the body of a quantifier or a closure.

ghost use Rattle.std.specs.Prelude.{◌≡◌, IfOk};
ghost use Rattle.tv_lex.specs.Token.{text_of, spec_tokens};
ghost use Rattle.tv_phrases.specs.Reading.{GivesReading};
ghost use Rattle.tv_tree.specs.Copies.{form_of};
ghost use Rattle.tv_formula.specs.Grammar.{over};
ghost use Rattle.tv_formula.specs.Reading.{begins_binder, existence, universality, transitive, binder};

use crate::build::boxed;
use crate::words::{spelling, spellings};
use std::alloc::{AllocError, Global};
use tv_lex::Token;
use tv_phrases::{Read, after, expect, pair, variables};
use tv_tree::trees::{FormulaTree, Spelling, Spellings};

/// What stands before a body, and says which of its variables are bound.
#[derive(Debug, Drop)]
pub enum Binder {
    /// `E` and variables.
    Exists(Spellings),
    /// `A` and variables.
    Forall(Spellings),
    /// `TC` and two pairs of variables.
    Closure(Spelling, Spelling, Spelling, Spelling),
}

impl Binder {
    /// The formula with this body.
    #[inline(never)]
    pub fn over(self, alloc: Global, body: Box<FormulaTree>) -> Result<Box<FormulaTree>, AllocError>
        ensures { IfOk result (λ f. form_of f.value ≡ over self (form_of body.value)) }
    {
        let tree = match self {
            Binder::Exists(bound) => FormulaTree::Exists(bound, body),
            Binder::Forall(bound) => FormulaTree::Forall(bound, body),
            Binder::Closure(from, to, left, right) => FormulaTree::Tc {
                from,
                to,
                left,
                right,
                body,
            },
        };
        boxed(alloc, tree)
    }
}

/// Whether the tokens begin with `E`, `A` or `TC`.
#[tactic(auto, unfolding(crate::specs::Reading::begins_binder))]
pub fn begins_binder(bytes: &[u8], tokens: &[Token]) -> bool
    ensures { result ≡ begins_binder (spec_tokens bytes.now tokens.now) }
{
    after(bytes, tokens, b"E").is_some()
        || after(bytes, tokens, b"A").is_some()
        || after(bytes, tokens, b"TC").is_some()
}

#[tactic(auto, unfolding(crate::specs::Reading::existence))]
fn existence_at<'a>(alloc: Global, bytes: &[u8], tokens: &'a [Token]) -> Read<'a, Binder>
    ensures { GivesReading (λ x. (x.0, spec_tokens bytes.now x.1.now)) result
        (existence (spec_tokens bytes.now tokens.now)) }
{
    let (words, rest) = variables(alloc, bytes, tokens)?;
    Ok((Binder::Exists(spellings(alloc, bytes, &words)?), rest))
}

#[tactic(auto, unfolding(crate::specs::Reading::universality))]
fn universality_at<'a>(alloc: Global, bytes: &[u8], tokens: &'a [Token]) -> Read<'a, Binder>
    ensures { GivesReading (λ x. (x.0, spec_tokens bytes.now x.1.now)) result
        (universality (spec_tokens bytes.now tokens.now)) }
{
    let (words, rest) = variables(alloc, bytes, tokens)?;
    Ok((Binder::Forall(spellings(alloc, bytes, &words)?), rest))
}

#[tactic(auto, unfolding(crate::specs::Reading::transitive))]
fn closure_at<'a>(alloc: Global, bytes: &[u8], tokens: &'a [Token]) -> Read<'a, Binder>
    ensures { GivesReading (λ x. (x.0, spec_tokens bytes.now x.1.now)) result
        (transitive (spec_tokens bytes.now tokens.now)) }
{
    let ((from, to), next) = pair(bytes, tokens)?;
    let ((left, right), rest) = pair(bytes, next)?;
    let from = spelling(alloc, bytes, &from)?;
    let to = spelling(alloc, bytes, &to)?;
    let left = spelling(alloc, bytes, &left)?;
    let right = spelling(alloc, bytes, &right)?;
    Ok((Binder::Closure(from, to, left, right), rest))
}

/// `E`, `A` or `TC`, and the variables behind it.
#[inline(never)]
#[tactic(auto, unfolding(crate::specs::Reading::binder))]
pub fn binder_at<'a>(alloc: Global, bytes: &[u8], tokens: &'a [Token]) -> Read<'a, Binder>
    ensures { GivesReading (λ x. (x.0, spec_tokens bytes.now x.1.now)) result
        (binder (spec_tokens bytes.now tokens.now)) }
{
    if let Some(behind) = after(bytes, tokens, b"E") {
        return existence_at(alloc, bytes, behind);
    }
    if let Some(behind) = after(bytes, tokens, b"A") {
        return universality_at(alloc, bytes, behind);
    }
    let behind = expect(bytes, tokens, b"TC")?;
    closure_at(alloc, bytes, behind)
}
