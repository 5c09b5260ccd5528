//! Formulas built around the formulas in them.

ghost use Rattle.std.specs.Prelude.{◌≡◌, IfOk, None, codes};
ghost use Rattle.tv_lex.specs.Token.{spec_tokens};
ghost use Rattle.tv_phrases.specs.Reading.{choose, GivesReading, Takes, taken};
ghost use Rattle.tv_phrases.specs.Tokens.{after};
ghost use Rattle.tv_tree.specs.Copies.{form_of};
ghost use Rattle.tv_tree.specs.Forms.{FParen, FNot, FImp, FCond};

use crate::words::behind_arrow;
use std::alloc::{AllocError, Global};
use tv_lex::Token;
use tv_phrases::{PhraseError, Read, after};
use tv_tree::trees::FormulaTree;

/// The formula in a box. What holds a whole formula, or what moves one, isn't inlined in a function that
/// calls itself: its room would be taken again at each level.
#[inline(never)]
pub fn boxed(alloc: Global, f: FormulaTree) -> Result<Box<FormulaTree>, AllocError>
    ensures { IfOk result (λ b. form_of b.value ≡ form_of f) }
{
    Ok(Box::new(alloc, f)?)
}

/// The tokens behind a mark that stands behind a formula.
pub fn expect_behind<'a>(
    bytes: &[u8],
    tokens: &'a [Token],
    mark: &[u8],
) -> Result<&'a [Token], PhraseError<'a>>
    ensures { Takes (λ rest. spec_tokens bytes.now rest.now) result
        (after mark.now (spec_tokens bytes.now tokens.now)) }
{
    match after(bytes, tokens, mark) {
        Some(rest) => Ok(rest),
        None => Err(PhraseError::Unexpected(behind_arrow(bytes, tokens))),
    }
}

/// The formula in parentheses, the second of which stands at the front of the tokens.
#[inline(never)]
pub fn closed<'a>(
    alloc: Global,
    bytes: &[u8],
    inner: Box<FormulaTree>,
    tokens: &'a [Token],
) -> Read<'a, Box<FormulaTree>>
    ensures { GivesReading (λ x. (form_of x.0.value, spec_tokens bytes.now x.1.now)) result
        (choose (after (codes ")") (spec_tokens bytes.now tokens.now)) None
        (λ rest. taken (FParen (form_of inner.value)) rest)) }
{
    let rest = expect_behind(bytes, tokens, b")")?;
    Ok((boxed(alloc, FormulaTree::Paren(inner))?, rest))
}

/// `!` before the formula.
#[inline(never)]
pub fn negation(alloc: Global, inner: Box<FormulaTree>) -> Result<Box<FormulaTree>, AllocError>
    ensures { IfOk result (λ f. form_of f.value ≡ FNot (form_of inner.value)) }
{
    boxed(alloc, FormulaTree::Not(inner))
}

/// `->` between the formulas.
#[inline(never)]
pub fn implication(
    alloc: Global,
    left: Box<FormulaTree>,
    right: Box<FormulaTree>,
) -> Result<Box<FormulaTree>, AllocError>
    ensures { IfOk result (λ f. form_of f.value ≡ FImp (form_of left.value) (form_of right.value)) }
{
    boxed(alloc, FormulaTree::Imp(left, right))
}

/// `?` and `:` between the formulas.
#[inline(never)]
pub fn conditional(
    alloc: Global,
    test: Box<FormulaTree>,
    yes: Box<FormulaTree>,
    no: Box<FormulaTree>,
) -> Result<Box<FormulaTree>, AllocError>
    ensures { IfOk result
        (λ f. form_of f.value ≡ FCond (form_of test.value) (form_of yes.value) (form_of no.value)) }
{
    boxed(alloc, FormulaTree::Cond(test, yes, no))
}
