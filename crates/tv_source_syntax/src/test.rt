//! Tests, read off the front of tokens.

ghost use Rattle.std.specs.Prelude.{◌≡◌};
ghost use Rattle.std.specs.Option.{option_map};
ghost use Rattle.tv_lex.specs.Token.{text_of, spec_tokens};
ghost use Rattle.tv_phrases.specs.Reading.{Takes};
ghost use Rattle.tv_source_syntax.specs.Copies.{test_of};
ghost use Rattle.tv_source_syntax.specs.Reading.{relation_at, compared_at, compare_at, test_at, test_in};

use crate::tree::TestTree;
use crate::words::name;
use tv_lex::Token;
use tv_phrases::{Read, after, expect};

// `==`, which is true, or `!=`.
#[tactic(auto, unfolding(crate::specs::Reading::relation_at))]
fn relation<'a>(bytes: &[u8], tokens: &'a [Token]) -> Read<'a, bool>
    ensures { Takes (λ x. (x.0, spec_tokens bytes.now x.1.now)) result
        (relation_at (spec_tokens bytes.now tokens.now)) }
{
    if let Some(rest) = after(bytes, tokens, b"==") {
        return Ok((true, rest));
    }
    let rest = expect(bytes, tokens, b"!=")?;
    Ok((false, rest))
}

// Behind a variable and a relation.
#[tactic(auto, unfolding(crate::specs::Reading::compared_at))]
fn compared<'a>(bytes: &[u8], tokens: &'a [Token], equal: bool, left: Token) -> Read<'a, TestTree>
    ensures { Takes (λ x. (test_of bytes.now x.0, spec_tokens bytes.now x.1.now)) result
        (compared_at equal (text_of bytes.now left) (spec_tokens bytes.now tokens.now)) }
{
    if let Some(rest) = after(bytes, tokens, b"null") {
        return Ok((TestTree::Null(equal, left), rest));
    }
    let (right, rest) = name(bytes, tokens)?;
    Ok((TestTree::Same(equal, left, right), rest))
}

#[tactic(auto, unfolding(crate::specs::Reading::compare_at))]
fn compare<'a>(bytes: &[u8], tokens: &'a [Token]) -> Read<'a, TestTree>
    ensures { Takes (λ x. (test_of bytes.now x.0, spec_tokens bytes.now x.1.now)) result
        (compare_at (spec_tokens bytes.now tokens.now)) }
{
    let (left, next) = name(bytes, tokens)?;
    let (equal, behind) = relation(bytes, next)?;
    compared(bytes, behind, equal, left)
}

#[tactic(auto, unfolding(crate::specs::Reading::test_at))]
fn test<'a>(bytes: &[u8], tokens: &'a [Token]) -> Read<'a, TestTree>
    ensures { Takes (λ x. (test_of bytes.now x.0, spec_tokens bytes.now x.1.now)) result
        (test_at (spec_tokens bytes.now tokens.now)) }
{
    match after(bytes, tokens, b"*") {
        Some(rest) => Ok((TestTree::Any, rest)),
        None => compare(bytes, tokens),
    }
}

/// A test in parentheses, and the tokens behind them.
#[tactic(auto, unfolding(crate::specs::Reading::test_in))]
pub fn test_in<'a>(bytes: &[u8], tokens: &'a [Token]) -> Read<'a, TestTree>
    ensures { Takes (λ x. (test_of bytes.now x.0, spec_tokens bytes.now x.1.now)) result
        (test_in (spec_tokens bytes.now tokens.now)) }
{
    let inside = expect(bytes, tokens, b"(")?;
    let (test, end) = test(bytes, inside)?;
    let rest = expect(bytes, end, b")")?;
    Ok((test, rest))
}
