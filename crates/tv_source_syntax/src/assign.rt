//! Assignments, read off the front of tokens.

ghost use Rattle.std.specs.Prelude.{◌≡◌};
ghost use Rattle.tv_lex.specs.Token.{text_of, spec_tokens};
ghost use Rattle.tv_phrases.specs.Reading.{Takes};
ghost use Rattle.tv_source_syntax.specs.Copies.{assign_of};
ghost use Rattle.tv_source_syntax.specs.Reading.{loaded_at, copied_at, value_at, stored_at, store_at};
ghost use Rattle.tv_source_syntax.specs.Reading.{assign_behind, assign_at};

use crate::tree::AssignTree;
use crate::words::name;
use tv_lex::Token;
use tv_phrases::{Read, after, expect};

// Behind `x = y ->`.
#[tactic(auto, unfolding(crate::specs::Reading::loaded_at))]
fn loaded<'a>(bytes: &[u8], tokens: &'a [Token], to: Token, from: Token) -> Read<'a, AssignTree>
    ensures { Takes (λ x. (assign_of bytes.now x.0, spec_tokens bytes.now x.1.now)) result
        (loaded_at (text_of bytes.now to) (text_of bytes.now from) (spec_tokens bytes.now tokens.now)) }
{
    let (field, rest) = name(bytes, tokens)?;
    Ok((AssignTree::Load(to, from, field), rest))
}

// Behind `x =`, where neither `null` nor `new` stands.
#[tactic(auto, unfolding(crate::specs::Reading::copied_at))]
fn copied<'a>(bytes: &[u8], tokens: &'a [Token], to: Token) -> Read<'a, AssignTree>
    ensures { Takes (λ x. (assign_of bytes.now x.0, spec_tokens bytes.now x.1.now)) result
        (copied_at (text_of bytes.now to) (spec_tokens bytes.now tokens.now)) }
{
    let (from, rest) = name(bytes, tokens)?;
    match after(bytes, rest, b"->") {
        Some(behind) => loaded(bytes, behind, to, from),
        None => Ok((AssignTree::Copy(to, from), rest)),
    }
}

// Behind `x =`.
#[tactic(auto, unfolding(crate::specs::Reading::value_at))]
fn value<'a>(bytes: &[u8], tokens: &'a [Token], to: Token) -> Read<'a, AssignTree>
    ensures { Takes (λ x. (assign_of bytes.now x.0, spec_tokens bytes.now x.1.now)) result
        (value_at (text_of bytes.now to) (spec_tokens bytes.now tokens.now)) }
{
    if let Some(rest) = after(bytes, tokens, b"null") {
        return Ok((AssignTree::Null(to), rest));
    }
    match after(bytes, tokens, b"new") {
        Some(rest) => Ok((AssignTree::New(to), rest)),
        None => copied(bytes, tokens, to),
    }
}

// Behind `x->f =`.
#[tactic(auto, unfolding(crate::specs::Reading::stored_at))]
fn stored<'a>(bytes: &[u8], tokens: &'a [Token], at: Token, field: Token) -> Read<'a, AssignTree>
    ensures { Takes (λ x. (assign_of bytes.now x.0, spec_tokens bytes.now x.1.now)) result
        (stored_at (text_of bytes.now at) (text_of bytes.now field) (spec_tokens bytes.now tokens.now)) }
{
    if let Some(rest) = after(bytes, tokens, b"null") {
        return Ok((AssignTree::Clear(at, field), rest));
    }
    let (from, rest) = name(bytes, tokens)?;
    Ok((AssignTree::Store(at, field, from), rest))
}

// Behind `x ->`.
#[tactic(auto, unfolding(crate::specs::Reading::store_at))]
fn store<'a>(bytes: &[u8], tokens: &'a [Token], at: Token) -> Read<'a, AssignTree>
    ensures { Takes (λ x. (assign_of bytes.now x.0, spec_tokens bytes.now x.1.now)) result
        (store_at (text_of bytes.now at) (spec_tokens bytes.now tokens.now)) }
{
    let (field, next) = name(bytes, tokens)?;
    let behind = expect(bytes, next, b"=")?;
    stored(bytes, behind, at, field)
}

// Behind the first name.
#[tactic(auto, unfolding(crate::specs::Reading::assign_behind))]
fn behind_name<'a>(bytes: &[u8], tokens: &'a [Token], first: Token) -> Read<'a, AssignTree>
    ensures { Takes (λ x. (assign_of bytes.now x.0, spec_tokens bytes.now x.1.now)) result
        (assign_behind (text_of bytes.now first) (spec_tokens bytes.now tokens.now)) }
{
    if let Some(behind) = after(bytes, tokens, b"->") {
        return store(bytes, behind, first);
    }
    let behind = expect(bytes, tokens, b"=")?;
    value(bytes, behind, first)
}

/// An assignment, and the tokens behind it.
#[tactic(auto, unfolding(crate::specs::Reading::assign_at))]
pub fn assign<'a>(bytes: &[u8], tokens: &'a [Token]) -> Read<'a, AssignTree>
    ensures { Takes (λ x. (assign_of bytes.now x.0, spec_tokens bytes.now x.1.now)) result
        (assign_at (spec_tokens bytes.now tokens.now)) }
{
    let (first, behind) = name(bytes, tokens)?;
    behind_name(bytes, behind, first)
}
