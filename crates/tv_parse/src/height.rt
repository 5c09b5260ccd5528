//! The height of a text: how many constructs are open at once.

ghost use Rattle.std.specs.Prelude.{◌≡◌, [], IfOk, OnOk, reverse};
ghost use Rattle.tv_lex.specs.Token.{spec_tokens, spec_token};
ghost use Rattle.tv_parse.specs.Height.{is_one_of, opening_brackets, closing_brackets, connectives};
ghost use Rattle.tv_parse.specs.Height.{quantifiers, separators, is_directive, effect, without_marks};
ghost use Rattle.tv_parse.specs.Height.{changed, passes_height};

use std::alloc::{AllocError, Global};
use tv_lex::{Token, TokenKind, text};
use tv_phrases::{begins_with, is_spelled};

/// What is open at a place.
#[derive(Clone, Copy, Debug, PartialEq, Eq)]
pub enum Open {
    /// A bracket of any kind.
    Bracket,
    /// What begins with `!`, a connective or a quantifier, and goes on behind it.
    Mark,
}

/// What a token does to what is open.
#[derive(Clone, Copy, Debug, PartialEq, Eq)]
pub enum Effect {
    OpensBracket,
    OpensMark,
    ClosesBracket,
    ClosesMarks,
    Nothing,
}

fn opens_bracket(word: &[u8]) -> bool
    ensures { result ≡ is_one_of opening_brackets word.now }
{
    is_spelled(word, b"(") || is_spelled(word, b"{") || is_spelled(word, b"[")
}

fn closes_bracket(word: &[u8]) -> bool
    ensures { result ≡ is_one_of closing_brackets word.now }
{
    is_spelled(word, b")") || is_spelled(word, b"}") || is_spelled(word, b"]")
}

fn is_connective(word: &[u8]) -> bool
    ensures { result ≡ is_one_of connectives word.now }
{
    is_spelled(word, b"!")
        || is_spelled(word, b"&")
        || is_spelled(word, b"|")
        || is_spelled(word, b"->")
        || is_spelled(word, b"<->")
        || is_spelled(word, b"?")
}

fn is_quantifier(word: &[u8]) -> bool
    ensures { result ≡ is_one_of quantifiers word.now }
{
    is_spelled(word, b"E") || is_spelled(word, b"A") || is_spelled(word, b"TC")
}

fn is_separator(word: &[u8]) -> bool
    ensures { result ≡ is_one_of separators word.now }
{
    is_spelled(word, b",")
        || is_spelled(word, b"=")
        || is_spelled(word, b"==>")
        || is_spelled(word, b"%%")
}

fn is_directive(kind: TokenKind) -> bool
    ensures { result ≡ is_directive kind }
{
    matches!(kind, TokenKind::Directive)
}

fn effect_of(bytes: &[u8], token: &Token, rest: &[Token]) -> Effect
    ensures { result ≡ effect (spec_token bytes.now token.now) (spec_tokens bytes.now rest.now) }
{
    let word = text(bytes, token);
    if opens_bracket(word) {
        Effect::OpensBracket
    } else if is_connective(word) {
        Effect::OpensMark
    } else if is_quantifier(word) {
        if begins_with(bytes, rest, b"(") {
            Effect::OpensMark
        } else {
            Effect::Nothing
        }
    } else if closes_bracket(word) {
        Effect::ClosesBracket
    } else if is_separator(word) || is_directive(token.kind) {
        Effect::ClosesMarks
    } else {
        Effect::Nothing
    }
}

// The stack has the innermost entry last.
fn close_marks(stack: &mut Vec<Open>)
    ensures { reverse stack.new.items ≡ without_marks (reverse stack.old.items) }
{
    'marks: while let Some(Open::Mark) = stack.last() {
        stack.pop();
    }
}

#[tactic(auto, using(crate::proofs::Heights::reverse_push, crate::proofs::Heights::reverse_pop))]
fn apply(stack: &mut Vec<Open>, effect: Effect) -> Result<(), AllocError>
    ensures { OnOk result (reverse stack.new.items ≡ changed effect (reverse stack.old.items)) }
{
    match effect {
        Effect::OpensBracket => stack.push(Open::Bracket)?,
        Effect::OpensMark => stack.push(Open::Mark)?,
        Effect::ClosesBracket => {
            close_marks(stack);
            stack.pop();
        }
        Effect::ClosesMarks => close_marks(stack),
        Effect::Nothing => {}
    }
    Ok(())
}

/// Whether over 200 constructs are open at one place.
#[tactic(auto, using(crate::proofs::Heights::further, crate::proofs::Heights::past))]
pub fn is_too_deep(alloc: Global, bytes: &[u8], tokens: &[Token]) -> Result<bool, AllocError>
    ensures { IfOk result (λ found. found ≡ passes_height [] (spec_tokens bytes.now tokens.now)) }
{
    let mut stack = Vec::new(alloc);
    let mut rest = tokens;
    'tokens: while let Some((token, behind)) = rest.split_first() {
        apply(&mut stack, effect_of(bytes, token, behind))?;
        if stack.len() > 200 {
            return Ok(true);
        }
        rest = behind;
    }
    Ok(false)
}
