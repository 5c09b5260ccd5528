//! What the first token of a declaration, a part of an action, or a property tells.

ghost use Rattle.std.specs.Prelude.{◌≡◌, ◌<◌};
ghost use Rattle.std.specs.Option.{option_map};
ghost use Rattle.tv_lex.specs.Token.{spec_tokens};
ghost use Rattle.tv_phrases.specs.Tokens.{after, first};
ghost use Rattle.tv_phrases.specs.Reading.{Takes};
ghost use Rattle.tv_parse.specs.Kinds.{looked_up, decl_marks, part_marks, prop_words, decl_kind, part_kind};
ghost use Rattle.tv_parse.specs.Kinds.{prop_item, begins_decl, begins_update, begins_formula};
ghost use Rattle.tv_phrases.specs.Repeated.{begins_with};

use tv_formula::behind_arrow;
use tv_lex::{Token, text};
use tv_phrases::{Item, PhraseError, after, begins_item, begins_with, is_spelled};
use tv_tree::trees::PropWord;

/// A declaration, `foreach` aside.
#[derive(Clone, Copy, Debug, PartialEq, Eq)]
pub enum DeclKind {
    /// `%s`
    Set,
    /// `%p`
    Core,
    /// `%i`
    Defined,
    /// `%r`
    Rule,
}

/// A part of an action.
#[derive(Clone, Copy, Debug, PartialEq, Eq)]
pub enum PartKind {
    /// `%t`
    Caption,
    /// `%f`
    Focus,
    /// `%p`
    Pre,
    /// `%message`
    Message,
    /// `%new`
    New,
    /// `%retain`
    Retain,
    /// `{`
    Block,
}

fn kind_of_decl(word: &[u8]) -> Option<DeclKind>
    ensures { result ≡ looked_up decl_marks word.now }
{
    if is_spelled(word, b"%s") {
        Some(DeclKind::Set)
    } else if is_spelled(word, b"%p") {
        Some(DeclKind::Core)
    } else if is_spelled(word, b"%i") {
        Some(DeclKind::Defined)
    } else if is_spelled(word, b"%r") {
        Some(DeclKind::Rule)
    } else {
        None
    }
}

fn kind_of_part(word: &[u8]) -> Option<PartKind>
    ensures { result ≡ looked_up part_marks word.now }
{
    if is_spelled(word, b"%t") {
        Some(PartKind::Caption)
    } else if is_spelled(word, b"%f") {
        Some(PartKind::Focus)
    } else if is_spelled(word, b"%p") {
        Some(PartKind::Pre)
    } else if is_spelled(word, b"%message") {
        Some(PartKind::Message)
    } else if is_spelled(word, b"%new") {
        Some(PartKind::New)
    } else if is_spelled(word, b"%retain") {
        Some(PartKind::Retain)
    } else if is_spelled(word, b"{") {
        Some(PartKind::Block)
    } else {
        None
    }
}

fn property(word: &[u8]) -> Option<PropWord>
    ensures { result ≡ looked_up prop_words word.now }
{
    if is_spelled(word, b"unique") {
        Some(PropWord::Unique)
    } else if is_spelled(word, b"function") {
        Some(PropWord::Function)
    } else if is_spelled(word, b"invfunction") {
        Some(PropWord::Invfunction)
    } else if is_spelled(word, b"abs") {
        Some(PropWord::Abs)
    } else if is_spelled(word, b"nonabs") {
        Some(PropWord::Nonabs)
    } else if is_spelled(word, b"transitive") {
        Some(PropWord::Transitive)
    } else if is_spelled(word, b"reflexive") {
        Some(PropWord::Reflexive)
    } else if is_spelled(word, b"symmetric") {
        Some(PropWord::Symmetric)
    } else if is_spelled(word, b"box") {
        Some(PropWord::Boxed)
    } else if is_spelled(word, b"pointer") {
        Some(PropWord::Pointer)
    } else {
        None
    }
}

/// The kind of the declaration that begins here, and the tokens behind its directive.
#[tactic(auto, unfolding(tv_phrases::specs::Tokens::first))]
pub fn decl_kind<'a>(bytes: &[u8], tokens: &'a [Token]) -> Option<(DeclKind, &'a [Token])>
    ensures { option_map (λ x. (x.0, spec_tokens bytes.now x.1.now)) result
        ≡ first decl_kind (spec_tokens bytes.now tokens.now) }
{
    let (token, rest) = tokens.split_first()?;
    match kind_of_decl(text(bytes, token)) {
        Some(kind) => Some((kind, rest)),
        None => None,
    }
}

/// The kind of the part that begins here, and the tokens behind its first one.
#[tactic(auto, unfolding(tv_phrases::specs::Tokens::first))]
pub fn part_kind<'a>(bytes: &[u8], tokens: &'a [Token]) -> Option<(PartKind, &'a [Token])>
    ensures { option_map (λ x. (x.0, spec_tokens bytes.now x.1.now)) result
        ≡ first part_kind (spec_tokens bytes.now tokens.now) }
{
    let (token, rest) = tokens.split_first()?;
    match kind_of_part(text(bytes, token)) {
        Some(kind) => Some((kind, rest)),
        None => None,
    }
}

/// The property that stands here, and the tokens behind it.
#[tactic(auto, unfolding(tv_phrases::specs::Tokens::first))]
pub fn prop<'a>(bytes: &[u8], tokens: &'a [Token]) -> Option<(PropWord, &'a [Token])>
    ensures { option_map (λ x. (x.0, spec_tokens bytes.now x.1.now)) result
        ≡ first prop_item (spec_tokens bytes.now tokens.now) }
{
    let (token, rest) = tokens.split_first()?;
    match property(text(bytes, token)) {
        Some(word) => Some((word, rest)),
        None => None,
    }
}

/// Whether a declaration can begin here.
pub fn begins_decl(bytes: &[u8], tokens: &[Token]) -> bool
    ensures { result ≡ begins_decl (spec_tokens bytes.now tokens.now) }
{
    match decl_kind(bytes, tokens) {
        Some(_) => true,
        None => begins_with(bytes, tokens, b"foreach"),
    }
}

/// Whether an update can begin here.
pub fn begins_update(bytes: &[u8], tokens: &[Token]) -> bool
    ensures { result ≡ begins_update (spec_tokens bytes.now tokens.now) }
{
    begins_item(bytes, tokens, Item::Identifier) || begins_with(bytes, tokens, b"foreach")
}

/// Whether a formula can begin here.
pub fn begins_formula(bytes: &[u8], tokens: &[Token]) -> bool
    ensures { result ≡ begins_formula (spec_tokens bytes.now tokens.now) }
{
    begins_with(bytes, tokens, b"!")
        || begins_with(bytes, tokens, b"(")
        || begins_with(bytes, tokens, b"0")
        || begins_with(bytes, tokens, b"1")
        || begins_with(bytes, tokens, b"1/2")
        || begins_with(bytes, tokens, b"E")
        || begins_with(bytes, tokens, b"A")
        || begins_with(bytes, tokens, b"TC")
        || begins_item(bytes, tokens, Item::Identifier)
}

/// The tokens behind a mark that has to stand here. Behind a formula, an arrow in front of a string could go
/// on, so the string is what can't stand there.
pub fn expect_behind<'a>(
    bytes: &[u8],
    tokens: &'a [Token],
    mark: &[u8],
    formula_before: bool,
) -> Result<&'a [Token], PhraseError<'a>>
    ensures { Takes (λ rest. spec_tokens bytes.now rest.now) result
        (after mark.now (spec_tokens bytes.now tokens.now)) }
{
    match after(bytes, tokens, mark) {
        Some(rest) => Ok(rest),
        None => Err(PhraseError::Unexpected(if formula_before {
            behind_arrow(bytes, tokens)
        } else {
            tokens
        })),
    }
}
