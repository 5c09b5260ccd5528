//! The piece at the front of a text.
ghost use Rattle.std.specs.Prelude.{◌≡◌, ℕ, ◌<◌, ◌≤◌, ◌↔◌, ◌^◌, IsTrue, IfSome, length, drop, slice_index};
ghost use Rattle.std.specs.List.{prefix_len};
ghost use Rattle.tv_lex.specs.Bytes.{is_blank, is_word_byte, is_letter, is_text_byte, stays_on_line};
ghost use Rattle.tv_lex.specs.Pieces.{close_at};
ghost use Rattle.tv_lex.specs.Front.{front as front_of, word_front, string_front, block_front, comment_front};
ghost use Rattle.tv_lex.specs.Front.{percent_front, punct_front, is_half as half_at, is_triple as triple};
ghost use Rattle.tv_lex.specs.Front.{is_pair as pair, is_single as single};

use crate::token::{LexError, TokenKind};

/// A token of this kind, or without one a blank or a comment, and how many bytes it has.
#[derive(Clone, Copy, Debug, PartialEq, Eq)]
pub(crate) struct Front {
    pub kind: Option<TokenKind>,
    pub len: usize,
}

fn gap(len: usize) -> Front
    ensures kind { result.kind ≡ None }
    ensures len { result.len ≡ len }
{
    Front { kind: None, len }
}

fn token(kind: TokenKind, len: usize) -> Front
    ensures kind { result.kind ≡ Some kind }
    ensures len { result.len ≡ len }
{
    Front {
        kind: Some(kind),
        len,
    }
}

/// The byte at a place, or 0 past the end.
pub(crate) fn byte_at(bytes: &[u8], i: usize) -> u8
    ensures { result ≡ slice_index bytes.now i }
{
    if i < bytes.len() { bytes[i] } else { 0 }
}

pub(crate) fn is_blank(b: u8) -> bool
    ensures { result ≡ is_blank b }
{
    b == b' ' || b == b'\t' || b == b'\r' || b == b'\n'
}

fn is_word_byte(b: u8) -> bool
    ensures { result ≡ is_word_byte b }
{
    b.is_ascii_alphanumeric() || b == b'_'
}

fn is_text_byte(b: u8) -> bool
    ensures { result ≡ is_text_byte b }
{
    b >= b' ' && b <= b'~' && b != b'"'
}

fn word_len(bytes: &[u8]) -> usize
    ensures { result ≡ prefix_len is_word_byte bytes.now }
{
    bytes.iter().take_while(|b| is_word_byte(**b)).count()
}

fn letters_len(bytes: &[u8]) -> usize
    ensures value { result ≡ prefix_len is_letter bytes.now }
    ensures bound { result ≤ length bytes.now }
{
    bytes.iter().take_while(|b| b.is_ascii_alphabetic()).count()
}

fn string_len(bytes: &[u8]) -> usize
    ensures { result ≡ prefix_len is_text_byte bytes.now }
{
    bytes.iter().take_while(|b| is_text_byte(**b)).count()
}

pub(crate) fn on_line_len(bytes: &[u8]) -> usize
    ensures value { result ≡ prefix_len stays_on_line bytes.now }
    ensures bound { result ≤ length bytes.now }
{
    bytes.iter().take_while(|b| **b != b'\n').count()
}

/// Where the first `*/` stands.
#[tactic(auto, using(crate::proofs::Closes::close_steps))]
fn close_at(bytes: &[u8]) -> Option<usize>
    ensures value { result ≡ close_at bytes.now }
    ensures bound { IfSome result (λ n. n < length bytes.now) }
{
    for i in 0..bytes.len() {
        if bytes[i] == b'*' && byte_at(bytes, i + 1) == b'/' {
            return Some(i);
        }
    }
    None
}

fn is_half(text: &[u8]) -> bool
    ensures { result ≡ half_at text.now }
{
    byte_at(text, 0) == b'1'
        && byte_at(text, 1) == b'/'
        && byte_at(text, 2) == b'2'
        && !is_word_byte(byte_at(text, 3))
}

fn word(text: &[u8]) -> Front
    ensures { Ok result ≡ word_front text.now }
{
    if is_half(text) {
        token(TokenKind::Half, 3)
    } else {
        token(TokenKind::Word, word_len(text))
    }
}

/// A string, from behind its first quote on. A byte that may not stand in it comes before its end.
fn string(inside: &[u8]) -> Result<Front, LexError>
    requires { length inside.now < 2 ^ 32 }
    ensures { result ≡ string_front inside.now }
{
    let len = string_len(inside);
    let stop = byte_at(inside, len);
    if stop == b'"' {
        return Ok(token(TokenKind::Text, len + 2));
    }
    if len >= inside.len() || stop == b'\n' {
        return Err(LexError::Unended);
    }
    Err(LexError::BadByte)
}

fn block(inside: &[u8]) -> Result<Front, LexError>
    requires { length inside.now < 2 ^ 32 }
    ensures { result ≡ block_front (close_at inside.now) }
{
    match close_at(inside) {
        None => Err(LexError::Unended),
        Some(n) => Ok(gap(n + 4)),
    }
}

fn comment(text: &[u8]) -> Result<Front, LexError>
    requires { length text.now < 2 ^ 32 }
    ensures { result ≡ comment_front text.now }
{
    match byte_at(text, 1) {
        b'/' => Ok(gap(on_line_len(behind(text, 2)) + 2)),
        b'*' => block(behind(text, 2)),
        _ => Err(LexError::BadByte),
    }
}

fn percent(text: &[u8]) -> Result<Front, LexError>
    requires { length text.now < 2 ^ 32 }
    ensures { result ≡ percent_front text.now }
{
    let second = byte_at(text, 1);
    if second == b'%' {
        return Ok(token(TokenKind::Parts, 2));
    }
    if second.is_ascii_alphabetic() {
        return Ok(token(TokenKind::Directive, letters_len(behind(text, 1)) + 1));
    }
    Err(LexError::BadByte)
}

fn is_triple(a: u8, b: u8, c: u8) -> bool
    ensures { result ≡ triple a b c }
{
    (a == b'=' && b == b'=' && c == b'>') || (a == b'<' && b == b'-' && c == b'>')
}

fn is_pair(a: u8, b: u8) -> bool
    ensures { result ≡ pair a b }
{
    (a == b'-' && b == b'>') || (a == b'=' && b == b'=') || (a == b'!' && b == b'=')
}

fn is_single(a: u8) -> bool
    ensures { result ≡ single a }
{
    matches!(
        a,
        b'(' | b')'
            | b'{'
            | b'}'
            | b'['
            | b']'
            | b','
            | b':'
            | b'+'
            | b'-'
            | b'*'
            | b'='
            | b'!'
            | b'&'
            | b'|'
            | b'?'
    )
}

fn punct(text: &[u8]) -> Result<Front, LexError>
    ensures { result ≡ punct_front text.now }
{
    let a = byte_at(text, 0);
    let b = byte_at(text, 1);
    if is_triple(a, b, byte_at(text, 2)) {
        return Ok(token(TokenKind::Punct, 3));
    }
    if is_pair(a, b) {
        return Ok(token(TokenKind::Punct, 2));
    }
    if is_single(a) {
        return Ok(token(TokenKind::Punct, 1));
    }
    Err(LexError::BadByte)
}

/// The bytes from a place on.
pub(crate) fn behind(bytes: &[u8], at: usize) -> &[u8]
    ensures { result.now ≡ drop at bytes.now }
{
    &bytes[at.min(bytes.len())..]
}

/// The longest piece at the front of a text that isn't empty.
#[tactic(auto, unfolding(crate::specs::Front::front))]
pub(crate) fn first_piece(text: &[u8]) -> Result<Front, LexError>
    requires { length text.now < 2 ^ 32 }
    ensures { result ≡ front_of text.now }
{
    let first = byte_at(text, 0);
    if is_blank(first) {
        return Ok(gap(1));
    }
    if is_word_byte(first) {
        return Ok(word(text));
    }
    match first {
        b'"' => string(behind(text, 1)),
        b'/' => comment(text),
        b'%' => percent(text),
        _ => punct(text),
    }
}
