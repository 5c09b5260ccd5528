//! The lines of a file, and the include lines among them.
ghost use Rattle.std.specs.Prelude.{◌≡◌, ℕ, ◌+◌, ◌-◌, ◌<◌, ◌≤◌, ◌&&◌, length, take, drop, min, IfOk};
ghost use Rattle.std.specs.List.{prefix_len, suffix_len};
ghost use Rattle.std.specs.Option.{option_map};
ghost use Rattle.std.specs.String.{string_bytes};
ghost use Rattle.tv_lex.specs.Bytes.{stays_on_line};
ghost use Rattle.tv_lex.specs.Include.{next_scan, scan_start, is_in_block, is_open_after, is_gap};
ghost use Rattle.tv_lex.specs.Include.{without_gaps, behind_mark, is_include, includes, is_feed, ends_line};
ghost use Rattle.tv_lex.specs.Include.{is_not_quote, text_if, checked_name, include_name as name_in};
ghost use Rattle.tv_lex.specs.Include.{is_not_slash, folder_of, inner_name};

use crate::front::{behind, byte_at, on_line_len};
use std::alloc::{AllocError, Global};
use std::str;

/// Where a byte of a line stands.
#[derive(Clone, Copy, Debug, PartialEq, Eq)]
pub(crate) enum Scan {
    /// Outside of strings and comments.
    Code,
    /// The same, behind a `/`.
    Slash,
    LineComment,
    BlockComment,
    /// In a block comment, behind a `*`.
    Star,
    Quoted,
}

fn next_scan(scan: Scan, b: u8) -> Scan
    ensures { result ≡ next_scan scan b }
{
    match (scan, b) {
        (Scan::Code, b'/') => Scan::Slash,
        (Scan::Slash, b'/') => Scan::LineComment,
        (Scan::Slash, b'*') => Scan::BlockComment,
        (Scan::Code | Scan::Slash, b'"') => Scan::Quoted,
        (Scan::Code | Scan::Slash, _) => Scan::Code,
        (Scan::LineComment, _) => Scan::LineComment,
        (Scan::Star, b'/') => Scan::Code,
        (Scan::BlockComment | Scan::Star, b'*') => Scan::Star,
        (Scan::BlockComment | Scan::Star, _) => Scan::BlockComment,
        (Scan::Quoted, b'"') => Scan::Code,
        (Scan::Quoted, _) => Scan::Quoted,
    }
}

fn scan_start(inside: bool) -> Scan
    ensures { result ≡ scan_start inside }
{
    if inside {
        Scan::BlockComment
    } else {
        Scan::Code
    }
}

fn is_in_block(scan: Scan) -> bool
    ensures { result ≡ is_in_block scan }
{
    match scan {
        Scan::BlockComment | Scan::Star => true,
        Scan::Code | Scan::Slash | Scan::LineComment | Scan::Quoted => false,
    }
}

/// Whether the next line begins inside a block comment, where it is told whether this one does.
pub(crate) fn is_open_after(inside: bool, line: &[u8]) -> bool
    ensures { result ≡ is_open_after inside line.now }
{
    let mut scan = scan_start(inside);
    for b in line {
        scan = next_scan(scan, *b);
    }
    is_in_block(scan)
}

/// How long the first line is, with its line feed.
pub(crate) fn line_len(text: &[u8]) -> usize
    ensures { result ≡ min (prefix_len stays_on_line text.now + 1) (length text.now) }
{
    (on_line_len(text) + 1).min(text.len())
}

fn gaps_len(text: &[u8]) -> usize
    ensures { result ≡ prefix_len is_gap text.now }
{
    text.iter()
        .take_while(|b| **b == b' ' || **b == b'\t')
        .count()
}

fn without_gaps(text: &[u8]) -> &[u8]
    ensures { result.now ≡ without_gaps text.now }
{
    behind(text, gaps_len(text))
}

fn behind_mark<'a>(text: &'a [u8], mark: &[u8]) -> Option<&'a [u8]>
    ensures { option_map (λ x. x.now) result ≡ behind_mark mark.now text.now }
{
    if text.starts_with(mark) {
        Some(&text[mark.len()..])
    } else {
        None
    }
}

/// Whether the first byte other than a space or a tab is `#`.
fn is_include(line: &[u8]) -> bool
    ensures { result ≡ is_include line.now }
{
    byte_at(without_gaps(line), 0) == b'#'
}

/// Whether a line is an include line, where it is told whether it begins inside a block comment.
pub(crate) fn includes(inside: bool, line: &[u8]) -> bool
    ensures { result ≡ includes inside line.now }
{
    !inside && is_include(line)
}

fn is_feed(rest: &[u8]) -> bool
    ensures { result ≡ is_feed rest.now }
{
    rest.is_empty() || (rest.len() == 1 && byte_at(rest, 0) == b'\n')
}

fn ends_line(text: &[u8]) -> bool
    ensures { result ≡ ends_line text.now }
{
    if byte_at(text, 0) == b'\r' {
        is_feed(behind(text, 1))
    } else {
        is_feed(text)
    }
}

fn name_len(quoted: &[u8]) -> usize
    ensures value { result ≡ prefix_len is_not_quote quoted.now }
    ensures bound { result ≤ length quoted.now }
{
    quoted.iter().take_while(|b| **b != b'"').count()
}

#[tactic(auto, using(crate::proofs::Names::text_some, crate::proofs::Names::text_none))]
fn text_if(bytes: &[u8]) -> Option<&str>
    ensures { option_map (λ x. x.now) result ≡ text_if bytes.now }
{
    match str::from_utf8(bytes) {
        Ok(text) => Some(text),
        Err(_) => None,
    }
}

fn checked_name<'a>(name: &'a [u8], rest: &[u8]) -> Option<&'a str>
    ensures { option_map (λ x. x.now) result ≡ checked_name name.now rest.now }
{
    if !name.is_empty() && ends_line(without_gaps(rest)) {
        text_if(name)
    } else {
        None
    }
}

/// The name in an include line, if the line has the form of one.
#[tactic(auto, unfolding(crate::specs::Include::include_name))]
pub(crate) fn include_name(line: &[u8]) -> Option<&str>
    ensures { option_map (λ x. x.now) result ≡ name_in line.now }
{
    let word = behind_mark(without_gaps(line), b"#")?;
    let quote = behind_mark(without_gaps(word), b"include")?;
    let quoted = behind_mark(without_gaps(quote), b"\"")?;
    let (name, end) = quoted.split_at(name_len(quoted));
    let rest = behind_mark(end, b"\"")?;
    checked_name(name, rest)
}

fn last_part_len(name: &[u8]) -> usize
    ensures value { result ≡ suffix_len is_not_slash name.now }
    ensures bound { result ≤ length name.now }
{
    name.iter().rev().take_while(|b| **b != b'/').count()
}

/// A name up to its last `/`, possibly nothing.
fn folder(name: &str) -> &str
    ensures { result.now ≡ folder_of name.now }
{
    let end = name.len() - last_part_len(name.as_bytes());
    &name[..end]
}

/// The name of the file that `written` names in the file `name`.
pub(crate) fn inner_name(alloc: Global, name: &str, written: &str) -> Result<String, AllocError>
    ensures { IfOk result (λ s. string_bytes s ≡ inner_name name.now written.now) }
{
    if byte_at(written.as_bytes(), 0) == b'/' {
        return String::from_str(alloc, written);
    }
    let mut inner = String::from_str(alloc, folder(name))?;
    inner.push_str(written)?;
    Ok(inner)
}
