//! Lines and columns.
ghost use Rattle.std.specs.Prelude.{◌≡◌, ℕ, List, ◌+◌, ◌≤◌, ◌++◌, ◌==◌, length, take};
ghost use Rattle.std.specs.List.{count_by, suffix_len};
ghost use Rattle.tv_lex.specs.Bytes.{stays_on_line, longest_text};
ghost use Rattle.tv_lex.specs.Pieces.{AreInOrder};
ghost use Rattle.tv_lex.specs.Places.{place_at, first_place, IsTokenPlace};
ghost use Rattle.tv_lex.specs.declared.token.Token.{Token};

use crate::token::{Place, Token};

fn line_feeds(bytes: &[u8]) -> usize
    ensures value { result ≡ count_by (λ b. b == 10) bytes.now }
    ensures bound { result ≤ length bytes.now }
{
    bytes.iter().filter(|b| **b == b'\n').count()
}

fn last_line_len(bytes: &[u8]) -> usize
    ensures value { result ≡ suffix_len stays_on_line bytes.now }
    ensures bound { result ≤ length bytes.now }
{
    bytes.iter().rev().take_while(|b| **b != b'\n').count()
}

/// Where the byte at `at` stands, or the end of the text. The line is one more than the number of line feeds
/// before it, and the column one more than the number of bytes between the last of these, or the start of the
/// text, and it. Takes no memory.
pub fn place(bytes: &[u8], at: usize) -> Place
    requires place { at ≤ length bytes.now }
    requires size { length bytes.now ≤ longest_text }
    ensures { result ≡ place_at bytes.now at }
{
    let before = &bytes[..at];
    Place {
        line: line_feeds(before) as u32 + 1,
        column: last_line_len(before) as u32 + 1,
    }
}

/// Where a reader of these tokens, which are those of `bytes`, stopped: `rest` are the last of them, which it
/// left. It is the place of the first of these, or of the end of the text where none is left. Takes no
/// memory.
#[tactic(auto, using(crate::proofs::PlaceLemmas::start_within, crate::proofs::PlaceLemmas::token_place, crate::proofs::PlaceLemmas::end_place, crate::proofs::PlaceLemmas::first_is_token, crate::proofs::PlaceLemmas::first_is_end))]
pub fn stop_place(bytes: &[u8], tokens: &[Token], rest: &[Token]) -> Place
    requires size { length bytes.now ≤ longest_text }
    requires order { AreInOrder 0 tokens.now (length bytes.now) }
    ensures token { IsTokenPlace bytes.now tokens.now result }
    ensures first { (read : List Token) → tokens.now ≡ read ++ rest.now
        → result ≡ first_place bytes.now rest.now }
{
    let read = tokens.len().saturating_sub(rest.len());
    match tokens.get(read) {
        Some(token) => place(bytes, token.start as usize),
        None => place(bytes, bytes.len()),
    }
}
