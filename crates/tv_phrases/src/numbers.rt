//! Numbers, and lists of them.

ghost use Rattle.std.specs.Prelude.{◌≡◌, ◌<◌, ◌^◌, ◌==◌, ◌&&◌, length, IfOk, is_some, true, nat_lt};
ghost use Rattle.std.specs.Prelude.{slice_index};
ghost use Rattle.std.specs.Char.{is_ascii_digit};
ghost use Rattle.std.specs.List.{list_all};
ghost use Rattle.std.specs.Option.{SomeIff};
ghost use Rattle.std.specs.Str.Parse.{digits_value};
ghost use Rattle.tv_lex.specs.Token.{text_of, spec_token, spec_tokens};
ghost use Rattle.tv_phrases.specs.Lists.{comma_list, optional_list};
ghost use Rattle.tv_phrases.specs.Reading.{GivesReading, Takes};
ghost use Rattle.tv_phrases.specs.Tokens.{first, number_in, number_item};

use crate::error::{PhraseError, Read};
use crate::tokens::{after, expect, is_word};
use std::alloc::Global;
use std::str;
use tv_lex::{Token, text};

/// Whether all bytes are decimal digits.
fn are_digits(word: &[u8]) -> bool
    ensures { result ≡ list_all is_ascii_digit word.now }
{
    word.iter().all(|byte| byte.is_ascii_digit())
}

/// Whether a zero stands in front of other digits.
fn is_padded(word: &[u8]) -> bool
    ensures { result ≡ (slice_index word.now 0 == 48 && nat_lt 1 (length word.now)) }
{
    word.len() > 1 && word[0] == b'0'
}

/// The value of digits, if there are any and it is below 2 ^ 32.
fn value_of(digits: &[u8]) -> Option<u32>
    requires { list_all is_ascii_digit digits.now ≡ true }
    ensures { SomeIff result ((0 < length digits.now) × (digits_value 10 digits.now < 2 ^ 32))
        (digits_value 10 digits.now) }
{
    match str::from_utf8(digits) {
        Ok(digits) => digits.parse().ok(),
        Err(_) => None,
    }
}

fn number_in(word: &[u8]) -> Option<u32>
    ensures { result ≡ number_in word.now }
{
    if !are_digits(word) {
        return None;
    }
    if is_padded(word) {
        return None;
    }
    value_of(word)
}

fn number_of(bytes: &[u8], token: &Token) -> Option<u32>
    ensures { result ≡ number_item (spec_token bytes.now token.now) }
{
    if !is_word(token.kind) {
        return None;
    }
    number_in(text(bytes, token))
}

/// Whether the first token is a number.
#[tactic(auto, unfolding(crate::specs::Tokens::first))]
pub(crate) fn begins_number(bytes: &[u8], tokens: &[Token]) -> bool
    ensures { result ≡ is_some (first number_item (spec_tokens bytes.now tokens.now)) }
{
    match tokens.first() {
        Some(token) => number_of(bytes, token).is_some(),
        None => false,
    }
}

/// A number below 2 ^ 32, in decimal and without a zero in front, and the tokens behind it.
#[tactic(auto, unfolding(crate::specs::Tokens::first))]
pub fn number<'a>(bytes: &[u8], tokens: &'a [Token]) -> Read<'a, u32>
    ensures value { Takes (λ x. (x.0, spec_tokens bytes.now x.1.now)) result
        (first number_item (spec_tokens bytes.now tokens.now)) }
    ensures shorter { IfOk result (λ x. length x.1.now < length tokens.now) }
{
    match tokens.split_first() {
        None => Err(PhraseError::Unexpected(tokens)),
        Some((token, rest)) => match number_of(bytes, token) {
            None => Err(PhraseError::Unexpected(tokens)),
            Some(n) => Ok((n, rest)),
        },
    }
}

/// One number or more, with commas between them.
#[tactic(auto, using(crate::proofs::CommaLists::begun, crate::proofs::CommaLists::not_begun, crate::proofs::CommaLists::more_items, crate::proofs::CommaLists::no_more_items, crate::proofs::CommaLists::broken_items))]
fn numbers<'a>(alloc: Global, bytes: &[u8], tokens: &'a [Token]) -> Read<'a, Vec<u32>>
    ensures { GivesReading (λ x. (x.0.items, spec_tokens bytes.now x.1.now)) result
        (comma_list number_item (spec_tokens bytes.now tokens.now)) }
{
    let (first, mut rest) = number(bytes, tokens)?;
    let mut list = Vec::new(alloc);
    list.push(first)?;
    while let Some(behind) = after(bytes, rest, b",") {
        let (next, further) = number(bytes, behind)?;
        list.push(next)?;
        rest = further;
    }
    Ok((list, rest))
}

/// Numbers with commas between them where the first token is one, else none.
#[tactic(auto, unfolding(crate::specs::Lists::optional_list))]
pub fn optional_numbers<'a>(alloc: Global, bytes: &[u8], tokens: &'a [Token]) -> Read<'a, Vec<u32>>
    ensures { GivesReading (λ x. (x.0.items, spec_tokens bytes.now x.1.now)) result
        (optional_list number_item (spec_tokens bytes.now tokens.now)) }
{
    if begins_number(bytes, tokens) {
        numbers(alloc, bytes, tokens)
    } else {
        Ok((Vec::new(alloc), tokens))
    }
}
