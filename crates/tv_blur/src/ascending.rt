//! Whether a structure is blurred already.

ghost use Rattle.std.specs.Prelude.{◌≡◌, ◌≢◌, ◌<◌, ◌≤◌, ◌↔◌, ◌+◌, ◌-◌, ℕ, IsTrue, MatchBool, Some, length};
ghost use Rattle.std.specs.Prelude.{nat_lt, slice_index_or, take, All, MatchOption, if◌then◌else◌};
ghost use Rattle.std.specs.declared.cmp.Ordering.TheVariants.{Equal, Greater};
ghost use Rattle.std.specs.Ordering.{ordering_then};
ghost use Rattle.tv_kleene.specs.declared.K3.TheVariants.{No};
ghost use Rattle.tv_structure_form.specs.StructureForm.{IsOver, arities_of, structure_of};
ghost use Rattle.tv_struct.specs.StructureRows.{unary_row};
ghost use Rattle.tv_blur.specs.Names.{abstraction_preds, is_abstraction};
ghost use Rattle.tv_blur.specs.Rising.{AddsRise, AddsRises, Falls, order_to_next, values_to_next};
ghost use Rattle.tv_blur.specs.Blur.{FollowsNames, IsBlurred};

use crate::names::{compare_value, is_told, tells_apart};
use crate::words::ROOM;
use std::cmp::Ordering;
use tv_kleene::K3;
use tv_model::{PredId, Vocab};
use tv_row::{Row, Word};
use tv_struct::Structure;

/// Tells how the values of the individual `u` and of the next one compare, unless their names differ already.
/// Whether the names don't fall.
fn add_rise(rises: &mut Row, values: &Row, u: u32) -> bool
    requires room { u < length rises.old }
    requires individual { u + 1 < length values.now }
    ensures long { length rises.new ≡ length rises.old }
    ensures here { MatchBool result
        (order_to_next rises.new u ≡ ordering_then (order_to_next rises.old u) (values_to_next values.now u))
        (ordering_then (order_to_next rises.old u) (values_to_next values.now u) ≡ Greater) }
    ensures others { (w : ℕ) → w ≢ u → slice_index_or rises.new w No ≡ slice_index_or rises.old w No }
{
    let _ = values.size();
    match compare_value(values.get(u), values.get(u + 1)) {
        Ordering::Equal => true,
        Ordering::Less => {
            rises.set(u, K3::Yes);
            true
        }
        Ordering::Greater => match rises.get(u) {
            K3::No => false,
            _ => true,
        },
    }
}

/// The place before this one, unless that lies before `from`.
#[inline(always)]
fn or_before(place: u32, from: u32) -> u32
    requires { from ≤ place }
    ensures { result ≡ (if nat_lt from place then place - 1 else place) }
{
    if from < place { place - 1 } else { place }
}

/// The first individual at or after `from`, other than the last, that or the next of which has a value that
/// isn't `No`. Others have the value of the next one.
fn next_told(values: &Row, from: u32) -> Option<u32>
    requires { from ≤ length values.now }
    ensures { MatchOption result
        ((w : ℕ) → from ≤ w → w + 1 < length values.now → values_to_next values.now w ≡ Equal)
        (λ u. (from ≤ u) × (u + 1 < length values.now)
        × ((w : ℕ) → from ≤ w → w < u → values_to_next values.now w ≡ Equal)) }
{
    let size = values.size();
    let possible = values.next_possible(from)?;
    let u = or_before(possible, from);
    if u + 1 < size { Some(u) } else { None }
}

/// Tells how each individual's values compare with the next one's, unless their names differ already. False
/// where names fall.
fn add_rises(rises: &mut Row, values: &Row) -> bool
    requires { length rises.old ≡ length values.now - 1 }
    ensures { MatchBool result (AddsRises values.now (length rises.old) rises.old rises.new)
        (Falls values.now rises.old) }
{
    let _ = values.size();
    let mut from = 0;
    while let Some(u) = next_told(values, from) {
        if !add_rise(rises, values, u) {
            return false;
        }
        from = u + 1;
    }
    true
}

/// Tells how the values of the individual `u` and of the next one compare, unless their names differ already.
/// There is no answer where the names fall.
#[inline(always)]
fn with_rise(rises: Word, values: Word, u: u32) -> Option<Word>
    requires individual { u + 1 < 64 }
    requires long { length rises ≡ 64 }
    ensures { MatchOption result
        (ordering_then (order_to_next rises u) (values_to_next values u) ≡ Greater)
        (AddsRise values u rises) }
{
    match compare_value(values.get(u), values.get(u + 1)) {
        Ordering::Equal => Some(rises),
        Ordering::Less => Some(rises.with(u, K3::Yes)),
        Ordering::Greater => match rises.get(u) {
            K3::No => None,
            _ => Some(rises),
        },
    }
}

/// The first of so many individuals at or after `from`, other than the last, that or the next of which has a
/// value that isn't `No`. Others have the value of the next one.
#[inline(always)]
fn next_in(values: Word, size: u32, from: u32) -> Option<u32>
    requires from { from ≤ 64 }
    requires size { size ≤ 64 }
    ensures { MatchOption result
        ((w : ℕ) → from ≤ w → w + 1 < size → values_to_next values w ≡ Equal)
        (λ u. (from ≤ u) × (u + 1 < size)
        × ((w : ℕ) → from ≤ w → w < u → values_to_next values w ≡ Equal)) }
{
    let possible = values.first_possible(from)?;
    let u = or_before(possible, from);
    if u + 1 < size { Some(u) } else { None }
}

/// Tells how the values of each of so many individuals compare with the next one's, unless their names
/// differ already. Nothing where names fall.
#[inline(always)]
fn with_rises(rises: Word, values: Word, size: u32) -> Option<Word>
    requires size { size ≤ 64 }
    requires long { length rises ≡ 64 }
    ensures { MatchOption result (Falls values (take (size - 1) rises))
        (AddsRises values (size - 1) rises) }
{
    let mut told = rises;
    let mut from = 0;
    while let Some(u) = next_in(values, size, from) {
        told = with_rise(told, values, u)?;
        from = u + 1;
    }
    Some(told)
}

/// Whether the names of the first `n` individuals rise to the next one's.
#[inline(always)]
fn all_rise(rises: Word, n: u32) -> bool
    requires { n ≤ 64 }
    ensures { IsTrue result ↔ All (λ k. k ≢ No) (take n rises) }
{
    rises.least(n) != K3::No
}

/// Whether the individuals, which are two or more and few enough that values stand in one word, have
/// different names and stand in their order.
fn are_ascending_in(vocab: &Vocab, s: &Structure) -> bool
    requires over { IsOver vocab.now s.now }
    requires several { 1 < s.now.size }
    requires few { s.now.size ≤ 64 }
    ensures { IsTrue result
        ↔ FollowsNames (abstraction_preds vocab.now) (structure_of s.now) s.now.size (λ u. u) }
{
    let _ = s.pred_count();
    let mut rises = Word::of(0, K3::No);
    for (p, pred) in vocab.preds.as_slice().iter().enumerate() {
        if tells_apart(pred) {
            match with_rises(rises, s.unary_word(PredId(p as u32), 0), s.size()) {
                None => return false,
                Some(told) => rises = told,
            }
            if all_rise(rises, s.size() - 1) {
                return true;
            }
        }
    }
    all_rise(rises, s.size() - 1)
}

/// Whether the individuals have different names and stand in their order. Names are compared predicate by
/// predicate, each at all neighbours, until all are told apart.
fn are_ascending(vocab: &Vocab, s: &Structure) -> bool
    requires { IsOver vocab.now s.now }
    ensures { IsTrue result
        ↔ FollowsNames (abstraction_preds vocab.now) (structure_of s.now) s.now.size (λ u. u) }
{
    if s.size() < 2 {
        return true;
    }
    if s.size() <= ROOM {
        return are_ascending_in(vocab, s);
    }
    are_ascending_by_rows(vocab, s)
}

/// Whether the individuals have different names and stand in their order, told row by row.
#[inline(never)]
fn are_ascending_by_rows(vocab: &Vocab, s: &Structure) -> bool
    requires over { IsOver vocab.now s.now }
    requires several { 1 < s.now.size }
    ensures { IsTrue result
        ↔ FollowsNames (abstraction_preds vocab.now) (structure_of s.now) s.now.size (λ u. u) }
{
    let _ = s.pred_count();
    let mut rises = Row::of(s.size().saturating_sub(1), K3::No);
    for (p, pred) in vocab.preds.as_slice().iter().enumerate() {
        if is_told(s, p as u32, pred) {
            if !add_rises(&mut rises, &s.unary_row(PredId(p as u32))) {
                return false;
            }
            if rises.are_possible() {
                return true;
            }
        }
    }
    rises.are_possible()
}

/// Whether the structure is its own blur: no individual is marked, and all have different names and stand in
/// their order. Takes no memory.
pub fn is_blurred(vocab: &Vocab, s: &Structure) -> bool
    requires { IsOver vocab.now s.now }
    ensures { IsTrue result ↔ IsBlurred (abstraction_preds vocab.now) s.now }
{
    match s.fresh() {
        None => are_ascending(vocab, s),
        Some(_) => false,
    }
}
