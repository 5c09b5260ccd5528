//! What a structure says at a glance.

ghost use Rattle.std.specs.Prelude.{◌≡◌, ◌≢◌, ◌<◌, ◌≤◌, ℕ, List, [], length, max, All, Any, IfOk, IfNone};
ghost use Rattle.std.specs.Prelude.{IfSome, IsTrue, slice_index_or, slice_set};
ghost use Rattle.tv_kleene.specs.declared.K3.{K3};
ghost use Rattle.tv_kleene.specs.declared.K3.TheVariants.{No, Half, Yes};
ghost use Rattle.tv_structure_form.specs.StructureForm.{arities_of, value_at, summary_at};
ghost use Rattle.tv_struct.specs.StructureRows.{flag_value};
ghost use Rattle.tv_structure_form.specs.TableForm.{AreIndividuals};
ghost use Rattle.tv_struct.specs.TupleForm.{tuple_of};
ghost use Rattle.tv_cover.specs.Glance.{AreKnown, AreWithinMarks, AreOnlyImages, AreSummaries, IsOnlyMap};
ghost use Rattle.tv_cover.specs.Glance.{LieUnder};
ghost use Rattle.tv_cover.specs.Glance.{MayEmbed, slot_of, glance_number, glance_of, nullary_value};
ghost use Rattle.tv_cover.specs.Glance.{profile_near};
ghost use Rattle.tv_cover.specs.Glance.{profile_of, value_near};

use crate::noted::has_row;
use crate::profile::Profile;
use std::alloc::{AllocError, Global};
use std::marker::Model;
use tv_kleene::K3;
use tv_model::PredId;
use tv_row::{Row, Word, mix};
use tv_struct::{Numbers, Structure, Tuple};

/// What a structure says at a glance: the values of nullary predicates, and of each individual whether it is
/// a summary, and the values of unary predicates at it and of binary ones at the pair of it with itself. The
/// value of one of the first 255 predicates stands at the place behind its number. All values are `No` from
/// the place `64 * chunks` on, so that only the words before it are compared.
#[derive(Drop)]
pub struct Glance {
    nullary: Profile,
    unary: Vec<Profile>,
    chunks: u32,
}

impl Model for Glance {
    ghost use Rattle.std.specs.Prelude.{◌≤◌};
    ghost use Rattle.tv_cover.specs.Glance.{GlanceForm};

    ghost Value = { GlanceForm };

    ghost view = { λ g. record { nullary = g.nullary; unary = g.unary.items } };

    ghost invariant = { λ g. g.chunks ≤ 4 };
}

fn arity_of(t: Tuple) -> u8
    ensures { result ≡ length (tuple_of t) }
{
    match t {
        Tuple::Zero => 0,
        Tuple::One(_) => 1,
        Tuple::Two(_, _) => 2,
    }
}

/// The value of the predicate at the tuple, `No` where that hasn't its arity.
fn value_or_no(s: &Structure, p: PredId, t: Tuple) -> K3
    requires pred { p.0 < length (arities_of s.now) }
    requires individuals { AreIndividuals s.now.size (tuple_of t) }
    ensures { result ≡ value_at s.now p.0 (tuple_of t) }
{
    if s.arity(p) != arity_of(t) {
        return K3::No;
    }
    s.get(p, t)
}

/// `Half` for a summary, else `No`.
fn summary_value(s: &Structure, u: u32) -> K3
    requires { u < s.now.size }
    ensures { result ≡ flag_value (summary_at s.now u) }
{
    if s.summary(u) { K3::Half } else { K3::No }
}

/// The predicate's value at the individual where it is unary, at the pair of it with itself where it is
/// binary, else `No`.
fn value_near(s: &Structure, u: u32, p: PredId) -> K3
    requires pred { p.0 < length (arities_of s.now) }
    requires individual { u < s.now.size }
    ensures { result ≡ value_near s.now u p.0 }
{
    match s.arity(p) {
        0 => K3::No,
        1 => s.get(p, Tuple::One(u)),
        _ => s.get(p, Tuple::Two(u, u)),
    }
}

/// What is said of no individual.
fn nullary_profile(s: &Structure) -> Profile
    ensures { result ≡ profile_of No (nullary_value s.now) }
{
    let mut profile = Profile::of_no();
    for p in 0..s.pred_count().min(255) {
        profile.put(p + 1, value_or_no(s, PredId(p), Tuple::Zero));
    }
    profile
}

/// What is said of the individual.
fn profile_near(s: &Structure, u: u32) -> Profile
    requires { u < s.now.size }
    ensures { result ≡ profile_near s.now u }
{
    let mut profile = Profile::of_no();
    profile.put(0, summary_value(s, u));
    for p in 0..s.pred_count().min(255) {
        profile.put(p + 1, value_near(s, u, PredId(p)));
    }
    profile
}

/// What the structure says at a glance.
pub fn glance_of(alloc: Global, s: &Structure) -> Result<Glance, AllocError>
    ensures { IfOk result (λ glance. glance ≡ glance_of s.now) }
{
    let nullary = nullary_profile(s);
    let chunks = s.pred_count().min(255) / 64 + 1;
    let size = s.size();
    let mut unary = Vec::with_capacity(alloc, size as usize)?;
    for u in 0..size {
        unary.push(profile_near(s, u))?;
    }
    Ok(Glance {
        nullary,
        unary,
        chunks,
    })
}

/// Whether the values may lie under those of one of the others; that at `first` is tried first.
fn lies_under_some(row: &Profile, others: &[Profile], first: usize, chunks: u32) -> bool
    requires { chunks ≤ 4 }
    ensures { Any (LieUnder row.now) others.now → IsTrue result }
{
    if first < others.len() && row.may_lie_under(&others[first], chunks) {
        return true;
    }
    for other in others {
        if row.may_lie_under(other, chunks) {
            return true;
        }
    }
    false
}

/// Whether the values of one of the rows may lie under these; that at `first` is tried first.
fn lies_over_some(other: &Profile, rows: &[Profile], first: usize, chunks: u32) -> bool
    requires { chunks ≤ 4 }
    ensures { Any (λ row. LieUnder row other.now) rows.now → IsTrue result }
{
    if first < rows.len() && rows[first].may_lie_under(other, chunks) {
        return true;
    }
    for row in rows {
        if row.may_lie_under(other, chunks) {
            return true;
        }
    }
    false
}

/// Whether the values of each row may lie under those of one of the others.
fn lie_under_others(rows: &[Profile], others: &[Profile], chunks: u32) -> bool
    requires { chunks ≤ 4 }
    ensures { All (λ row. Any (LieUnder row) others.now) rows.now → IsTrue result }
{
    for u in 0..rows.len() {
        if !lies_under_some(&rows[u], others, u, chunks) {
            return false;
        }
    }
    true
}

/// Whether those of each of the others may lie over those of one of the rows.
fn lie_over_rows(others: &[Profile], rows: &[Profile], chunks: u32) -> bool
    requires { chunks ≤ 4 }
    ensures { All (λ other. Any (λ row. LieUnder row other) rows.now) others.now → IsTrue result }
{
    for w in 0..others.len() {
        if !lies_over_some(&others[w], rows, w, chunks) {
            return false;
        }
    }
    true
}

/// Whether there may be a map of the rows onto the others under which the values of each lie under those of
/// its image.
fn may_go_onto(rows: &[Profile], others: &[Profile], chunks: u32) -> bool
    requires { chunks ≤ 4 }
    ensures { All (λ row. Any (LieUnder row) others.now) rows.now
        → All (λ other. Any (λ row. LieUnder row other) rows.now) others.now → IsTrue result }
{
    lie_under_others(rows, others, chunks) && lie_over_rows(others, rows, chunks)
}

/// The first place at or after `from` of a row that the values may lie under.
fn next_above(row: &Profile, others: &[Profile], from: usize, chunks: u32) -> Option<usize>
    requires from { from ≤ length others.now }
    requires chunks { chunks ≤ 4 }
    ensures none { IfNone result ((w : ℕ) → from ≤ w → w < length others.now
        → ¬ LieUnder row.now (slice_index_or others.now w [])) }
    ensures within { IfSome result (λ i. i < length others.now) }
    ensures before { IfSome result (λ i. (w : ℕ) → from ≤ w → w < i
        → ¬ LieUnder row.now (slice_index_or others.now w [])) }
{
    for i in from..others.len() {
        if row.may_lie_under(&others[i], chunks) {
            return Some(i);
        }
    }
    None
}

/// The place of the row that the values lie under, where they may lie under one alone.
fn only_above(row: &Profile, others: &[Profile], chunks: u32) -> Option<usize>
    requires { chunks ≤ 4 }
    ensures within { IfSome result (λ i. i < length others.now) }
    ensures only { IfSome result (λ i. (w : ℕ) → w < length others.now
        → LieUnder row.now (slice_index_or others.now w []) → w ≡ i) }
{
    let Some(i) = next_above(row, others, 0, chunks) else {
        return None;
    };
    match next_above(row, others, i + 1, chunks) {
        None => Some(i),
        Some(_) => None,
    }
}

/// For each row the place of the only other one that its values may lie under, if there is one alone for
/// each.
fn only_images(
    alloc: Global,
    rows: &[Profile],
    others: &[Profile],
    chunks: u32,
) -> Result<Option<Numbers>, AllocError>
    requires { chunks ≤ 4 }
    ensures { IfOk result (λ found. IfSome found (AreOnlyImages rows.now others.now)) }
{
    if others.len() > 256 {
        return Ok(None);
    }
    let mut images = Vec::with_capacity(alloc, rows.len())?;
    for row in rows {
        let Some(w) = only_above(row, others, chunks) else {
            return Ok(None);
        };
        images.push(w as u32)?;
    }
    Ok(Some(Numbers::from_vec(images)))
}

fn larger(m: u64, n: u64) -> u64
    ensures { result ≡ max m n }
{
    m.max(n)
}

/// The slots with the one of the row at `Yes` where it is that of a summary.
fn marked(slots: Word, row: &Profile, known: &Profile) -> Word
    ensures summary { slice_index_or row.now 0 No ≡ Half
        → result ≡ slice_set slots (slot_of known.now row.now) Yes }
    ensures ordinary { slice_index_or row.now 0 No ≢ Half → result ≡ slots }
{
    match row.get(0) {
        K3::Half => slots.with((row.number(known) % 61) as u32, K3::Yes),
        K3::No | K3::Yes => slots,
    }
}

/// Whether the value is definite.
fn is_definite(k: K3) -> bool
    ensures { IsTrue result → k ≢ Half }
{
    match k {
        K3::No => true,
        K3::Half => false,
        K3::Yes => true,
    }
}

impl Glance {
    /// Whether no value at the place is unknown.
    fn is_known(&self, place: u32) -> bool
        requires { place < 256 }
        ensures nullary { IsTrue result → slice_index_or self.now.nullary place No ≢ Half }
        ensures unary { IsTrue result → All (λ row. slice_index_or row place No ≢ Half) self.now.unary }
    {
        if !is_definite(self.nullary.get(place)) {
            return false;
        }
        for row in self.unary.as_slice() {
            if !is_definite(row.get(place)) {
                return false;
            }
        }
        true
    }

    /// Makes the place known where it has no unknown value.
    fn add_known(&self, known: &mut Profile, place: u32)
        requires place { place < 256 }
        requires so_far { AreKnown self.now known.old }
        ensures { AreKnown self.now known.new }
    {
        if self.is_known(place) {
            known.put(place, K3::Yes);
        }
    }

    /// At which places no value is unknown: `Yes` at these, and else `No`.
    pub fn known(&self) -> Profile
        ensures { AreKnown self.now result }
    {
        let mut known = Profile::of_no();
        for place in 0..64 * self.chunks {
            self.add_known(&mut known, place);
        }
        known
    }

    /// A profile with `Yes` at each place where no value is unknown. Of other places nothing is promised.
    pub fn marks(&self) -> Profile
        ensures { (known : List K3) → AreKnown self.now known → AreWithinMarks known result }
    {
        let mut marks = Profile::of_yes().known_in(&self.nullary);
        for row in self.unary.as_slice() {
            marks = marks.known_in(row);
        }
        marks
    }

    /// Whether the same is said about two individuals: a hint, of which nothing is promised.
    pub fn has_repeats(&self) -> bool {
        let rows = self.unary.as_slice();
        for i in 0..rows.len() {
            if has_row(&rows[..i], &rows[i]) {
                return true;
            }
        }
        false
    }

    /// `Yes` at the slots of summaries, by their values at the places that are known, and else `No`.
    pub fn summaries(&self, known: &Profile) -> Word
        ensures { AreSummaries known.now self.now.unary result }
    {
        let mut slots = Word::of(0, K3::No);
        for row in self.unary.as_slice() {
            slots = marked(slots, row, known);
        }
        slots
    }

    /// False only where no structure that says this at a glance embeds in one that says the other. That it is
    /// true promises nothing.
    pub fn may_embed(&self, above: &Glance) -> bool
        ensures { MayEmbed self.now above.now → IsTrue result }
    {
        let rows = self.unary.as_slice();
        let others = above.unary.as_slice();
        self.nullary.may_lie_under(&above.nullary, self.chunks)
            && may_go_onto(rows, others, self.chunks)
    }

    /// The map that takes each individual to the only one about which more may be said, if there is one alone
    /// for each. That there is none promises nothing.
    pub fn only_map(&self, alloc: Global, above: &Glance) -> Result<Option<Numbers>, AllocError>
        ensures { IfOk result (λ found. IfSome found (IsOnlyMap self.now above.now)) }
    {
        let rows = self.unary.as_slice();
        let others = above.unary.as_slice();
        only_images(alloc, rows, others, self.chunks)
    }

    /// A number that depends on the values at the places that are known, individual by individual, but
    /// neither on the order of individuals nor on how many have equal values.
    pub fn number(&self, known: &Profile) -> u64
        ensures { result ≡ glance_number known.now self.now }
    {
        let mut slots = Row::of(256, K3::No);
        let mut greatest = 0;
        for row in self.unary.as_slice() {
            let number = row.number(known);
            slots.set((number % 251) as u32, K3::Yes);
            greatest = larger(greatest, number);
        }
        mix(slots.mix(self.nullary.number(known)), greatest)
    }
}
