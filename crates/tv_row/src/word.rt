//! Sixty-four truth values in two words.

ghost use Rattle.std.specs.Prelude.{◌≡◌, ◌≢◌, ℕ, ◌+◌, ◌<◌, ◌≤◌, ◌⊎◌, length, slice_index_or, slice_set, map};
ghost use Rattle.std.specs.Prelude.{replicate, MatchOption, take};
ghost use Rattle.tv_kleene.specs.declared.K3.TheVariants.{No, Yes};
ghost use Rattle.tv_kleene.specs.Kleene.{smaller_of, larger_of, join_of, negation_of};
ghost use Rattle.std.specs.Cmp.Lexicographic.{slice_cmp};
ghost use Rattle.tv_row.specs.Drawing.{drawn_from};
ghost use Rattle.tv_row.specs.Firsts.{IsFirstFrom};
ghost use Rattle.tv_row.specs.Bits.{value_cmp, value_of, values_of, paired, padded, greatest_in, least_in};
ghost use Rattle.tv_row.specs.Bits.{yes_unless_no, is_possible, is_certain, number_of};

use crate::bits::{first_from, from, has, ones_below, when, with, with_bits};
use crate::drawing::Drawing;
use std::cmp::Ordering;
use std::marker::Model;
use tv_kleene::K3;

/// Sixty-four truth values.
#[derive(Clone, Copy, PartialEq, Eq, Debug)]
#[tactic(auto, using(crate::specs::BitLaws::may_back, crate::specs::BitLaws::must_back))]
pub struct Word {
    may: u64,
    must: u64,
}

impl Model for Word {
    ghost use Rattle.std.specs.Prelude.{List};
    ghost use Rattle.tv_kleene.specs.declared.K3.{K3};
    ghost use Rattle.tv_row.specs.Bits.{values_of, number_of, is_possible, is_certain, IsWord};

    ghost Value = { List K3 };

    ghost view = { λ w. values_of w.may w.must };

    ghost invariant = { λ w. IsWord w.may w.must };

    ghost inverse = { λ values.
        record { may = number_of is_possible values; must = number_of is_certain values } };

    ghost use Rattle.tv_row.specs.WordLaws.{back};

    ghost inverse_ok = { back };
}

/// The value whose bits are given.
#[inline(always)]
pub fn value(may: bool, must: bool) -> K3
    ensures { result ≡ value_of may must }
{
    if !may {
        K3::No
    } else if must {
        K3::Yes
    } else {
        K3::Half
    }
}

#[inline(always)]
pub fn is_possible(k: K3) -> bool
    ensures { result ≡ is_possible k }
{
    k != K3::No
}

#[inline(always)]
pub fn is_certain(k: K3) -> bool
    ensures { result ≡ is_certain k }
{
    k == K3::Yes
}

impl Word {
    /// The first `n` values `k`, and `No` behind them.
    #[inline(always)]
    pub fn of(n: u32, k: K3) -> Word
        requires { n ≤ 64 }
        ensures { result ≡ padded n (replicate 64 k) }
    {
        let ones = ones_below(n);
        Word {
            may: when(is_possible(k), ones),
            must: when(is_certain(k), ones),
        }
    }

    /// `Half` where a bit is set, and `No` elsewhere.
    #[inline(always)]
    pub(crate) fn half(bits: u64) -> Word
        ensures { result ≡ values_of bits 0 }
    {
        Word { may: bits, must: 0 }
    }

    /// The first `n` values negated, and `No` behind them.
    #[inline(always)]
    pub fn not(self, n: u32) -> Word
        requires { n ≤ 64 }
        ensures { result ≡ padded n (map negation_of self) }
    {
        let ones = ones_below(n);
        Word {
            may: !self.must & ones,
            must: !self.may & ones,
        }
    }

    /// The first `n` values, and `No` behind them.
    #[inline(always)]
    pub fn first(self, n: u32) -> Word
        requires { n ≤ 64 }
        ensures { result ≡ padded n self }
    {
        let ones = ones_below(n);
        Word {
            may: self.may & ones,
            must: self.must & ones,
        }
    }

    /// The values from `place` on, at the front. What stands behind them isn't told.
    #[inline(always)]
    pub(crate) fn from(self, place: u32) -> Word
        requires { place < 64 }
        ensures values { (i : ℕ) → place + i < 64
            → slice_index_or result i No ≡ slice_index_or self (place + i) No }
        ensures long { length result ≡ 64 }
    {
        Word {
            may: from(self.may, place),
            must: from(self.must, place),
        }
    }

    /// The lesser of each value and `k`.
    #[inline(always)]
    pub(crate) fn capped(self, k: K3) -> Word
        ensures { result ≡ map (smaller_of k) self }
    {
        match k {
            K3::No => Word { may: 0, must: 0 },
            K3::Half => Word {
                may: self.may,
                must: 0,
            },
            K3::Yes => self,
        }
    }

    /// The greatest value.
    #[inline(always)]
    pub fn greatest(self) -> K3
        ensures { result ≡ greatest_in self }
    {
        if self.must != 0 {
            K3::Yes
        } else if self.may != 0 {
            K3::Half
        } else {
            K3::No
        }
    }

    /// The least of the first `n` values.
    #[inline(always)]
    pub fn least(self, n: u32) -> K3
        requires { n ≤ 64 }
        ensures { result ≡ least_in (take n self) }
    {
        self.not(n).greatest().not()
    }

    /// The place of the first `Yes` at or after `from`.
    #[inline(always)]
    pub(crate) fn first_yes(self, from: u32) -> Option<u32>
        requires { from ≤ 64 }
        ensures { IsFirstFrom (λ j. slice_index_or self j No ≡ Yes) (λ j. slice_index_or self j No ≢ Yes)
            from 64 result }
    {
        first_from(self.must, from)
    }

    /// The place of the first value at or after `from` that isn't `No`.
    #[inline(always)]
    pub fn first_possible(self, from: u32) -> Option<u32>
        requires { from ≤ 64 }
        ensures { IsFirstFrom (λ j. slice_index_or self j No ≢ No) (λ j. slice_index_or self j No ≡ No)
            from 64 result }
    {
        first_from(self.may, from)
    }

    /// The number whose bits say which values aren't `No`, the first value's lowest.
    #[tactic(auto, using(crate::specs::BitLaws::may_back))]
    #[inline(always)]
    pub(crate) fn possible_bits(self) -> u64
        ensures { result ≡ number_of is_possible self }
    {
        self.may
    }

    /// The number whose bits say which values are `Yes`, the first value's lowest.
    #[tactic(auto, using(crate::specs::BitLaws::must_back))]
    #[inline(always)]
    pub(crate) fn certain_bits(self) -> u64
        ensures { result ≡ number_of is_certain self }
    {
        self.must
    }

    /// The value at `i`.
    #[inline(always)]
    pub fn get(self, i: u32) -> K3
        requires { i < 64 }
        ensures { result ≡ slice_index_or self i No }
    {
        value(has(self.may, i), has(self.must, i))
    }

    /// The word with `k` at `i`.
    #[inline(always)]
    pub fn with(self, i: u32, k: K3) -> Word
        requires { i < 64 }
        ensures { result ≡ slice_set self i k }
    {
        Word {
            may: with(self.may, i, is_possible(k)),
            must: with(self.must, i, is_certain(k)),
        }
    }

    /// The word with `count` values from `to` on that are those of another word from `from` on.
    #[inline(always)]
    pub(crate) fn with_run(self, to: u32, other: Word, from: u32, count: u32) -> Word
        requires some { 0 < count }
        requires to { to + count ≤ 64 }
        requires from { from + count ≤ 64 }
        ensures taken { (i : ℕ) → i < count
            → slice_index_or result (to + i) No ≡ slice_index_or other (from + i) No }
        ensures kept { (j : ℕ) → (j < to) ⊎ (to + count ≤ j)
            → slice_index_or result j No ≡ slice_index_or self j No }
        ensures long { length result ≡ 64 }
    {
        Word {
            may: with_bits(self.may, to, other.may, from, count),
            must: with_bits(self.must, to, other.must, from, count),
        }
    }

    /// The values at the origins, and `No` for an origin past the end.
    #[inline(always)]
    pub(crate) fn drawn(self, drawing: &Drawing) -> Word
        requires room { length drawing.now.origins ≤ 64 }
        requires columns { drawing.now.columns ≤ 64 }
        ensures values { (c : ℕ) → c < 64 → slice_index_or result c No
            ≡ drawn_from (λ i. slice_index_or self i No) drawing.now c }
        ensures long { length result ≡ 64 }
    {
        let mut word = Word::of(0, K3::No);
        let runs = drawing.runs();
        for run in runs {
            word = word.with_run(run.to, self, run.from, run.count);
        }
        word
    }

    /// The lesser values.
    #[inline(always)]
    pub fn and(self, other: Word) -> Word
        ensures { result ≡ paired smaller_of self other }
    {
        Word {
            may: self.may & other.may,
            must: self.must & other.must,
        }
    }

    /// The greater values.
    #[inline(always)]
    pub fn or(self, other: Word) -> Word
        ensures { result ≡ paired larger_of self other }
    {
        Word {
            may: self.may | other.may,
            must: self.must | other.must,
        }
    }

    /// The joined values.
    #[inline(always)]
    pub fn join(self, other: Word) -> Word
        ensures { result ≡ paired join_of self other }
    {
        Word {
            may: self.may | other.may,
            must: self.must & other.must,
        }
    }

    /// `Yes` where this is `Yes` and the other isn't `No`, and `No` elsewhere.
    #[inline(always)]
    pub fn unless_no(self, other: Word) -> Word
        ensures { result ≡ paired yes_unless_no self other }
    {
        let bits = self.must & other.may;
        Word {
            may: bits,
            must: bits,
        }
    }

    /// Compares the values, the first that differ.
    #[inline(always)]
    pub fn compare(self, other: Word) -> Ordering
        ensures { result ≡ slice_cmp value_cmp self other }
    {
        let apart = (self.may ^ other.may) | (self.must ^ other.must);
        if apart == 0 {
            return Ordering::Equal;
        }
        let at = apart.trailing_zeros();
        self.get(at).cmp(&other.get(at))
    }
}
