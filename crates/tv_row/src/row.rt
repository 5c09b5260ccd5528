//! Up to 256 truth values by value: those of the individuals of a structure.

ghost use Rattle.std.specs.Prelude.{◌≡◌, ◌≢◌, ℕ, ◌<◌, ◌≤◌, ◌↔◌, ◌⊎◌, ◌+◌, ◌-◌, ◌*◌, ◌/◌, ◌%◌, ◌^◌, min};
ghost use Rattle.std.specs.Prelude.{length, map, replicate, take, slice_index_or, slice_set, All, Any, ◌∷◌};
ghost use Rattle.std.specs.Prelude.{[], IsTrue, IfSome};
ghost use Rattle.tv_kleene.specs.declared.K3.{K3};
ghost use Rattle.tv_kleene.specs.declared.K3.TheVariants.{No, Yes};
ghost use Rattle.tv_kleene.specs.Kleene.{smaller_of, larger_of, join_of, negation_of};
ghost use Rattle.std.specs.Cmp.Lexicographic.{slice_cmp};
ghost use Rattle.tv_row.specs.Firsts.{IsFirstFrom};
ghost use Rattle.tv_row.specs.Bits.{paired, padded, IsPairing, greatest_in, least_in, value_cmp};
ghost use Rattle.tv_row.specs.Mixed.{row_mixed};
ghost use Rattle.tv_row.specs.RowForm.{HoldsRow};
ghost use Rattle.tv_row.specs.Places.{AreWords, word_at, value_in, row_of};

use crate::drawing::Drawing;
use crate::mixed::mix_words;
use crate::slices;
use crate::word::Word;
use std::cmp::Ordering;
use std::marker::Model;
use tv_kleene::K3;

/// Up to 256 truth values, seen by contracts as their list.
#[derive(Clone, Copy, Debug)]
pub struct Row {
    words: [Word; 4],
    size: u32,
}

impl Model for Row {
    ghost use Rattle.std.specs.Prelude.{List, length};
    ghost use Rattle.tv_kleene.specs.declared.K3.{K3};
    ghost use Rattle.tv_row.specs.Places.{row_of};
    ghost use Rattle.tv_row.specs.RowForm.{HoldsRow, row_words};

    ghost Value = { List K3 };

    ghost view = { λ r. row_of r.words r.size 0 };

    ghost invariant = { λ r. HoldsRow r.words r.size };

    ghost inverse = { λ values. record { words = row_words values; size = length values } };

    ghost use Rattle.tv_row.specs.RowLaws.{row_back};

    ghost inverse_ok = { row_back };
}

/// How many of the first `size` places lie in the word `p`.
fn places_in(size: u32, p: u32) -> u32
    requires { p < 4 }
    ensures { result ≡ min 64 (size - 64 * p) }
{
    size.saturating_sub(64 * p).min(64)
}

/// One word, and three of `No` behind it.
#[inline(always)]
fn alone(word: Word) -> [Word; 4]
    ensures { result ≡ word ∷ replicate 3 (padded 0 (replicate 64 No)) }
{
    let none = Word::of(0, K3::No);
    [word, none, none, none]
}

/// The place of a row as a number of 32 bits.
fn as_place(found: Option<usize>) -> Option<u32>
    requires { IfSome found (λ u. u < 2 ^ 32) }
    ensures { result ≡ found }
{
    match found {
        Some(u) => Some(u as u32),
        None => None,
    }
}

impl Row {
    /// `size` values, each of them `k`.
    #[inline(always)]
    pub fn of(size: u32, k: K3) -> Row
        requires { size ≤ 256 }
        ensures { result ≡ replicate size k }
    {
        if size <= 64 {
            return Row {
                words: alone(Word::of(size, k)),
                size,
            };
        }
        Row::of_more(size, k)
    }

    /// `size` values, each of them `k`, made word by word.
    fn of_more(size: u32, k: K3) -> Row
        requires { size ≤ 256 }
        ensures { result ≡ replicate size k }
    {
        let mut words = [Word::of(0, K3::No); 4];
        for p in 0..size.div_ceil(64) {
            words[p as usize] = Word::of(places_in(size, p), k);
        }
        Row { words, size }
    }

    /// The row of `size` values that four words hold.
    #[inline(always)]
    pub(crate) fn held(words: [Word; 4], size: u32) -> Row
        requires { HoldsRow words size }
        ensures { result ≡ row_of words size 0 }
    {
        Row { words, size }
    }

    /// The row of the first `size` values of one word.
    #[inline(always)]
    pub(crate) fn alone(word: Word, size: u32) -> Row
        requires size { (0 < size) × (size ≤ 64) }
        requires long { length word ≡ 64 }
        requires unused { (c : ℕ) → size ≤ c → c < 64 → slice_index_or word c No ≡ No }
        ensures { result ≡ row_of (word ∷ []) size 0 }
    {
        Row {
            words: alone(word),
            size,
        }
    }

    /// The number of values, at most 256.
    #[inline(always)]
    pub fn size(&self) -> u32
        ensures size { result ≡ length self.now }
        ensures bound { length self.now ≤ 256 }
    {
        self.size
    }

    /// The value at the place `u`.
    #[inline(always)]
    pub fn get(&self, u: u32) -> K3
        requires { u < length self.now }
        ensures { result ≡ slice_index_or self.now u No }
    {
        slices::get(&self.words[..], 0, u as usize)
    }

    /// Puts `k` at the place `u`, and changes nothing else.
    #[inline(always)]
    pub fn set(&mut self, u: u32, k: K3)
        requires { u < length self.old }
        ensures { self.new ≡ slice_set self.old u k }
    {
        slices::put(&mut self.words[..], 0, u as usize, k);
    }

    /// The values from the place `64 * chunk` on, as many as there are, at most 64. What stands behind them
    /// isn't told.
    #[inline(always)]
    pub fn word(&self, chunk: u32) -> Word
        requires { chunk < 4 }
        ensures values { (i : ℕ) → i < 64 → 64 * chunk + i < length self.now
            → slice_index_or result i No ≡ slice_index_or self.now (64 * chunk + i) No }
        ensures long { length result ≡ 64 }
    {
        self.words[chunk as usize]
    }

    /// The values from the place `64 * chunk` on, and `No` where there are none.
    #[inline(always)]
    pub(crate) fn whole_word(&self, chunk: u32) -> Word
        requires { chunk < 4 }
        ensures values { (i : ℕ) → i < 64
            → slice_index_or result i No ≡ slice_index_or self.now (64 * chunk + i) No }
        ensures long { length result ≡ 64 }
    {
        self.words[chunk as usize]
    }

    /// Puts the word's values from the place `64 * chunk` on, as many as there are places, at most 64, and
    /// changes nothing else.
    #[inline(always)]
    pub fn put_word(&mut self, chunk: u32, word: Word)
        requires { 64 * chunk < length self.old }
        ensures size { length self.new ≡ length self.old }
        ensures values { (i : ℕ) → i < 64 → 64 * chunk + i < length self.old
            → slice_index_or self.new (64 * chunk + i) No ≡ slice_index_or word i No }
        ensures others { (u : ℕ) → (u < 64 * chunk) ⊎ (64 * chunk + 64 ≤ u)
            → slice_index_or self.new u No ≡ slice_index_or self.old u No }
    {
        let count = places_in(self.size, chunk);
        self.words[chunk as usize] = Word::of(0, K3::No).with_run(0, word, 0, count);
    }

    /// The values at the first `size` places.
    #[inline(always)]
    pub fn first(&self, size: u32) -> Row
        requires { size ≤ length self.now }
        ensures { result ≡ take size self.now }
    {
        if size <= 64 {
            return Row {
                words: alone(self.words[0].first(size)),
                size,
            };
        }
        self.first_more(size)
    }

    /// The values at the first `size` places, word by word.
    fn first_more(&self, size: u32) -> Row
        requires { size ≤ length self.now }
        ensures { result ≡ take size self.now }
    {
        if size >= self.size {
            return *self;
        }
        let mut words = [Word::of(0, K3::No); 4];
        for p in 0..size.div_ceil(64) {
            words[p as usize] = self.words[p as usize].first(places_in(size, p));
        }
        Row { words, size }
    }

    /// The values at the origins, and `No` for an origin past the end.
    pub fn drawn(&self, drawing: &Drawing) -> Row
        requires { drawing.now.columns ≡ length self.now }
        ensures { result ≡ map (λ origin. slice_index_or self.now origin No) drawing.now.origins }
    {
        let size = drawing.origins().len() as u32;
        let mut words = [Word::of(0, K3::No); 4];
        slices::draw(&mut words[..], 4, 0, &self.words[..], 0, drawing);
        Row { words, size }
    }

    /// Each value negated.
    #[inline(always)]
    pub fn not(&self) -> Row
        ensures { result ≡ map negation_of self.now }
    {
        if self.size <= 64 {
            return Row {
                words: alone(self.words[0].not(self.size)),
                size: self.size,
            };
        }
        self.not_more()
    }

    /// Each value negated, word by word.
    fn not_more(&self) -> Row
        ensures { result ≡ map negation_of self.now }
    {
        let mut words = [Word::of(0, K3::No); 4];
        for p in 0..self.size.div_ceil(64) {
            words[p as usize] = self.words[p as usize].not(places_in(self.size, p));
        }
        Row {
            words,
            size: self.size,
        }
    }

    /// The smaller of each value and `k`.
    #[inline(always)]
    pub fn capped(&self, k: K3) -> Row
        ensures { result ≡ map (smaller_of k) self.now }
    {
        Row {
            words: [
                self.words[0].capped(k),
                self.words[1].capped(k),
                self.words[2].capped(k),
                self.words[3].capped(k),
            ],
            size: self.size,
        }
    }

    /// The values of both rows under an operation on words.
    #[inline(always)]
    fn word_by_word<F: Fn(Word, Word) -> Word>(&self, other: &Row, op: F) -> Row
        requires callable { F.IsAlwaysCallable op }
        requires lengths { length self.now ≡ length other.now }
        requires pairing { (value : K3 → K3 → K3) × IsPairing value (F.post op) }
        ensures { (value : K3 → K3 → K3) → IsPairing value (F.post op)
            → result ≡ paired value self.now other.now }
    {
        Row {
            words: [
                op(self.words[0], other.words[0]),
                op(self.words[1], other.words[1]),
                op(self.words[2], other.words[2]),
                op(self.words[3], other.words[3]),
            ],
            size: self.size,
        }
    }

    /// The conjunction, place by place.
    #[inline(always)]
    pub fn and(&self, other: &Row) -> Row
        requires { length self.now ≡ length other.now }
        ensures { result ≡ paired smaller_of self.now other.now }
    {
        self.word_by_word(other, Word::and)
    }

    /// The disjunction, place by place.
    #[inline(always)]
    pub fn or(&self, other: &Row) -> Row
        requires { length self.now ≡ length other.now }
        ensures { result ≡ paired larger_of self.now other.now }
    {
        self.word_by_word(other, Word::or)
    }

    /// The join in the order of information, place by place.
    #[inline(always)]
    pub fn join(&self, other: &Row) -> Row
        requires { length self.now ≡ length other.now }
        ensures { result ≡ paired join_of self.now other.now }
    {
        self.word_by_word(other, Word::join)
    }

    /// The greatest value in the order of truth, `No` where there is none.
    #[inline(always)]
    pub fn greatest(&self) -> K3
        ensures { result ≡ greatest_in self.now }
    {
        if self.size <= 64 {
            return self.words[0].greatest();
        }
        slices::greatest(&self.words[..], self.size.div_ceil(64) as usize, 0)
    }

    /// The least value in the order of truth, `Yes` where there is none.
    #[inline(always)]
    pub fn least(&self) -> K3
        ensures { result ≡ least_in self.now }
    {
        if self.size <= 64 {
            return self.words[0].least(self.size);
        }
        self.not_more().greatest().not()
    }

    /// Whether some value is `Yes`.
    #[inline(always)]
    pub fn has_yes(&self) -> bool
        ensures { IsTrue result ↔ Any (λ x. x ≡ Yes) self.now }
    {
        self.greatest() == K3::Yes
    }

    /// Whether some value isn't `No`.
    #[inline(always)]
    pub fn has_possible(&self) -> bool
        ensures { IsTrue result ↔ Any (λ x. x ≢ No) self.now }
    {
        self.greatest() != K3::No
    }

    /// Whether each value is `Yes`.
    #[inline(always)]
    pub fn are_yes(&self) -> bool
        ensures { IsTrue result ↔ All (λ x. x ≡ Yes) self.now }
    {
        self.least() == K3::Yes
    }

    /// Whether no value is `No`.
    #[inline(always)]
    pub fn are_possible(&self) -> bool
        ensures { IsTrue result ↔ All (λ x. x ≢ No) self.now }
    {
        self.least() != K3::No
    }

    /// The first place at or after `from` whose value is `Yes`.
    #[inline(always)]
    pub fn next_yes(&self, from: u32) -> Option<u32>
        requires { from ≤ length self.now }
        ensures { IsFirstFrom (λ u. slice_index_or self.now u No ≡ Yes)
            (λ u. slice_index_or self.now u No ≢ Yes)
            from (length self.now) result }
    {
        if self.size <= 64 {
            return self.words[0].first_yes(from);
        }
        let width = self.size.div_ceil(64) as usize;
        as_place(slices::next_yes(&self.words[..], width, 0, from as usize))
    }

    /// The first place at or after `from` whose value isn't `No`.
    #[inline(always)]
    pub fn next_possible(&self, from: u32) -> Option<u32>
        requires { from ≤ length self.now }
        ensures { IsFirstFrom (λ u. slice_index_or self.now u No ≢ No)
            (λ u. slice_index_or self.now u No ≡ No)
            from (length self.now) result }
    {
        if self.size <= 64 {
            return self.words[0].first_possible(from);
        }
        let width = self.size.div_ceil(64) as usize;
        as_place(slices::next_possible(&self.words[..], width, 0, from as usize))
    }

    /// Compares the values, place by place, with No < Half < Yes.
    #[inline(always)]
    pub fn compare(&self, other: &Row) -> Ordering
        requires { length self.now ≡ length other.now }
        ensures { result ≡ slice_cmp value_cmp self.now other.now }
    {
        if self.size <= 64 {
            return self.words[0].compare(other.words[0]);
        }
        let used = self.size.div_ceil(64) as usize;
        slices::compare(&self.words[..used], &other.words[..used])
    }

    /// Whether both rows have the same values.
    #[inline(always)]
    pub fn equals(&self, other: &Row) -> bool
        ensures { IsTrue result ↔ (self.now ≡ other.now) }
    {
        if self.size() != other.size() {
            return false;
        }
        match self.compare(other) {
            Ordering::Equal => true,
            _ => false,
        }
    }

    /// The number with the values mixed in, word by word.
    pub fn mix(&self, hash: u64) -> u64
        ensures { result ≡ row_mixed hash self.now }
    {
        let used = self.size.div_ceil(64) as usize;
        mix_words(hash, &self.words[..used])
    }
}
