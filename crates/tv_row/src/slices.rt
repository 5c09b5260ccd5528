//! Rows of truth values in a slice of words.

ghost use Rattle.std.specs.Prelude.{◌≡◌, ◌≢◌, ℕ, ◌+◌, ◌*◌, ◌/◌, ◌%◌, ◌<◌, ◌≤◌, ◌⊎◌, length, map};
ghost use Rattle.std.specs.List.{range_with_len};
ghost use Rattle.tv_kleene.specs.declared.K3.TheVariants.{No, Yes};
ghost use Rattle.std.specs.Cmp.Lexicographic.{slice_cmp};
ghost use Rattle.tv_row.specs.Firsts.{IsFirstFrom};
ghost use Rattle.tv_row.specs.Bits.{value_cmp, greatest_in};
ghost use Rattle.tv_row.specs.Drawing.{run_over, drawn_from};
ghost use Rattle.tv_row.specs.Places.{AreWords, word_at, value_in, with_value, row_of};

use crate::drawing::{Drawing, Run};
use crate::row::Row;
use crate::word::Word;
use std::cmp::Ordering;
use tv_kleene::K3;

/// The value in a column of the row that begins at word `start`.
#[inline(always)]
pub fn get(words: &[Word], start: usize, column: usize) -> K3
    requires { start + column / 64 < length words.now }
    ensures { result ≡ value_in words.now start column }
{
    words[start + column / 64].get((column % 64) as u32)
}

/// Puts `k` into a column of the row that begins at word `start`.
#[inline(always)]
pub fn put(words: &mut [Word], start: usize, column: usize, k: K3)
    requires { start + column / 64 < length words.old }
    ensures { words.new ≡ with_value words.old start column k }
{
    let at = start + column / 64;
    words[at] = words[at].with((column % 64) as u32, k);
}

/// Makes the row of `width` words that begins at `at` `No` everywhere.
fn clear(words: &mut [Word], width: usize, at: usize)
    requires { at + width ≤ length words.old }
    ensures row { (c : ℕ) → c < 64 * width → value_in words.new at c ≡ No }
    ensures others { (p : ℕ) → (p < at) ⊎ (at + width ≤ p) → word_at words.new p ≡ word_at words.old p }
    ensures long { AreWords words.old → AreWords words.new }
    ensures length { length words.new ≡ length words.old }
{
    for w in 0..width {
        words[at + w] = Word::of(0, K3::No);
    }
}

/// Gives the columns of the run, in the row that begins at `at`, the values of another list's row.
fn draw_run(words: &mut [Word], at: usize, source: &[Word], from: usize, run: Run)
    requires some { 0 < run.count }
    requires to { run.to % 64 + run.count ≤ 64 }
    requires from { run.from % 64 + run.count ≤ 64 }
    requires row { at + run.to / 64 < length words.old }
    requires source { from + run.from / 64 < length source.now }
    ensures values { (c : ℕ)
        → value_in words.new at c ≡ run_over (value_in source.now from) c (value_in words.old at c) run }
    ensures others { (p : ℕ) → p ≢ at + run.to / 64 → word_at words.new p ≡ word_at words.old p }
    ensures long { AreWords words.old → AreWords words.new }
    ensures length { length words.new ≡ length words.old }
{
    let taken = source[from + run.from as usize / 64];
    let place = at + run.to as usize / 64;
    words[place] = words[place].with_run(run.to % 64, taken, run.from % 64, run.count);
}

/// Draws the row of `width` words that begins at `at` from another list's row.
pub fn draw(
    words: &mut [Word],
    width: usize,
    at: usize,
    source: &[Word],
    from: usize,
    drawing: &Drawing,
)
    requires row { at + width ≤ length words.old }
    requires room { length drawing.now.origins ≤ 64 * width }
    requires source { (c : ℕ) → c < drawing.now.columns → from + c / 64 < length source.now }
    ensures values { (c : ℕ) → c < 64 * width
        → value_in words.new at c ≡ drawn_from (value_in source.now from) drawing.now c }
    ensures others { (p : ℕ) → (p < at) ⊎ (at + width ≤ p) → word_at words.new p ≡ word_at words.old p }
    ensures long { AreWords words.old → AreWords words.new }
    ensures length { length words.new ≡ length words.old }
{
    clear(words, width, at);
    let runs = drawing.runs();
    for run in runs {
        draw_run(words, at, source, from, *run);
    }
}

/// Compares word by word.
pub fn compare(words: &[Word], others: &[Word]) -> Ordering
    requires { length words.now ≡ length others.now }
    ensures { result ≡ slice_cmp (slice_cmp value_cmp) words.now others.now }
{
    for i in 0..words.len() {
        let order = words[i].compare(others[i]);
        if order != Ordering::Equal {
            return order;
        }
    }
    Ordering::Equal
}

/// The greatest value of the row of `width` words that begins at `start`.
pub fn greatest(words: &[Word], width: usize, start: usize) -> K3
    requires words { AreWords words.now }
    requires row { start + width ≤ length words.now }
    ensures { result ≡ greatest_in (row_of words.now (64 * width) start) }
{
    let mut k = K3::No;
    for w in 0..width {
        k = k.or(words[start + w].greatest());
    }
    k
}

/// The first column at or after `from` of the row of `width` words at `start` that is `Yes`.
pub fn next_yes(words: &[Word], width: usize, start: usize, from: usize) -> Option<usize>
    requires words { start + width ≤ length words.now }
    requires width { width ≤ 4 }
    requires from { from ≤ 64 * width }
    ensures { IsFirstFrom (λ c. value_in words.now start c ≡ Yes) (λ c. value_in words.now start c ≢ Yes)
        from (64 * width) result }
{
    let mut at = from;
    while at < 64 * width {
        match words[start + at / 64].first_yes((at % 64) as u32) {
            Some(bit) => return Some(at / 64 * 64 + bit as usize),
            None => at = (at / 64 + 1) * 64,
        }
    }
    None
}

/// The first column at or after `from` of the row of `width` words at `start` that isn't `No`.
pub fn next_possible(words: &[Word], width: usize, start: usize, from: usize) -> Option<usize>
    requires words { start + width ≤ length words.now }
    requires width { width ≤ 4 }
    requires from { from ≤ 64 * width }
    ensures { IsFirstFrom (λ c. value_in words.now start c ≢ No) (λ c. value_in words.now start c ≡ No)
        from (64 * width) result }
{
    let mut at = from;
    while at < 64 * width {
        match words[start + at / 64].first_possible((at % 64) as u32) {
            Some(bit) => return Some(at / 64 * 64 + bit as usize),
            None => at = (at / 64 + 1) * 64,
        }
    }
    None
}
