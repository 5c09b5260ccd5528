//! A list of words of truth values of which only the first are used, several side by side in one word.

ghost use Rattle.std.specs.List.{range_with_len};
ghost use Rattle.std.specs.Prelude.{◌≡◌, ℕ, ◌+◌, ◌*◌, ◌/◌, ◌%◌, ◌^◌, min, map, ◌<◌, ◌≤◌, ◌⊎◌, length};
ghost use Rattle.std.specs.Prelude.{slice_index_or, slice_set, replicate, fold, IfOk, ◌≢◌};
ghost use Rattle.tv_kleene.specs.declared.K3.TheVariants.{No};
ghost use Rattle.std.specs.Cmp.Lexicographic.{slice_cmp};
ghost use Rattle.tv_row.specs.Bits.{value_cmp};
ghost use Rattle.tv_row.specs.Drawing.{drawn_from, all_and_next};
ghost use Rattle.tv_row.specs.Mixed.{word_mixed};
ghost use Rattle.tv_row.specs.Packed.{PackedForm, FillsWord, cells_for, packed};
ghost use Rattle.tv_row.specs.Places.{AreWords, word_at, value_in, with_value, row_of};

use crate::drawing::Drawing;
use crate::mixed::mix_words;
use crate::row::Row;
use crate::slices;
use crate::word::Word;
use std::alloc::{AllocError, Global};
use std::cmp::Ordering;
use std::marker::Model;
use tv_kleene::K3;

/// A list of words of which only the first values are used, as many as the rows of a small structure have;
/// all others are `No`. Rows of one value, or of four, take that much room and no more.
#[derive(Debug, Drop)]
pub struct PackedWords {
    items: Vec<Word>,
    count: usize,
    cells: u32,
}

impl Model for PackedWords {
    ghost use Rattle.tv_row.specs.Packed.{PackedForm, HoldsPacked, unpacked};

    ghost Value = { PackedForm };

    ghost view = { λ w. record { cells = w.cells; words = unpacked w.items.items w.cells w.count } };

    ghost invariant = { λ w. HoldsPacked w.items.items w.cells w.count };
}

/// How many values of a word are used for rows of that many values: all of them, or the least number that is
/// a power of two and that a row fits.
fn cells_for(columns: u32) -> u32
    ensures { result ≡ cells_for columns }
{
    if columns <= 1 {
        1
    } else if columns <= 2 {
        2
    } else if columns <= 4 {
        4
    } else if columns <= 8 {
        8
    } else if columns <= 16 {
        16
    } else if columns <= 32 {
        32
    } else {
        64
    }
}

impl PackedWords {
    /// That many words that are `No` everywhere, for rows of that many values.
    pub fn of_no(alloc: Global, columns: u32, count: usize) -> Result<PackedWords, AllocError>
        requires { count ≤ 2 ^ 48 }
        ensures { IfOk result
            (λ w. w ≡ record { cells = cells_for columns; words = replicate count (replicate 64 No) }) }
    {
        let cells = cells_for(columns);
        let kept = (count * cells as usize).div_ceil(64);
        Ok(PackedWords {
            items: vec![in alloc; Word::of(0, K3::No); kept]?,
            count,
            cells,
        })
    }

    /// Equal words in memory of their own.
    pub fn copied(&self, alloc: Global) -> Result<PackedWords, AllocError>
        ensures { IfOk result (λ w. w ≡ self.now) }
    {
        Ok(PackedWords {
            items: Vec::from_slice(alloc, self.items.as_slice())?,
            count: self.count,
            cells: self.cells,
        })
    }

    /// Compares word by word.
    pub fn compare(&self, other: &PackedWords) -> Ordering
        requires cells { self.now.cells ≡ other.now.cells }
        requires count { length self.now.words ≡ length other.now.words }
        ensures value { result ≡ slice_cmp (slice_cmp value_cmp) self.now.words other.now.words }
        ensures words { AreWords self.now.words × AreWords other.now.words }
    {
        slices::compare(&self.items, &other.items)
    }

    /// The number with the words mixed in as they are packed, one after the other.
    pub fn mix(&self, hash: u64) -> u64
        ensures value { result ≡ fold word_mixed hash (packed self.now) }
        ensures words { AreWords self.now.words }
    {
        mix_words(hash, &self.items)
    }

    /// The number of words.
    fn len(&self) -> usize
        ensures value { result ≡ length self.now.words }
        ensures small { result ≤ 2 ^ 48 }
        ensures cells { self.now.cells ≤ 64 }
        ensures words { AreWords self.now.words }
    {
        self.count
    }

    /// Where the value in a column of the row that begins at word `start` stands.
    #[inline(always)]
    fn place(&self, start: usize, column: usize) -> usize
        requires word { start + column / 64 < length self.now.words }
        requires room { column % 64 < self.now.cells }
        ensures { result ≡ (start + column / 64) * self.now.cells + column % 64 }
    {
        let cells = self.cells as usize;
        (start + column / 64) * cells + column % 64
    }

    /// The value in a column of the row that begins at word `start`.
    #[inline(always)]
    pub fn get(&self, start: usize, column: usize) -> K3
        requires word { start + column / 64 < length self.now.words }
        requires room { column % 64 < self.now.cells }
        ensures { result ≡ value_in self.now.words start column }
    {
        let at = self.place(start, column);
        slices::get(&self.items, 0, at)
    }

    /// Puts `k` into a column of the row that begins at word `start`.
    #[inline(always)]
    pub fn put(&mut self, start: usize, column: usize, k: K3)
        requires word { start + column / 64 < length self.old.words }
        requires room { column % 64 < self.old.cells }
        ensures value { self.new ≡ record self.old { words = with_value self.old.words start column k } }
        ensures words { AreWords self.old.words }
    {
        let at = self.place(start, column);
        let i = at / 64;
        self.items[i] = self.items[i].with((at % 64) as u32, k);
    }

    /// The word at a place.
    #[inline(always)]
    pub(crate) fn word(&self, place: usize) -> Word
        requires { place < length self.now.words }
        ensures value { result ≡ word_at self.now.words place }
        ensures long { length result ≡ 64 }
    {
        let start = place * self.cells as usize;
        self.items[start / 64]
            .from((start % 64) as u32)
            .first(self.cells)
    }

    /// The values of the word at a place that are used. What stands behind them isn't told.
    #[inline(always)]
    pub fn front(&self, place: usize) -> Word
        requires { place < length self.now.words }
        ensures values { (i : ℕ) → i < self.now.cells
            → slice_index_or result i No ≡ slice_index_or (word_at self.now.words place) i No }
        ensures long { length result ≡ 64 }
    {
        let at = place * self.cells as usize;
        self.items[at / 64].from((at % 64) as u32)
    }

    /// Puts a word at a place, and changes no other.
    #[inline(always)]
    fn put_word(&mut self, place: usize, word: Word)
        requires place { place < length self.old.words }
        requires unused { (c : ℕ) → self.old.cells ≤ c → c < 64 → slice_index_or word c No ≡ No }
        requires long { length word ≡ 64 }
        ensures { self.new ≡ record self.old { words = slice_set self.old.words place word } }
    {
        let at = place * self.cells as usize;
        let i = at / 64;
        self.items[i] = self.items[i].with_run((at % 64) as u32, word, 0, self.cells);
    }

    /// The row of `size` values that begins at word `start`.
    #[inline(always)]
    pub fn row(&self, start: usize, size: u32) -> Row
        requires size { size ≤ 256 }
        requires room { (self.now.cells ≡ 64) ⊎ (size ≤ 64) }
        requires words { start + (size / 64 + min 1 (size % 64)) ≤ length self.now.words }
        requires unused { (c : ℕ) → size ≤ c → c < 64 * (size / 64 + min 1 (size % 64))
            → value_in self.now.words start c ≡ No }
        ensures { result ≡ row_of self.now.words size start }
    {
        if size == 0 {
            return Row::of(0, K3::No);
        }
        if size <= 64 {
            return Row::alone(self.word(start), size);
        }
        self.row_more(start, size)
    }

    /// The row of `size` values that begins at word `start`, read word by word.
    #[inline(never)]
    fn row_more(&self, start: usize, size: u32) -> Row
        requires size { size ≤ 256 }
        requires room { self.now.cells ≡ 64 }
        requires words { start + (size / 64 + min 1 (size % 64)) ≤ length self.now.words }
        requires unused { (c : ℕ) → size ≤ c → c < 64 * (size / 64 + min 1 (size % 64))
            → value_in self.now.words start c ≡ No }
        ensures { result ≡ row_of self.now.words size start }
    {
        let _ = self.len();
        let mut held = [Word::of(0, K3::No); 4];
        for p in 0..size.div_ceil(64) as usize {
            held[p] = self.whole(start + p);
        }
        Row::held(held, size)
    }

    /// The word at a place, where no word shares another.
    #[inline(always)]
    fn whole(&self, place: usize) -> Word
        requires place { place < length self.now.words }
        requires room { self.now.cells ≡ 64 }
        ensures { result ≡ word_at self.now.words place }
    {
        self.items[place]
    }

    /// Draws the word at a place from one of another list, and changes no other.
    pub fn draw(&mut self, place: usize, source: &PackedWords, from: usize, drawing: &Drawing)
        requires place { place < length self.old.words }
        requires from { from < length source.now.words }
        requires room { length drawing.now.origins ≤ self.old.cells }
        requires columns { drawing.now.columns ≤ source.now.cells }
        ensures cells { self.new.cells ≡ self.old.cells }
        ensures values { (c : ℕ) → c < 64 → value_in self.new.words place c
            ≡ drawn_from (value_in source.now.words from) drawing.now c }
        ensures others { (p : ℕ) → p ≢ place → word_at self.new.words p ≡ word_at self.old.words p }
        ensures length { length self.new.words ≡ length self.old.words }
    {
        let _ = (self.len(), source.len());
        let word = source.front(from).drawn(drawing);
        self.put_word(place, word);
    }

    /// Draws the word at a place from the first `columns` values of one of another list, and one more that is
    /// `No`, and changes no other.
    pub fn extend(&mut self, place: usize, source: &PackedWords, from: usize, columns: u32)
        requires place { place < length self.old.words }
        requires from { from < length source.now.words }
        requires room { columns < self.old.cells }
        requires columns { columns ≤ source.now.cells }
        ensures cells { self.new.cells ≡ self.old.cells }
        ensures values { (c : ℕ) → c < 64 → value_in self.new.words place c
            ≡ drawn_from (value_in source.now.words from) (all_and_next columns) c }
        ensures others { (p : ℕ) → p ≢ place → word_at self.new.words p ≡ word_at self.old.words p }
        ensures length { length self.new.words ≡ length self.old.words }
    {
        let _ = (self.len(), source.len());
        let word = source.front(from).first(columns);
        self.put_word(place, word);
    }

    /// Puts the row's values into the words from `start` on, and `No` behind them in the last.
    pub fn put_row(&mut self, start: usize, row: &Row)
        requires words { start + (length row.now / 64 + min 1 (length row.now % 64)) ≤ length self.old.words }
        requires room { (self.old.cells ≡ 64) ⊎ (length row.now ≤ self.old.cells) }
        ensures cells { self.new.cells ≡ self.old.cells }
        ensures values { (c : ℕ) → c < 64 * (length row.now / 64 + min 1 (length row.now % 64))
            → value_in self.new.words start c ≡ slice_index_or row.now c No }
        ensures others { (p : ℕ)
            → (p < start) ⊎ (start + (length row.now / 64 + min 1 (length row.now % 64)) ≤ p)
            → word_at self.new.words p ≡ word_at self.old.words p }
        ensures length { length self.new.words ≡ length self.old.words }
    {
        let _ = self.len();
        let size = row.size();
        for p in 0..size.div_ceil(64) {
            self.put_word(start + p as usize, row.whole_word(p));
        }
    }

    /// The word with each value one place nearer to the front, and last the value in a column of the row that
    /// begins at word `start`.
    #[inline(always)]
    fn pushed_cell(&self, word: Word, start: usize, column: usize) -> Word
        requires word { start + column / 64 < length self.now.words }
        requires room { column % 64 < self.now.cells }
        ensures last { slice_index_or result 63 No ≡ value_in self.now.words start column }
        ensures moved { (i : ℕ) → i < 63 → slice_index_or result i No ≡ slice_index_or word (1 + i) No }
        ensures long { length result ≡ 64 }
    {
        let at = self.place(start, column);
        word.from(1)
            .with_run(63, self.items[at / 64], (at % 64) as u32, 1)
    }

    /// The values in a column of that many rows of `width` words, at most 64, the first of which begins at
    /// `start`. What stands behind them isn't told.
    pub fn column_word(&self, width: usize, start: usize, rows: u32, column: usize) -> Word
        requires some { 0 < rows }
        requires rows { rows ≤ 64 }
        requires width { width ≤ 4 }
        requires words { start + rows * width ≤ length self.now.words }
        requires column { column < 64 * width }
        requires room { column % 64 < self.now.cells }
        ensures values { (u : ℕ) → u < rows
            → slice_index_or result u No ≡ value_in self.now.words (start + u * width) column }
        ensures long { length result ≡ 64 }
    {
        let _ = self.len();
        let mut word = Word::of(0, K3::No);
        for u in 0..rows {
            word = self.pushed_cell(word, start + u as usize * width, column);
        }
        word.from(64 - rows)
    }

    /// The values in a column of that many rows of `width` words, the first of which begins at `start`.
    pub fn column(&self, width: usize, start: usize, rows: u32, column: usize) -> Row
        requires rows { rows ≤ 256 }
        requires width { width ≤ 4 }
        requires words { start + rows * width ≤ length self.now.words }
        requires column { column < 64 * width }
        requires room { column % 64 < self.now.cells }
        ensures { result
            ≡ map (λ u. value_in self.now.words (start + u * width) column) (range_with_len 0 rows) }
    {
        if 0 < rows && rows <= 64 {
            let word = self.column_word(width, start, rows, column);
            return Row::alone(word.first(rows), rows);
        }
        self.column_more(width, start, rows, column)
    }

    /// The values in a column of that many rows of `width` words from word `start` on, read one by one.
    #[inline(never)]
    fn column_more(&self, width: usize, start: usize, rows: u32, column: usize) -> Row
        requires rows { rows ≤ 256 }
        requires width { width ≤ 4 }
        requires words { start + rows * width ≤ length self.now.words }
        requires column { column < 64 * width }
        requires room { column % 64 < self.now.cells }
        ensures { result
            ≡ map (λ u. value_in self.now.words (start + u * width) column) (range_with_len 0 rows) }
    {
        let _ = self.len();
        let mut values = Row::of(rows, K3::No);
        for u in 0..rows {
            values.set(u, self.get(start + u as usize * width, column));
        }
        values
    }
}
