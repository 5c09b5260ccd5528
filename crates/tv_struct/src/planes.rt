//! A table in planes of bits: one list of words for the values of all predicates.

ghost use Rattle.std.specs.Prelude.{ℕ, ◌≡◌, ◌<◌, ◌≤◌, ◌+◌, ◌*◌, length, map, fold, All, IfOk, Some};
ghost use Rattle.std.specs.List.{range_with_len};
ghost use Rattle.std.specs.Prelude.{slice_get};
ghost use Rattle.std.specs.Prelude.{slice_index_or, slice_set};
ghost use Rattle.tv_struct.specs.LayoutForm.{IsLayout};
ghost use Rattle.tv_structure_form.specs.TableForm.{TableForm, IsTable, table_of_no, table_with_row};
ghost use Rattle.tv_structure_form.specs.TableForm.{plane_at};
ghost use Rattle.tv_structure_form.specs.TableForm.{row_in, column_in, row_of, column_of, arities_in};
ghost use Rattle.tv_structure_form.specs.TableForm.{row_count};
ghost use Rattle.tv_structure_form.specs.TableForm.{column_count, selected, plane_drawn, plane_of_no};
ghost use Rattle.std.specs.Prelude.{List, IsTrue};
ghost use Rattle.tv_kleene.specs.declared.K3.TheVariants.{No};
ghost use Rattle.tv_row.specs.Mixed.{word_mixed};
ghost use Rattle.tv_struct.specs.Order.{planes_cmp};
ghost use Rattle.tv_struct.specs.Signature.{table_packed};
ghost use Rattle.tv_struct.specs.TupleForm.{tuple_of};

use crate::layout::{Layout, column_count, row_count};
use crate::table::{Table, Tuple};
use std::alloc::{AllocError, Global};
use std::cmp::Ordering;
use std::marker::Model;
use tv_kleene::K3;
use tv_model::{Pred, PredId};
use tv_row::{Drawing, PackedWords, Row, Word};

/// A table whose values stand in one list of words: one row for a predicate of arity 0 or 1, and a row
/// for each individual for a binary one.
#[derive(Debug, Drop)]
pub struct Planes {
    layout: Layout,
    words: PackedWords,
}

impl Model for Planes {
    ghost use Rattle.tv_structure_form.specs.TableForm.{TableForm};
    ghost use Rattle.tv_struct.specs.LayoutForm.{HoldsPackedTable, table_held};

    ghost Value = { TableForm };

    ghost view = { λ t. table_held t.layout t.words.words };

    ghost invariant = { λ t. HoldsPackedTable t.layout t.words };
}

/// The table of that layout that has `No` everywhere.
fn all_no(alloc: Global, layout: Layout) -> Result<Planes, AllocError>
    requires { IsLayout layout }
    ensures value { IfOk result (λ t. t ≡ table_of_no layout.size layout.arities) }
    ensures kept { IfOk result IsTable }
{
    let words = PackedWords::of_no(alloc, layout.size(), layout.word_count())?;
    Ok(Planes { layout, words })
}

impl Planes {
    /// The table over `size` individuals that has `No` everywhere. More predicates than a number
    /// counts take more memory than there is.
    pub fn of_no(alloc: Global, preds: &[Pred], size: u32) -> Result<Planes, AllocError>
        requires size { size ≤ 256 }
        requires arities { All (λ pred. pred.arity ≤ 2) preds.now }
        ensures value { IfOk result (λ t. t ≡ table_of_no size (map (λ pred. pred.arity) preds.now)) }
        ensures kept { IfOk result IsTable }
    {
        if preds.len() > u32::MAX as usize {
            return Err(AllocError);
        }
        all_no(alloc, Layout::new(alloc, preds, size)?)
    }

    /// The table over `size` individuals and the same predicates that has `No` everywhere.
    pub fn emptied(&self, alloc: Global, size: u32) -> Result<Planes, AllocError>
        requires { size ≤ 256 }
        ensures value { IfOk result (λ t. t ≡ table_of_no size (arities_in self.now.planes)) }
        ensures kept { IfOk result IsTable }
    {
        all_no(alloc, self.layout.resized(size)?)
    }

    /// The number of predicates.
    pub fn pred_count(&self) -> u32
        ensures { result ≡ length (arities_in self.now.planes) }
    {
        self.layout.pred_count()
    }

    /// The arity of the predicate `p`.
    pub fn arity(&self, p: PredId) -> u8
        requires { p.0 < length (arities_in self.now.planes) }
        ensures value { slice_get (arities_in self.now.planes) p.0 ≡ Some result }
        ensures known { result ≤ 2 }
    {
        self.layout.arity(p.0 as usize)
    }

    /// The number of rows of the predicate `p`.
    pub fn row_total(&self, p: PredId) -> u32
        requires { p.0 < length self.now.planes }
        ensures value { result ≡ length (plane_at self.now p.0).rows }
        ensures count { result ≡ row_count self.now.size (plane_at self.now p.0).arity }
    {
        row_count(self.layout.size(), self.layout.arity(p.0 as usize))
    }

    /// The value in a row and a column of the predicate `p`.
    pub fn cell(&self, p: PredId, row: u32, column: u32) -> K3
        requires predicate { p.0 < length self.now.planes }
        requires row { row < length (plane_at self.now p.0).rows }
        requires column { column < length (row_in (plane_at self.now p.0) row) }
        ensures { result ≡ slice_index_or (row_in (plane_at self.now p.0) row) column No }
    {
        let start = self.layout.start(p.0 as usize, row as usize);
        self.words.get(start, column as usize)
    }

    /// The values in a row of the predicate `p` from the column `64 * chunk` on, at most 64. What stands
    /// behind the last column isn't told.
    #[inline(always)]
    pub fn word(&self, p: PredId, row: u32, chunk: u32) -> Word
        requires predicate { p.0 < length self.now.planes }
        requires row { row < length (plane_at self.now p.0).rows }
        requires chunk { 64 * chunk < length (row_in (plane_at self.now p.0) row) }
        ensures long { length result ≡ 64 }
        ensures values { (i : ℕ) → i < 64 → 64 * chunk + i < length (row_in (plane_at self.now p.0) row)
            → slice_index_or result i No
            ≡ slice_index_or (row_in (plane_at self.now p.0) row) (64 * chunk + i) No }
    {
        let start = self.layout.start(p.0 as usize, row as usize);
        self.words.front(start + chunk as usize)
    }

    /// True only where the predicate `p` is unary and `No` at each individual, so that what is drawn from it
    /// is.
    pub fn is_nowhere(&self, p: PredId) -> bool
        requires { p.0 < length self.now.planes }
        ensures { IsTrue result → (origins : List ℕ) → plane_drawn origins (plane_at self.now p.0)
            ≡ plane_of_no (length origins) (plane_at self.now p.0).arity }
    {
        let size = self.size();
        let arity = self.arity(p);
        if arity == 2 || size == 0 || size > 64 {
            return false;
        }
        let columns = column_count(size, arity);
        let word = self.word(p, 0, 0);
        match word.first(columns).greatest() {
            K3::No => true,
            _ => false,
        }
    }

    /// The values in a row of the predicate `p`.
    #[inline(always)]
    pub fn row(&self, p: PredId, row: u32) -> Row
        requires predicate { p.0 < length self.now.planes }
        requires row { row < length (plane_at self.now p.0).rows }
        ensures value { result ≡ row_in (plane_at self.now p.0) row }
        ensures columns { length result ≡ column_count self.now.size (plane_at self.now p.0).arity }
    {
        let pred = p.0 as usize;
        let columns = column_count(self.layout.size(), self.layout.arity(pred));
        self.words
            .row(self.layout.start(pred, row as usize), columns)
    }

    /// The values in a column of the binary predicate `p`.
    pub fn column(&self, p: PredId, column: u32) -> Row
        requires predicate { p.0 < length self.now.planes }
        requires arity { (plane_at self.now p.0).arity ≡ 2 }
        requires column { column < self.now.size }
        ensures { result ≡ column_in self.now.size (plane_at self.now p.0) column }
    {
        let start = self.layout.start(p.0 as usize, 0);
        let size = self.layout.size();
        self.words
            .column(self.layout.width(), start, size, column as usize)
    }

    /// The values in a column of the binary predicate `p`, in the rows from `64 * chunk` on, at most 64. What
    /// stands behind the last row isn't told.
    pub fn column_word(&self, p: PredId, column: u32, chunk: u32) -> Word
        requires predicate { p.0 < length self.now.planes }
        requires arity { (plane_at self.now p.0).arity ≡ 2 }
        requires column { column < self.now.size }
        requires chunk { 64 * chunk < self.now.size }
        ensures long { length result ≡ 64 }
        ensures values { (i : ℕ) → i < 64 → 64 * chunk + i < self.now.size
            → slice_index_or result i No
            ≡ slice_index_or (row_in (plane_at self.now p.0) (64 * chunk + i)) column No }
    {
        let size = self.layout.size();
        let first = 64 * chunk;
        let rows = (size - first).min(64);
        let start = self.layout.start(p.0 as usize, first as usize);
        self.words
            .column_word(self.layout.width(), start, rows, column as usize)
    }

    /// Puts the values into a row of the predicate `p`, and changes nothing else.
    pub fn put_row(&mut self, p: PredId, row: u32, values: &Row)
        requires predicate { p.0 < length self.old.planes }
        requires row { row < length (plane_at self.old p.0).rows }
        requires columns { length values.now ≡ column_count self.old.size (plane_at self.old p.0).arity }
        ensures value { self.new ≡ table_with_row self.old p.0 row values.now }
        ensures kept { IsTable self.new }
    {
        let start = self.layout.start(p.0 as usize, row as usize);
        self.words.put_row(start, values);
    }

    /// Puts `k` into a row and a column of the predicate `p`, and changes nothing else.
    pub fn put_cell(&mut self, p: PredId, row: u32, column: u32, k: K3)
        requires predicate { p.0 < length self.old.planes }
        requires row { row < length (plane_at self.old p.0).rows }
        requires column { column < length (row_in (plane_at self.old p.0) row) }
        ensures value { self.new
            ≡ table_with_row self.old p.0 row (slice_set (row_in (plane_at self.old p.0) row) column k) }
        ensures kept { IsTable self.new }
    {
        let start = self.layout.start(p.0 as usize, row as usize);
        self.words.put(start, column as usize, k);
    }

    /// Draws a row of the predicate `p` from a row that it has in another table, where each is one word, and
    /// changes nothing else.
    fn draw_word(&mut self, p: PredId, row: u32, source: &Planes, from: u32, drawing: &Drawing)
        requires predicate { p.0 < length self.old.planes }
        requires row { row < length (plane_at self.old p.0).rows }
        requires source { p.0 < length source.now.planes }
        requires from { from < length (plane_at source.now p.0).rows }
        requires size { length drawing.now.origins
            ≡ column_count self.old.size (plane_at self.old p.0).arity }
        requires columns { drawing.now.columns
            ≡ column_count source.now.size (plane_at source.now p.0).arity }
        requires narrow { (0 < self.old.size) × (self.old.size ≤ 64) }
        requires narrow_source { source.now.size ≤ 64 }
        ensures value { self.new ≡ table_with_row self.old p.0 row
            (selected No (row_in (plane_at source.now p.0) from) drawing.now.origins) }
        ensures kept { IsTable self.new }
    {
        let place = self.layout.start(p.0 as usize, row as usize);
        let origin = source.layout.start(p.0 as usize, from as usize);
        self.words.draw(place, &source.words, origin, drawing);
    }

    /// Draws a row of the predicate `p` from a row that it has in another table of one individual less, where
    /// each is one word, and changes nothing else.
    pub fn extend_word(&mut self, p: PredId, row: u32, source: &Planes, from: u32)
        requires predicate { p.0 < length self.old.planes }
        requires row { row < length (plane_at self.old p.0).rows }
        requires source { p.0 < length source.now.planes }
        requires from { from < length (plane_at source.now p.0).rows }
        requires size { source.now.size + 1 ≡ column_count self.old.size (plane_at self.old p.0).arity }
        requires columns { source.now.size ≡ column_count source.now.size (plane_at source.now p.0).arity }
        requires narrow { (0 < self.old.size) × (self.old.size ≤ 64) }
        requires narrow_source { source.now.size ≤ 64 }
        ensures value { self.new ≡ table_with_row self.old p.0 row
            (selected No (row_in (plane_at source.now p.0) from) (range_with_len 0 (source.now.size + 1))) }
        ensures kept { IsTable self.new }
    {
        let size = source.size();
        let place = self.layout.start(p.0 as usize, row as usize);
        let origin = source.layout.start(p.0 as usize, from as usize);
        self.words.extend(place, &source.words, origin, size);
    }

    /// Draws a row of the predicate `p` from a row that it has in another table, in words, and changes
    /// nothing else.
    pub fn draw_words(&mut self, p: PredId, row: u32, source: &Planes, from: u32, drawing: &Drawing)
        requires predicate { p.0 < length self.old.planes }
        requires row { row < length (plane_at self.old p.0).rows }
        requires source { p.0 < length source.now.planes }
        requires from { from < length (plane_at source.now p.0).rows }
        requires size { length drawing.now.origins
            ≡ column_count self.old.size (plane_at self.old p.0).arity }
        requires columns { drawing.now.columns
            ≡ column_count source.now.size (plane_at source.now p.0).arity }
        ensures value { self.new ≡ table_with_row self.old p.0 row
            (selected No (row_in (plane_at source.now p.0) from) drawing.now.origins) }
        ensures kept { IsTable self.new }
    {
        let size = self.size();
        if 0 < size && size <= 64 && source.size() <= 64 {
            self.draw_word(p, row, source, from, drawing);
        } else {
            let values = source.row(p, from).drawn(drawing);
            self.put_row(p, row, &values);
        }
    }

    /// An equal table in memory of its own.
    pub fn copied(&self, alloc: Global) -> Result<Planes, AllocError>
        ensures value { IfOk result (λ t. t ≡ self.now) }
        ensures kept { IfOk result IsTable }
    {
        Ok(Planes {
            layout: self.layout.copied()?,
            words: self.words.copied(alloc)?,
        })
    }

    /// Compares the values of tables of one size, predicate by predicate, each tuple by tuple. Tables
    /// over the same predicates are compared word by word.
    pub fn compare_values(&self, other: &Planes) -> Ordering
        requires { self.now.size ≡ other.now.size }
        ensures { result ≡ planes_cmp self.now.planes other.now.planes }
    {
        if self.layout.agrees(&other.layout) {
            self.words.compare(&other.words)
        } else {
            self.compare_planes(other)
        }
    }

    /// The number with all words mixed in.
    pub fn mix(&self, hash: u64) -> u64
        ensures { result ≡ fold word_mixed hash (table_packed self.now) }
    {
        self.words.mix(hash)
    }
}

/// The row of a tuple's value and its column.
fn place(t: Tuple) -> (u32, u32)
    ensures row { result.0 ≡ row_of (tuple_of t) }
    ensures column { result.1 ≡ column_of (tuple_of t) }
{
    match t {
        Tuple::Zero => (0, 0),
        Tuple::One(u) => (0, u),
        Tuple::Two(u, w) => (u, w),
    }
}

impl Table for Planes {
    ghost table = { λ t. t };

    fn size(&self) -> u32 {
        self.layout.size()
    }

    fn get(&self, p: PredId, t: Tuple) -> K3 {
        let _ = self.size();
        let (row, column) = place(t);
        self.cell(p, row, column)
    }

    fn set(&mut self, p: PredId, t: Tuple, k: K3) {
        let _ = self.size();
        let (row, column) = place(t);
        self.put_cell(p, row, column, k);
    }
}
