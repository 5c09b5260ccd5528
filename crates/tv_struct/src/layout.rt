//! Where the rows of each predicate of a table lie in its words.

ghost use Rattle.std.specs.Prelude.{◌≡◌, ◌<◌, ◌≤◌, ◌+◌, ◌-◌, ◌*◌, length, map, IfOk, IsTrue, slice_index};
ghost use Rattle.tv_struct.specs.LayoutForm.{LayoutForm, IsLayout, words_for, starts_from, end_from};
ghost use Rattle.tv_struct.specs.LayoutForm.{row_place};
ghost use Rattle.tv_structure_form.specs.TableForm.{row_count, column_count};

use std::alloc::{AllocError, Global};
use std::marker::Model;
use std::rc::Rc;
use tv_model::Pred;

/// The arity of each predicate, how many of the predicates before it have one row alone, and how many of all
/// have: what doesn't depend on the number of individuals.
#[derive(Debug, Drop)]
pub struct RowOffsets {
    arities: Vec<u8>,
    singles: Vec<usize>,
    single: usize,
}

/// The size and the arities of a table. Each row has the same number of words. Tables over the same
/// predicates share the places, whatever their sizes.
#[derive(Debug, Drop)]
pub struct Layout {
    size: u32,
    width: u32,
    places: Rc<RowOffsets>,
}

impl Model for Layout {
    ghost use Rattle.tv_struct.specs.LayoutForm.{LayoutForm, IsLaid};

    ghost Value = { LayoutForm };

    ghost view = { λ l. record { size = l.size; arities = l.places.value.arities.items } };

    ghost invariant = { λ l. IsLaid (record { size = l.size; arities = l.places.value.arities.items }) l.width
        l.places.value.singles.items l.places.value.single };
}

/// The number of rows of a predicate of that arity over `size` individuals.
pub fn row_count(size: u32, arity: u8) -> u32
    ensures { result ≡ row_count size arity }
{
    if arity == 2 { size } else { 1 }
}

/// The number of values in each of these rows.
pub fn column_count(size: u32, arity: u8) -> u32
    ensures { result ≡ column_count size arity }
{
    if arity == 0 { 1 } else { size }
}

/// The place of each predicate, and how many have one row alone.
fn laid(alloc: Global, preds: &[Pred]) -> Result<RowOffsets, AllocError>
    requires { length preds.now ≤ 4294967295 }
    ensures arities { IfOk result (λ places. places.arities.items ≡ map (λ pred. pred.arity) preds.now) }
    ensures singles { IfOk result
        (λ places. places.singles.items ≡ starts_from 0 0 (map (λ pred. pred.arity) preds.now)) }
    ensures total { IfOk result
        (λ places. places.single ≡ end_from 0 0 (map (λ pred. pred.arity) preds.now)) }
{
    let mut arities = Vec::with_capacity(alloc, preds.len())?;
    let mut singles = Vec::with_capacity(alloc, preds.len())?;
    let mut single = 0;
    for pred in preds {
        arities.push(pred.arity)?;
        singles.push(single)?;
        single += row_count(0, pred.arity) as usize;
    }
    Ok(RowOffsets {
        arities,
        singles,
        single,
    })
}

/// The number of rows of that many predicates, so many of which have one row alone, and each of the
/// others `size` rows.
#[inline(always)]
fn rows_of(single: usize, preds: usize, size: u32) -> usize
    requires single { single ≤ preds }
    requires predicates { preds ≤ 4294967295 }
    requires size { size ≤ 256 }
    ensures { result ≡ single + (preds - single) * size }
{
    single + (preds - single) * size as usize
}

/// The number of words of a row over `size` individuals.
fn width_of(size: u32) -> u32
    ensures { result ≡ words_for size }
{
    size.div_ceil(64).max(1)
}

impl Layout {
    /// The layout of a table of these predicates over `size` individuals.
    pub fn new(alloc: Global, preds: &[Pred], size: u32) -> Result<Layout, AllocError>
        requires { IsLayout (record { size = size; arities = map (λ pred. pred.arity) preds.now }) }
        ensures { IfOk result
            (λ l. l ≡ record { size = size; arities = map (λ pred. pred.arity) preds.now }) }
    {
        match Rc::new(alloc, laid(alloc, preds)?) {
            Ok(places) => Ok(Layout {
                size,
                width: width_of(size),
                places,
            }),
            Err(_) => Err(AllocError),
        }
    }

    /// The layout over `size` individuals and the same predicates; takes no memory.
    pub fn resized(&self, size: u32) -> Result<Layout, AllocError>
        requires { size ≤ 256 }
        ensures { IfOk result (λ l. l ≡ record { size = size; arities = self.now.arities }) }
    {
        Ok(Layout {
            size,
            width: width_of(size),
            places: self.places.clone()?,
        })
    }

    /// An equal layout; takes no memory.
    pub fn copied(&self) -> Result<Layout, AllocError>
        ensures { IfOk result (λ l. l ≡ self.now) }
    {
        Ok(Layout {
            size: self.size,
            width: self.width,
            places: self.places.clone()?,
        })
    }

    /// Whether the sizes and the arities are equal.
    pub fn agrees(&self, other: &Layout) -> bool
        ensures { IsTrue result → self.now ≡ other.now }
    {
        self.size == other.size && self.places.arities == other.places.arities
    }

    /// The number of individuals.
    pub fn size(&self) -> u32
        ensures size { result ≡ self.now.size }
        ensures kept { IsLayout self.now }
    {
        self.size
    }

    /// The number of predicates.
    pub fn pred_count(&self) -> u32
        ensures { result ≡ length self.now.arities }
    {
        self.places.arities.len() as u32
    }

    /// The arity of a predicate.
    pub fn arity(&self, pred: usize) -> u8
        requires { pred < length self.now.arities }
        ensures { result ≡ slice_index self.now.arities pred }
    {
        self.places.arities[pred]
    }

    /// The number of words of a row.
    pub fn width(&self) -> usize
        ensures { result ≡ words_for self.now.size }
    {
        self.width as usize
    }

    /// The number of words of all rows.
    pub fn word_count(&self) -> usize
        ensures { result ≡ end_from self.now.size 0 self.now.arities * words_for self.now.size }
    {
        rows_of(self.places.single, self.places.arities.len(), self.size) * self.width as usize
    }

    /// The first word of a predicate's row.
    #[inline(always)]
    pub fn start(&self, pred: usize, row: usize) -> usize
        requires predicate { pred < length self.now.arities }
        requires row { row < row_count self.now.size (slice_index self.now.arities pred) }
        ensures { result ≡ row_place self.now pred row * words_for self.now.size }
    {
        (rows_of(self.places.singles[pred], pred, self.size) + row) * self.width as usize
    }
}
