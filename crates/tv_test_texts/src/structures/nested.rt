//! A second implementation of a table: for each predicate, vectors of values in a vector.

ghost use Rattle.std.specs.Prelude.{◌≡◌, ◌<◌, ◌≤◌, List, [], length, map, All, IfOk, slice_index_or};
ghost use Rattle.std.specs.Prelude.{slice_set};
ghost use Rattle.tv_structure_form.specs.TableForm.{TableForm, IsTable, cell, with_cell, row_of, column_of};
ghost use Rattle.tv_structure_form.specs.TableForm.{plane_of_no, table_of_no};
ghost use Rattle.tv_struct.specs.TupleForm.{tuple_of};

use std::alloc::{AllocError, Global};
use std::marker::Model;
use tv_kleene::K3;
use tv_model::{Pred, PredId};
use tv_struct::{Table, Tuple};

/// A vector that contracts see as a list.
#[derive(Debug, Drop)]
struct Line<T> {
    items: Vec<T>,
}

impl<T> Model for Line<T> {
    ghost use Rattle.std.specs.Prelude.{List};

    ghost Value = { List T };

    ghost view = { λ a. a.items.items };
}

impl<T> Line<T> {
    fn from_vec(items: Vec<T>) -> Self
        ensures { result ≡ items.items }
    {
        Line { items }
    }

    fn as_slice(&self) -> &[T]
        ensures { result.now ≡ self.now }
    {
        self.items.as_slice()
    }
}

impl<T: Drop> Line<T> {
    fn put(&mut self, place: usize, value: T)
        requires { place < length self.old }
        ensures { self.new ≡ slice_set self.old place value }
    {
        self.items[place] = value;
    }
}

impl<T: Drop> Line<Line<T>> {
    fn put_cell(&mut self, row: usize, column: usize, value: T)
        requires row { row < length self.old }
        requires column { column < length (slice_index_or self.old row []) }
        ensures { self.new
            ≡ slice_set self.old row (slice_set (slice_index_or self.old row []) column value) }
    {
        let line = &mut self.items[row];
        line.put(column, value);
    }
}

/// The values of a predicate by row and column.
#[derive(Debug, Drop)]
struct Plane {
    arity: u8,
    rows: Line<Line<K3>>,
}

impl Model for Plane {
    ghost use Rattle.tv_structure_form.specs.TableForm.{PlaneForm};

    ghost Value = { PlaneForm };

    ghost view = { λ p. record { arity = p.arity; rows = p.rows } };
}

impl Plane {
    fn of_no(alloc: Global, arity: u8, size: u32) -> Result<Plane, AllocError>
        requires { size ≤ 256 }
        ensures { IfOk result (λ p. p ≡ plane_of_no size arity) }
    {
        let row_count = if arity == 2 { size as usize } else { 1 };
        let column_count = if arity == 0 { 1 } else { size as usize };
        let mut rows = Vec::with_capacity(alloc, row_count)?;
        for _ in 0..row_count {
            rows.push(Line::from_vec(vec![in alloc; K3::No; column_count]?))?;
        }
        Ok(Plane {
            arity,
            rows: Line::from_vec(rows),
        })
    }

    fn get(&self, row: usize, column: usize) -> K3
        requires row { row < length self.now.rows }
        requires column { column < length (slice_index_or self.now.rows row []) }
        ensures { result ≡ cell self.now.rows row column }
    {
        self.rows.as_slice()[row].as_slice()[column]
    }

    fn put(&mut self, row: usize, column: usize, k: K3)
        requires row { row < length self.old.rows }
        requires column { column < length (slice_index_or self.old.rows row []) }
        ensures { self.new ≡ record self.old { rows = with_cell self.old.rows row column k } }
    {
        self.rows.put_cell(row, column, k);
    }
}

/// A table with a plane of values for each predicate.
#[derive(Debug, Drop)]
pub struct Nested {
    size: u32,
    planes: Vec<Plane>,
}

impl Model for Nested {
    ghost use Rattle.tv_structure_form.specs.TableForm.{TableForm, IsTable};

    ghost Value = { TableForm };

    ghost view = { λ t. record { size = t.size; planes = t.planes.items } };

    ghost invariant = { λ t. IsTable (record { size = t.size; planes = t.planes.items }) };
}

impl Nested {
    /// The table over `size` individuals that has `No` everywhere. More predicates than a number counts
    /// take more memory than there is.
    pub fn of_no(alloc: Global, preds: &[Pred], size: u32) -> Result<Nested, AllocError>
        requires size { size ≤ 256 }
        requires arities { All (λ pred. pred.arity ≤ 2) preds.now }
        ensures { IfOk result (λ t. t ≡ table_of_no size (map (λ pred. pred.arity) preds.now)) }
    {
        if preds.len() > u32::MAX as usize {
            return Err(AllocError);
        }
        let mut planes = Vec::with_capacity(alloc, preds.len())?;
        for pred in preds {
            planes.push(Plane::of_no(alloc, pred.arity, size)?)?;
        }
        Ok(Nested { size, planes })
    }
}

/// The row of a tuple's value and its column.
fn place(t: Tuple) -> (usize, usize)
    ensures row { result.0 ≡ row_of (tuple_of t) }
    ensures column { result.1 ≡ column_of (tuple_of t) }
{
    match t {
        Tuple::Zero => (0, 0),
        Tuple::One(u) => (0, u as usize),
        Tuple::Two(u, w) => (u as usize, w as usize),
    }
}

impl Table for Nested {
    ghost table = { λ t. t };

    fn size(&self) -> u32 {
        self.size
    }

    fn get(&self, p: PredId, t: Tuple) -> K3 {
        let (row, column) = place(t);
        self.planes[p.0 as usize].get(row, column)
    }

    fn set(&mut self, p: PredId, t: Tuple, k: K3) {
        let (row, column) = place(t);
        let plane = &mut self.planes[p.0 as usize];
        plane.put(row, column, k);
    }
}
