//! Tables drawn from others: over one individual for each of a list of origins.

ghost use Rattle.std.specs.Prelude.{◌≡◌, ◌<◌, ◌≤◌, ◌==◌, [], ◌∷◌, length, IfOk, if◌then◌else◌};
ghost use Rattle.std.specs.Prelude.{slice_index_or, slice_set, ◌+◌};
ghost use Rattle.std.specs.List.{range_with_len};
ghost use Rattle.tv_kleene.specs.declared.K3.TheVariants.{No};
ghost use Rattle.tv_structure_form.specs.TableForm.{IsTable, plane_at, plane_drawn, table_drawn};
ghost use Rattle.tv_structure_form.specs.TableForm.{table_with_row};
ghost use Rattle.tv_structure_form.specs.TableForm.{row_in, selected, plane_of_no};

use crate::layout::column_count;
use crate::planes::Planes;
use crate::table::Table;
use std::alloc::{AllocError, Global};
use tv_kleene::K3;
use tv_model::PredId;
use tv_row::{Drawing, Row};

/// Where the rows of a predicate of that arity come from.
fn row_origins(arity: u8, origins: &[u32]) -> &[u32]
    ensures { result.now ≡ (if arity == 2 then origins.now else 0 ∷ []) }
{
    if arity == 2 { origins } else { &[0] }
}

impl Planes {
    /// Draws a row of the predicate `p` from a row of another table, `No` everywhere where that is past the
    /// end. The one value of a nullary predicate is copied.
    fn draw_row(&mut self, p: PredId, row: u32, source: &Planes, from: u32, drawing: &Drawing)
        requires table { IsTable self.old }
        requires size { self.old.size ≡ length drawing.now.origins }
        requires columns { drawing.now.columns ≡ source.now.size }
        requires predicate { p.0 < length self.old.planes }
        requires row { row < length (plane_at self.old p.0).rows }
        requires source { p.0 < length source.now.planes }
        requires arity { (plane_at self.old p.0).arity ≡ (plane_at source.now p.0).arity }
        ensures value { self.new
            ≡ table_with_row self.old p.0 row (selected No (row_in (plane_at source.now p.0) from)
            (if (plane_at source.now p.0).arity == 0 then 0 ∷ [] else drawing.now.origins)) }
        ensures kept { IsTable self.new }
    {
        let _ = source.size();
        let arity = source.arity(p);
        if source.row_total(p) <= from {
            self.put_row(p, row, &Row::of(column_count(self.size(), arity), K3::No));
        } else if arity == 0 {
            self.put_cell(p, row, 0, source.cell(p, from, 0));
        } else {
            self.draw_words(p, row, source, from, drawing);
        }
    }

    /// Gives the predicate `p` the values that it has in another table at the origins.
    fn draw_plane(&mut self, source: &Planes, p: PredId, drawing: &Drawing)
        requires table { IsTable self.old }
        requires size { self.old.size ≡ length drawing.now.origins }
        requires columns { drawing.now.columns ≡ source.now.size }
        requires predicate { p.0 < length self.old.planes }
        requires source { p.0 < length source.now.planes }
        requires arity { (plane_at self.old p.0).arity ≡ (plane_at source.now p.0).arity }
        ensures value { self.new ≡ record self.old {
          planes = slice_set self.old.planes p.0
              (plane_drawn drawing.now.origins (plane_at source.now p.0));
        } }
        ensures kept { IsTable self.new }
    {
        let rows = row_origins(source.arity(p), drawing.origins());
        for row in 0..rows.len() {
            self.draw_row(p, row as u32, source, rows[row], drawing);
        }
    }

    /// Gives the predicate `p`, which is `No` everywhere so far, the values that it has at the origins. One
    /// that is `No` everywhere in the other table too is passed over.
    fn draw_over(&mut self, source: &Planes, p: PredId, drawing: &Drawing)
        requires table { IsTable self.old }
        requires size { self.old.size ≡ length drawing.now.origins }
        requires columns { drawing.now.columns ≡ source.now.size }
        requires predicate { p.0 < length self.old.planes }
        requires source { p.0 < length source.now.planes }
        requires blank { plane_at self.old p.0
            ≡ plane_of_no (length drawing.now.origins) (plane_at source.now p.0).arity }
        ensures value { self.new ≡ record self.old {
          planes = slice_set self.old.planes p.0
              (plane_drawn drawing.now.origins (plane_at source.now p.0));
        } }
        ensures kept { IsTable self.new }
    {
        if source.is_nowhere(p) {
            return;
        }
        self.draw_plane(source, p, drawing);
    }

    /// The table over one individual for each of the origins, with the origins' values, and `No` for
    /// an origin past the end.
    pub fn drawn(&self, alloc: Global, drawing: &Drawing) -> Result<Planes, AllocError>
        requires { drawing.now.columns ≡ self.now.size }
        ensures value { IfOk result (λ t. t ≡ table_drawn drawing.now.origins self.now) }
        ensures kept { IfOk result IsTable }
    {
        let mut drawn = self.emptied(alloc, drawing.origins().len() as u32)?;
        for pred in 0..self.pred_count() {
            drawn.draw_over(self, PredId(pred), drawing);
        }
        Ok(drawn)
    }
    /// Draws a row of the predicate `p` from the same row of a table of one individual less, `No` everywhere
    /// where that is past the end. The one value of a nullary predicate is copied.
    fn extend_row(&mut self, p: PredId, row: u32, source: &Planes)
        requires table { IsTable self.old }
        requires size { self.old.size ≡ source.now.size + 1 }
        requires narrow { self.old.size ≤ 64 }
        requires predicate { p.0 < length self.old.planes }
        requires row { row < length (plane_at self.old p.0).rows }
        requires source { p.0 < length source.now.planes }
        requires arity { (plane_at self.old p.0).arity ≡ (plane_at source.now p.0).arity }
        ensures value { self.new
            ≡ table_with_row self.old p.0 row (selected No (row_in (plane_at source.now p.0) row)
            (if (plane_at source.now p.0).arity == 0 then 0 ∷ []
            else range_with_len 0 (source.now.size + 1))) }
        ensures kept { IsTable self.new }
    {
        let _ = source.size();
        let arity = source.arity(p);
        if source.row_total(p) <= row {
            let none = Row::of(column_count(self.size(), arity), K3::No);
            self.put_row(p, row, &none);
        } else if arity == 0 {
            self.put_cell(p, row, 0, source.cell(p, row, 0));
        } else {
            self.extend_word(p, row, source, row);
        }
    }

    /// Gives the predicate `p` the values that it has in a table of one individual less.
    fn extend_plane(&mut self, source: &Planes, p: PredId)
        requires table { IsTable self.old }
        requires size { self.old.size ≡ source.now.size + 1 }
        requires narrow { self.old.size ≤ 64 }
        requires predicate { p.0 < length self.old.planes }
        requires source { p.0 < length source.now.planes }
        requires arity { (plane_at self.old p.0).arity ≡ (plane_at source.now p.0).arity }
        ensures value { self.new ≡ record self.old {
          planes = slice_set self.old.planes p.0
              (plane_drawn (range_with_len 0 (source.now.size + 1)) (plane_at source.now p.0));
        } }
        ensures kept { IsTable self.new }
    {
        let rows = self.row_total(p);
        for row in 0..rows {
            self.extend_row(p, row, source);
        }
    }

    /// The table over one individual more, with `No` wherever that stands.
    pub fn extended(&self, alloc: Global) -> Result<Planes, AllocError>
        requires { self.now.size < 64 }
        ensures value { IfOk result (λ t. t ≡ table_drawn (range_with_len 0 (self.now.size + 1)) self.now) }
        ensures kept { IfOk result IsTable }
    {
        let size = self.size();
        let mut extended = self.emptied(alloc, size + 1)?;
        for pred in 0..self.pred_count() {
            extended.extend_plane(self, PredId(pred));
        }
        Ok(extended)
    }
}
