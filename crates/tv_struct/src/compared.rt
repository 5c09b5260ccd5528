//! The order of tables, predicate by predicate.

ghost use Rattle.std.specs.Prelude.{◌≡◌, ◌<◌, ◌≤◌, length};
ghost use Rattle.std.specs.Cmp.Lexicographic.{slice_cmp};
ghost use Rattle.tv_row.specs.Bits.{value_cmp};
ghost use Rattle.tv_structure_form.specs.TableForm.{plane_at};
ghost use Rattle.tv_struct.specs.Order.{plane_cmp, planes_cmp};

use crate::planes::Planes;
use std::cmp::Ordering;
use tv_model::PredId;

impl Planes {
    /// Compares the rows of a predicate that has the same arity in both tables.
    fn compare_rows(&self, other: &Planes, p: PredId) -> Ordering
        requires predicate { p.0 < length self.now.planes }
        requires other { p.0 < length other.now.planes }
        requires size { self.now.size ≡ other.now.size }
        requires arity { (plane_at self.now p.0).arity ≡ (plane_at other.now p.0).arity }
        ensures { result
            ≡ slice_cmp (slice_cmp value_cmp) (plane_at self.now p.0).rows (plane_at other.now p.0).rows }
    {
        let rows = self.row_total(p).min(other.row_total(p));
        for row in 0..rows {
            let order = self.row(p, row).compare(&other.row(p, row));
            if order != Ordering::Equal {
                return order;
            }
        }
        Ordering::Equal
    }

    /// Compares the arity and the values of a predicate.
    fn compare_plane(&self, other: &Planes, p: PredId) -> Ordering
        requires predicate { p.0 < length self.now.planes }
        requires other { p.0 < length other.now.planes }
        requires size { self.now.size ≡ other.now.size }
        ensures { result ≡ plane_cmp (plane_at self.now p.0) (plane_at other.now p.0) }
    {
        let order = self.arity(p).cmp(&other.arity(p));
        if order != Ordering::Equal {
            return order;
        }
        self.compare_rows(other, p)
    }

    /// Compares the values predicate by predicate, each row by row.
    pub fn compare_planes(&self, other: &Planes) -> Ordering
        requires { self.now.size ≡ other.now.size }
        ensures { result ≡ planes_cmp self.now.planes other.now.planes }
    {
        let count = self.pred_count().min(other.pred_count());
        for pred in 0..count {
            let order = self.compare_plane(other, PredId(pred));
            if order != Ordering::Equal {
                return order;
            }
        }
        self.pred_count().cmp(&other.pred_count())
    }
}
