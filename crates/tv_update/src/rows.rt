//! The values of formulas at all tuples of individuals, row by row.

ghost use Rattle.std.specs.Prelude.{◌≡◌, ◌≤◌, ◌∷◌, [], length, OnOk};
ghost use Rattle.tv_model.specs.Form.{form_of, vars_of};
ghost use Rattle.tv_struct.specs.StructureRows.{HasArity};
ghost use Rattle.tv_eval.specs.AssignmentForm.{assignment_of};
ghost use Rattle.tv_eval.specs.Bound.{bound_structure, bound_room};
ghost use Rattle.tv_update.specs.Rows.{AreRows, CanFill, HasRows, rows_for, half_rows};

use std::alloc::{AllocError, Global};
use tv_eval::{Assignment, Evaluator};
use tv_kleene::K3;
use tv_model::{Formula, PredId, Terms, Var};
use tv_row::Row;
use tv_struct::{Structure, Tuple};

/// Rows of values for a predicate of a structure of `size` individuals: the only row, of one value for a
/// nullary predicate and of all for a unary one, or a row for each individual for a binary one.
#[derive(Debug, Drop)]
pub struct Rows {
    only: Row,
    pairs: Vec<Row>,
    size: u32,
}

impl Rows {
    ghost use Rattle.tv_update.specs.Held.{rows_held};

    /// No rows yet.
    pub fn new(alloc: Global, size: u32) -> Rows
        ensures { result.size ≡ size }
    {
        Rows {
            only: Row::of(0, K3::No),
            pairs: Vec::new(alloc),
            size,
        }
    }

    /// Holds rows for structures of so many individuals from now on.
    pub fn resize(&mut self, size: u32)
        ensures { self.new.size ≡ size }
    {
        self.size = size;
    }

    /// Holds the values of the formula at all tuples of individuals, put for the variables.
    pub fn fill<'a>(
        &mut self,
        e: &mut Evaluator<'_, 'a>,
        vars: Terms,
        f: &'a Formula,
        a: &Assignment,
    ) -> Result<(), AllocError>
        requires size { self.old.size ≡ (bound_structure e.old).size }
        requires can { CanFill (bound_structure e.old) a.now (vars_of vars) (bound_room e.old)
            (form_of f.now) }
        ensures rows { OnOk result (rows_held self.new (vars_of vars) ≡ rows_for (bound_structure e.old)
            (assignment_of a.now) (vars_of vars) (form_of f.now)) }
        ensures size { self.new.size ≡ self.old.size }
        ensures same { e.new ≡ e.old }
    {
        match vars {
            Terms::Zero => {
                let k = e.value(f, a);
                self.only = Row::of(1, k);
                Ok(())
            }
            Terms::One(v) => {
                self.only = e.row(f, v, a);
                Ok(())
            }
            Terms::Two(v, w) => self.fill_pairs(e, v, w, f, a),
        }
    }

    /// Holds the values of the formula at all pairs of individuals, put for the two variables.
    #[tactic(auto, using(tv_lemmas::proofs::Lists::map_range_more))]
    fn fill_pairs<'a>(
        &mut self,
        e: &mut Evaluator<'_, 'a>,
        v: Var,
        w: Var,
        f: &'a Formula,
        a: &Assignment,
    ) -> Result<(), AllocError>
        requires size { self.old.size ≡ (bound_structure e.old).size }
        requires can { CanFill (bound_structure e.old) a.now (v.0 ∷ w.0 ∷ []) (bound_room e.old)
            (form_of f.now) }
        ensures rows { OnOk result (self.new.pairs.items ≡ rows_for (bound_structure e.old)
            (assignment_of a.now) (v.0 ∷ w.0 ∷ []) (form_of f.now)) }
        ensures size { self.new.size ≡ self.old.size }
        ensures same { e.new ≡ e.old }
    {
        self.pairs.clear();
        for u in 0..self.size {
            let row = e.row(f, w, &a.with(v, u));
            self.pairs.push(row)?;
        }
        Ok(())
    }

    /// Holds `Half` at all tuples.
    pub fn fill_half(&mut self, vars: Terms) -> Result<(), AllocError>
        requires { self.old.size ≤ 256 }
        ensures rows { OnOk result (rows_held self.new (vars_of vars)
            ≡ half_rows self.old.size (length (vars_of vars))) }
        ensures size { self.new.size ≡ self.old.size }
    {
        match vars {
            Terms::Zero => {
                self.only = Row::of(1, K3::Half);
                Ok(())
            }
            Terms::One(_) => {
                self.only = Row::of(self.size, K3::Half);
                Ok(())
            }
            Terms::Two(_, _) => self.fill_half_pairs(),
        }
    }

    /// Holds `Half` at all pairs of individuals.
    fn fill_half_pairs(&mut self) -> Result<(), AllocError>
        requires { self.old.size ≤ 256 }
        ensures rows { OnOk result (self.new.pairs.items ≡ half_rows self.old.size 2) }
        ensures size { self.new.size ≡ self.old.size }
    {
        self.pairs.clear();
        for _ in 0..self.size {
            self.pairs.push(Row::of(self.size, K3::Half))?;
        }
        Ok(())
    }

    /// Puts the rows into the predicate `p`, which has as many places as there are variables, and
    /// changes no other.
    pub fn put(&self, t: &mut Structure, p: PredId, vars: Terms)
        requires arity { HasArity t.old p.0 (length (vars_of vars)) }
        requires rows { AreRows t.old.size (length (vars_of vars)) (rows_held self.now (vars_of vars)) }
        ensures { HasRows t.old t.new p.0 (length (vars_of vars)) (rows_held self.now (vars_of vars)) }
    {
        match vars {
            Terms::Zero => t.set(p, Tuple::Zero, self.only.get(0)),
            Terms::One(_) => t.set_unary_row(p, &self.only),
            Terms::Two(_, _) => self.put_pairs(t, p),
        }
    }

    fn put_pairs(&self, t: &mut Structure, p: PredId)
        requires arity { HasArity t.old p.0 2 }
        requires rows { AreRows t.old.size 2 self.now.pairs.items }
        ensures { HasRows t.old t.new p.0 2 self.now.pairs.items }
    {
        for u in 0..t.size() {
            t.set_row(p, u, &self.pairs[u as usize]);
        }
    }
}
