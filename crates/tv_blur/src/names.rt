//! The names of individuals, as rows of values.

ghost use Rattle.std.specs.Prelude.{◌≡◌, ◌<◌, ℕ, [], ◌∷◌, All, IfOk, IsTrue, MatchBool, OnOk, Some};
ghost use Rattle.std.specs.Prelude.{length, slice_get};
ghost use Rattle.tv_kleene.specs.declared.K3.TheVariants.{No};
ghost use Rattle.tv_row.specs.Bits.{value_cmp};
ghost use Rattle.tv_structure_form.specs.StructureForm.{IsOver, arities_of, value_at};
ghost use Rattle.tv_struct.specs.StructureRows.{HasArity};
ghost use Rattle.tv_blur.specs.Names.{abstraction_preds, is_abstraction, name_cmp};
ghost use Rattle.tv_blur.specs.Naming.{AreNames, AddsRow, HoldsNames, TellNames, canonical_name_in};
ghost use Rattle.tv_blur.specs.Naming.{name_in_rows, named_in};

use crate::words::{ROOM, has_possible};
use std::alloc::{AllocError, Global};
use std::cmp::Ordering;
use tv_kleene::K3;
use tv_model::{Pred, PredId, Vocab};
use tv_row::Row;
use tv_struct::{Structure, is_nowhere};

/// So many rows are kept in the first piece of memory.
const FEW: usize = 8;

/// The names of the individuals of a structure by the unary abstraction predicates: the values of each
/// predicate that isn't `No` everywhere. The others tell no individuals apart.
#[derive(Drop)]
pub struct CanonicalNames<'a> {
    structure: &'a Structure,
    rows: Vec<Row>,
}

impl<'a> CanonicalNames<'a> {
    /// The names of all individuals.
    pub fn of(
        alloc: Global,
        vocab: &Vocab,
        s: &'a Structure,
    ) -> Result<CanonicalNames<'a>, AllocError>
        requires { IsOver vocab.now s.now }
        ensures { IfOk result (AreNames (abstraction_preds vocab.now) s.now) }
    {
        Ok(CanonicalNames {
            structure: s,
            rows: rows(alloc, vocab, s)?,
        })
    }

    /// The structure whose individuals these are.
    pub fn structure(&self) -> &'a Structure
        ensures { result.now ≡ named_in self.now }
    {
        self.structure
    }

    /// Compares the names of two individuals, value by value, with No < Half < Yes.
    pub fn compare(&self, u: u32, w: u32) -> Ordering
        requires names { HoldsNames self.now }
        requires one { u < (named_in self.now).size }
        requires other { w < (named_in self.now).size }
        ensures { result ≡ name_cmp (canonical_name_in self.now u) (canonical_name_in self.now w) }
    {
        compare_values(self.rows.as_slice(), u, w)
    }
}

/// The values of the unary abstraction predicates, in their order, but for those that are `No` everywhere.
fn rows(alloc: Global, vocab: &Vocab, s: &Structure) -> Result<Vec<Row>, AllocError>
    requires { IsOver vocab.now s.now }
    ensures { IfOk result (λ rows. TellNames (abstraction_preds vocab.now) s.now rows.items) }
{
    let _ = s.pred_count();
    let mut rows = Vec::with_capacity(alloc, FEW)?;
    for (p, pred) in vocab.preds.as_slice().iter().enumerate() {
        add_row(&mut rows, s, p as u32, pred)?;
    }
    Ok(rows)
}

/// Puts the values of the predicate behind the others, where individuals may be told apart by it.
fn add_row(rows: &mut Vec<Row>, s: &Structure, p: u32, pred: &Pred) -> Result<(), AllocError>
    requires pred { slice_get (arities_of s.now) p ≡ Some pred.now.arity }
    ensures { OnOk result (AddsRow (is_abstraction pred.now) s.now p rows.old.items rows.new.items) }
{
    if is_told(s, p, pred) {
        rows.push(s.unary_row(PredId(p)))?;
    }
    Ok(())
}

/// Whether individuals are told apart by the predicate.
pub fn tells_apart(pred: &Pred) -> bool
    ensures { result ≡ is_abstraction pred.now }
{
    pred.arity == 1 && pred.abs
}

/// Whether some may be told apart by it in this structure.
pub fn is_told(s: &Structure, p: u32, pred: &Pred) -> bool
    requires { slice_get (arities_of s.now) p ≡ Some pred.now.arity }
    ensures { MatchBool result (IsTrue (is_abstraction pred.now))
        (IsTrue (is_abstraction pred.now) → (u : ℕ) → u < s.now.size → value_at s.now p (u ∷ []) ≡ No) }
{
    tells_apart(pred) && !is_no(s, PredId(p))
}

/// True only where the unary predicate is `No` at each individual.
#[inline(always)]
fn is_no(s: &Structure, p: PredId) -> bool
    requires { HasArity s.now p.0 1 }
    ensures { IsTrue result → (u : ℕ) → u < s.now.size → value_at s.now p.0 (u ∷ []) ≡ No }
{
    if 0 < s.size() && s.size() <= ROOM {
        return !has_possible(s.unary_word(p, 0), s.size());
    }
    is_nowhere(s, p)
}

/// Compares two values, with No < Half < Yes.
pub fn compare_value(j: K3, k: K3) -> Ordering
    ensures { result ≡ value_cmp j k }
{
    j.cmp(&k)
}

/// Compares the values of two individuals, row by row.
fn compare_values(rows: &[Row], u: u32, w: u32) -> Ordering
    requires one { All (λ row. u < length row) rows.now }
    requires other { All (λ row. w < length row) rows.now }
    ensures { result ≡ name_cmp (name_in_rows rows.now u) (name_in_rows rows.now w) }
{
    for i in 0..rows.len() {
        let (j, k) = (rows[i].get(u), rows[i].get(w));
        if j != k {
            return compare_value(j, k);
        }
    }
    Ordering::Equal
}
