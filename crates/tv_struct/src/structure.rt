//! Three-valued structures of at most 256 individuals.

ghost use Rattle.std.specs.Prelude.{◌≡◌, ◌≢◌, ◌<◌, ◌≤◌, ◌↔◌, ℕ, List, length, map, All, IfOk, IsTrue, IfSome};
ghost use Rattle.std.specs.Prelude.{◌+◌, ◌*◌, [], ◌∷◌, sum, slice_get, slice_index, slice_index_or};
ghost use Rattle.std.specs.Prelude.{if◌then◌else◌, refl};
ghost use Rattle.std.specs.Cmp.{partial_equiv_from_equiv, eq_by_cmp_equiv, po};
ghost use Rattle.std.specs.Ordering.{eq_by_cmp, as_partial_cmp};
ghost use Rattle.tv_kleene.specs.declared.K3.TheVariants.{No, Half};
ghost use Rattle.tv_struct.specs.Order.{structure_cmp, structure_cmp_total};
ghost use Rattle.tv_struct.specs.Signature.{signature_of};
ghost use Rattle.tv_structure_form.specs.StructureForm.{StructureForm, IsStructure, IsMark, IsOver};
ghost use Rattle.tv_structure_form.specs.StructureForm.{arities_of};
ghost use Rattle.tv_structure_form.specs.StructureForm.{table_of, value_at, summary_at, structure_of_no};
ghost use Rattle.tv_structure_form.specs.StructureForm.{with_value};
ghost use Rattle.tv_structure_form.specs.StructureForm.{with_summary, with_new, without, split, drawn};
ghost use Rattle.tv_structure_form.specs.StructureForm.{unmarked};
ghost use Rattle.tv_struct.specs.StructureRows.{HasArity, unary_row, row_at, column_at, summary_row};
ghost use Rattle.tv_struct.specs.StructureRows.{with_row};
ghost use Rattle.tv_structure_form.specs.TableForm.{HasEntry, row_of};
ghost use Rattle.tv_struct.specs.TupleForm.{tuple_of};

use crate::flags::Summaries;
use crate::origins;
use crate::planes::Planes;
use crate::table::{Table, Tuple};
use std::alloc::{AllocError, Global};
use std::cmp::Ordering;
use std::marker::Model;
use tv_kleene::K3;
use tv_model::{Items, PredId, Vocab};
use tv_row::{Drawing, Row, Word};

/// A three-valued logical structure (Sagiv, Reps and Wilhelm 2002, section 4) over the individuals 0
/// to `size - 1`: the value of each predicate at each tuple, and which individuals are summaries,
/// that is, may stand for several cells. At most one individual is marked as fresh; it is no summary.
#[derive(Debug, Drop)]
pub struct Structure {
    table: Planes,
    summaries: Summaries,
    fresh: Option<u32>,
}

/// A list of structures.
pub type Structures = Items<Structure>;

impl Model for Structure {
    ghost use Rattle.tv_structure_form.specs.StructureForm.{StructureForm, IsStructure};

    ghost Value = { StructureForm };

    ghost view = { λ s.
        record { size = s.table.size; summaries = s.summaries; planes = s.table.planes; fresh = s.fresh } };

    ghost invariant = { λ s. IsStructure
        (record { size = s.table.size; summaries = s.summaries; planes = s.table.planes; fresh = s.fresh }) };
}

impl Structure {
    /// The structure over `size` individuals that has `No` everywhere and no summary. The number of
    /// predicates is a `u32`: for a longer vocabulary there isn't enough memory.
    #[tactic(auto, using(tv_structure_form::proofs::StructureLaws::arities_of_no))]
    pub fn new(alloc: Global, vocab: &Vocab, size: u32) -> Result<Structure, AllocError>
        requires size { size ≤ 256 }
        requires arities { All (λ pred. pred.arity ≤ 2) vocab.now.preds }
        ensures value { IfOk result
            (λ s. s ≡ structure_of_no size (map (λ pred. pred.arity) vocab.now.preds)) }
        ensures over { IfOk result (IsOver vocab.now) }
        ensures kept { IfOk result IsStructure }
    {
        Ok(Structure {
            table: Planes::of_no(alloc, vocab.preds.as_slice(), size)?,
            summaries: Summaries::none(size),
            fresh: None,
        })
    }

    /// The structure over `size` individuals and the predicates of `like` that has `No` everywhere and
    /// no summary.
    #[tactic(auto, using(tv_structure_form::proofs::StructureLaws::arities_of_no))]
    pub fn of_no(alloc: Global, like: &Structure, size: u32) -> Result<Structure, AllocError>
        requires { size ≤ 256 }
        ensures value { IfOk result (λ s. s ≡ structure_of_no size (arities_of like.now)) }
        ensures over { IfOk result (λ s. arities_of s ≡ arities_of like.now) }
        ensures kept { IfOk result IsStructure }
    {
        Ok(Structure {
            table: like.table.emptied(alloc, size)?,
            summaries: Summaries::none(size),
            fresh: None,
        })
    }

    /// The number of individuals, at most 256.
    pub fn size(&self) -> u32
        ensures size { result ≡ self.now.size }
        ensures kept { IsStructure self.now }
    {
        self.table.size()
    }

    /// The number of predicates.
    pub fn pred_count(&self) -> u32
        ensures { result ≡ length (arities_of self.now) }
    {
        self.table.pred_count()
    }

    /// The arity of the predicate `p`, at most 2.
    pub fn arity(&self, p: PredId) -> u8
        requires { p.0 < length (arities_of self.now) }
        ensures value { slice_get (arities_of self.now) p.0 ≡ Some result }
        ensures known { result ≤ 2 }
    {
        self.table.arity(p)
    }

    /// The value of the predicate `p` at the tuple `t`.
    pub fn get(&self, p: PredId, t: Tuple) -> K3
        requires { HasEntry (table_of self.now) p.0 (tuple_of t) }
        ensures { result ≡ value_at self.now p.0 (tuple_of t) }
    {
        self.table.get(p, t)
    }

    /// Puts `k` at the entry of the predicate `p` at the tuple `t`, and changes no other.
    #[tactic(auto, using(tv_structure_form::proofs::StructureLaws::arities_of_written))]
    pub fn set(&mut self, p: PredId, t: Tuple, k: K3)
        requires { HasEntry (table_of self.old) p.0 (tuple_of t) }
        ensures value { self.new ≡ with_value self.old p.0 (tuple_of t) k }
        ensures over { arities_of self.new ≡ arities_of self.old }
        ensures kept { IsStructure self.new }
    {
        self.table.set(p, t, k);
    }

    /// The values of the unary predicate `p`, individual by individual.
    pub fn unary_row(&self, p: PredId) -> Row
        requires { HasArity self.now p.0 1 }
        ensures { result ≡ unary_row self.now p.0 }
    {
        self.table.row(p, 0)
    }

    /// The values of the binary predicate `p` at the pairs with first member `u`, by the second.
    pub fn row(&self, p: PredId, u: u32) -> Row
        requires arity { HasArity self.now p.0 2 }
        requires individual { u < self.now.size }
        ensures { result ≡ row_at self.now p.0 u }
    {
        self.table.row(p, u)
    }

    /// The values of the binary predicate `p` at the pairs with second member `w`, by the first.
    pub fn column(&self, p: PredId, w: u32) -> Row
        requires arity { HasArity self.now p.0 2 }
        requires individual { w < self.now.size }
        ensures { result ≡ column_at self.now p.0 w }
    {
        self.table.column(p, w)
    }

    /// The values of the unary predicate `p` for the individuals from `64 * chunk` on, at most 64. What
    /// stands behind the last individual isn't told.
    #[inline(always)]
    pub fn unary_word(&self, p: PredId, chunk: u32) -> Word
        requires arity { HasArity self.now p.0 1 }
        requires chunk { 64 * chunk < self.now.size }
        ensures long { length result ≡ 64 }
        ensures values { (i : ℕ) → i < 64 → 64 * chunk + i < self.now.size
            → slice_index_or result i No ≡ value_at self.now p.0 ((64 * chunk + i) ∷ []) }
    {
        self.table.word(p, 0, chunk)
    }

    /// The values of the binary predicate `p` at the pairs with first member `u` and as second one the
    /// individuals from `64 * chunk` on, at most 64. What stands behind the last individual isn't told.
    #[inline(always)]
    pub fn word(&self, p: PredId, u: u32, chunk: u32) -> Word
        requires arity { HasArity self.now p.0 2 }
        requires individual { u < self.now.size }
        requires chunk { 64 * chunk < self.now.size }
        ensures long { length result ≡ 64 }
        ensures values { (i : ℕ) → i < 64 → 64 * chunk + i < self.now.size
            → slice_index_or result i No ≡ value_at self.now p.0 (u ∷ (64 * chunk + i) ∷ []) }
    {
        self.table.word(p, u, chunk)
    }

    /// The values of the binary predicate `p` at the pairs with second member `w` and as first one the
    /// individuals from `64 * chunk` on, at most 64. What stands behind the last individual isn't told.
    #[inline(always)]
    pub fn column_word(&self, p: PredId, w: u32, chunk: u32) -> Word
        requires arity { HasArity self.now p.0 2 }
        requires individual { w < self.now.size }
        requires chunk { 64 * chunk < self.now.size }
        ensures long { length result ≡ 64 }
        ensures values { (i : ℕ) → i < 64 → 64 * chunk + i < self.now.size
            → slice_index_or result i No ≡ value_at self.now p.0 ((64 * chunk + i) ∷ w ∷ []) }
    {
        self.table.column_word(p, w, chunk)
    }

    /// Puts the values into the unary predicate `p`, individual by individual, and changes no other
    /// entry.
    pub fn set_unary_row(&mut self, p: PredId, values: &Row)
        requires arity { HasArity self.old p.0 1 }
        requires size { length values.now ≡ self.old.size }
        ensures value { self.new ≡ with_row self.old p.0 0 values.now }
        ensures row { unary_row self.new p.0 ≡ values.now }
        ensures others { (q : ℕ) (tuple : List ℕ) → q ≢ p.0
            → value_at self.new q tuple ≡ value_at self.old q tuple }
        ensures over { arities_of self.new ≡ arities_of self.old }
        ensures kept { IsStructure self.new }
    {
        self.table.put_row(p, 0, values);
    }

    /// Puts the values into the binary predicate `p` at the pairs with first member `u`, by the second,
    /// and changes no other entry.
    pub fn set_row(&mut self, p: PredId, u: u32, values: &Row)
        requires arity { HasArity self.old p.0 2 }
        requires individual { u < self.old.size }
        requires size { length values.now ≡ self.old.size }
        ensures value { self.new ≡ with_row self.old p.0 u values.now }
        ensures row { row_at self.new p.0 u ≡ values.now }
        ensures others { (q : ℕ) (tuple : List ℕ) → ¬ ((q ≡ p.0) × (row_of tuple ≡ u))
            → value_at self.new q tuple ≡ value_at self.old q tuple }
        ensures over { arities_of self.new ≡ arities_of self.old }
        ensures kept { IsStructure self.new }
    {
        self.table.put_row(p, u, values);
    }

    /// Of each individual `Half` where it is a summary, else `No`.
    pub fn summary_row(&self) -> Row
        ensures { result ≡ summary_row self.now }
    {
        self.summaries.as_row()
    }

    /// Whether the individual `u` is a summary.
    pub fn summary(&self, u: u32) -> bool
        requires { u < self.now.size }
        ensures { result ≡ summary_at self.now u }
    {
        self.summaries.get(u)
    }

    /// Makes the individual `u` a summary or an ordinary individual. The fresh individual can't be a
    /// summary.
    pub fn set_summary(&mut self, u: u32, on: bool)
        requires individual { u < self.old.size }
        requires not_fresh { IsTrue on → ¬ (self.old.fresh ≡ Some u) }
        ensures value { self.new ≡ with_summary self.old u on }
        ensures kept { IsStructure self.new }
    {
        self.summaries.put(u, on);
    }

    /// The individual of which `isNew` holds, if there is one.
    pub fn fresh(&self) -> Option<u32>
        ensures { result ≡ self.now.fresh }
    {
        self.fresh
    }

    /// Takes the mark off, so that no individual is fresh.
    pub fn unmark(&mut self)
        ensures value { self.new ≡ unmarked self.old }
        ensures kept { IsStructure self.new }
    {
        self.fresh = None;
    }

    /// An equal structure in memory of its own.
    pub fn copy(&self, alloc: Global) -> Result<Structure, AllocError>
        ensures value { IfOk result (λ s. s ≡ self.now) }
        ensures kept { IfOk result IsStructure }
    {
        Ok(Structure {
            table: self.table.copied(alloc)?,
            summaries: self.summaries.copied(),
            fresh: self.fresh,
        })
    }

    /// The structure and one further, last individual, which is `No` everywhere, no summary, and
    /// alone marked as fresh.
    pub fn with_new(&self, alloc: Global) -> Result<Structure, AllocError>
        requires { self.now.size ≤ 255 }
        ensures value { IfOk result (λ s. s ≡ with_new self.now) }
        ensures over { IfOk result (λ s. arities_of s ≡ arities_of self.now) }
        ensures kept { IfOk result IsStructure }
    {
        let size = self.size();
        if size < 64 {
            return self.extended(alloc);
        }
        let origins = origins::all_and_next(alloc, size)?;
        self.drawn(alloc, origins, Some(size))
    }

    /// The individuals whose flag is true, in order, with their values, none of them marked as fresh.
    pub fn without(&self, alloc: Global, keep: &[bool]) -> Result<Structure, AllocError>
        requires { length keep.now ≡ self.now.size }
        ensures value { IfOk result (λ s. s ≡ without self.now keep.now) }
        ensures over { IfOk result (λ s. arities_of s ≡ arities_of self.now) }
        ensures kept { IfOk result IsStructure }
    {
        let _ = self.size();
        let kept = origins::kept(alloc, keep)?;
        self.drawn(alloc, kept, None)
    }

    /// Each individual `u` as `parts[u]` copies beside each other, and every value that of the
    /// originals.
    pub fn split(&self, alloc: Global, parts: &[u32]) -> Result<Structure, AllocError>
        requires individuals { length parts.now ≡ self.now.size }
        requires each { All (λ part. 1 ≤ part) parts.now }
        requires total { sum parts.now ≤ 256 }
        requires fresh_once { IfSome self.now.fresh (λ u. slice_index parts.now u ≡ 1) }
        ensures value { IfOk result (λ s. s ≡ split self.now parts.now) }
        ensures over { IfOk result (λ s. arities_of s ≡ arities_of self.now) }
        ensures kept { IfOk result IsStructure }
    {
        let _ = self.size();
        let origins = origins::copies(alloc, parts)?;
        match self.fresh {
            None => self.drawn(alloc, origins, None),
            Some(u) => self.drawn(alloc, origins, Some(origins::total(&parts[..u as usize]))),
        }
    }

    fn drawn(
        &self,
        alloc: Global,
        origins: Vec<u32>,
        fresh: Option<u32>,
    ) -> Result<Structure, AllocError>
        requires size { length origins.items ≤ 256 }
        requires mark { IsMark (drawn origins.items fresh self.now) fresh }
        ensures value { IfOk result (λ s. s ≡ drawn origins.items fresh self.now) }
        ensures over { IfOk result (λ s. arities_of s ≡ arities_of self.now) }
        ensures kept { IfOk result IsStructure }
    {
        let drawing = Drawing::new(alloc, origins, self.size())?;
        Ok(Structure {
            table: self.table.drawn(alloc, &drawing)?,
            summaries: self.summaries.drawn(&drawing),
            fresh,
        })
    }

    /// The structure with a further individual, which is marked, where each row is one word.
    fn extended(&self, alloc: Global) -> Result<Structure, AllocError>
        requires size { self.now.size < 64 }
        requires mark { IsMark (with_new self.now) (Some self.now.size) }
        ensures value { IfOk result (λ s. s ≡ with_new self.now) }
        ensures over { IfOk result (λ s. arities_of s ≡ arities_of self.now) }
        ensures kept { IfOk result IsStructure }
    {
        let size = self.size();
        Ok(Structure {
            table: self.table.extended(alloc)?,
            summaries: self.summaries.extended(),
            fresh: Some(size),
        })
    }

    /// Orders by size, then by summaries, individual by individual, then by values, predicate by
    /// predicate and tuple by tuple in lexicographic order, with No < Half < Yes. Marks don't count.
    pub fn compare(&self, other: &Structure) -> Ordering
        ensures order { result ≡ structure_cmp self.now other.now }
        ensures equal { (result ≡ Ordering.Equal) ↔ (unmarked self.now ≡ unmarked other.now) }
    {
        self.order_to(other)
    }

    fn order_to(&self, other: &Structure) -> Ordering
        ensures { result ≡ structure_cmp self.now other.now }
    {
        let order = self.size().cmp(&other.size());
        if order != Ordering::Equal {
            return order;
        }
        let order = self.summaries.compare(&other.summaries);
        if order != Ordering::Equal {
            return order;
        }
        self.table.compare_values(&other.table)
    }

    /// A number that equal structures share, marks aside.
    pub fn signature(&self) -> u64
        ensures { result ≡ signature_of self.now }
    {
        self.table
            .mix(self.summary_row().mix(u64::from(self.size())))
    }
}

impl Table for Structure {
    ghost table = { table_of };

    fn size(&self) -> u32 {
        self.table.size()
    }

    fn get(&self, p: PredId, t: Tuple) -> K3 {
        self.table.get(p, t)
    }

    fn set(&mut self, p: PredId, t: Tuple, k: K3) {
        self.table.set(p, t, k);
    }
}

impl PartialEq for Structure {
    ghost eq = { eq_by_cmp structure_cmp };

    ghost laws = { partial_equiv_from_equiv (eq_by_cmp_equiv structure_cmp_total) };

    fn eq(&self, other: &Self) -> bool {
        self.compare(other) == Ordering::Equal
    }
}

impl Eq for Structure {
    ghost laws = { eq_by_cmp_equiv structure_cmp_total };
}

impl PartialOrd for Structure {
    ghost partial_cmp = { as_partial_cmp structure_cmp };

    ghost laws = { po structure_cmp_total (λ x y. refl) };

    fn partial_cmp(&self, other: &Self) -> Option<Ordering> {
        Some(self.compare(other))
    }
}

impl Ord for Structure {
    ghost cmp = { structure_cmp };

    ghost total = { structure_cmp_total };

    ghost matches_partial_cmp = { λ x y. refl };

    ghost matches_eq = { λ x y. refl };

    fn cmp(&self, other: &Self) -> Ordering {
        self.compare(other)
    }
}
