//! A relation of individuals with three truth values, and its transitive closure.

ghost use Rattle.std.specs.Prelude.{ℕ, ◌≡◌, ◌≢◌, ◌<◌, ◌≤◌, ◌*◌, [], length, IfOk, IsTrue};
ghost use Rattle.std.specs.Prelude.{slice_index_or, slice_set};
ghost use Rattle.std.specs.List.{range_with_len};
ghost use Rattle.tv_kleene.specs.declared.K3.TheVariants.{No};
ghost use Rattle.tv_row.specs.Places.{entry_in};
ghost use Rattle.tv_eval_laws.specs.Value.{best_walk};
ghost use Rattle.tv_quantifiers.specs.Words.{IsWordOf};
ghost use Rattle.tv_quantifiers.specs.Rows.{IsSquare, IsPart, through, part_at};

use std::alloc::{AllocError, Global};
use std::marker::Model;
use tv_kleene::K3;
use tv_row::{Row, Word};

/// A row of values for each of some individuals: those of the pairs that it is the first of.
#[derive(Debug, Drop)]
pub struct Relation {
    rows: Vec<Row>,
}

impl Model for Relation {
    ghost use Rattle.std.specs.Prelude.{List};
    ghost use Rattle.tv_kleene.specs.declared.K3.{K3};

    ghost Value = { List (List K3) };

    ghost view = { λ r. r.rows.items };
}

/// Some of a relation's values, one for each individual.
#[derive(Clone, Copy, Debug)]
pub enum Part {
    /// Those of the pairs with this first individual.
    From(u32),
    /// Those of the pairs with this second individual.
    To(u32),
    /// Those of the pairs of an individual with itself.
    Diagonal,
}

impl Relation {
    /// Room for a relation of up to `size` individuals.
    pub fn new(alloc: Global, size: usize) -> Result<Relation, AllocError>
        ensures { IfOk result (λ r. length r ≡ size) }
    {
        let rows = vec![in alloc; Row::of(0, K3::No); size]?;
        Ok(Relation { rows })
    }

    /// The number of individuals that there is room for.
    pub fn size(&self) -> usize
        ensures { result ≡ length self.now }
    {
        self.rows.len()
    }

    /// Puts the row of `u` in its place.
    pub fn put_row(&mut self, u: u32, row: &Row)
        requires { u < length self.old }
        ensures { self.new ≡ slice_set self.old u row.now }
    {
        self.rows[u as usize] = *row;
    }

    /// The values from `u` to each individual.
    fn row(&self, u: u32) -> Row
        requires { u < length self.now }
        ensures { result ≡ slice_index_or self.now u [] }
    {
        self.rows[u as usize]
    }

    /// The value from `u` to `w`.
    fn get(&self, u: u32, w: u32) -> K3
        requires from { u < length self.now }
        requires to { w < length (slice_index_or self.now u []) }
        ensures { result ≡ entry_in self.now u w }
    {
        self.rows[u as usize].get(w)
    }

    /// The part's values among the first `size` individuals, from `64 * chunk` on: 64, or as many as there
    /// are.
    pub fn part(&self, part: Part, chunk: u32, size: u32) -> Word
        requires square { IsSquare size self.now }
        requires size { size ≤ 256 }
        requires part { IsPart size part }
        requires chunk { 64 * chunk < size }
        ensures { IsWordOf size chunk (part_at part (entry_in self.now)) result }
    {
        if let Part::From(u) = part {
            return self.rows[u as usize].word(chunk);
        }
        let mut values = Word::of(64, K3::No);
        for i in 0..(size - 64 * chunk).min(64) {
            values = values.with(i, self.part_value(part, 64 * chunk + i, size));
        }
        values
    }

    /// The part's value at the individual `x`.
    fn part_value(&self, part: Part, x: u32, size: u32) -> K3
        requires square { IsSquare size self.now }
        requires part { IsPart size part }
        requires individual { x < size }
        ensures { result ≡ part_at part (entry_in self.now) x }
    {
        match part {
            Part::From(u) => self.get(u, x),
            Part::To(w) => self.get(x, w),
            Part::Diagonal => self.get(x, x),
        }
    }

    /// Makes each value of the first `size` individuals that of a best walk past them: the greatest,
    /// over all walks of one edge or more, of the least value of an edge.
    pub fn close(&mut self, size: u32)
        requires { IsSquare size self.old }
        ensures closed { (u w : ℕ) → u < size → w < size
            → entry_in self.new u w ≡ best_walk (entry_in self.old) (range_with_len 0 size) u w }
        ensures square { IsSquare size self.new }
        ensures size { length self.new ≡ length self.old }
    {
        let mut first = size;
        while first > 0 {
            first -= 1;
            self.allow(first, size);
        }
    }

    /// Lets all walks among the first `size` individuals pass through `stop` too.
    fn allow(&mut self, stop: u32, size: u32)
        requires stop { stop < size }
        requires square { IsSquare size self.old }
        ensures value { (u w : ℕ) → u < size → w < size
            → entry_in self.new u w ≡ through (entry_in self.old) stop u w }
        ensures square { IsSquare size self.new }
        ensures size { length self.new ≡ length self.old }
    {
        if self.is_bare(stop) {
            return;
        }
        for u in 0..size {
            self.extend(u, stop, size);
        }
    }

    /// Whether each value from `u` to an individual is `No`.
    fn is_bare(&self, u: u32) -> bool
        requires { u < length self.now }
        ensures { IsTrue result → (w : ℕ) → w < length (slice_index_or self.now u [])
            → entry_in self.now u w ≡ No }
    {
        self.rows[u as usize].next_possible(0).is_none()
    }

    /// Lets the walks from `u` pass through `stop` too.
    fn extend(&mut self, u: u32, stop: u32, size: u32)
        requires from { u < size }
        requires stop { stop < size }
        requires square { IsSquare size self.old }
        ensures row { (w : ℕ) → w < size → entry_in self.new u w ≡ through (entry_in self.old) stop u w }
        ensures others { (v w : ℕ) → v ≢ u → entry_in self.new v w ≡ entry_in self.old v w }
        ensures square { IsSquare size self.new }
        ensures size { length self.new ≡ length self.old }
    {
        let k = self.get(u, stop);
        if k == K3::No {
            return;
        }
        let row = self.row(u);
        let past = self.row(stop).capped(k);
        self.put_row(u, &row.or(&past));
    }
}
