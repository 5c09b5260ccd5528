//! An evaluator that is bound to one structure.

ghost use Rattle.std.specs.Prelude.{ℕ, ◌≡◌, ◌<◌, ◌≤◌, ◌+◌, ◌-◌, ◌*◌, length, IfSome};
ghost use Rattle.tv_model.specs.Truth.{Assignment as Assigned};
ghost use Rattle.tv_quantifiers.specs.Rows.{IsPart, part_at};
ghost use Rattle.tv_structure_form.specs.StructureForm.{IsStructure};
ghost use Rattle.tv_model.specs.Form.{form_of, FExists};
ghost use Rattle.tv_model.specs.Valid.{IsFormulaOver};
ghost use Rattle.tv_structure_form.specs.StructureForm.{structure_of, arities_of};
ghost use Rattle.tv_eval_laws.specs.Value.{value};
ghost use Rattle.tv_eval.specs.Along.{IsWordAlong, IsWordOf, closed_values, values_along};
ghost use Rattle.tv_eval.specs.AssignmentForm.{assignment_of};
ghost use Rattle.tv_eval.specs.Bound.{bound_structure, bound_room};
ghost use Rattle.tv_eval.specs.EvaluatorForm.{with_one_back, with_one_out};
ghost use Rattle.tv_eval.specs.Formulas.{AreAssigned};
ghost use Rattle.tv_eval.specs.HoldsClosure.{HoldsClosure};
ghost use Rattle.tv_eval.specs.ScratchForm.{HasScratchFor};
ghost use Rattle.tv_eval.specs.Sound.{CoversValues};

use crate::Assignment;
use crate::kept::Kept;
use crate::scratch::Scratch;
use std::marker::Model;
use tv_kleene::K3;
use tv_model::{Formula, Var};
use tv_quantifiers::{Edges, Part, Relation};
use tv_row::{Row, Word};
use tv_struct::Structure;

/// An evaluator that is bound to one structure: a closure that depends on the structure alone is closed
/// once for all assignments under which it is asked.
///
/// It borrows the structure, so that this can't change meanwhile, and has the room of a scratch until it
/// gives it back.
#[derive(Drop)]
pub struct Evaluator<'s, 'a> {
    structure: &'s Structure,
    kept: Kept<'a>,
    rooms: Vec<Relation>,
    shared: Vec<Relation>,
    size: u32,
}

impl<'s, 'a> Model for Evaluator<'s, 'a> {
    ghost use Rattle.std.specs.Prelude.{◌≡◌, ◌-◌, All, length};
    ghost use Rattle.std.specs.Vec.{vec_len, vec_capacity};
    ghost use Rattle.tv_eval.specs.EvaluatorForm.{EvaluatorForm};
    ghost use Rattle.tv_eval.specs.Formulas.{sizes_of};
    ghost use Rattle.tv_eval.specs.Keeps.{HoldsClosures};

    ghost Value = { EvaluatorForm };

    ghost view = { λ e. record {
      structure = e.structure.now;
      room = record { levels = length e.rooms.items; size = e.size };
      spare = vec_capacity e.rooms - vec_len e.rooms;
    } };

    ghost invariant = { λ e. HoldsClosures e.structure.now e.kept e.shared.items
        × All (λ room. room ≡ e.size) (sizes_of e.rooms.items) };
}

impl<'s, 'a> Evaluator<'s, 'a> {
    /// An evaluator in the structure, with the scratch's room. Takes no memory.
    pub fn new(s: &'s Structure, scratch: &mut Scratch) -> Evaluator<'s, 'a>
        ensures structure { bound_structure result ≡ s.now }
        ensures room { bound_room result ≡ scratch.old }
    {
        let (rooms, shared, size) = scratch.take();
        Evaluator {
            structure: s,
            kept: Kept::new(),
            rooms,
            shared,
            size,
        }
    }

    /// Gives the room back.
    pub fn finish(self, scratch: &mut Scratch)
        ensures { scratch.new ≡ bound_room self.entry }
    {
        scratch.give(self.rooms, self.shared, self.size);
    }

    /// The value of the formula under the assignment. It lies above the formula's value in every
    /// structure that embeds in this one; so `Yes` means true in every heap that embeds, and `No` means
    /// false. Takes no memory.
    pub fn value(&mut self, f: &'a Formula, a: &Assignment) -> K3
        requires formula { IsFormulaOver (arities_of (bound_structure self.old)) (form_of f.now) }
        requires assigned { AreAssigned (bound_structure self.old).size a.now (form_of f.now) }
        requires fits { HasScratchFor (bound_room self.old) (form_of f.now) (bound_structure self.old).size }
        ensures exact { result ≡ value (structure_of (bound_structure self.old)) (assignment_of a.now)
            (form_of f.now) }
        ensures covers { CoversValues (form_of f.now) (structure_of (bound_structure self.old))
            (assignment_of a.now) result }
        ensures same { self.new ≡ self.old }
    {
        self.value_of(f, a)
    }

    /// The values of the formula for all individuals, put for the variable in turn, whatever it stood for.
    /// Each is exactly the value under that assignment. Takes no memory.
    pub fn row(&mut self, f: &'a Formula, v: Var, a: &Assignment) -> Row
        requires formula { IsFormulaOver (arities_of (bound_structure self.old))
            (FExists v.0 (form_of f.now)) }
        requires assigned { AreAssigned (bound_structure self.old).size a.now (FExists v.0 (form_of f.now)) }
        requires fits { HasScratchFor (bound_room self.old) (form_of f.now) (bound_structure self.old).size }
        ensures exact { result
            ≡ values_along (bound_structure self.old) (assignment_of a.now) v.0 (form_of f.now) }
        ensures same { self.new ≡ self.old }
    {
        self.row_of(f, v, a)
    }

    /// The values of the formula for the individuals from `64 * chunk` on, 64 or as many as there are, put
    /// for the variable in turn, whatever it stood for. Each is exactly the value under that assignment; what
    /// stands behind the last isn't told. Takes no memory.
    pub fn word(&mut self, f: &'a Formula, v: Var, chunk: u32, a: &Assignment) -> Word
        requires formula { IsFormulaOver (arities_of (bound_structure self.old))
            (FExists v.0 (form_of f.now)) }
        requires assigned { AreAssigned (bound_structure self.old).size a.now (FExists v.0 (form_of f.now)) }
        requires fits { HasScratchFor (bound_room self.old) (form_of f.now) (bound_structure self.old).size }
        requires chunk { 64 * chunk < (bound_structure self.old).size }
        ensures exact { IsWordAlong (bound_structure self.old) (assignment_of a.now) v.0 chunk
            (form_of f.now) result }
        ensures same { self.new ≡ self.old }
    {
        self.word_of(f, v, chunk, a)
    }

    /// The structure that it evaluates in.
    #[inline(always)]
    pub(crate) fn structure(&self) -> &'s Structure
        ensures { result.now ≡ self.now.structure }
    {
        self.structure
    }

    /// The number of the structure's individuals.
    #[inline(always)]
    pub(crate) fn size(&self) -> u32
        ensures size { result ≡ self.now.structure.size }
        ensures kept { IsStructure self.now.structure }
    {
        self.structure.size()
    }

    /// A part of the closed edges, if they are kept.
    pub(crate) fn kept_part(&mut self, part: Part, chunk: u32, edges: Edges<'a>) -> Option<Word>
        requires part { IsPart self.old.structure.size part }
        requires chunk { 64 * chunk < self.old.structure.size }
        ensures exact { (a : Assigned) → IfSome result (IsWordOf self.old.structure.size chunk
            (part_at part (closed_values self.old.structure a
            edges.entry.left.0 edges.entry.right.0 (form_of edges.entry.body.now)))) }
        ensures same { self.new ≡ self.old }
    {
        let size = self.structure.size();
        let closed = self.kept.find(edges, self.shared.as_slice())?;
        Some(closed.part(part, chunk, size))
    }

    /// Keeps the closed edges where there is a place for them.
    pub(crate) fn offer(&mut self, edges: Edges<'a>, a: &Assignment, closed: &mut Relation)
        requires body { IsFormulaOver (arities_of self.old.structure) (form_of edges.body.now) }
        requires closed { HoldsClosure self.old.structure (assignment_of a.now)
            edges.left.0 edges.right.0 (form_of edges.body.now) closed.old }
        ensures size { length closed.new ≡ length closed.old }
        ensures same { self.new ≡ self.old }
    {
        self.kept.offer(edges, closed, self.shared.as_mut_slice());
    }

    /// The value of the quantified formula under the assignment, if it is kept.
    #[inline(always)]
    pub(crate) fn kept_value(&mut self, f: &Formula, a: &Assignment) -> Option<K3>
        ensures value { IfSome result (λ k. k
            ≡ value (structure_of self.old.structure) (assignment_of a.now) (form_of f.now)) }
        ensures same { self.new ≡ self.old }
    {
        self.kept.value(f, a)
    }

    /// Counts a quantified formula that is asked for.
    #[inline(always)]
    pub(crate) fn turn(&mut self) -> usize
        ensures { self.new ≡ self.old }
    {
        self.kept.turn()
    }

    /// Keeps the value of the formula under the assignment, where many quantified formulas were asked for
    /// since then and at most one variable is free in it.
    #[inline(always)]
    pub(crate) fn offer_value(&mut self, f: &'a Formula, since: usize, a: &Assignment, k: K3)
        requires formula { IsFormulaOver (arities_of self.old.structure) (form_of f.now) }
        requires value { k ≡ value (structure_of self.old.structure) (assignment_of a.now) (form_of f.now) }
        ensures { self.new ≡ self.old }
    {
        self.kept.offer_value(f, since, a, k);
    }

    /// Takes a room out.
    pub(crate) fn take_room(&mut self) -> Relation
        requires { 0 < self.old.room.levels }
        ensures size { length result ≡ self.old.room.size }
        ensures taken { self.new ≡ with_one_out self.old }
    {
        self.rooms.pop().unwrap()
    }

    /// Puts a room back that was taken out.
    pub(crate) fn give_room(&mut self, room: Relation)
        requires size { length room ≡ self.old.room.size }
        requires spare { 0 < self.old.spare }
        ensures { self.new ≡ with_one_back self.old }
    {
        self.rooms.push_reserved(room);
    }
}

/// The value of the formula in the structure under the assignment. It lies above the formula's value in
/// every structure that embeds in this one; so `Yes` means true in every heap that embeds, and `No`
/// means false. Takes no memory.
pub fn eval(f: &Formula, s: &Structure, a: &Assignment, scratch: &mut Scratch) -> K3
    requires formula { IsFormulaOver (arities_of s.now) (form_of f.now) }
    requires assigned { AreAssigned s.now.size a.now (form_of f.now) }
    requires fits { HasScratchFor scratch.old (form_of f.now) s.now.size }
    ensures exact { result ≡ value (structure_of s.now) (assignment_of a.now) (form_of f.now) }
    ensures covers { CoversValues (form_of f.now) (structure_of s.now) (assignment_of a.now) result }
    ensures scratch { scratch.new ≡ scratch.old }
{
    let mut evaluator = Evaluator::new(s, scratch);
    let k = evaluator.value(f, a);
    evaluator.finish(scratch);
    k
}
