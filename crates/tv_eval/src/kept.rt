//! What depends on the structure alone: a closure is closed when it is first met, and read from then on; so
//! are values of quantified formulas that took long.

ghost use Rattle.std.specs.Prelude.{ℕ, ◌≡◌, ◌≢◌, ◌<◌, ◌+◌, ◌↔◌, ◌⊎◌, List, [], length, IsTrue, IfSome};
ghost use Rattle.std.specs.Prelude.{◌∷◌, IfNone};
ghost use Rattle.std.specs.Prelude.{Some, min, slice_index_or, slice_set, unwrap_or};
ghost use Rattle.tv_kleene.specs.declared.K3.{K3};
ghost use Rattle.tv_model.specs.Form.{form_of, FAtom, IsFree};
ghost use Rattle.tv_model.specs.Truth.{Assignment};
ghost use Rattle.tv_eval_laws.specs.Value.{value};
ghost use Rattle.tv_eval.specs.AssignmentForm.{assignment_of};
ghost use Rattle.tv_structure_form.specs.StructureForm.{StructureForm, structure_of, arities_of};
ghost use Rattle.tv_model.specs.Valid.{IsFormulaOver};
ghost use Rattle.tv_eval.specs.HoldsClosure.{HoldsClosure};
ghost use Rattle.tv_eval.specs.Keeps.{HoldsClosures, StandsAt, HasOnlyOwn, HasPlace};

use std::mem;
use tv_kleene::K3;
use tv_model::{Formula, PredId, Terms, Var};
use tv_quantifiers::{Edges, Parts, Relation, are_same, has_outer, lone};

/// How many closures are kept, at most.
pub const PLACES: usize = 8;

/// Whose closed edges are kept: the relation at a place holds those of the closure there. Where all places
/// are taken the last one makes room, so that a closure is at hand while the one around it is filled.
#[derive(Drop)]
pub struct Kept<'f> {
    closures: [Option<Edges<'f>>; 8],
    next: usize,
    parts: Parts<'f>,
}

impl<'f> Kept<'f> {
    /// Nothing is kept.
    pub fn new() -> Kept<'f>
        ensures kept { (s : StructureForm) (rooms : List (List (List K3))) → HoldsClosures s result rooms }
        ensures next { result.next ≡ 0 }
    {
        Kept {
            closures: [None; 8],
            next: 0,
            parts: Parts::new(),
        }
    }

    /// The closed edges, if they are kept.
    pub fn find<'r>(&mut self, edges: Edges<'_>, rooms: &'r [Relation]) -> Option<&'r Relation>
        ensures held { (s : StructureForm) (a : Assignment) → HoldsClosures s self.old rooms.now
            → IfSome result (λ r. HoldsClosure s a edges.entry.left.0 edges.entry.right.0
            (form_of edges.entry.body.now) r.now) }
        ensures none { IfNone result ((k : ℕ) → k < 8 → k < length rooms.now
            → ¬ StandsAt self.old.closures k edges.entry.left.0 edges.entry.right.0
            (form_of edges.entry.body.now)) }
        ensures same { self.new ≡ self.old }
    {
        match place(&mut self.closures[..], edges) {
            None => None,
            Some(k) => {
                if k >= rooms.len() {
                    return None;
                }
                Some(&rooms[k])
            }
        }
    }

    /// The value of the quantified formula under the assignment, if it is kept.
    #[inline(always)]
    pub fn value(&mut self, f: &Formula, a: &crate::Assignment) -> Option<K3>
        ensures value { IfSome result (λ k. (s : StructureForm) (rooms : List (List (List K3)))
            → HoldsClosures s self.old rooms
            → k ≡ value (structure_of s) (assignment_of a.now) (form_of f.now)) }
        ensures same { self.new ≡ self.old }
    {
        let v = self.parts.variable(f)?;
        self.parts.value(f, v, a.at(v))
    }

    /// Counts a quantified formula that is asked for.
    #[inline(always)]
    pub fn turn(&mut self) -> usize
        ensures { (s : StructureForm) (rooms : List (List (List K3))) → HoldsClosures s self.old rooms
            → HoldsClosures s self.new rooms }
    {
        self.parts.turn()
    }

    /// Keeps the value of the formula under the assignment, where many quantified formulas were asked for
    /// since then and at most one variable is free in it.
    #[inline(always)]
    pub fn offer_value(&mut self, f: &'f Formula, since: usize, a: &crate::Assignment, k: K3)
        ensures { (s : StructureForm) (rooms : List (List (List K3))) → HoldsClosures s self.old rooms
            → IsFormulaOver (arities_of s) (form_of f.now)
            → k ≡ value (structure_of s) (assignment_of a.now) (form_of f.now)
            → HoldsClosures s self.new rooms }
    {
        if self.parts.took_long(since) {
            if let Some(v) = lone(f) {
                self.parts.keep(f, v, a.at(v), k);
            }
        }
    }

    /// Keeps the closed edges where only the closure's own variables are free in its body, and the next place
    /// has their size: they change places with the relation there.
    pub fn offer(&mut self, edges: Edges<'f>, closed: &mut Relation, rooms: &mut [Relation])
        ensures kept { (s : StructureForm) (a : Assignment) → HoldsClosures s self.old rooms.old
            → IsFormulaOver (arities_of s) (form_of edges.entry.body.now)
            → HoldsClosure s a edges.entry.left.0 edges.entry.right.0
            (form_of edges.entry.body.now) closed.old
            → HoldsClosures s self.new rooms.new }
        ensures size { length closed.new ≡ length closed.old }
        ensures closures { HasPlace self.old edges.entry closed.old rooms.old
            → self.new.closures ≡ slice_set self.old.closures self.old.next (Some edges.entry) }
        ensures next { HasPlace self.old edges.entry closed.old rooms.old
            → self.new.next ≡ min (self.old.next + 1) 7 }
        ensures swapped { HasPlace self.old edges.entry closed.old rooms.old
            → (closed.new ≡ slice_index_or rooms.old self.old.next [])
            × (rooms.new ≡ slice_set rooms.old self.old.next closed.old) }
        ensures unchanged { ¬ HasPlace self.old edges.entry closed.old rooms.old
            → (self.new ≡ self.old) × (closed.new ≡ closed.old) × (rooms.new ≡ rooms.old) }
    {
        let place = self.next;
        if place >= PLACES || place >= rooms.len() || !is_closed(edges) {
            return;
        }
        let room = &mut rooms[place];
        if room.size() != closed.size() {
            return;
        }
        mem::swap(room, closed);
        let places = &mut self.closures[..];
        places[place] = Some(edges);
        self.next = (place + 1).min(PLACES - 1);
    }
}

/// The first place where the closure stands.
fn place(closures: &mut [Option<Edges<'_>>], edges: Edges<'_>) -> Option<usize>
    ensures some { IfSome result (λ k. (k < length closures.old) × StandsAt closures.old k
        edges.entry.left.0 edges.entry.right.0 (form_of edges.entry.body.now)) }
    ensures none { (j : ℕ) → j < unwrap_or result (length closures.old) → ¬ StandsAt closures.old j
        edges.entry.left.0 edges.entry.right.0 (form_of edges.entry.body.now) }
    ensures same { closures.new ≡ closures.old }
{
    for k in 0..closures.len() {
        if stands_at(closures, k, edges) {
            return Some(k);
        }
    }
    None
}

fn stands_at(closures: &mut [Option<Edges<'_>>], k: usize, edges: Edges<'_>) -> bool
    requires { k < length closures.old }
    ensures stands { IsTrue result ↔ StandsAt closures.old k edges.entry.left.0 edges.entry.right.0
        (form_of edges.entry.body.now) }
    ensures same { closures.new ≡ closures.old }
{
    match closures[k] {
        None => false,
        Some(other) => are_same(other, edges),
    }
}

/// Whether the variable is one of the closure's own two.
fn is_own(edges: Edges<'_>, v: Var) -> bool
    ensures { IsTrue result → (v.0 ≡ edges.entry.left.0) ⊎ (v.0 ≡ edges.entry.right.0) }
{
    v.0 == edges.left.0 || v.0 == edges.right.0
}

/// Whether the body is an atom of the closure's own variables, as in most texts.
fn is_own_atom(edges: Edges<'_>) -> bool
    ensures { IsTrue result
        → HasOnlyOwn edges.entry.left.0 edges.entry.right.0 (form_of edges.entry.body.now) }
{
    match edges.body {
        Formula::Atom(_, Terms::Two(x, y)) => is_own(edges, *x) && is_own(edges, *y),
        _ => false,
    }
}

/// The predicate whose rows the edges are, if they are those of an atom.
pub fn row_atom(edges: Edges<'_>) -> Option<PredId>
    ensures { IfSome result (λ pred. (form_of edges.entry.body.now
        ≡ FAtom pred.0 (edges.entry.left.0 ∷ edges.entry.right.0 ∷ []))
        × (edges.entry.left.0 ≢ edges.entry.right.0)) }
{
    match edges.body {
        Formula::Atom(pred, Terms::Two(x, y)) => {
            if x.0 != edges.left.0 || y.0 != edges.right.0 || x.0 == y.0 {
                return None;
            }
            Some(*pred)
        }
        _ => None,
    }
}

/// Whether no variable but the closure's own two stands free in its body.
fn is_closed(edges: Edges<'_>) -> bool
    ensures { IsTrue result
        ↔ HasOnlyOwn edges.entry.left.0 edges.entry.right.0 (form_of edges.entry.body.now) }
{
    if is_own_atom(edges) {
        return true;
    }
    for v in 0..32 {
        if has_outer(edges, v) {
            return false;
        }
    }
    true
}
