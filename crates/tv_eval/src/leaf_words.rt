//! The values of a formula without parts for 64 of the individuals that one variable may stand for.

ghost use Rattle.std.specs.Prelude.{◌≡◌, ◌≤◌, ◌<◌, ◌*◌, ◌-◌, ℕ, [], ◌∷◌, min, ◌==◌, if◌then◌else◌, IfSome};
ghost use Rattle.std.specs.Prelude.{length};
ghost use Rattle.tv_kleene.specs.declared.K3.TheVariants.{No};
ghost use Rattle.tv_model.specs.Form.{form_of, vars_of, FAtom, FExists, FIsNew, FNot, FSame};
ghost use Rattle.tv_model.specs.Valid.{IsFormulaOver};
ghost use Rattle.tv_structure_form.specs.StructureForm.{arities_of, structure_of, value_at};
ghost use Rattle.tv_struct.specs.StructureRows.{HasArity};
ghost use Rattle.tv_row.specs.Places.{entry_in};
ghost use Rattle.tv_quantifiers.specs.Rows.{IsSquare};
ghost use Rattle.tv_eval_laws.specs.Value.{mark_value, same_value};
ghost use Rattle.tv_eval.specs.Along.{IsWordAlong, IsWordOf};
ghost use Rattle.tv_eval.specs.AssignmentForm.{assignment_of};
ghost use Rattle.tv_eval.specs.CanEvaluate.{CanEvaluate};
ghost use Rattle.tv_eval.specs.Formulas.{AreAssigned};

use crate::Assignment;
use crate::leaves::{atom, is_new, same};
use tv_kleene::K3;
use tv_model::{Formula, PredId, Terms, Var};
use tv_quantifiers::Relation;
use tv_row::Word;
use tv_struct::{Structure, Tuple};

/// How many words hold a value for each of that many individuals.
pub fn chunks(size: u32) -> u32
    ensures each { (chunk : ℕ) → chunk < result → 64 * chunk < size }
    ensures all { size ≤ 64 * result }
{
    size.div_ceil(64)
}

/// How many of that many individuals a word has values for.
#[inline(always)]
pub fn places(size: u32, chunk: u32) -> u32
    requires { 64 * chunk < size }
    ensures value { result ≡ min 64 (size - 64 * chunk) }
    ensures small { result ≤ 64 }
{
    (size - 64 * chunk).min(64)
}

/// The same value for all individuals.
#[inline(always)]
pub fn constant_word(k: K3) -> Word
    ensures { (n chunk : ℕ) → IsWordOf n chunk (λ _. k) result }
{
    Word::of(64, k)
}

/// Whether the formula is a literal: a hint, of which nothing is promised.
#[inline(always)]
pub fn is_literal(f: &Formula) -> bool {
    match f {
        Formula::Not(g) => is_leaf(g),
        _ => is_leaf(f),
    }
}

#[inline(always)]
fn is_leaf(f: &Formula) -> bool {
    matches!(
        f,
        Formula::Atom(_, _) | Formula::IsNew(_) | Formula::Same(_, _)
    )
}

/// The values of a literal: an atom, an equality or a mark, or the negation of one; none for other formulas.
#[inline(always)]
pub fn literal_word(f: &Formula, v: Var, chunk: u32, s: &Structure, a: &Assignment) -> Option<Word>
    requires formula { IsFormulaOver (arities_of s.now) (FExists v.0 (form_of f.now)) }
    requires assigned { AreAssigned s.now.size a.now (FExists v.0 (form_of f.now)) }
    requires chunk { 64 * chunk < s.now.size }
    ensures { IfSome result (λ word.
        IsWordAlong s.now (assignment_of a.now) v.0 chunk (form_of f.now) word) }
{
    match f {
        Formula::Atom(pred, terms) => Some(atom_word(*pred, terms, v, chunk, s, a)),
        Formula::IsNew(w) => Some(new_word(*w, v, chunk, s, a)),
        Formula::Same(x, y) => Some(same_word(*x, *y, v, chunk, s, a)),
        Formula::Not(g) => negated_word(g, v, chunk, s, a),
        _ => None,
    }
}

/// The values of a formula's negation, if it is an atom, an equality or a mark.
#[inline(always)]
fn negated_word(f: &Formula, v: Var, chunk: u32, s: &Structure, a: &Assignment) -> Option<Word>
    requires formula { IsFormulaOver (arities_of s.now) (FExists v.0 (form_of f.now)) }
    requires assigned { AreAssigned s.now.size a.now (FExists v.0 (form_of f.now)) }
    requires chunk { 64 * chunk < s.now.size }
    ensures { IfSome result (λ word.
        IsWordAlong s.now (assignment_of a.now) v.0 chunk (FNot (form_of f.now)) word) }
{
    let word = match f {
        Formula::Atom(pred, terms) => atom_word(*pred, terms, v, chunk, s, a),
        Formula::IsNew(w) => new_word(*w, v, chunk, s, a),
        Formula::Same(x, y) => same_word(*x, *y, v, chunk, s, a),
        _ => return None,
    };
    Some(word.not(places(s.size(), chunk)))
}

/// The predicate's values, with `v` put for individuals in its terms.
pub fn atom_word(
    pred: PredId,
    terms: &Terms,
    v: Var,
    chunk: u32,
    s: &Structure,
    a: &Assignment,
) -> Word
    requires parts { CanEvaluate s.now a.now [] (FExists v.0 (FAtom pred.0 (vars_of terms.now))) }
    requires chunk { 64 * chunk < s.now.size }
    ensures { IsWordAlong s.now (assignment_of a.now) v.0 chunk (FAtom pred.0 (vars_of terms.now)) result }
{
    match terms {
        Terms::Zero => constant_word(s.get(pred, Tuple::Zero)),
        Terms::One(x) => one_word(pred, *x, v, chunk, s, a),
        Terms::Two(x, y) => two_word(pred, *x, *y, v, chunk, s, a),
    }
}

fn one_word(pred: PredId, x: Var, v: Var, chunk: u32, s: &Structure, a: &Assignment) -> Word
    requires parts { CanEvaluate s.now a.now [] (FExists v.0 (FAtom pred.0 (x.0 ∷ []))) }
    requires chunk { 64 * chunk < s.now.size }
    ensures { IsWordAlong s.now (assignment_of a.now) v.0 chunk (FAtom pred.0 (x.0 ∷ [])) result }
{
    if x.0 == v.0 {
        return s.unary_word(pred, chunk);
    }
    constant_word(s.get(pred, Tuple::One(a.at(x))))
}

fn two_word(pred: PredId, x: Var, y: Var, v: Var, chunk: u32, s: &Structure, a: &Assignment) -> Word
    requires parts { CanEvaluate s.now a.now [] (FExists v.0 (FAtom pred.0 (x.0 ∷ y.0 ∷ []))) }
    requires chunk { 64 * chunk < s.now.size }
    ensures { IsWordAlong s.now (assignment_of a.now) v.0 chunk (FAtom pred.0 (x.0 ∷ y.0 ∷ [])) result }
{
    if x.0 == v.0 {
        if y.0 == v.0 {
            return diagonal(pred, chunk, s);
        }
        return column(pred, a.at(y), chunk, s);
    }
    if y.0 == v.0 {
        return s.word(pred, a.at(x), chunk);
    }
    constant_word(s.get(pred, Tuple::Two(a.at(x), a.at(y))))
}

/// The binary predicate's values at the pairs with this second individual.
#[inline(never)]
fn column(pred: PredId, w: u32, chunk: u32, s: &Structure) -> Word
    requires arity { HasArity s.now pred.0 2 }
    requires individual { w < s.now.size }
    requires chunk { 64 * chunk < s.now.size }
    ensures { IsWordOf s.now.size chunk (λ u. value_at s.now pred.0 (u ∷ w ∷ [])) result }
{
    s.column_word(pred, w, chunk)
}

/// The binary predicate's values at the pairs of an individual with itself.
#[inline(never)]
fn diagonal(pred: PredId, chunk: u32, s: &Structure) -> Word
    requires arity { HasArity s.now pred.0 2 }
    requires chunk { 64 * chunk < s.now.size }
    ensures { IsWordOf s.now.size chunk (λ u. value_at s.now pred.0 (u ∷ u ∷ [])) result }
{
    let mut values = Word::of(64, K3::No);
    for i in 0..places(s.size(), chunk) {
        let u = 64 * chunk + i;
        values = values.with(i, s.get(pred, Tuple::Two(u, u)));
    }
    values
}

/// Whether `w` stands for the fresh individual, with `v` put for individuals.
pub fn new_word(w: Var, v: Var, chunk: u32, s: &Structure, a: &Assignment) -> Word
    ensures { IsWordAlong s.now (assignment_of a.now) v.0 chunk (FIsNew w.0) result }
{
    if w.0 == v.0 {
        return fresh_word(chunk, s);
    }
    constant_word(is_new(s, a.at(w)))
}

/// Whether each individual is the fresh one.
fn fresh_word(chunk: u32, s: &Structure) -> Word
    ensures { IsWordOf s.now.size chunk (mark_value s.now.fresh) result }
{
    match s.fresh() {
        None => Word::of(64, K3::No),
        Some(u) => alone_at(u, K3::Yes, chunk),
    }
}

/// The value `k` at the individual `u`, and `No` at all others.
#[inline(always)]
fn alone_at(u: u32, k: K3, chunk: u32) -> Word
    ensures { (n : ℕ) → IsWordOf n chunk (λ w. if w == u then k else No) result }
{
    let none = Word::of(64, K3::No);
    if u / 64 != chunk {
        return none;
    }
    none.with(u % 64, k)
}

/// Whether `x` and `y` stand for one cell, with `v` put for individuals.
pub fn same_word(x: Var, y: Var, v: Var, chunk: u32, s: &Structure, a: &Assignment) -> Word
    requires parts { CanEvaluate s.now a.now [] (FExists v.0 (FSame x.0 y.0)) }
    requires chunk { 64 * chunk < s.now.size }
    ensures { IsWordAlong s.now (assignment_of a.now) v.0 chunk (FSame x.0 y.0) result }
{
    if x.0 == v.0 {
        if y.0 == v.0 {
            let count = places(s.size(), chunk);
            let summaries = s.summary_row().word(chunk);
            return summaries.not(count);
        }
        return same_as(a.at(y), chunk, s);
    }
    if y.0 == v.0 {
        return same_as(a.at(x), chunk, s);
    }
    constant_word(same(s, a.at(x), a.at(y)))
}

/// Whether each individual is one cell with `u`.
pub fn same_as(u: u32, chunk: u32, s: &Structure) -> Word
    requires { u < s.now.size }
    ensures { IsWordOf s.now.size chunk (λ w. same_value (structure_of s.now) w u) result }
{
    alone_at(u, same(s, u, u), chunk)
}

/// Puts the rows of the binary predicate into the relation.
pub fn put_rows(pred: PredId, s: &Structure, relation: &mut Relation)
    requires arity { HasArity s.now pred.0 2 }
    requires size { s.now.size ≤ length relation.old }
    ensures edges { (u w : ℕ) → u < s.now.size → w < s.now.size
        → entry_in relation.new u w ≡ value_at s.now pred.0 (u ∷ w ∷ []) }
    ensures square { IsSquare s.now.size relation.new }
    ensures size { length relation.new ≡ length relation.old }
{
    for u in 0..s.size() {
        relation.put_row(u, &s.row(pred, u));
    }
}
