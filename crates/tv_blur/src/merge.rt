//! The structure in which the individuals of each class are one.

ghost use Rattle.std.specs.Prelude.{◌≡◌, ◌<◌, ℕ, None, All, false, length, IfOk};
ghost use Rattle.tv_structure_form.specs.StructureForm.{IsStructure, StructureForm, arities_of, summary_at};
ghost use Rattle.tv_struct.specs.StructureRows.{HasArity, summary_row};
ghost use Rattle.tv_blur.specs.Classes.{AreClasses, ChangesOnly, FitWord, HasMergedValues, HasMerged};
ghost use Rattle.tv_blur.specs.Classes.{IsBlank, IsBlankFrom};
ghost use Rattle.tv_blur.specs.Classes.{is_merged_summary, class_at};

use crate::class::Class;
use crate::values::{joined_rows, merged_row};
use crate::words::{fit_word, has_possible, joined_words, merged_in};
use std::alloc::{AllocError, Global};
use tv_kleene::K3;
use tv_model::PredId;
use tv_row::Row;
use tv_struct::{Structure, Tuple, is_nowhere};

/// The structure with one individual for each class, in their order, and joined values.
pub fn merged(alloc: Global, s: &Structure, classes: &[Class]) -> Result<Structure, AllocError>
    requires { AreClasses s.now classes.now }
    ensures merged { IfOk result (HasMerged classes.now s.now (length (arities_of s.now))) }
    ensures kept { IfOk result IsStructure }
{
    let mut t = Structure::of_no(alloc, s, classes.len() as u32)?;
    put_summaries(&mut t, s, classes);
    put_all(&mut t, s, classes);
    Ok(t)
}

fn put_summaries(t: &mut Structure, s: &Structure, classes: &[Class])
    requires classes { AreClasses s.now classes.now }
    requires size { t.old.size ≡ length classes.now }
    requires over { arities_of t.old ≡ arities_of s.now }
    requires fresh { t.old.fresh ≡ None }
    requires plain { (w : ℕ) → summary_at t.old w ≡ false }
    requires blank { IsBlankFrom 0 t.old }
    ensures merged { HasMerged classes.now s.now 0 t.new }
    ensures blank { IsBlankFrom 0 t.new }
{
    let _ = (t.size(), s.size());
    let summaries = s.summary_row();
    for (w, members) in classes.iter().enumerate() {
        if is_summary(&summaries, members) {
            t.set_summary(w as u32, true);
        }
    }
}

/// Whether the class is a summary, by the flags of all individuals.
fn is_summary(summaries: &Row, members: &Class) -> bool
    requires some { 0 < length members.now }
    requires within { All (λ u. u < length summaries.now) members.now }
    ensures { (s : StructureForm) → summaries.now ≡ summary_row s
        → result ≡ is_merged_summary s members.now }
{
    members.has_several()
        || match summaries.get(members.first()) {
            K3::No => false,
            K3::Half | K3::Yes => true,
        }
}

fn put_all(t: &mut Structure, s: &Structure, classes: &[Class])
    requires classes { AreClasses s.now classes.now }
    requires merged { HasMerged classes.now s.now 0 t.old }
    requires blank { IsBlankFrom 0 t.old }
    ensures merged { HasMerged classes.now s.now (length (arities_of s.now)) t.new }
    ensures kept { IsStructure t.new }
{
    for p in 0..s.pred_count() {
        put_values(t, s, classes, PredId(p));
    }
    let _ = t.size();
}

fn put_values(t: &mut Structure, s: &Structure, classes: &[Class], p: PredId)
    requires classes { AreClasses s.now classes.now }
    requires size { t.old.size ≡ length classes.now }
    requires over { arities_of t.old ≡ arities_of s.now }
    requires pred { p.0 < length (arities_of s.now) }
    requires blank { IsBlank p.0 t.old }
    ensures changes { ChangesOnly p.0 t.old t.new }
    ensures values { HasMergedValues classes.now s.now p.0 t.new }
{
    match s.arity(p) {
        0 => put_value(t, s, classes, p),
        1 => put_row(t, s, classes, p),
        _ => put_rows(t, s, classes, p),
    }
}

fn put_value(t: &mut Structure, s: &Structure, classes: &[Class], p: PredId)
    requires over { arities_of t.old ≡ arities_of s.now }
    requires arity { HasArity s.now p.0 0 }
    requires blank { IsBlank p.0 t.old }
    ensures changes { ChangesOnly p.0 t.old t.new }
    ensures values { HasMergedValues classes.now s.now p.0 t.new }
{
    let _ = t.size();
    match s.get(p, Tuple::Zero) {
        K3::No => {}
        k => t.set(p, Tuple::Zero, k),
    }
}

fn put_row(t: &mut Structure, s: &Structure, classes: &[Class], p: PredId)
    requires classes { AreClasses s.now classes.now }
    requires size { t.old.size ≡ length classes.now }
    requires over { arities_of t.old ≡ arities_of s.now }
    requires arity { HasArity s.now p.0 1 }
    requires blank { IsBlank p.0 t.old }
    ensures changes { ChangesOnly p.0 t.old t.new }
    ensures values { HasMergedValues classes.now s.now p.0 t.new }
{
    let _ = t.size();
    if fit_word(s, classes) {
        put_word(t, s, classes, p);
    } else if !is_nowhere(s, p) {
        t.set_unary_row(p, &merged_row(&s.unary_row(p), classes));
    }
}

/// Puts the merged values of a unary predicate, which stand in one word, for each class.
fn put_word(t: &mut Structure, s: &Structure, classes: &[Class], p: PredId)
    requires classes { AreClasses s.now classes.now }
    requires fit { FitWord s.now classes.now }
    requires size { t.old.size ≡ length classes.now }
    requires over { arities_of t.old ≡ arities_of s.now }
    requires arity { HasArity s.now p.0 1 }
    requires blank { IsBlank p.0 t.old }
    ensures changes { ChangesOnly p.0 t.old t.new }
    ensures values { HasMergedValues classes.now s.now p.0 t.new }
{
    let _ = t.size();
    let word = s.unary_word(p, 0);
    if has_possible(word, s.size()) {
        t.set_unary_row(p, &merged_in(word, classes));
    }
}

fn put_rows(t: &mut Structure, s: &Structure, classes: &[Class], p: PredId)
    requires classes { AreClasses s.now classes.now }
    requires size { t.old.size ≡ length classes.now }
    requires over { arities_of t.old ≡ arities_of s.now }
    requires arity { HasArity s.now p.0 2 }
    requires blank { IsBlank p.0 t.old }
    ensures changes { ChangesOnly p.0 t.old t.new }
    ensures values { HasMergedValues classes.now s.now p.0 t.new }
{
    if fit_word(s, classes) {
        put_words(t, s, classes, p);
    } else {
        put_more_rows(t, s, classes, p);
    }
}

/// Puts the merged values of a binary predicate for each two classes, row by row.
fn put_more_rows(t: &mut Structure, s: &Structure, classes: &[Class], p: PredId)
    requires classes { AreClasses s.now classes.now }
    requires size { t.old.size ≡ length classes.now }
    requires over { arities_of t.old ≡ arities_of s.now }
    requires arity { HasArity s.now p.0 2 }
    ensures changes { ChangesOnly p.0 t.old t.new }
    ensures values { HasMergedValues classes.now s.now p.0 t.new }
{
    for (w, members) in classes.iter().enumerate() {
        let joined = joined_rows(s, p, members);
        t.set_row(p, w as u32, &merged_row(&joined, classes));
    }
}

/// Puts the merged values of a binary predicate for each two classes, where each row is one word.
fn put_words(t: &mut Structure, s: &Structure, classes: &[Class], p: PredId)
    requires classes { AreClasses s.now classes.now }
    requires fit { FitWord s.now classes.now }
    requires size { t.old.size ≡ length classes.now }
    requires over { arities_of t.old ≡ arities_of s.now }
    requires arity { HasArity s.now p.0 2 }
    requires blank { IsBlank p.0 t.old }
    ensures changes { ChangesOnly p.0 t.old t.new }
    ensures values { HasMergedValues classes.now s.now p.0 t.new }
{
    for (w, members) in classes.iter().enumerate() {
        let joined = joined_words(s, p, members);
        if has_possible(joined, s.size()) {
            t.set_row(p, w as u32, &merged_in(joined, classes));
        }
    }
}
