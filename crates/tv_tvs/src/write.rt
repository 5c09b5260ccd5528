//! Structures to their canonical texts.

ghost use Rattle.std.specs.Prelude.{ℕ, ◌≡◌, ◌++◌, ◌+◌, ◌*◌, ◌<◌, ◌≤◌, [], All, IfOk, OnOk, map};
ghost use Rattle.std.specs.List.{flat_map, range_with_len};
ghost use Rattle.std.specs.Prelude.{◌-◌, take, codes, Some, length, slice_get, slice_index_or};
ghost use Rattle.tv_kleene.specs.declared.K3.TheVariants.{No};
ghost use Rattle.tv_structure_form.specs.StructureForm.{IsOver, arities_of, value_at};
ghost use Rattle.tv_struct.specs.StructureRows.{HasArity, unary_row, row_at};
ghost use Rattle.tv_tvs.specs.Canonical.{canonical_text, comma_text, individuals};
ghost use Rattle.tv_tvs.specs.Canonical.{tuples, written_items, value_content, if_some, line_text};
ghost use Rattle.tv_tvs.specs.Canonical.{pred_text, preds_text, summaries_text};
ghost use Rattle.tv_tvs.specs.Rows.{row_text, pair_prefix, single_items, line_front, listed_name};

use crate::draft::Draft;
use crate::individuals::Individuals;
use crate::short::ShortText;
use std::alloc::{AllocError, Global};
use std::marker::Model;
use tv_kleene::K3;
use tv_model::{Pred, PredId, Vocab};
use tv_row::{Row, Word};
use tv_struct::{Structure, Tuple, is_nowhere};

/// The values of a row from the place `64 * chunk` on, and `No` where there are none.
#[inline(always)]
fn word_of(values: &Row, chunk: u32) -> Word
    requires { 64 * chunk < length values.now }
    ensures { (i : ℕ) → i < 64
        → slice_index_or result i No ≡ slice_index_or values.now (64 * chunk + i) No }
{
    let count = values.size() - 64 * chunk;
    values.word(chunk).first(count.min(64))
}

/// The values of a unary predicate from the individual `64 * chunk` on, and `No` where there is none.
#[inline(always)]
fn unary_word(s: &Structure, p: PredId, chunk: u32) -> Word
    requires arity { HasArity s.now p.0 1 }
    requires chunk { 64 * chunk < s.now.size }
    ensures { (i : ℕ) → i < 64
        → slice_index_or result i No ≡ slice_index_or (unary_row s.now p.0) (64 * chunk + i) No }
{
    let count = s.size() - 64 * chunk;
    s.unary_word(p, chunk).first(count.min(64))
}

/// The values of the pairs that begin with `u` from the individual `64 * chunk` on, and `No` where there is
/// none.
#[inline(always)]
fn pair_word(s: &Structure, p: PredId, u: u32, chunk: u32) -> Word
    requires arity { HasArity s.now p.0 2 }
    requires individual { u < s.now.size }
    requires chunk { 64 * chunk < s.now.size }
    ensures { (i : ℕ) → i < 64
        → slice_index_or result i No ≡ slice_index_or (row_at s.now p.0 u) (64 * chunk + i) No }
{
    let count = s.size() - 64 * chunk;
    s.word(p, u, chunk).first(count.min(64))
}

/// Puts down the items of the values.
fn put_row(out: &mut Draft, names: &Individuals, values: &Row) -> Result<(), AllocError>
    ensures { OnOk result (out.new ≡ out.old ++ row_text [] values.now) }
{
    for chunk in 0..values.size().div_ceil(64) {
        let word = word_of(values, chunk);
        out.put_word(names, &ShortText::of(b""), 64 * chunk, word)?;
    }
    Ok(())
}

/// Puts down the items of a unary predicate.
fn put_unary(
    out: &mut Draft,
    names: &Individuals,
    s: &Structure,
    p: PredId,
) -> Result<(), AllocError>
    requires { HasArity s.now p.0 1 }
    ensures { OnOk result (out.new ≡ out.old ++ row_text [] (unary_row s.now p.0)) }
{
    for chunk in 0..s.size().div_ceil(64) {
        let word = unary_word(s, p, chunk);
        out.put_word(names, &ShortText::of(b""), 64 * chunk, word)?;
    }
    Ok(())
}

/// Puts down the items of the pairs that begin with `u`.
fn put_pairs(
    out: &mut Draft,
    names: &Individuals,
    s: &Structure,
    p: PredId,
    u: u32,
) -> Result<(), AllocError>
    requires arity { HasArity s.now p.0 2 }
    requires individual { u < s.now.size }
    ensures { OnOk result (out.new ≡ out.old ++ row_text (pair_prefix u) (row_at s.now p.0 u)) }
{
    for chunk in 0..s.size().div_ceil(64) {
        let word = pair_word(s, p, u, chunk);
        out.put_word(names, names.first(u), 64 * chunk, word)?;
    }
    Ok(())
}

/// Puts down what stands in front of the items of a predicate's line.
fn put_front(out: &mut Draft, name: &[u8]) -> Result<(), AllocError>
    ensures { OnOk result (out.new ≡ out.old ++ line_front name.now) }
{
    out.put(&ShortText::of(b"  "))?;
    out.put_bytes(name)?;
    out.put(&ShortText::of(b" = {"))
}

/// Ends the line of a predicate, which began at `start`, and whose items begin at `from`; takes it back where
/// there are none.
fn end_line(out: &mut Draft, start: usize, from: usize) -> Result<(), AllocError>
    requires start { start ≤ from }
    requires from { from ≤ length out.old }
    ensures none { length out.old ≡ from → OnOk result (out.new ≡ take start out.old) }
    ensures some { from + 2 ≤ length out.old
        → OnOk result (out.new ≡ take (length out.old - 2) out.old ++ codes "}\n") }
{
    let len = out.len();
    if len - from < 2 {
        out.cut(start);
        return Ok(());
    }
    out.cut(len - 2);
    out.put(&ShortText::of(b"}\n"))
}

/// Appends the line of a nullary predicate; none where its value is `No`.
fn write_value(out: &mut Draft, name: &[u8], value: K3) -> Result<(), AllocError>
    ensures { OnOk result (out.new ≡ out.old ++ line_text name.now (value_content value)) }
{
    let ending = match value {
        K3::No => return Ok(()),
        K3::Half => ShortText::of(b" = 1/2\n"),
        K3::Yes => ShortText::of(b" = 1\n"),
    };
    out.put(&ShortText::of(b"  "))?;
    out.put_bytes(name)?;
    out.put(&ending)
}

/// Appends the line of the summaries; none where there is no summary.
fn write_summaries(out: &mut Draft, names: &Individuals, s: &Structure) -> Result<(), AllocError>
    ensures { OnOk result (out.new ≡ out.old ++ summaries_text s.now) }
{
    let start = out.len();
    put_front(out, b"sm")?;
    let from = out.len();
    put_row(out, names, &s.summary_row())?;
    end_line(out, start, from)
}

/// Appends the line of a unary predicate; none where it holds nowhere.
#[inline(never)]
fn write_found(
    out: &mut Draft,
    names: &Individuals,
    name: &[u8],
    s: &Structure,
    p: PredId,
) -> Result<(), AllocError>
    requires { slice_get (arities_of s.now) p.0 ≡ Some 1 }
    ensures { OnOk result (out.new
        ≡ out.old ++ line_text name.now (if_some (single_items (unary_row s.now p.0)))) }
{
    let start = out.len();
    put_front(out, name)?;
    let from = out.len();
    put_unary(out, names, s, p)?;
    end_line(out, start, from)
}

/// Does the same, and passes over one that holds nowhere at once, as most do in a program of many variables.
#[inline(always)]
fn write_unary(
    out: &mut Draft,
    names: &Individuals,
    name: &[u8],
    s: &Structure,
    p: PredId,
) -> Result<(), AllocError>
    requires { slice_get (arities_of s.now) p.0 ≡ Some 1 }
    ensures { OnOk result (out.new
        ≡ out.old ++ line_text name.now (if_some (single_items (unary_row s.now p.0)))) }
{
    if is_nowhere(s, p) {
        return Ok(());
    }
    write_found(out, names, name, s, p)
}

/// Appends the line of a binary predicate; none where each value is `No`.
#[inline(never)]
fn write_pairs(
    out: &mut Draft,
    names: &Individuals,
    name: &[u8],
    s: &Structure,
    p: PredId,
) -> Result<(), AllocError>
    requires { slice_get (arities_of s.now) p.0 ≡ Some 2 }
    ensures { OnOk result (out.new ≡ out.old
        ++ line_text name.now (if_some (written_items (value_at s.now p.0) (tuples 2 s.now.size)))) }
{
    let start = out.len();
    put_front(out, name)?;
    let from = out.len();
    for u in 0..s.size() {
        put_pairs(out, names, s, p, u)?;
    }
    end_line(out, start, from)
}

/// Appends the line of a predicate.
#[inline(always)]
fn write_pred(
    out: &mut Draft,
    names: &Individuals,
    s: &Structure,
    p: PredId,
    pred: &Pred,
) -> Result<(), AllocError>
    requires arity { slice_get (arities_of s.now) p.0 ≡ Some pred.now.arity }
    requires known { pred.now.arity ≤ 2 }
    ensures { OnOk result (out.new ≡ out.old ++ pred_text s.now p.0 pred.now) }
{
    let name = pred.name.as_slice();
    match pred.arity {
        0 => write_value(out, name, s.get(p, Tuple::Zero)),
        1 => write_unary(out, names, name, s, p),
        _ => write_pairs(out, names, name, s, p),
    }
}

/// Appends the lines of the predicates.
fn write_preds(
    out: &mut Draft,
    names: &Individuals,
    s: &Structure,
    preds: &[Pred],
) -> Result<(), AllocError>
    requires over { arities_of s.now ≡ map (λ pred. pred.arity) preds.now }
    requires arities { All (λ pred. pred.arity ≤ 2) preds.now }
    requires count { length preds.now ≤ 512 }
    ensures { OnOk result (out.new ≡ out.old ++ preds_text s.now 0 preds.now) }
{
    for p in 0..preds.len() {
        write_pred(out, names, s, PredId(p as u32), &preds[p])?;
    }
    Ok(())
}

/// Puts down the names of so many individuals, each with a comma behind it.
fn put_names(out: &mut Draft, names: &Individuals, count: u32) -> Result<(), AllocError>
    requires { count ≤ 256 }
    ensures { OnOk result (out.new ≡ out.old ++ flat_map listed_name (range_with_len 0 count)) }
{
    for u in 0..count {
        out.put(names.last(u))?;
    }
    Ok(())
}

/// Appends the names of so many individuals, with commas between them.
fn write_names(out: &mut Draft, names: &Individuals, count: u32) -> Result<(), AllocError>
    requires { count ≤ 256 }
    ensures { OnOk result (out.new ≡ out.old ++ comma_text (individuals count)) }
{
    put_names(out, names, count)?;
    if count > 0 {
        out.cut(out.len() - 2);
    }
    Ok(())
}

/// Appends the canonical text of a structure.
fn write_structure(
    out: &mut Draft,
    names: &Individuals,
    vocab: &Vocab,
    s: &Structure,
) -> Result<(), AllocError>
    requires over { IsOver vocab.now s.now }
    requires arities { All (λ pred. pred.arity ≤ 2) vocab.now.preds }
    requires count { length vocab.now.preds ≤ 512 }
    ensures { OnOk result (out.new ≡ out.old ++ canonical_text vocab.now s.now) }
{
    out.put(&ShortText::of(b"%n = {"))?;
    write_names(out, names, s.size())?;
    out.put_bytes(b"}\n%p = {\n")?;
    write_preds(out, names, s, vocab.preds.as_slice())?;
    write_summaries(out, names, s)?;
    out.put(&ShortText::of(b"}\n"))
}

/// A writer of structures, which has made the names of individuals once.
#[derive(Debug, Drop)]
pub struct StructureWriter {
    individuals: Individuals,
    draft: Draft,
}

impl Model for StructureWriter {
    ghost use Rattle.std.specs.Prelude.{ℕ, List};

    ghost Value = { List (List ℕ) };

    ghost view = { λ w. w.individuals };
}

impl StructureWriter {
    /// A writer. A contract sees the names of individuals.
    pub fn new(alloc: Global) -> Result<StructureWriter, AllocError> {
        let mut draft = Draft::new(alloc);
        let individuals = Individuals::new(alloc, &mut draft)?;
        Ok(StructureWriter { individuals, draft })
    }

    /// Appends the canonical text of a structure: its individuals as `i0`, `i1` and so on, a line for each
    /// predicate that isn't 0 everywhere, in declaration order, and one for the summaries. The mark of a
    /// fresh individual isn't written. At an error some of it may stand there.
    pub fn append(
        &mut self,
        out: &mut Vec<u8>,
        vocab: &Vocab,
        s: &Structure,
    ) -> Result<(), AllocError>
        requires over { IsOver vocab.now s.now }
        requires arities { All (λ pred. pred.arity ≤ 2) vocab.now.preds }
        requires count { length vocab.now.preds ≤ 512 }
        ensures { OnOk result (out.new.items ≡ out.old.items ++ canonical_text vocab.now s.now) }
    {
        self.draft.clear();
        write_structure(&mut self.draft, &self.individuals, vocab, s)?;
        out.extend_from_slice(self.draft.as_slice())
    }
}

/// Appends the canonical text of a structure, as a `StructureWriter` does. A caller that writes more than one
/// makes a `StructureWriter` once.
pub(crate) fn append_tvs(
    alloc: Global,
    out: &mut Vec<u8>,
    vocab: &Vocab,
    s: &Structure,
) -> Result<(), AllocError>
    requires over { IsOver vocab.now s.now }
    requires arities { All (λ pred. pred.arity ≤ 2) vocab.now.preds }
    requires count { length vocab.now.preds ≤ 512 }
    ensures { OnOk result (out.new.items ≡ out.old.items ++ canonical_text vocab.now s.now) }
{
    StructureWriter::new(alloc)?.append(out, vocab, s)
}

/// The canonical text of a structure, as `append_tvs` writes it.
pub fn write_tvs(alloc: Global, vocab: &Vocab, s: &Structure) -> Result<Vec<u8>, AllocError>
    requires over { IsOver vocab.now s.now }
    requires arities { All (λ pred. pred.arity ≤ 2) vocab.now.preds }
    requires count { length vocab.now.preds ≤ 512 }
    ensures { IfOk result (λ text. text.items ≡ canonical_text vocab.now s.now) }
{
    let mut out = Vec::new(alloc);
    append_tvs(alloc, &mut out, vocab, s)?;
    Ok(out)
}
