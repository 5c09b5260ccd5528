//! The lines that a structure lacks.

ghost use Rattle.std.specs.Prelude.{◌≡◌, ◌<◌, ◌≤◌, ◌++◌, ◌∷◌, [], All, OnOk, IfOk, length, map, codes};
ghost use Rattle.std.specs.List.{suffix_len};
ghost use Rattle.tv_lex.specs.Bytes.{stays_on_line};
ghost use Rattle.tv_model.specs.Program.{pred_of};
ghost use Rattle.tv_structure_form.specs.StructureForm.{arities_of, value_at};
ghost use Rattle.tv_struct.specs.StructureRows.{HasArity};
ghost use Rattle.tv_complete.specs.Completion.{is_settled};
ghost use Rattle.tv_complete_text.specs.Lines.{individual_at, pair_at, listed_item, listed_singles};
ghost use Rattle.tv_complete_text.specs.Lines.{listed_row};
ghost use Rattle.tv_complete_text.specs.Lines.{listed_pairs, braced, flag_entry, values_text, entry_line};
ghost use Rattle.tv_complete_text.specs.Lines.{missing_line, missing_lines, is_indent, line_len, lines_place};
ghost use Rattle.tv_complete_text.specs.Lines.{lines_indent, lines_feed, led_by, put_lines};
ghost use Rattle.tv_complete_text.specs.Named.{named_form};

use crate::named::NamedText;
use std::alloc::{AllocError, Global};
use tv_kleene::K3;
use tv_lex::text;
use tv_model::{Kind, Pred, PredId};
use tv_struct::{Structure, Tuple};
use tv_tree::{Spelling, is_among};

fn is_settled(names: &[Spelling], pred: &Pred) -> bool
    ensures { result ≡ is_settled names.now (pred_of pred.now) }
{
    matches!(pred.kind, Kind::Core) || is_among(names, pred.name.as_slice())
}

fn flag_text(value: K3) -> &'static [u8]
    ensures { result.now ≡ flag_entry value }
{
    match value {
        K3::No => b"",
        K3::Half => b"1/2",
        K3::Yes => b"1",
    }
}

/// Items in braces, without their first comma and blank; nothing where there are none.
#[tactic(auto, using(crate::proofs::Lining::braced_some))]
fn braced(alloc: Global, items: &[u8]) -> Result<Vec<u8>, AllocError>
    ensures { IfOk result (λ text. text.items ≡ braced items.now) }
{
    let mut out = Vec::new(alloc);
    if items.is_empty() {
        return Ok(out);
    }
    out.extend_from_slice(b"{")?;
    out.extend_from_slice(&items[items.len().min(2)..])?;
    out.extend_from_slice(b"}")?;
    Ok(out)
}

/// Puts the line of a predicate behind the others; none where it has no values.
#[tactic(auto, using(crate::proofs::Lining::line_some))]
fn put_line(out: &mut Vec<u8>, indent: &[u8], name: &[u8], values: &[u8]) -> Result<(), AllocError>
    ensures { OnOk result (out.new.items ≡ out.old.items ++ entry_line indent.now name.now values.now) }
{
    if values.is_empty() {
        return Ok(());
    }
    out.extend_from_slice(indent)?;
    out.extend_from_slice(b"  ")?;
    out.extend_from_slice(name)?;
    out.extend_from_slice(b" = ")?;
    out.extend_from_slice(values)?;
    out.extend_from_slice(b"\n")
}

/// The lines behind a line feed, or what else comes first; nothing where there are none.
#[tactic(auto, using(crate::proofs::Lining::led_some))]
fn led_by(alloc: Global, feed: &[u8], lines: &[u8]) -> Result<Vec<u8>, AllocError>
    ensures { IfOk result (λ text. text.items ≡ led_by feed.now lines.now) }
{
    let mut out = Vec::new(alloc);
    if lines.is_empty() {
        return Ok(out);
    }
    out.extend_from_slice(feed)?;
    out.extend_from_slice(lines)?;
    Ok(out)
}

/// Where lines are put into a text, how they are indented, and what comes first.
#[derive(Clone, Copy)]
struct Place<'a> {
    at: usize,
    indent: &'a [u8],
    feed: &'a [u8],
}

fn line_len(front: &[u8]) -> usize
    ensures value { result ≡ suffix_len stays_on_line front.now }
    ensures bound { result ≤ length front.now }
{
    front.iter().rev().take_while(|b| **b != b'\n').count()
}

fn gaps_len(front: &[u8]) -> usize
    ensures value { result ≡ suffix_len is_indent front.now }
    ensures bound { result ≤ length front.now }
{
    front
        .iter()
        .rev()
        .take_while(|b| **b == b' ' || **b == b'\t')
        .count()
}

fn place_of(front: &[u8]) -> Place<'_>
    ensures at { result.at ≡ lines_place front.now }
    ensures indent { result.indent.now ≡ lines_indent front.now }
    ensures feed { result.feed.now ≡ lines_feed front.now }
{
    let line = line_len(front);
    if gaps_len(front) == line {
        Place {
            at: front.len() - line,
            indent: &front[front.len() - line..],
            feed: b"",
        }
    } else {
        Place {
            at: front.len(),
            indent: b"",
            feed: b"\n",
        }
    }
}

/// Where lines are put into a text of which this stands in front of the closing brace.
pub fn lines_place(front: &[u8]) -> usize
    ensures value { result ≡ lines_place front.now }
    ensures bound { result ≤ length front.now }
{
    place_of(front).at
}

/// A completed structure, with what is told of it in its text.
#[derive(Clone, Copy)]
pub struct Completed<'a> {
    pub alloc: Global,
    pub bytes: &'a [u8],
    pub named: &'a NamedText,
    pub t: &'a Structure,
}

impl<'a> Completed<'a> {
    fn individual(&self, u: u32) -> &'a [u8]
        ensures { result.now
            ≡ individual_at (named_form self.now.bytes.now self.now.named.now).individuals u }
    {
        match self.named.individuals.get(u as usize) {
            Some(token) => text(self.bytes, token),
            None => b"",
        }
    }

    /// Puts an individual behind a comma and a blank.
    fn put_one(&self, out: &mut Vec<u8>, u: u32) -> Result<(), AllocError>
        ensures { OnOk result (out.new.items ≡ out.old.items ++ (codes ", "
            ++ individual_at (named_form self.now.bytes.now self.now.named.now).individuals u)) }
    {
        out.extend_from_slice(b", ")?;
        out.extend_from_slice(self.individual(u))
    }

    /// Puts a pair behind a comma and a blank.
    fn put_two(&self, out: &mut Vec<u8>, u: u32, w: u32) -> Result<(), AllocError>
        ensures { OnOk result (out.new.items ≡ out.old.items ++ (codes ", "
            ++ pair_at (named_form self.now.bytes.now self.now.named.now).individuals u w)) }
    {
        self.put_one(out, u)?;
        out.extend_from_slice(b"->")?;
        out.extend_from_slice(self.individual(w))
    }

    fn put_single(&self, out: &mut Vec<u8>, p: PredId, u: u32) -> Result<(), AllocError>
        requires arity { HasArity self.now.t.now p.0 1 }
        requires individual { u < self.now.t.now.size }
        ensures { OnOk result (out.new.items ≡ out.old.items ++ listed_item
            (individual_at (named_form self.now.bytes.now self.now.named.now).individuals u)
            (value_at self.now.t.now p.0 (u ∷ []))) }
    {
        match self.t.get(p, Tuple::One(u)) {
            K3::No => Ok(()),
            K3::Yes => self.put_one(out, u),
            K3::Half => {
                self.put_one(out, u)?;
                out.extend_from_slice(b":1/2")
            }
        }
    }

    fn put_pair(&self, out: &mut Vec<u8>, p: PredId, u: u32, w: u32) -> Result<(), AllocError>
        requires arity { HasArity self.now.t.now p.0 2 }
        requires first { u < self.now.t.now.size }
        requires second { w < self.now.t.now.size }
        ensures { OnOk result (out.new.items ≡ out.old.items ++ listed_item
            (pair_at (named_form self.now.bytes.now self.now.named.now).individuals u w)
            (value_at self.now.t.now p.0 (u ∷ w ∷ []))) }
    {
        match self.t.get(p, Tuple::Two(u, w)) {
            K3::No => Ok(()),
            K3::Yes => self.put_two(out, u, w),
            K3::Half => {
                self.put_two(out, u, w)?;
                out.extend_from_slice(b":1/2")
            }
        }
    }

    /// The items of a unary predicate, each behind a comma and a blank.
    fn singles(&self, p: PredId) -> Result<Vec<u8>, AllocError>
        requires { HasArity self.now.t.now p.0 1 }
        ensures { IfOk result (λ text. text.items ≡ listed_singles
            (named_form self.now.bytes.now self.now.named.now).individuals
            (value_at self.now.t.now p.0) self.now.t.now.size) }
    {
        let mut out = Vec::new(self.alloc);
        for u in 0..self.t.size() {
            self.put_single(&mut out, p, u)?;
        }
        Ok(out)
    }

    fn put_row(&self, out: &mut Vec<u8>, p: PredId, u: u32) -> Result<(), AllocError>
        requires arity { HasArity self.now.t.now p.0 2 }
        requires individual { u < self.now.t.now.size }
        ensures { OnOk result (out.new.items ≡ out.old.items ++ listed_row
            (named_form self.now.bytes.now self.now.named.now).individuals
            (value_at self.now.t.now p.0) self.now.t.now.size u) }
    {
        for w in 0..self.t.size() {
            self.put_pair(out, p, u, w)?;
        }
        Ok(())
    }

    /// The items of a binary predicate, each behind a comma and a blank.
    fn pairs(&self, p: PredId) -> Result<Vec<u8>, AllocError>
        requires { HasArity self.now.t.now p.0 2 }
        ensures { IfOk result (λ text. text.items ≡ listed_pairs
            (named_form self.now.bytes.now self.now.named.now).individuals
            (value_at self.now.t.now p.0) self.now.t.now.size) }
    {
        let mut out = Vec::new(self.alloc);
        for u in 0..self.t.size() {
            self.put_row(&mut out, p, u)?;
        }
        Ok(out)
    }

    fn values(&self, p: PredId, arity: u8) -> Result<Vec<u8>, AllocError>
        requires arity { HasArity self.now.t.now p.0 arity }
        requires known { arity ≤ 2 }
        ensures { IfOk result (λ text. text.items ≡ values_text
            (named_form self.now.bytes.now self.now.named.now).individuals
            self.now.t.now.size arity (value_at self.now.t.now p.0)) }
    {
        match arity {
            0 => Vec::from_slice(self.alloc, flag_text(self.t.get(p, Tuple::Zero))),
            1 => braced(self.alloc, &self.singles(p)?),
            _ => braced(self.alloc, &self.pairs(p)?),
        }
    }

    /// Puts the line of a predicate behind the others, if it is missing.
    fn put_missing(
        &self,
        out: &mut Vec<u8>,
        indent: &[u8],
        p: PredId,
        pred: &Pred,
    ) -> Result<(), AllocError>
        requires arity { HasArity self.now.t.now p.0 pred.now.arity }
        requires known { pred.now.arity ≤ 2 }
        ensures { OnOk result (out.new.items ≡ out.old.items ++ missing_line indent.now
            (named_form self.now.bytes.now self.now.named.now) self.now.t.now p.0 (pred_of pred.now)) }
    {
        if is_settled(&self.named.names, pred) {
            return Ok(());
        }
        let values = self.values(p, pred.arity)?;
        put_line(out, indent, pred.name.as_slice(), &values)
    }

    fn lines(&self, indent: &[u8], preds: &[Pred]) -> Result<Vec<u8>, AllocError>
        requires over { arities_of self.now.t.now ≡ map (λ pred. pred.arity) preds.now }
        requires arities { All (λ pred. pred.arity ≤ 2) preds.now }
        requires count { length preds.now ≤ 512 }
        ensures { IfOk result (λ text. text.items ≡ missing_lines indent.now
            (named_form self.now.bytes.now self.now.named.now) self.now.t.now 0 (map pred_of preds.now)) }
    {
        let mut out = Vec::new(self.alloc);
        for p in 0..preds.len() {
            self.put_missing(&mut out, indent, PredId(p as u32), &preds[p])?;
        }
        Ok(out)
    }

    /// What is put into the structure's text, of which this stands in front of its closing brace: a line for
    /// each defined predicate that it doesn't name and that isn't 0 everywhere.
    pub fn put_lines(&self, front: &[u8], preds: &[Pred]) -> Result<Vec<u8>, AllocError>
        requires over { arities_of self.now.t.now ≡ map (λ pred. pred.arity) preds.now }
        requires arities { All (λ pred. pred.arity ≤ 2) preds.now }
        requires count { length preds.now ≤ 512 }
        ensures { IfOk result (λ text. text.items ≡ put_lines (map pred_of preds.now) front.now
            (named_form self.now.bytes.now self.now.named.now) self.now.t.now) }
    {
        let place = place_of(front);
        let lines = self.lines(place.indent, preds)?;
        led_by(self.alloc, place.feed, &lines)
    }
}
