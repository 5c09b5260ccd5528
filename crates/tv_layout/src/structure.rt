//! The structure that seems to stand in front of a text.

ghost use Rattle.std.specs.Prelude.{◌≡◌, ◌≤◌, None, IfOk, IfSome, All, length};
ghost use Rattle.tv_structure_form.specs.StructureForm.{IsStructure, IsOver, arities_of};
ghost use Rattle.tv_layout.specs.Filled.{IsFilledFrom};

use crate::text::{behind, behind_place, split_line};
use std::alloc::{AllocError, Global};
use tv_kleene::K3;
use tv_model::{Pred, PredId, Vocab};
use tv_struct::{Structure, Tuple};

/// How many names of individuals a line has.
fn name_count(line: &[u8]) -> usize {
    line.iter().filter(|b| **b == b'i').count()
}

/// Which number of an item a digit belongs to.
#[derive(Clone, Copy)]
enum Stage {
    First,
    Second,
    Value,
}

/// What was read of an item.
#[derive(Clone, Copy)]
struct ItemScan {
    stage: Stage,
    first: u32,
    second: u32,
}

fn no_item() -> ItemScan {
    ItemScan {
        stage: Stage::First,
        first: 0,
        second: 0,
    }
}

/// The number with one more digit; above 256 it stays.
fn grown(n: u32, digit: u8) -> u32 {
    if n > 256 {
        n
    } else {
        n * 10 + u32::from(digit.saturating_sub(b'0'))
    }
}

fn next_digit(scan: ItemScan, digit: u8) -> ItemScan {
    match scan.stage {
        Stage::First => ItemScan {
            first: grown(scan.first, digit),
            ..scan
        },
        Stage::Second => ItemScan {
            second: grown(scan.second, digit),
            ..scan
        },
        Stage::Value => scan,
    }
}

fn next_scan(scan: ItemScan, b: u8) -> ItemScan {
    match b {
        b'>' => ItemScan {
            stage: Stage::Second,
            ..scan
        },
        b':' => ItemScan {
            stage: Stage::Value,
            ..scan
        },
        b'0'..=b'9' => next_digit(scan, b),
        _ => scan,
    }
}

fn scanned_value(scan: ItemScan) -> K3 {
    match scan.stage {
        Stage::First | Stage::Second => K3::Yes,
        Stage::Value => K3::Half,
    }
}

/// What a line speaks of.
#[derive(Clone, Copy)]
enum Subject {
    Summaries,
    Values(PredId),
}

/// Puts the value of a predicate where there is a place for it.
fn put_value(s: &mut Structure, p: PredId, scan: ItemScan)
    ensures over { arities_of s.new ≡ arities_of s.old }
    ensures fresh { s.new.fresh ≡ s.old.fresh }
{
    let size = s.size();
    if p.0 >= s.pred_count() {
        return;
    }
    let value = scanned_value(scan);
    match s.arity(p) {
        0 => s.set(p, Tuple::Zero, value),
        1 => {
            if scan.first < size {
                s.set(p, Tuple::One(scan.first), value);
            }
        }
        _ => {
            if scan.first < size && scan.second < size {
                s.set(p, Tuple::Two(scan.first, scan.second), value);
            }
        }
    }
}

fn put_summary(s: &mut Structure, u: u32)
    requires { s.old.fresh ≡ None }
    ensures filled { IsFilledFrom s.old s.new }
{
    if u < s.size() {
        s.set_summary(u, true);
    }
}

fn put_item(s: &mut Structure, subject: Subject, scan: ItemScan)
    requires { s.old.fresh ≡ None }
    ensures filled { IsFilledFrom s.old s.new }
{
    match subject {
        Subject::Summaries => put_summary(s, scan.first),
        Subject::Values(p) => put_value(s, p, scan),
    }
}

/// Puts the items in braces.
fn put_items(s: &mut Structure, subject: Subject, content: &[u8])
    requires { s.old.fresh ≡ None }
    ensures filled { IsFilledFrom s.old s.new }
{
    let mut scan = no_item();
    for b in content {
        if *b == b',' || *b == b'}' {
            put_item(s, subject, scan);
            scan = no_item();
        } else {
            scan = next_scan(scan, *b);
        }
    }
}

/// Puts what stands behind the ` = ` of a line: items in braces, or one value.
fn put_content(s: &mut Structure, subject: Subject, content: &[u8])
    requires { s.old.fresh ≡ None }
    ensures filled { IsFilledFrom s.old s.new }
{
    if content.starts_with(b"{") {
        put_items(s, subject, content);
        return;
    }
    let stage = if content.len() > 1 {
        Stage::Value
    } else {
        Stage::First
    };
    let scan = ItemScan { stage, ..no_item() };
    put_item(s, subject, scan);
}

/// What stands behind the ` = ` where a line begins with this name.
fn content_of<'a>(entry: &'a [u8], name: &[u8]) -> Option<&'a [u8]> {
    behind(behind(entry, name)?, b" = ")
}

/// The first of the predicates from a number on with whose name a line begins, and what the line says of it;
/// else what it says of the summaries.
fn subject_of<'a>(preds: &[Pred], at: usize, entry: &'a [u8]) -> Option<(Subject, &'a [u8])>
    requires { length preds.now ≤ 512 }
{
    for p in at..preds.len() {
        if let Some(content) = content_of(entry, preds[p].name.as_slice()) {
            return Some((Subject::Values(PredId(p as u32)), content));
        }
    }
    let content = content_of(entry, b"sm")?;
    Some((Subject::Summaries, content))
}

/// The number of the predicate behind what was spoken of.
fn behind_subject(subject: Subject, count: usize) -> usize {
    match subject {
        Subject::Summaries => count,
        Subject::Values(p) => p.0 as usize + 1,
    }
}

/// Puts what the lines say up to that with the closing brace, and gives what stands behind it.
fn put_lines<'a>(s: &mut Structure, preds: &[Pred], bytes: &'a [u8]) -> Option<&'a [u8]>
    requires fresh { s.old.fresh ≡ None }
    requires count { length preds.now ≤ 512 }
    ensures filled { IsFilledFrom s.old s.new }
{
    let mut rest = bytes;
    let mut at = 0;
    for _ in 0..preds.len() + 2 {
        let (line, next) = split_line(rest);
        if line.starts_with(b"}") {
            return Some(next);
        }
        let (subject, content) = subject_of(preds, at, behind_place(line, 2))?;
        put_content(s, subject, content);
        at = behind_subject(subject, preds.len());
        rest = next;
    }
    None
}

/// The structure that seems to stand in front, and what stands behind it.
pub fn take_structure<'a>(
    alloc: Global,
    vocab: &Vocab,
    bytes: &'a [u8],
) -> Result<Option<(Structure, &'a [u8])>, AllocError>
    requires arities { All (λ pred. pred.arity ≤ 2) vocab.now.preds }
    requires count { length vocab.now.preds ≤ 512 }
    ensures over { IfOk result (λ found. IfSome found (λ x. IsOver vocab.now x.0)) }
    ensures fresh { IfOk result (λ found. IfSome found (λ x. x.0.fresh ≡ None)) }
    ensures kept { IfOk result (λ found. IfSome found (λ x. IsStructure x.0)) }
{
    let (head, rest) = split_line(bytes);
    let size = name_count(head);
    if size > 256 || !head.starts_with(b"%n = {") {
        return Ok(None);
    }
    let mut s = Structure::new(alloc, vocab, size as u32)?;
    let (_, lines) = split_line(rest);
    let Some(behind) = put_lines(&mut s, vocab.preds.as_slice(), lines) else {
        return Ok(None);
    };
    let _ = s.size();
    Ok(Some((s, behind)))
}
