//! Moves, step by step.

ghost use Rattle.std.specs.Prelude.{◌≡◌, ◌≤◌, ◌++◌, All, IfOk, IfSome, OnOk, length};
ghost use Rattle.tv_structure_form.specs.StructureForm.{IsOver};
ghost use Rattle.tv_trace_text.specs.Text.{picks_text, move_text, trace_text, all_values_text};

use std::alloc::{AllocError, Global};
use tv_model::Vocab;
use tv_struct::Structure;
use tv_trace::Move;
use tv_tvs::{write_number, write_numbers, write_tvs};

/// Appends the individuals that a move picks, in parentheses, if it picks some.
pub fn append_picks(out: &mut Vec<u8>, picks: &[u32]) -> Result<(), AllocError>
    ensures { OnOk result (out.new.items ≡ out.old.items ++ picks_text picks.now) }
{
    if picks.is_empty() {
        return Ok(());
    }
    out.extend_from_slice(b" (")?;
    write_numbers(out, picks)?;
    out.extend_from_slice(b")")
}

/// Appends the structure whose values a move gives, if there is one.
fn append_values(
    alloc: Global,
    out: &mut Vec<u8>,
    vocab: &Vocab,
    values: &Option<Structure>,
) -> Result<(), AllocError>
    requires over { IfSome values.now (IsOver vocab.now) }
    requires arities { All (λ pred. pred.arity ≤ 2) vocab.now.preds }
    requires count { length vocab.now.preds ≤ 512 }
    ensures { OnOk result (out.new.items ≡ out.old.items ++ all_values_text vocab.now values.now) }
{
    match values {
        None => Ok(()),
        Some(s) => {
            let text = write_tvs(alloc, vocab, s)?;
            out.extend_from_slice(b"free\n")?;
            out.extend_from_slice(text.as_slice())
        }
    }
}

/// Appends a move, as a step of a trace.
pub fn append_step(
    alloc: Global,
    out: &mut Vec<u8>,
    vocab: &Vocab,
    step: &Move,
) -> Result<(), AllocError>
    requires over { IfSome step.now.values (IsOver vocab.now) }
    requires arities { All (λ pred. pred.arity ≤ 2) vocab.now.preds }
    requires count { length vocab.now.preds ≤ 512 }
    ensures { OnOk result (out.new.items ≡ out.old.items ++ move_text vocab.now step.now) }
{
    out.extend_from_slice(b"step ")?;
    write_number(out, u64::from(step.edge))?;
    append_picks(out, step.picks.as_slice())?;
    out.extend_from_slice(b"\n")?;
    append_values(alloc, out, vocab, &step.values)
}

/// The text of a trace of these moves, which is read as them again.
///
/// # Errors
/// Lack of memory.
pub fn write_trace(alloc: Global, vocab: &Vocab, moves: &[Move]) -> Result<Vec<u8>, AllocError>
    requires over { All (λ step. IfSome step.values (IsOver vocab.now)) moves.now }
    requires arities { All (λ pred. pred.arity ≤ 2) vocab.now.preds }
    requires count { length vocab.now.preds ≤ 512 }
    ensures { IfOk result (λ text. text.items ≡ trace_text vocab.now moves.now) }
{
    let mut out = Vec::new(alloc);
    for i in 0..moves.len() {
        append_step(alloc, &mut out, vocab, &moves[i])?;
    }
    Ok(out)
}
