//! What becomes of the defined predicates behind an action, a line for each.

ghost use Rattle.std.specs.Prelude.{ℕ, ◌≡◌, ◌++◌, List, OnOk, Some, map, slice_get};
ghost use Rattle.std.specs.Option.{option_copied, option_map};
ghost use Rattle.tv_model.specs.Form.{Form};
ghost use Rattle.tv_model.specs.Program.{action_of, KDefined, kind_of, pred_of, program_of, update_of};
ghost use Rattle.tv_model.specs.Step.{update_for};
ghost use Rattle.tv_update_laws.specs.Applied.{used_update};
ghost use Rattle.tv_plan.specs.Fates.{fate_at, fate_of};
ghost use Rattle.tv_plan.specs.Orders.{is_held};
ghost use Rattle.tv_plan.specs.Texts.{defined_line, fate_words, kind_line, pred_lines};

use crate::orders::is_held;
use std::alloc::AllocError;
use tv_formula_text::append_entry;
use tv_model::{Action, Kind, Mode, Pred, PredId, Program, Update};

/// An action of a program in a mode, and the predicates that it evaluates anew.
#[derive(Clone, Copy)]
pub(crate) struct Planned<'a> {
    pub program: &'a Program,
    pub mode: Mode,
    pub action: &'a Action,
    pub anew: &'a [PredId],
}

/// The first update of the predicate of this number.
fn written(updates: &[Update], q: usize) -> Option<&Update>
    ensures { option_map update_of (option_copied result) ≡ update_for q (map update_of updates.now) }
{
    for update in updates {
        if update.pred.0 as usize == q {
            return Some(update);
        }
    }
    None
}

/// The update that counts of a defined predicate.
fn counted(mode: Mode, updates: &[Update], q: usize) -> Option<&Update>
    ensures { (vars : List ℕ) (body : Form) → option_map update_of (option_copied result)
        ≡ used_update mode (KDefined vars body) (update_for q (map update_of updates.now)) }
{
    match mode {
        Mode::Given => written(updates, q),
        Mode::Recompute => None,
    }
}

/// Appends what becomes of a predicate.
fn append_fate(
    out: &mut Vec<u8>,
    preds: &[Pred],
    update: Option<&Update>,
    is_anew: bool,
) -> Result<(), AllocError>
    ensures { OnOk result (out.new.items ≡ out.old.items ++ fate_words (map pred_of preds.now)
        (fate_of (option_map update_of (option_copied update.entry)) is_anew)) }
{
    match update {
        Some(update) => {
            out.extend_from_slice(b" updated: ")?;
            append_entry(out, preds, update)
        }
        None => out.extend_from_slice(if is_anew {
            b" evaluated anew"
        } else {
            b" kept"
        }),
    }
}

/// Appends the line of a defined predicate.
fn append_line(
    out: &mut Vec<u8>,
    preds: &[Pred],
    name: &[u8],
    update: Option<&Update>,
    is_anew: bool,
) -> Result<(), AllocError>
    ensures { OnOk result (out.new.items ≡ out.old.items ++ defined_line (map pred_of preds.now) name.now
        (fate_of (option_map update_of (option_copied update.entry)) is_anew)) }
{
    out.extend_from_slice(b"  ")?;
    out.extend_from_slice(name)?;
    append_fate(out, preds, update, is_anew)?;
    out.extend_from_slice(b"\n")
}

/// Appends the line of the predicate of this number, if it is defined.
fn append_pred(out: &mut Vec<u8>, x: &Planned, q: usize, pred: &Pred) -> Result<(), AllocError>
    requires { slice_get (program_of x.now.program.now).preds q ≡ Some (pred_of pred.now) }
    ensures { OnOk result (out.new.items ≡ out.old.items
        ++ kind_line (program_of x.now.program.now).preds pred.now.name (kind_of pred.now.kind)
        (fate_at (program_of x.now.program.now) x.now.mode (action_of x.now.action.now)
        (is_held x.now.anew.now) q)) }
{
    let Kind::Defined { .. } = &pred.kind else {
        return Ok(());
    };
    let preds = x.program.vocab.preds.as_slice();
    let update = counted(x.mode, x.action.updates.as_slice(), q);
    append_line(out, preds, pred.name.as_slice(), update, is_held(x.anew, q))
}

/// Appends a line for each defined predicate, in their order.
pub(crate) fn append_fates(out: &mut Vec<u8>, x: &Planned) -> Result<(), AllocError>
    ensures { OnOk result (out.new.items ≡ out.old.items
        ++ pred_lines (program_of x.now.program.now).preds
        (fate_at (program_of x.now.program.now) x.now.mode (action_of x.now.action.now)
        (is_held x.now.anew.now)) 0
        (program_of x.now.program.now).preds) }
{
    let preds = x.program.vocab.preds.as_slice();
    for q in 0..preds.len() {
        append_pred(out, x, q, &preds[q])?;
    }
    Ok(())
}
