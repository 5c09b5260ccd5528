//! Entries of updates as text.

ghost use Rattle.std.specs.Prelude.{◌≡◌, ◌++◌, OnOk, map};
ghost use Rattle.tv_model.specs.Program.{change_of, pred_of, update_of};
ghost use Rattle.tv_formula_text.specs.Entries.{change_text, update_entry};

use crate::formula::{append_atom, append_formula};
use std::alloc::AllocError;
use tv_model::{Change, Pred, Update};

/// Appends what an update sets its predicate to: a formula, or `1/2`.
pub fn append_change(out: &mut Vec<u8>, preds: &[Pred], change: &Change) -> Result<(), AllocError>
    ensures { OnOk result
        (out.new.items ≡ out.old.items ++ change_text (map pred_of preds.now) (change_of change.now)) }
{
    match change {
        Change::Free => out.extend_from_slice(b"1/2"),
        Change::To(f) => append_formula(out, preds, f),
    }
}

/// Appends an update as an entry of a block: `NAME(VARIABLES) = FORMULA`.
pub fn append_entry(out: &mut Vec<u8>, preds: &[Pred], update: &Update) -> Result<(), AllocError>
    ensures { OnOk result
        (out.new.items ≡ out.old.items ++ update_entry (map pred_of preds.now) (update_of update.now)) }
{
    append_atom(out, preds, update.pred, b"", update.vars)?;
    out.extend_from_slice(b" = ")?;
    append_change(out, preds, &update.change)
}
