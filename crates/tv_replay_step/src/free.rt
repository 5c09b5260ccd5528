//! Values of freely updated predicates.

ghost use Rattle.std.specs.Prelude.{◌<◌, ◌↔◌, length, map, IfSome, IsTrue};
ghost use Rattle.std.specs.List.{AllByRecursion};
ghost use Rattle.tv_model.specs.Program.{update_of};
ghost use Rattle.tv_structure_form.specs.StructureForm.{arities_of};
ghost use Rattle.tv_struct.specs.StructureRows.{HasArity};
ghost use Rattle.tv_replay_step.specs.Free.{CanCopy, GivesAll, GivesValues, HasCopied, HasFree, IsFree};

use tv_model::{Change, PredId, Update};
use tv_struct::{Structure, Table, Tuple};
use tv_trace::Move;
use tv_two_valued::is_definite;

/// Whether the step gives a structure of that size without a value `Half` of the predicate.
fn gives_values(step: &Move, p: PredId, size: u32) -> bool
    requires { IfSome step.now.values (λ s. p.0 < length (arities_of s)) }
    ensures { IsTrue result ↔ GivesValues size step.now.values p.0 }
{
    match &step.values {
        None => false,
        Some(s) => s.size() == size && is_definite(s, p),
    }
}

/// Whether it gives values for each predicate that the updates leave free.
pub fn gives_all(step: &Move, updates: &[Update], size: u32) -> bool
    requires { IfSome step.now.values
        (λ s. AllByRecursion (λ w. w.pred.0 < length (arities_of s)) updates.now) }
    ensures { IsTrue result ↔ GivesAll size step.now.values (map update_of updates.now) }
{
    match updates {
        [] => true,
        [w, rest @ ..] => {
            let given = match w.change {
                Change::Free => gives_values(step, w.pred, size),
                Change::To(_) => true,
            };
            given && gives_all(step, rest, size)
        }
    }
}

/// Puts the values of a binary predicate into `t`.
fn copy_pairs(values: &Structure, p: PredId, t: &mut Structure)
    requires arity { HasArity t.old p.0 2 }
    requires can { CanCopy values.now t.old p.0 }
    ensures { HasCopied values.now t.old t.new p.0 }
{
    for u in 0..t.size() {
        t.set_row(p, u, &values.row(p, u));
    }
}

/// Puts the values of the predicate into `t`.
fn copy_values(values: &Structure, p: PredId, t: &mut Structure)
    requires { CanCopy values.now t.old p.0 }
    ensures { HasCopied values.now t.old t.new p.0 }
{
    let _ = t.size();
    match t.arity(p) {
        0 => t.set(p, Tuple::Zero, values.get(p, Tuple::Zero)),
        1 => t.set_unary_row(p, &values.unary_row(p)),
        _ => copy_pairs(values, p, t),
    }
}

/// Puts the values of each predicate that the updates leave free into `t`.
pub fn put_free(values: &Structure, updates: &[Update], t: &mut Structure)
    requires { AllByRecursion (λ w. IsFree (update_of w) → CanCopy values.now t.old w.pred.0) updates.now }
    ensures { HasFree values.now (map update_of updates.now) t.old t.new }
{
    match updates {
        [] => {}
        [w, rest @ ..] => {
            put_free(values, rest, t);
            match w.change {
                Change::Free => copy_values(values, w.pred, t),
                Change::To(_) => {}
            }
        }
    }
}
