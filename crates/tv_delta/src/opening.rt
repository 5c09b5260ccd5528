//! Deltas of formulas over the deltas of their atoms: definitions are opened, one inside the other.

ghost use Rattle.std.specs.Prelude.{◌≡◌};
ghost use Rattle.tv_model.specs.Form.{form_of};
ghost use Rattle.tv_model.specs.Program.{program_of};
ghost use Rattle.tv_delta_form.specs.Views.{GivesFormed, delta_form, reserved_of};
ghost use Rattle.tv_delta.specs.Opening.{reserved_for, delta_at, AreKnownAt, EndsWithin};

use crate::atoms::{Start, atom_end, atom_start};
use crate::flags::touches;
use crate::memo::Memo;
use crate::parts::{
    and_with, bound_with, cond_with, every_with, iff_with, not_with, or_with, some_with, still,
};
use std::alloc::Global;
use tv_delta_form::{Delta, Kept, Stop, head_of};
use tv_model::{Action, Formula, Program, Terms};

/// For what deltas are formed: the update of a defined predicate at an action.
#[derive(Clone, Copy, Debug)]
pub struct Opening<'a> {
    pub program: &'a Program,
    pub action: &'a Action,
    /// The flags of the predicates that the action affects.
    pub affected: &'a [bool],
    /// The update's own variables.
    pub own: Terms,
}

/// The variables that no bound variable may get.
pub fn kept<'a>(o: &Opening<'a>) -> Kept<'a>
    ensures { reserved_of result ≡ reserved_for o.now }
{
    Kept {
        picks: o.action.picks.as_slice(),
        own: o.own,
    }
}

/// The delta of the formula, through fewer than `depth` definitions, one inside the other. What is found
/// of atoms of affected predicates is put into `memo`.
pub fn delta_of(
    alloc: Global,
    o: &Opening<'_>,
    depth: usize,
    memo: &mut Memo,
    f: &Formula,
) -> Result<Delta, Stop>
    requires known { AreKnownAt o.now memo.old.entries.items }
    requires ends { EndsWithin (program_of o.now.program.now) depth (form_of f.now) }
    ensures delta { GivesFormed delta_form result (delta_at o.now (form_of f.now)) }
    ensures known { AreKnownAt o.now memo.new.entries.items }
{
    match f {
        Formula::Zero | Formula::One | Formula::IsNew(_) | Formula::Same(_, _) => still(alloc, f),
        Formula::Atom(q, args) => match atom_start(alloc, o, memo, *q, *args) {
            Start::Done(delta) => delta,
            Start::Inside(x) => {
                let d = delta_of(alloc, o, depth - 1, memo, &x);
                atom_end(alloc, o, memo, *q, *args, d)
            }
        },
        Formula::Not(g) => not_with(alloc, delta_of(alloc, o, depth, memo, g)),
        Formula::And(g, h) => match delta_of(alloc, o, depth, memo, g) {
            Err(stop) => Err(stop),
            Ok(d) => and_with(alloc, d, delta_of(alloc, o, depth, memo, h)),
        },
        Formula::Or(g, h) => match delta_of(alloc, o, depth, memo, g) {
            Err(stop) => Err(stop),
            Ok(d) => or_with(alloc, d, delta_of(alloc, o, depth, memo, h)),
        },
        Formula::Iff(g, h) => match delta_of(alloc, o, depth, memo, g) {
            Err(stop) => Err(stop),
            Ok(d) => iff_with(alloc, d, delta_of(alloc, o, depth, memo, h)),
        },
        Formula::Cond(c, g, h) => match delta_of(alloc, o, depth, memo, c) {
            Err(stop) => Err(stop),
            Ok(b) => match delta_of(alloc, o, depth, memo, g) {
                Err(stop) => Err(stop),
                Ok(d) => cond_with(alloc, b, d, delta_of(alloc, o, depth, memo, h)),
            },
        },
        Formula::Exists(v, g) => match head_of(alloc, g) {
            Err(_) => Err(Stop::Memory),
            Ok((bindings, body)) => {
                let d = delta_of(alloc, o, depth, memo, body);
                some_with(alloc, *v, bound_with(alloc, bindings, d))
            }
        },
        Formula::Forall(v, g) => match head_of(alloc, g) {
            Err(_) => Err(Stop::Memory),
            Ok((bindings, body)) => {
                let d = delta_of(alloc, o, depth, memo, body);
                every_with(alloc, *v, bound_with(alloc, bindings, d))
            }
        },
        Formula::Closure { body, .. } => {
            if touches(o.affected, body) {
                Err(Stop::Unformed)
            } else {
                still(alloc, f)
            }
        }
    }
}
