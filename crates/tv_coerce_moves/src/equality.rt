//! Where equalities stand.

ghost use Rattle.std.specs.Prelude.{◌↔◌, IsTrue};
ghost use Rattle.tv_model.specs.Form.{form_of};
ghost use Rattle.tv_model.specs.Program.{head_of};
ghost use Rattle.tv_coerce_moves.specs.Moves.{HasEquality, IsEquality};

use tv_model::{Formula, Head};

/// Whether the head is an equality or its negation. Takes no memory.
pub fn is_equality(head: &Head) -> bool
    ensures { IsTrue result ↔ IsEquality (head_of head.now) }
{
    match head {
        Head::Never | Head::Atom(_, _, _) => false,
        Head::Same(_, _, _) => true,
    }
}

/// Whether an equality stands in the formula. Takes no memory.
pub fn has_equality(f: &Formula) -> bool
    ensures { IsTrue result ↔ HasEquality (form_of f.now) }
{
    match f {
        Formula::Zero | Formula::One | Formula::Atom(_, _) | Formula::IsNew(_) => false,
        Formula::Same(_, _) => true,
        Formula::Not(g) | Formula::Exists(_, g) | Formula::Forall(_, g) => has_equality(g),
        Formula::And(g, h) | Formula::Or(g, h) | Formula::Iff(g, h) => {
            has_equality(g) || has_equality(h)
        }
        Formula::Cond(c, g, h) => has_equality(c) || has_equality(g) || has_equality(h),
        Formula::Closure { body, .. } => has_equality(body),
    }
}
