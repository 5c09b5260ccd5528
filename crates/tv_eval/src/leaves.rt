//! The value of a formula without parts.

ghost use Rattle.std.specs.Prelude.{◌≡◌, ◌<◌, [], map};
ghost use Rattle.tv_model.specs.Form.{vars_of, FAtom};
ghost use Rattle.tv_structure_form.specs.StructureForm.{structure_of, value_at};
ghost use Rattle.tv_eval_laws.specs.Value.{mark_value, same_value};
ghost use Rattle.tv_eval.specs.AssignmentForm.{assignment_of};
ghost use Rattle.tv_eval.specs.CanEvaluate.{CanEvaluate};

use crate::Assignment;
use tv_kleene::K3;
use tv_model::{PredId, Terms};
use tv_struct::{Structure, Tuple};

/// The value of the predicate at the tuple that the terms stand for.
pub fn atom(pred: PredId, terms: &Terms, s: &Structure, a: &Assignment) -> K3
    requires { CanEvaluate s.now a.now [] (FAtom pred.0 (vars_of terms.now)) }
    ensures { result ≡ value_at s.now pred.0 (map (assignment_of a.now) (vars_of terms.now)) }
{
    match terms {
        Terms::Zero => s.get(pred, Tuple::Zero),
        Terms::One(v) => s.get(pred, Tuple::One(a.at(*v))),
        Terms::Two(v, w) => s.get(pred, Tuple::Two(a.at(*v), a.at(*w))),
    }
}

/// Whether `u` is the fresh individual.
pub fn is_new(s: &Structure, u: u32) -> K3
    ensures { result ≡ mark_value s.now.fresh u }
{
    match s.fresh() {
        None => K3::No,
        Some(w) => { if w == u { K3::Yes } else { K3::No } }
    }
}

/// Whether `u` and `w` are one cell.
pub fn same(s: &Structure, u: u32, w: u32) -> K3
    requires { u < s.now.size }
    ensures { result ≡ same_value (structure_of s.now) u w }
{
    if u != w {
        K3::No
    } else if s.summary(u) {
        K3::Half
    } else {
        K3::Yes
    }
}
