//! What the head of a rule needs in a structure in which the rule's body is `Yes`.

ghost use Rattle.std.specs.Prelude.{◌≡◌, ◌≢◌, ◌<◌, ℕ, map, ◌∷◌, true, Contains, length, true, MatchBool};
ghost use Rattle.tv_kleene.specs.declared.K3.TheVariants.{No, Half, Yes};
ghost use Rattle.tv_model.specs.Form.{vars_of};
ghost use Rattle.tv_model.specs.Program.{head_of, HAtom, HSame};
ghost use Rattle.tv_model.specs.Rules.{IsInHead};
ghost use Rattle.tv_stable_laws.specs.Stable.{IsTwice};
ghost use Rattle.tv_stable_laws.proofs.Heads.{wanted};
ghost use Rattle.tv_eval.specs.AssignmentForm.{IsAssigned, assignment_of};
ghost use Rattle.tv_structure_form.specs.StructureForm.{arities_of, summary_at, structure_of};
ghost use Rattle.tv_struct.specs.TupleForm.{tuple_of};
ghost use Rattle.tv_coerce.specs.Ready.{IsHeadOver};
ghost use Rattle.tv_coerce.specs.Trying.{IsNeed, IsOnSummary};

use crate::change::{Change, Need};
use tv_eval::Assignment;
use tv_kleene::K3;
use tv_model::{Head, PredId, Terms, Var};
use tv_struct::{Structure, Tuple};

/// The individual that the variable stands for, and 0 where there is none.
#[inline(always)]
pub(crate) fn at(a: &Assignment, v: Var) -> u32
    ensures { result ≡ assignment_of a.now v.0 }
{
    a.get(v).unwrap_or(0)
}

/// The tuple that the terms stand for.
fn tuple_at(a: &Assignment, terms: Terms) -> Tuple
    ensures { tuple_of result ≡ map (assignment_of a.now) (vars_of terms) }
{
    match terms {
        Terms::Zero => Tuple::Zero,
        Terms::One(v) => Tuple::One(at(a, v)),
        Terms::Two(v, w) => Tuple::Two(at(a, v), at(a, w)),
    }
}

/// The value that meets an atom, negated where the flag is false.
fn wanted(flag: bool) -> K3
    ensures { result ≡ wanted flag }
{
    if flag { K3::Yes } else { K3::No }
}

pub(crate) fn is_same(k: K3, wanted: K3) -> bool
    ensures { MatchBool result (k ≡ wanted) (k ≢ wanted) }
{
    k == wanted
}

fn is_same_variable(v: Var, w: Var) -> bool
    ensures { MatchBool result (v.0 ≡ w.0) (v.0 ≢ w.0) }
{
    v == w
}

/// Whether the terms are one variable twice, which stands for a summary.
fn is_on_summary(s: &Structure, terms: Terms, a: &Assignment) -> bool
    requires { (v : ℕ) → IsInHead v (HAtom true 0 (vars_of terms)) → IsAssigned s.now.size a.now v }
    ensures { MatchBool result (IsOnSummary s.now (assignment_of a.now) (vars_of terms))
        (¬ IsOnSummary s.now (assignment_of a.now) (vars_of terms)) }
{
    match terms {
        Terms::Zero | Terms::One(_) => false,
        Terms::Two(v, w) => v == w && s.summary(at(a, v)),
    }
}

/// What an atom as head needs, negated where the flag is false.
#[tactic(auto, using(crate::proofs::Heads::atom_never, crate::proofs::Heads::atom_put, crate::proofs::Heads::change_of_atom, crate::proofs::Heads::wanted_is_known))]
fn need_of_atom(s: &Structure, flag: bool, p: PredId, terms: Terms, a: &Assignment) -> Need
    requires head { IsHeadOver (arities_of s.now) (HAtom flag p.0 (vars_of terms)) }
    requires assigned { (v : ℕ) → IsInHead v (HAtom flag p.0 (vars_of terms))
        → IsAssigned s.now.size a.now v }
    ensures { IsNeed s.now (assignment_of a.now) (HAtom flag p.0 (vars_of terms)) result }
{
    let t = tuple_at(a, terms);
    let k = s.get(p, t);
    if is_same(k, wanted(flag)) {
        return Need::Nothing;
    }
    if !is_same(k, K3::Half) {
        return Need::Never;
    }
    if is_on_summary(s, terms, a) {
        return Need::Nothing;
    }
    Need::Put(Change::Value(p, t, wanted(flag)))
}

/// What an equality as head needs, negated where the flag is false.
#[tactic(auto, using(crate::proofs::Heads::same_never))]
fn need_of_equality(s: &Structure, flag: bool, v: Var, w: Var, a: &Assignment) -> Need
    requires assigned { (x : ℕ) → IsInHead x (HSame flag v.0 w.0) → IsAssigned s.now.size a.now x }
    ensures { IsNeed s.now (assignment_of a.now) (HSame flag v.0 w.0) result }
{
    let u = at(a, v);
    if u != at(a, w) {
        return if flag { Need::Never } else { Need::Nothing };
    }
    if !s.summary(u) {
        return if flag { Need::Nothing } else { Need::Never };
    }
    if is_same_variable(v, w) {
        return Need::Nothing;
    }
    if flag {
        return Need::Put(Change::Ordinary(u));
    }
    Need::Never
}

/// What the head needs under the assignment.
pub(crate) fn need(s: &Structure, head: Head, a: &Assignment) -> Need
    requires head { IsHeadOver (arities_of s.now) (head_of head) }
    requires assigned { (v : ℕ) → IsInHead v (head_of head) → IsAssigned s.now.size a.now v }
    ensures { IsNeed s.now (assignment_of a.now) (head_of head) result }
{
    match head {
        Head::Never => Need::Never,
        Head::Atom(flag, p, terms) => need_of_atom(s, flag, p, terms, a),
        Head::Same(flag, v, w) => need_of_equality(s, flag, v, w, a),
    }
}
