//! The first predicate of a heap that isn't as its definition says.

ghost use Rattle.std.specs.Prelude.{◌≡◌, ◌↔◌, ◌∷◌, [], IsTrue, length, map};
ghost use Rattle.std.specs.Option.{option_map};
ghost use Rattle.tv_eval.specs.Bound.{bound_structure, bound_room};
ghost use Rattle.tv_model.specs.Form.{form_of, vars_of};
ghost use Rattle.tv_model.specs.Program.{kind_of, pred_of, program_of};
ghost use Rattle.tv_struct.specs.StructureRows.{HasArity};
ghost use Rattle.tv_two_valued.specs.TwoValued.{heap_of};
ghost use Rattle.tv_replay_laws.specs.Judged.{IsAsDefined, IsFirst};
ghost use Rattle.tv_replay_judge.specs.Ready.{IsReadyToEvaluate};
ghost use Rattle.tv_replay_judge.specs.Same.{CanCompare, CanCompareKind, HasValuesOf};

use crate::values::are_equal;
use tv_eval::{Assignment, Evaluator, Scratch};
use tv_model::{Formula, Kind, Pred, PredId, Program, Terms, Var};
use tv_struct::{Structure, Table, Tuple};

/// Whether the binary predicate has the values of the formula at all pairs, put for the variables.
fn has_values_at_pairs<'a>(
    s: &Structure,
    evaluator: &mut Evaluator<'_, 'a>,
    p: PredId,
    v: Var,
    w: Var,
    f: &'a Formula,
) -> bool
    requires structure { bound_structure evaluator.old ≡ s.now }
    requires can { CanCompare s.now (bound_room evaluator.old) p.0 (v.0 ∷ w.0 ∷ []) (form_of f.now) }
    ensures same { IsTrue result ↔ HasValuesOf s.now p.0 (v.0 ∷ w.0 ∷ []) (form_of f.now) }
    ensures kept { evaluator.new ≡ evaluator.old }
{
    for u in 0..s.size() {
        let row = evaluator.row(f, w, &Assignment::new().with(v, u));
        if !row.equals(&s.row(p, u)) {
            return false;
        }
    }
    true
}

/// Whether the predicate has the values of the formula at all tuples, put for the variables.
fn has_values<'a>(
    s: &Structure,
    evaluator: &mut Evaluator<'_, 'a>,
    p: PredId,
    vars: Terms,
    f: &'a Formula,
) -> bool
    requires structure { bound_structure evaluator.old ≡ s.now }
    requires can { CanCompare s.now (bound_room evaluator.old) p.0 (vars_of vars) (form_of f.now) }
    ensures same { IsTrue result ↔ HasValuesOf s.now p.0 (vars_of vars) (form_of f.now) }
    ensures kept { evaluator.new ≡ evaluator.old }
{
    let none = Assignment::new();
    match vars {
        Terms::Zero => are_equal(evaluator.value(f, &none), s.get(p, Tuple::Zero)),
        Terms::One(v) => evaluator.row(f, v, &none).equals(&s.unary_row(p)),
        Terms::Two(v, w) => has_values_at_pairs(s, evaluator, p, v, w, f),
    }
}

/// Whether the predicate holds exactly of the tuples of which its definition is true.
fn is_as_defined<'a>(
    s: &Structure,
    evaluator: &mut Evaluator<'_, 'a>,
    p: PredId,
    pred: &'a Pred,
) -> bool
    requires structure { bound_structure evaluator.old ≡ s.now }
    requires can { CanCompareKind s.now (bound_room evaluator.old) p.0 pred.now.arity
        (kind_of pred.now.kind) }
    ensures same { IsTrue result ↔ IsAsDefined (heap_of s.now) p.0 (pred_of pred.now) }
    ensures kept { evaluator.new ≡ evaluator.old }
{
    match &pred.kind {
        Kind::Core => true,
        Kind::Defined { vars, body } => has_values(s, evaluator, p, *vars, body),
    }
}

/// The first predicate that isn't as defined.
fn first_of<'a>(
    program: &'a Program,
    s: &Structure,
    evaluator: &mut Evaluator<'_, 'a>,
) -> Option<PredId>
    requires structure { bound_structure evaluator.old ≡ s.now }
    requires ready { IsReadyToEvaluate (program_of program.now) s.now (bound_room evaluator.old) }
    ensures first { IsFirst (program_of program.now).preds (IsAsDefined (heap_of s.now))
        (option_map (λ p. p.0) result) }
    ensures kept { evaluator.new ≡ evaluator.old }
{
    for (number, pred) in program.vocab.preds.as_slice().iter().enumerate() {
        let p = PredId(number as u32);
        if !is_as_defined(s, evaluator, p, pred) {
            return Some(p);
        }
    }
    None
}

/// The first defined predicate of the heap which the structure stands for that doesn't hold exactly of the
/// tuples of which its definition is true; none where each does. Takes no memory, and the scratch is given
/// back as it was.
pub fn first_unlike(program: &Program, s: &Structure, scratch: &mut Scratch) -> Option<PredId>
    requires ready { IsReadyToEvaluate (program_of program.now) s.now scratch.old }
    ensures first { IsFirst (program_of program.now).preds (IsAsDefined (heap_of s.now))
        (option_map (λ p. p.0) result) }
    ensures scratch { scratch.new ≡ scratch.old }
{
    let mut evaluator = Evaluator::new(s, scratch);
    let found = first_of(program, s, &mut evaluator);
    evaluator.finish(scratch);
    found
}
