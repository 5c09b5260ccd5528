//! Truth of formulas in heaps that are given as structures.

ghost use Rattle.std.specs.Prelude.{◌≡◌, ◌↔◌, IsTrue};
ghost use Rattle.tv_eval.specs.AssignmentForm.{assignment_of};
ghost use Rattle.tv_eval.specs.Bound.{bound_structure, bound_room};
ghost use Rattle.tv_eval.specs.Formulas.{AreAssigned};
ghost use Rattle.tv_eval.specs.ScratchForm.{HasScratchFor};
ghost use Rattle.tv_model.specs.Form.{form_of};
ghost use Rattle.tv_model.specs.Truth.{Truth};
ghost use Rattle.tv_model.specs.Valid.{IsFormulaOver};
ghost use Rattle.tv_structure_form.specs.StructureForm.{arities_of, IsStructure};
ghost use Rattle.tv_kleene.specs.Kleene.{is_yes};
ghost use Rattle.tv_two_valued.specs.TwoValued.{IsTwoValued, heap_of};

use tv_eval::{Assignment, Evaluator};
use tv_kleene::K3;
use tv_model::Formula;

/// Whether the formula is true under the assignment in the heap that the evaluator's structure stands
/// for. Takes no memory.
pub fn holds<'a>(evaluator: &mut Evaluator<'_, 'a>, f: &'a Formula, a: &Assignment) -> bool
    requires structure { IsStructure (bound_structure evaluator.old) }
    requires two_valued { IsTwoValued (bound_structure evaluator.old) }
    requires formula { IsFormulaOver (arities_of (bound_structure evaluator.old)) (form_of f.now) }
    requires assigned { AreAssigned (bound_structure evaluator.old).size a.now (form_of f.now) }
    requires fits { HasScratchFor (bound_room evaluator.old) (form_of f.now)
        (bound_structure evaluator.old).size }
    ensures truth { IsTrue result
        ↔ Truth (heap_of (bound_structure evaluator.old)) (assignment_of a.now) (form_of f.now) }
    ensures same { evaluator.new ≡ evaluator.old }
{
    is_yes(evaluator.value(f, a))
}

fn is_yes(k: K3) -> bool
    ensures { result ≡ is_yes k }
{
    match k {
        K3::Yes => true,
        K3::No | K3::Half => false,
    }
}
