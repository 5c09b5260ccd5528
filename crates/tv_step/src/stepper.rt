//! What takes abstract steps: an engine, and the room in which formulas are evaluated.

ghost use Rattle.std.specs.Prelude.{◌≡◌, ◌<◌, ◌≤◌, Some, length, IfOk, IfSome, IfNone, IsTrue};
ghost use Rattle.tv_eval.specs.AssignmentForm.{assignment_of};
ghost use Rattle.tv_eval.specs.Formulas.{AreAssigned};
ghost use Rattle.tv_eval_laws.specs.Value.{value as value_in};
ghost use Rattle.tv_model.specs.Form.{form_of};
ghost use Rattle.tv_model.specs.Program.{program_of};
ghost use Rattle.tv_model.specs.Valid.{IsFormulaOver, IsValid};
ghost use Rattle.tv_rules.specs.Closing.{closed_rules};
ghost use Rattle.tv_stable_laws.specs.Stable.{IsStable};
ghost use Rattle.tv_structure_form.specs.StructureForm.{StructureForm, IsOver, arities_of, structure_of};
ghost use Rattle.tv_step_laws.specs.Settled.{IsSettled};
ghost use Rattle.tv_step_laws.specs.Transfer.{IsOpening, HasNoOpening};
ghost use Rattle.tv_step.specs.AtHand.{FindsAtHand};
ghost use Rattle.tv_step.specs.Starts.{HasStarts};
ghost use Rattle.tv_step.specs.StepAnswer.{AnswersStep};
ghost use Rattle.tv_step.specs.Steps.{HasRoomFor};

use crate::engine::Engine;
use crate::focus::own_at_hand;
use crate::opened;
use crate::step::{StepOut, focused, step_from};
use std::alloc::{AllocError, Global};
use std::marker::Model;
use std::slice;
use tv_coerce::coerce;
use tv_eval::{Assignment, Scratch, eval};
use tv_kleene::K3;
use tv_model::{Formula, Mode, Program};
use tv_struct::{StageError, Structure, Structures};

/// Takes the abstract steps of a program in a mode: its engine, and room to evaluate formulas. A contract
/// sees the program and the mode, which stay.
#[derive(Drop)]
pub struct Stepper<'a> {
    engine: Engine<'a>,
    scratch: Scratch,
}

impl<'a> Model for Stepper<'a> {
    ghost use Rattle.tv_step.specs.EngineForm.{EngineForm};

    ghost Value = { EngineForm };

    ghost use Rattle.tv_model.specs.contracts.formula.Formula as formula;
    ghost use Rattle.std.specs.Coded.{codes};

    ghost coded = { Prim.hlevel (codes, formula.the_row.coded) };

    ghost use Rattle.tv_eval.specs.ScratchForm.{IsMadeFor};
    ghost use Rattle.tv_model.specs.Program.{program_of};
    ghost use Rattle.tv_model.specs.Valid.{IsValid};

    ghost view = { λ x. x.engine };

    ghost invariant = { λ x. IsValid (program_of x.engine.program)
        × IsMadeFor (program_of x.engine.program) 256 x.scratch };
}

impl<'a> Stepper<'a> {
    /// The stepper of a valid program. The only error is lack of memory.
    pub fn new(alloc: Global, program: &'a Program, mode: Mode) -> Result<Stepper<'a>, AllocError>
        requires { IsValid (program_of program.now) }
        ensures { IfOk result (λ stepper. stepper ≡ record { program = program.now; mode = mode }) }
    {
        let engine = Engine::new(alloc, program, mode)?;
        let scratch = Scratch::new(alloc, program, 256)?;
        Ok(Stepper { engine, scratch })
    }

    /// The opening of a structure: the greatest stable structure below it, blurred; none exactly where no
    /// stable structure lies below. It is settled, and each heap of the program that embeds in the structure
    /// embeds in it. The only error is lack of memory.
    pub fn opening(&mut self, s: &Structure) -> Result<Option<Structure>, AllocError>
        requires { IsOver self.old.program.vocab s.now }
        ensures some { IfOk result (λ found. IfSome found (IsOpening (program_of self.old.program) s.now)) }
        ensures none { IfOk result
            (λ found. IfNone found (HasNoOpening (program_of self.old.program) s.now)) }
        ensures only { IfOk result
            (λ found. (t : StructureForm) → IsOpening (program_of self.old.program) s.now t
            → found ≡ Some t) }
        ensures settled { IfOk result (λ found. IfSome found (IsSettled (program_of self.old.program))) }
        ensures heaps { IfOk result (HasStarts (program_of self.old.program) s.now) }
        ensures same { self.new ≡ self.old }
    {
        let x = self.engine.setting();
        opened::opening(x.alloc, x.program, x.closed, s, &mut self.scratch)
    }

    /// The structures at hand of a structure along an edge: what coerce, and the focus of the edge's action,
    /// leave of it. `Splits` only where a focus atom has over 4,096 choices, `Individuals` only where a
    /// choice has over 256 individuals.
    pub fn at_hand(&mut self, edge: u32, s: &Structure) -> Result<Structures, StageError>
        requires edge { edge < length self.old.program.edges }
        requires over { IsOver self.old.program.vocab s.now }
        ensures at_hand { FindsAtHand (program_of self.old.program) edge s.now result }
        ensures same { self.new ≡ self.old }
    {
        let x = self.engine.setting();
        let _ = s.size();
        let coerced = coerce(x.alloc, x.closed, s, &mut self.scratch)?;
        let start = coerced.as_slice();
        let found = focused(&x, self.engine.job(edge), start, &mut self.scratch)?;
        Ok(own_at_hand(&x, found, start)?)
    }

    /// The abstract step of a structure along an edge: its results, strictly sorted, and the values of the
    /// messages. `Splits` only where a stage of the step has over 4,096 choices, `Individuals` only where it
    /// makes a structure of over 256 individuals; where it does either, the answer is one of the two or
    /// `Memory`.
    pub fn step(&mut self, edge: u32, s: &Structure) -> Result<StepOut, StageError>
        requires edge { edge < length self.old.program.edges }
        requires over { IsOver self.old.program.vocab s.now }
        ensures step { AnswersStep (program_of self.old.program) self.old.mode edge s.now result }
        ensures same { self.new ≡ self.old }
    {
        let x = self.engine.setting();
        let _ = s.size();
        let start = coerce(x.alloc, x.closed, s, &mut self.scratch)?;
        step_from(
            &x,
            self.engine.job(edge),
            start.as_slice(),
            &mut self.scratch,
        )
    }

    /// The abstract step of a structure that is stable under the closed rules. It needs no coerce to begin
    /// with; results, messages and errors are those of `step`.
    pub fn stable_step(&mut self, edge: u32, s: &Structure) -> Result<StepOut, StageError>
        requires edge { edge < length self.old.program.edges }
        requires over { IsOver self.old.program.vocab s.now }
        requires stable { IsStable (closed_rules (program_of self.old.program)) (structure_of s.now) }
        ensures step { AnswersStep (program_of self.old.program) self.old.mode edge s.now result }
        ensures same { self.new ≡ self.old }
    {
        let x = self.engine.setting();
        let _ = s.size();
        step_from(
            &x,
            self.engine.job(edge),
            slice::from_ref(s),
            &mut self.scratch,
        )
    }

    /// The abstract step of a structure of which it may be known that it is stable. Coerce is spared where it
    /// is; results, messages and errors are those of `step`.
    pub fn step_of(
        &mut self,
        edge: u32,
        s: &Structure,
        is_stable: bool,
    ) -> Result<StepOut, StageError>
        requires over { IsOver self.old.program.vocab s.now }
        requires edge { edge < length self.old.program.edges }
        requires stable { IsTrue is_stable
            → IsStable (closed_rules (program_of self.old.program)) (structure_of s.now) }
        ensures step { AnswersStep (program_of self.old.program) self.old.mode edge s.now result }
        ensures same { self.new ≡ self.old }
    {
        if is_stable {
            self.stable_step(edge, s)
        } else {
            self.step(edge, s)
        }
    }

    /// The value of a formula, no higher than the highest of the program, in a structure.
    pub fn value(&mut self, f: &Formula, s: &Structure, a: &Assignment) -> K3
        requires formula { IsFormulaOver (arities_of s.now) (form_of f.now) }
        requires assigned { AreAssigned s.now.size a.now (form_of f.now) }
        requires room { HasRoomFor (program_of self.old.program) (form_of f.now) }
        requires few { s.now.size ≤ 256 }
        ensures value { result ≡ value_in (structure_of s.now) (assignment_of a.now) (form_of f.now) }
        ensures same { self.new ≡ self.old }
    {
        eval(f, s, a, &mut self.scratch)
    }
}
