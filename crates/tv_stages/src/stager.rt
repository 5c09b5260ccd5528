//! What records abstract steps stage by stage.

ghost use Rattle.std.specs.Prelude.{◌≡◌, ◌<◌, length, IfOk, IfErr, OnOk};
ghost use Rattle.tv_model.specs.Program.{program_of};
ghost use Rattle.tv_model.specs.Valid.{IsValid};
ghost use Rattle.tv_structure_form.specs.StructureForm.{IsOver};
ghost use Rattle.tv_step_laws.specs.Budgets.{IsStepCause, KeepsBudgets};
ghost use Rattle.tv_stages_laws.specs.Stages.{IsSlowStep};

use crate::stages::slow_step;
use crate::task::{Task, Tools};
use std::alloc::{AllocError, Global};
use std::marker::Model;
use tv_eval::Scratch;
use tv_losses_unmet::Declared;
use tv_model::{Mode, Program};
use tv_rules::{Closed, close_rules};
use tv_stages_laws::SlowStep;
use tv_step::Stepper;
use tv_struct::{StageError, Structure};

/// Takes abstract steps of a program in a mode, and records them stage by stage. A contract sees the program
/// and the mode, which stay.
#[derive(Drop)]
pub struct Stager<'a> {
    alloc: Global,
    program: &'a Program,
    mode: Mode,
    closed: Closed,
    tools: Tools<'a>,
}

impl<'a> Model for Stager<'a> {
    ghost use Rattle.tv_step.specs.EngineForm.{EngineForm};

    ghost Value = { EngineForm };

    ghost use Rattle.tv_model.specs.contracts.formula.Formula as formula;
    ghost use Rattle.std.specs.Coded.{codes};

    ghost coded = { Prim.hlevel (codes, formula.the_row.coded) };

    ghost use Rattle.std.specs.Prelude.{◌≡◌};
    ghost use Rattle.tv_eval.specs.ScratchForm.{IsMadeFor};
    ghost use Rattle.tv_model.specs.Program.{program_of};
    ghost use Rattle.tv_model.specs.Valid.{IsValid};
    ghost use Rattle.tv_rules.specs.Closing.{closed_rules};
    ghost use Rattle.tv_rules.specs.EntryForms.{rules_of};

    ghost view = { λ x. record { program = x.program.now; mode = x.mode } };

    ghost invariant = { λ x. IsValid (program_of x.program.now)
        × (rules_of x.closed ≡ closed_rules (program_of x.program.now))
        × IsMadeFor (program_of x.program.now) 256 x.tools.scratch
        × (x.tools.declared ≡ x.program.now)
        × (x.tools.stepper ≡ record { program = x.program.now; mode = x.mode }) };
}

impl<'a> Stager<'a> {
    /// What records the steps of a valid program. The only error is lack of memory.
    pub fn new(alloc: Global, program: &'a Program, mode: Mode) -> Result<Stager<'a>, AllocError>
        requires { IsValid (program_of program.now) }
        ensures { IfOk result (λ stager. stager ≡ record { program = program.now; mode = mode }) }
    {
        let closed = close_rules(alloc, program)?;
        let declared = Declared::new(alloc, program)?;
        let scratch = Scratch::new(alloc, program, 256)?;
        let stepper = Stepper::new(alloc, program, mode)?;
        Ok(Stager {
            alloc,
            program,
            mode,
            closed,
            tools: Tools {
                declared,
                scratch,
                stepper,
            },
        })
    }

    /// The abstract step of a structure along an edge, stage by stage: what is recorded is all that its
    /// stages make, in order, and its results are those of the step. `Splits` only where a stage of the step
    /// has over 4,096 choices, `Individuals` only where it makes a structure of over 256 individuals; where
    /// it does either, the answer is one of the two or `Memory`.
    pub fn step(&mut self, edge: u32, s: &Structure) -> Result<SlowStep, StageError>
        requires edge { edge < length self.old.program.edges }
        requires over { IsOver self.old.program.vocab s.now }
        ensures slow { IfOk result (IsSlowStep (program_of self.old.program) self.old.mode edge s.now) }
        ensures budgets { OnOk result (KeepsBudgets (program_of self.old.program) edge s.now) }
        ensures cause { IfErr result (IsStepCause (program_of self.old.program) edge s.now) }
        ensures same { self.new ≡ self.old }
    {
        let x = Task {
            alloc: self.alloc,
            program: self.program,
            mode: self.mode,
            closed: &self.closed,
        };
        slow_step(&x, &mut self.tools, edge, s)
    }
}
