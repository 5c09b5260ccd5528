//! The engine of abstract steps: a program in a mode, made ready once.

ghost use Rattle.std.specs.Prelude.{◌≡◌, ◌<◌, length, IfOk};
ghost use Rattle.tv_model.specs.Program.{program_of};
ghost use Rattle.tv_model.specs.Valid.{IsValid};
ghost use Rattle.tv_rules.specs.Closing.{closed_rules};
ghost use Rattle.tv_rules.specs.EntryForms.{rules_of};
ghost use Rattle.tv_step_laws.specs.Transfer.{IsActionOf};
ghost use Rattle.tv_step.specs.Job.{action_in, IsJob};
ghost use Rattle.tv_step.specs.Setting.{form_in};

use crate::job::{Job, edge_at, job_at, jobs};
use crate::setting::Setting;
use std::alloc::{AllocError, Global};
use std::marker::Model;
use tv_model::{Mode, Program};
use tv_rules::{Closed, close_rules};

/// A program in a mode, made ready for abstract steps: what these need that depends on no structure is made
/// once. A contract sees the program and the mode.
#[derive(Drop)]
pub struct Engine<'a> {
    alloc: Global,
    program: &'a Program,
    mode: Mode,
    closed: Closed,
    /// For each action what its steps need that depends on no structure.
    jobs: Vec<Job<'a>>,
}

impl<'a> Model for Engine<'a> {
    ghost use Rattle.tv_step.specs.EngineForm.{EngineForm};

    ghost Value = { EngineForm };

    ghost use Rattle.tv_model.specs.contracts.formula.Formula as formula;
    ghost use Rattle.std.specs.Coded.{codes};

    ghost coded = { Prim.hlevel (codes, formula.the_row.coded) };

    ghost use Rattle.std.specs.Prelude.{◌≡◌};
    ghost use Rattle.tv_model.specs.Program.{program_of};
    ghost use Rattle.tv_model.specs.Valid.{IsValid};
    ghost use Rattle.tv_rules.specs.Closing.{closed_rules};
    ghost use Rattle.tv_rules.specs.EntryForms.{rules_of};
    ghost use Rattle.tv_step.specs.Job.{AreJobs};

    ghost view = { λ e. record { program = e.program.now; mode = e.mode } };

    ghost invariant = { λ e. IsValid (program_of e.program.now)
        × (rules_of e.closed ≡ closed_rules (program_of e.program.now))
        × AreJobs e.program.now e.mode e.jobs.items };
}

impl<'a> Engine<'a> {
    /// The engine of a valid program. The only error is lack of memory.
    pub fn new(alloc: Global, program: &'a Program, mode: Mode) -> Result<Engine<'a>, AllocError>
        requires { IsValid (program_of program.now) }
        ensures { IfOk result (λ engine. engine ≡ record { program = program.now; mode = mode }) }
    {
        let closed = close_rules(alloc, program)?;
        let jobs = jobs(&Setting {
            alloc,
            program,
            mode,
            closed: &closed,
        })?;
        Ok(Engine {
            alloc,
            program,
            mode,
            closed,
            jobs,
        })
    }

    /// What the steps of its program go by.
    pub fn setting(&self) -> Setting<'a, '_>
        ensures program { result.program.now ≡ self.now.program }
        ensures mode { result.mode ≡ self.now.mode }
        ensures valid { IsValid (form_in result) }
        ensures rules { rules_of result.closed.now ≡ closed_rules (form_in result) }
    {
        Setting {
            alloc: self.alloc,
            program: self.program,
            mode: self.mode,
            closed: &self.closed,
        }
    }

    /// The action of the edge, made ready for steps.
    pub fn job(&self, edge: u32) -> &Job<'a>
        requires { edge < length self.now.program.edges }
        ensures job { IsJob self.now.program self.now.mode result.now }
        ensures action { IsActionOf (program_of self.now.program) edge (action_in result.now) }
    {
        let taken = edge_at(self.program, edge);
        job_at(self.jobs.as_slice(), taken.action)
    }
}
