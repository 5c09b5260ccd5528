//! The stages of a step, each in a line.

ghost use Rattle.std.specs.Prelude.{◌≡◌, ◌++◌, All, IfOk, OnOk};
ghost use Rattle.tv_model.specs.Program.{program_of};
ghost use Rattle.tv_model.specs.Valid.{IsValid};
ghost use Rattle.tv_stages_text.specs.Over.{IsChoiceOver, IsEndOver, IsFateOver, IsFocusedOver, IsEndedOver};
ghost use Rattle.tv_stages_text.specs.Over.{IsPickOver, IsRowOver, IsStepOver, IsUpdatedOver};
ghost use Rattle.tv_stages_text.specs.Texts.{at_hand_text, choice_text, dropped_text, each_from, fate_behind};
ghost use Rattle.tv_stages_text.specs.Texts.{fate_text, given_text, pick_text, result_text, turn_text};
ghost use Rattle.tv_stages_text.specs.Texts.{shown, step_text, updated_text};
ghost use Rattle.tv_structure_form.specs.StructureForm.{IsOver};

use crate::words::append_precondition;
use std::alloc::{AllocError, Global};
use std::marker::Model;
use tv_claim_text::ClaimNames;
use tv_file_lines::append_numbered;
use tv_losses_unmet::Claim;
use tv_model::Program;
use tv_show::append_line;
use tv_stages_laws::{
    Choice, End, Fate, FocusRow, FocusedAt, Given, PickedUpdate, SlowStep, UpdatedAt,
};
use tv_struct::Structure;

/// Writes what is recorded of the steps of a program. A contract sees the program.
#[derive(Drop)]
pub struct StageWriter<'a> {
    alloc: Global,
    program: &'a Program,
    names: ClaimNames<'a>,
}

impl<'a> Model for StageWriter<'a> {
    ghost use Rattle.std.specs.Prelude.{◌≡◌, ◌≤◌, length};
    ghost use Rattle.tv_model.specs.declared.program.Program.{Program};

    ghost Value = { Program };

    ghost use Rattle.tv_model.specs.contracts.formula.Formula as formula;
    ghost use Rattle.std.specs.Coded.{codes};

    ghost coded = { Prim.hlevel (codes, formula.the_row.coded) };

    ghost view = { λ w. w.program.now };

    ghost invariant = { λ w. (w.names ≡ w.program.now) × (length w.program.now.vocab.preds ≤ 512) };
}

impl<'a> StageWriter<'a> {
    /// A writer for a valid program.
    ///
    /// # Errors
    /// Lack of memory.
    pub fn new(alloc: Global, program: &'a Program) -> Result<StageWriter<'a>, AllocError>
        requires { IsValid (program_of program.now) }
        ensures { IfOk result (λ writer. writer ≡ program.now) }
    {
        let names = ClaimNames::new(alloc, program)?;
        Ok(StageWriter {
            alloc,
            program,
            names,
        })
    }

    /// Appends the structure in one line, and ends the line.
    fn append_shown(&self, out: &mut Vec<u8>, s: &Structure) -> Result<(), AllocError>
        requires { IsOver self.now.vocab s.now }
        ensures { OnOk result (out.new.items ≡ out.old.items ++ shown self.now s.now) }
    {
        append_line(self.alloc, out, &self.program.vocab, s)?;
        out.extend_from_slice(b"\n")
    }

    /// Appends that a claim drops it.
    fn append_dropped(&self, out: &mut Vec<u8>, claim: Option<Claim>) -> Result<(), AllocError>
        ensures { OnOk result (out.new.items ≡ out.old.items ++ dropped_text self.now claim) }
    {
        out.extend_from_slice(b"dropped by ")?;
        self.names.append(out, claim)?;
        out.extend_from_slice(b"\n")
    }

    /// Appends what coerce makes of a structure.
    fn append_fate(&self, out: &mut Vec<u8>, fate: &Fate) -> Result<(), AllocError>
        requires { IsFateOver self.now.vocab fate.now }
        ensures { OnOk result (out.new.items ≡ out.old.items ++ fate_text self.now fate.now) }
    {
        match fate {
            Fate::Kept(t) => {
                out.extend_from_slice(b"coerced")?;
                self.append_shown(out, t)
            }
            Fate::Dropped(claim) => self.append_dropped(out, *claim),
        }
    }

    /// Appends a choice of a focus atom, by its number, and what becomes of it.
    fn append_choice(
        &self,
        out: &mut Vec<u8>,
        number: usize,
        choice: &Choice,
    ) -> Result<(), AllocError>
        requires { IsChoiceOver self.now.vocab choice.now }
        ensures { OnOk result
            (out.new.items ≡ out.old.items ++ choice_text self.now number choice.now) }
    {
        append_numbered(out, b"stage       choice ", number)?;
        self.append_shown(out, &choice.structure)?;
        out.extend_from_slice(b"stage         ")?;
        self.append_fate(out, &choice.fate)
    }

    fn append_choices(&self, out: &mut Vec<u8>, choices: &[Choice]) -> Result<(), AllocError>
        requires { All (IsChoiceOver self.now.vocab) choices.now }
        ensures { OnOk result
            (out.new.items ≡ out.old.items ++ each_from (choice_text self.now) 0 choices.now) }
    {
        for number in 0..choices.len() {
            self.append_choice(out, number, &choices[number])?;
        }
        Ok(())
    }

    /// Appends a structure at hand, by its number, and the choices there.
    fn append_at_hand(
        &self,
        out: &mut Vec<u8>,
        number: usize,
        focused: &FocusedAt,
    ) -> Result<(), AllocError>
        requires { IsFocusedOver self.now.vocab focused.now }
        ensures { OnOk result
            (out.new.items ≡ out.old.items ++ at_hand_text self.now number focused.now) }
    {
        append_numbered(out, b"stage     at hand ", number)?;
        self.append_shown(out, &focused.at_hand)?;
        self.append_choices(out, focused.choices.as_slice())
    }

    fn append_focused(&self, out: &mut Vec<u8>, focused: &[FocusedAt]) -> Result<(), AllocError>
        requires { All (IsFocusedOver self.now.vocab) focused.now }
        ensures { OnOk result
            (out.new.items ≡ out.old.items ++ each_from (at_hand_text self.now) 0 focused.now) }
    {
        for number in 0..focused.len() {
            self.append_at_hand(out, number, &focused[number])?;
        }
        Ok(())
    }

    /// Appends the turn of a focus atom.
    fn append_row(&self, out: &mut Vec<u8>, row: &FocusRow) -> Result<(), AllocError>
        requires { IsRowOver self.now.vocab row.now }
        ensures { OnOk result (out.new.items ≡ out.old.items ++ turn_text self.now row.now) }
    {
        append_numbered(out, b"stage   focus ", row.formula)?;
        append_numbered(out, b" atom ", row.atom)?;
        out.extend_from_slice(b"\n")?;
        self.append_focused(out, row.at_hand.as_slice())
    }

    fn append_rows(&self, out: &mut Vec<u8>, rows: &[FocusRow]) -> Result<(), AllocError>
        requires { All (IsRowOver self.now.vocab) rows.now }
        ensures { OnOk result
            (out.new.items ≡ out.old.items ++ each_from (λ _ row. turn_text self.now row) 0 rows.now) }
    {
        for k in 0..rows.len() {
            self.append_row(out, &rows[k])?;
        }
        Ok(())
    }

    /// Appends what becomes of a structure that an update gives.
    fn append_end(&self, out: &mut Vec<u8>, end: &End) -> Result<(), AllocError>
        requires { IsEndOver self.now.vocab end.now }
        ensures { OnOk result (out.new.items ≡ out.old.items ++ fate_behind self.now end.now) }
    {
        match end {
            End::Blurred { coerced, blurred } => {
                out.extend_from_slice(b"stage         coerced")?;
                self.append_shown(out, coerced)?;
                out.extend_from_slice(b"stage         blurred")?;
                self.append_shown(out, blurred)
            }
            End::Lost(claim) => {
                out.extend_from_slice(b"stage         ")?;
                self.append_dropped(out, *claim)
            }
        }
    }

    /// Appends a structure that an update gives, by its number, and what becomes of it.
    fn append_given(
        &self,
        out: &mut Vec<u8>,
        number: usize,
        given: &Given,
    ) -> Result<(), AllocError>
        requires { IsEndedOver self.now.vocab given.now }
        ensures { OnOk result (out.new.items ≡ out.old.items ++ given_text self.now number given.now) }
    {
        append_numbered(out, b"stage       given ", number)?;
        self.append_shown(out, &given.structure)?;
        self.append_end(out, &given.end)
    }

    fn append_given_each(&self, out: &mut Vec<u8>, given: &[Given]) -> Result<(), AllocError>
        requires { All (IsEndedOver self.now.vocab) given.now }
        ensures { OnOk result
            (out.new.items ≡ out.old.items ++ each_from (given_text self.now) 0 given.now) }
    {
        for number in 0..given.len() {
            self.append_given(out, number, &given[number])?;
        }
        Ok(())
    }

    /// Appends the value of the precondition for picked individuals, and what the update gives for them.
    fn append_pick(&self, out: &mut Vec<u8>, pick: &PickedUpdate) -> Result<(), AllocError>
        requires { IsPickOver self.now.vocab pick.now }
        ensures { OnOk result (out.new.items ≡ out.old.items ++ pick_text self.now pick.now) }
    {
        append_precondition(out, pick)?;
        self.append_given_each(out, pick.given.as_slice())
    }

    fn append_picks(&self, out: &mut Vec<u8>, picks: &[PickedUpdate]) -> Result<(), AllocError>
        requires { All (IsPickOver self.now.vocab) picks.now }
        ensures { OnOk result
            (out.new.items ≡ out.old.items ++ each_from (λ _ pick. pick_text self.now pick) 0 picks.now) }
    {
        for k in 0..picks.len() {
            self.append_pick(out, &picks[k])?;
        }
        Ok(())
    }

    /// Appends a structure at hand behind focus, by its number, and what the action does there.
    fn append_update(
        &self,
        out: &mut Vec<u8>,
        number: usize,
        updated: &UpdatedAt,
    ) -> Result<(), AllocError>
        requires { IsUpdatedOver self.now.vocab updated.now }
        ensures { OnOk result
            (out.new.items ≡ out.old.items ++ updated_text self.now number updated.now) }
    {
        append_numbered(out, b"stage   update of ", number)?;
        self.append_shown(out, &updated.at_hand)?;
        self.append_picks(out, updated.picks.as_slice())
    }

    fn append_updates(&self, out: &mut Vec<u8>, updates: &[UpdatedAt]) -> Result<(), AllocError>
        requires { All (IsUpdatedOver self.now.vocab) updates.now }
        ensures { OnOk result
            (out.new.items ≡ out.old.items ++ each_from (updated_text self.now) 0 updates.now) }
    {
        for number in 0..updates.len() {
            self.append_update(out, number, &updates[number])?;
        }
        Ok(())
    }

    /// Appends a result, by its number.
    fn append_result(
        &self,
        out: &mut Vec<u8>,
        number: usize,
        s: &Structure,
    ) -> Result<(), AllocError>
        requires { IsOver self.now.vocab s.now }
        ensures { OnOk result (out.new.items ≡ out.old.items ++ result_text self.now number s.now) }
    {
        append_numbered(out, b"stage   result ", number)?;
        self.append_shown(out, s)
    }

    fn append_results(&self, out: &mut Vec<u8>, results: &[Structure]) -> Result<(), AllocError>
        requires { All (IsOver self.now.vocab) results.now }
        ensures { OnOk result
            (out.new.items ≡ out.old.items ++ each_from (result_text self.now) 0 results.now) }
    {
        for number in 0..results.len() {
            self.append_result(out, number, &results[number])?;
        }
        Ok(())
    }

    /// Appends what is recorded of the step of a structure, by the structure's number: a line for each
    /// structure that is made, in the order of the stages, and one for each that is dropped.
    ///
    /// # Errors
    /// Lack of memory.
    pub fn append_step(
        &self,
        out: &mut Vec<u8>,
        number: usize,
        s: &Structure,
        step: &SlowStep,
    ) -> Result<(), AllocError>
        requires over { IsOver self.now.vocab s.now }
        requires step { IsStepOver self.now.vocab step.now }
        ensures { OnOk result
            (out.new.items ≡ out.old.items ++ step_text self.now number s.now step.now) }
    {
        append_numbered(out, b"stage structure ", number)?;
        self.append_shown(out, s)?;
        out.extend_from_slice(b"stage   ")?;
        self.append_fate(out, &step.start)?;
        self.append_rows(out, step.focus.as_slice())?;
        self.append_updates(out, step.updates.as_slice())?;
        self.append_results(out, step.results.as_slice())
    }
}
