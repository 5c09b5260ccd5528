//! What the variables of a formula stand for.

ghost use Rattle.std.specs.Prelude.{ℕ, ◌≡◌, ◌<◌, ◌==◌, List, Some, None, if◌then◌else◌, slice_set};
ghost use Rattle.tv_model.specs.Form.{Form};
ghost use Rattle.tv_model.specs.Truth.{put};
ghost use Rattle.tv_structure_form.specs.StructureForm.{StructureForm};
ghost use Rattle.tv_quantifiers.specs.Runs.{AreVariables, AreWithin, placed, under_run};
ghost use Rattle.tv_eval.specs.AssignmentForm.{individual_for, assignment_of};
ghost use Rattle.tv_eval.specs.CanEvaluate.{CanEvaluate};

use std::marker::Model;
use tv_model::Var;
use tv_quantifiers::Level;

/// A finite map from the 32 variables of formulas to individuals.
#[derive(Clone, Copy, Debug)]
pub struct Assignment {
    places: [Option<u32>; 32],
}

impl Model for Assignment {
    ghost use Rattle.std.specs.Prelude.{ℕ, List, Option};

    ghost Value = { List (Option ℕ) };

    ghost view = { λ a. a.places };

    ghost inverse = { λ a. record { places = a } };
}

impl Assignment {
    /// The assignment of no variable.
    pub fn new() -> Assignment
        ensures { (v : ℕ) → individual_for result v ≡ None }
    {
        Assignment { places: [None; 32] }
    }

    /// The assignment with the individual `u` put for the variable `v`, whether or not it stood for
    /// one before.
    pub fn with(self, v: Var, u: u32) -> Assignment
        requires { v.0 < 32 }
        ensures places { (w : ℕ)
            → individual_for result w ≡ (if w == v.0 then Some u else individual_for self w) }
        ensures total { assignment_of result ≡ put (assignment_of self) v.0 u }
    {
        let mut new = self;
        new.set(v, u);
        new
    }

    /// Puts the individual `u` for the variable `v`, whether or not it stood for one before, and changes
    /// nothing else.
    pub fn set(&mut self, v: Var, u: u32)
        requires { v.0 < 32 }
        ensures value { self.new ≡ slice_set self.old v.0 (Some u) }
        ensures places { (w : ℕ)
            → individual_for self.new w ≡ (if w == v.0 then Some u else individual_for self.old w) }
        ensures total { assignment_of self.new ≡ put (assignment_of self.old) v.0 u }
    {
        self.places[v.0 as usize] = Some(u);
    }

    /// The assignment with the individuals at hand put for the variables of a run.
    pub(crate) fn at_hand(&self, levels: &[Level]) -> Assignment
        requires { AreVariables levels.now }
        ensures total { assignment_of result ≡ placed (assignment_of self.now) levels.now }
        ensures parts { (s : StructureForm) (sizes : List ℕ) (f : Form) → AreWithin s.size levels.now
            → CanEvaluate s self.now sizes (under_run levels.now f) → CanEvaluate s result sizes f }
    {
        match levels.split_first() {
            None => *self,
            Some((level, inner)) => (*self).with(level.var, level.at).at_hand(inner),
        }
    }

    /// The individual that the variable stands for, if there is one.
    pub fn get(&self, v: Var) -> Option<u32>
        ensures { result ≡ individual_for self.now v.0 }
    {
        self.places.get(v.0 as usize).copied().flatten()
    }

    /// The individual that the variable stands for, and 0 where there is none.
    pub(crate) fn at(&self, v: Var) -> u32
        ensures { result ≡ assignment_of self.now v.0 }
    {
        self.get(v).unwrap_or(0)
    }
}
