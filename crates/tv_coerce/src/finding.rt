//! What a rule, or one that came of the same base rule, asks for is found.

ghost use Rattle.std.specs.Prelude.{◌≡◌, ◌<◌, [], length, IfOk};
ghost use Rattle.tv_eval.specs.Bound.{bound_room, bound_structure};
ghost use Rattle.tv_rules.specs.EntryForms.{rules_of};
ghost use Rattle.tv_coerce.specs.Ready.{CanCoerce};
ghost use Rattle.tv_coerce.specs.Trying.{IsTrialResult};

use crate::trial::{Outcome, Trial, Walk};
use std::alloc::AllocError;
use tv_model::Var;
use tv_rules::Closed;
use tv_struct::Structure;

impl<'s, 'a> Walk<'s, 'a> {
    /// Notes what has to change where a structure is to be stable under the rule and those that came of the
    /// same base rule: nothing where it is stable under all.
    pub fn find(
        &mut self,
        closed: &'a Closed,
        number: usize,
        s: &'a Structure,
    ) -> Result<Outcome, AllocError>
        requires number { number < length (rules_of closed.now) }
        requires structure { bound_structure self.old.evaluator ≡ s.now }
        requires rules { CanCoerce (rules_of closed.now) s.now (bound_room self.old.evaluator) }
        requires none { self.old.noted.list.items ≡ [] }
        ensures found { IfOk result (IsTrialResult closed.now number s.now self.new.noted.list.items) }
        ensures same { self.new.evaluator ≡ self.old.evaluator }
    {
        let shape = closed.shape(number);
        match shape.variables.as_slice() {
            [] => {
                let trial = Trial {
                    structure: s,
                    closed,
                    number,
                    shape,
                    last: Var(0),
                    chunk: 0,
                    later: &[],
                };
                let outcome = self.walk_none(&trial)?;
                Ok(outcome)
            }
            [before @ .., last] => {
                let trial = Trial {
                    structure: s,
                    closed,
                    number,
                    shape,
                    last: *last,
                    chunk: 0,
                    later: &[],
                };
                let outcome = self.walk_some(&trial, before)?;
                Ok(outcome)
            }
        }
    }
}
