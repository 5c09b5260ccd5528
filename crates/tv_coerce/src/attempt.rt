//! The rules that wait are tried, until one asks for something.

ghost use Rattle.std.specs.Prelude.{◌≡◌, [], length, IfOk};
ghost use Rattle.tv_eval.specs.Bound.{bound_room, bound_structure};
ghost use Rattle.tv_rules.specs.EntryForms.{rules_of};
ghost use Rattle.tv_coerce.specs.Attempts.{IsAttempted};
ghost use Rattle.tv_coerce.specs.Ready.{CanCoerce};
ghost use Rattle.tv_coerce.specs.RuleSets.{IsStableBut};

use crate::noted::{Ask, Queue};
use crate::rule_set::RuleSet;
use crate::trial::{Outcome, Walk};
use std::alloc::AllocError;
use tv_eval::{Assignment, Evaluator, Scratch};
use tv_rules::Closed;
use tv_struct::Structure;

/// What rules ask for.
#[derive(Debug, Drop)]
pub(crate) enum Asked {
    /// The rule of that number was tried, and it or others that came of the same base rule ask for changes,
    /// of which there are some.
    Changes(usize, Vec<Ask>),
    /// No structure below is stable.
    Impossible,
}

impl<'s, 'a> Walk<'s, 'a> {
    /// Takes rules out of the set and tries them, each with those that came of the same base rule, until one
    /// asks for something. The evaluator keeps what it closes for the rules that follow.
    fn attempt(
        &mut self,
        closed: &'a Closed,
        s: &'a Structure,
        waiting: &mut RuleSet,
    ) -> Result<Option<Asked>, AllocError>
        requires rules { CanCoerce (rules_of closed.now) s.now (bound_room self.old.evaluator) }
        requires structure { bound_structure self.old.evaluator ≡ s.now }
        requires count { length waiting.old ≡ length (rules_of closed.now) }
        requires rest { IsStableBut (rules_of closed.now) waiting.old s.now }
        requires none { self.old.noted.list.items ≡ [] }
        ensures attempted { IfOk result (IsAttempted (rules_of closed.now) s.now waiting.new) }
        ensures same { self.new.evaluator ≡ self.old.evaluator }
    {
        while let Some(number) = waiting.take(closed) {
            match self.find(closed, number, s)? {
                Outcome::Impossible => return Ok(Some(Asked::Impossible)),
                Outcome::Possible => {
                    if self.noted.has_some() {
                        return Ok(Some(Asked::Changes(number, self.noted.take_asks())));
                    }
                    waiting.remove_all(closed.kin(number));
                }
            }
        }
        Ok(None)
    }
}

/// Takes rules out of the set and tries them, until one asks for changes or can't be met; nothing where the
/// structure is stable under all.
pub(crate) fn attempt(
    closed: &Closed,
    s: &Structure,
    waiting: &mut RuleSet,
    scratch: &mut Scratch,
    noted: &mut Queue,
) -> Result<Option<Asked>, AllocError>
    requires ready { CanCoerce (rules_of closed.now) s.now scratch.old }
    requires count { length waiting.old ≡ length (rules_of closed.now) }
    requires rest { IsStableBut (rules_of closed.now) waiting.old s.now }
    requires none { noted.old.list.items ≡ [] }
    ensures attempted { IfOk result (IsAttempted (rules_of closed.now) s.now waiting.new) }
    ensures scratch { scratch.new ≡ scratch.old }
{
    let mut walk = Walk {
        evaluator: Evaluator::new(s, scratch),
        a: Assignment::new(),
        noted: noted.take(),
    };
    let asked = walk.attempt(closed, s, waiting);
    let Walk {
        evaluator,
        noted: left,
        ..
    } = walk;
    evaluator.finish(scratch);
    *noted = left;
    asked
}
