//! The greatest stable structure below a structure.

ghost use Rattle.std.specs.Prelude.{◌≡◌, Some, length, IfOk};
ghost use Rattle.tv_stable_laws.specs.Stable.{IsStable};
ghost use Rattle.tv_structure_form.specs.StructureForm.{structure_of};
ghost use Rattle.tv_rules.specs.EntryForms.{rules_of};
ghost use Rattle.tv_coerce.specs.Attempts.{IsEnd, IsOnTheWay};
ghost use Rattle.tv_coerce.specs.Coerced.{CoercesTo, CoercesHeaps};
ghost use Rattle.tv_coerce.specs.Ready.{CanCoerce};
ghost use Rattle.tv_coerce.specs.RuleSets.{IsStableBut};

use crate::attempt::{Asked, attempt};
use crate::noted::Queue;
use crate::rule_set::RuleSet;
use crate::sharpen::sharpen;
use std::alloc::{AllocError, Global};
use tv_eval::Scratch;
use tv_rules::Closed;
use tv_struct::Structure;

/// Tries the rules that wait, and those that see what these change, until none waits. False where no stable
/// structure lies below.
fn settle(
    alloc: Global,
    closed: &Closed,
    t: &mut Structure,
    waiting: &mut RuleSet,
    scratch: &mut Scratch,
) -> Result<bool, AllocError>
    requires ready { CanCoerce (rules_of closed.now) t.old scratch.old }
    requires begun { IsOnTheWay (rules_of closed.now) waiting.old t.old t.old }
    ensures settled { IfOk result (IsEnd (rules_of closed.now) t.old t.new) }
    ensures scratch { scratch.new ≡ scratch.old }
{
    let mut noted = Queue::new(alloc, t.size());
    while let Some(asked) = attempt(closed, t, waiting, scratch, &mut noted)? {
        match asked {
            Asked::Impossible => return Ok(false),
            Asked::Changes(tried, asks) => {
                sharpen(t, asks.as_slice());
                waiting.add_seeing_asks(closed, asks.as_slice());
                waiting.insert(tried);
                noted.reuse(asks);
            }
        }
    }
    Ok(true)
}

/// The greatest structure below `s` that is stable under the closed rules, with the mark of `s`: each stable
/// structure below `s` lies below it. `None` where no stable structure lies below `s`. Each heap, of any
/// size, that meets the rules and embeds in `s` embeds in the answer. The only error is lack of memory.
pub fn coerce(
    alloc: Global,
    closed: &Closed,
    s: &Structure,
    scratch: &mut Scratch,
) -> Result<Option<Structure>, AllocError>
    requires { CanCoerce (rules_of closed.now) s.now scratch.old }
    ensures exact { IfOk result (CoercesTo (rules_of closed.now) s.now) }
    ensures heaps { IfOk result (CoercesHeaps (rules_of closed.now) s.now) }
    ensures again { IsStable (rules_of closed.now) (structure_of s.now)
        → IfOk result (λ found. found ≡ Some s.now) }
    ensures scratch { scratch.new ≡ scratch.old }
{
    let all = RuleSet::of_all(alloc, closed)?;
    coerce_waiting(alloc, closed, s, &all, scratch)
}

/// What `coerce` gives, where `s` is known to be stable under each rule whose number isn't waiting: only
/// those that wait are tried, and those that see what these change.
fn coerce_waiting(
    alloc: Global,
    closed: &Closed,
    s: &Structure,
    waiting: &RuleSet,
    scratch: &mut Scratch,
) -> Result<Option<Structure>, AllocError>
    requires ready { CanCoerce (rules_of closed.now) s.now scratch.old }
    requires count { length waiting.now ≡ length (rules_of closed.now) }
    requires rest { IsStableBut (rules_of closed.now) waiting.now s.now }
    ensures exact { IfOk result (CoercesTo (rules_of closed.now) s.now) }
    ensures heaps { IfOk result (CoercesHeaps (rules_of closed.now) s.now) }
    ensures again { IsStable (rules_of closed.now) (structure_of s.now)
        → IfOk result (λ found. found ≡ Some s.now) }
    ensures scratch { scratch.new ≡ scratch.old }
{
    let waiting = waiting.copy(alloc)?;
    let t = s.copy(alloc)?;
    coerce_in_place(alloc, closed, t, waiting, scratch)
}

/// The same of a structure and a set of rules that aren't needed any more.
pub fn coerce_in_place(
    alloc: Global,
    closed: &Closed,
    mut s: Structure,
    mut waiting: RuleSet,
    scratch: &mut Scratch,
) -> Result<Option<Structure>, AllocError>
    requires ready { CanCoerce (rules_of closed.now) s scratch.old }
    requires count { length waiting ≡ length (rules_of closed.now) }
    requires rest { IsStableBut (rules_of closed.now) waiting s }
    ensures exact { IfOk result (CoercesTo (rules_of closed.now) s) }
    ensures heaps { IfOk result (CoercesHeaps (rules_of closed.now) s) }
    ensures again { IsStable (rules_of closed.now) (structure_of s) → IfOk result (λ found. found ≡ Some s) }
    ensures scratch { scratch.new ≡ scratch.old }
{
    let _ = s.size();
    if settle(alloc, closed, &mut s, &mut waiting, scratch)? {
        Ok(Some(s))
    } else {
        Ok(None)
    }
}
