//! The rules that may be unmet where a predicate has other values than in a structure that was stable.

ghost use Rattle.std.specs.Prelude.{ℕ, ◌≡◌, ◌<◌, ◌++◌, ◌∷◌, [], List, length, Some, slice_get, All, Contains};
ghost use Rattle.std.specs.Prelude.{IfOk, IsTrue};
ghost use Rattle.tv_coerce.specs.RuleSets.{AreOf, HasAtLeast, IsRuleThat};
ghost use Rattle.tv_model.specs.Program.{HAtom, RuleForm, head_of};
ghost use Rattle.tv_rules.specs.EntryForms.{rules_of};
ghost use Rattle.tv_rules.specs.Seen.{Sees};
ghost use Rattle.tv_rules.specs.Standing.{StandsIn};
ghost use Rattle.tv_structure_form.specs.StructureForm.{arities_of};
ghost use Rattle.tv_coerce_sets.specs.Unmet.{HasHeadWith, IsHeadWith, MaySee, WaitsAmong, set_of};

use crate::turned::{Turned, turned_values};
use std::alloc::{AllocError, Global};
use tv_coerce::RuleSet;
use tv_model::{Head, PredId, Terms};
use tv_rules::Closed;
use tv_struct::Structure;

/// Whether the predicate stands in no rule.
fn stands_in_none(closed: &Closed, p: PredId) -> bool
    ensures { IsTrue result → (k : ℕ) (rule : RuleForm) → slice_get (rules_of closed.now) k ≡ Some rule
        → ¬ StandsIn p.0 rule }
{
    matches!(closed.by_pred(p), [])
}

/// The rules found so far, none at first.
fn set_or_none(
    alloc: Global,
    closed: &Closed,
    found: Option<RuleSet>,
) -> Result<RuleSet, AllocError>
    ensures { IfOk result (λ set. set ≡ set_of (rules_of closed.now) found) }
{
    match found {
        None => RuleSet::of_none(alloc, closed),
        Some(set) => Ok(set),
    }
}

/// Puts the rules into the set, if it is so, that see values become `Yes`, or `No` where the flag is false.
fn add_seeing(closed: &Closed, is_so: bool, flag: bool, p: PredId, set: &mut RuleSet)
    requires { length set.old ≡ length (rules_of closed.now) }
    ensures { HasAtLeast (λ n. IsTrue is_so
        × IsRuleThat (Sees (HAtom flag p.0 [])) (rules_of closed.now) n) set.old set.new }
{
    if is_so {
        set.add_watching(closed, Head::Atom(flag, p, Terms::Zero));
    }
}

/// Whether the head is an atom of the predicate, negated where the flag is false.
fn is_atom(head: Head, flag: bool, p: PredId) -> bool
    ensures { IsHeadWith flag p.0 (head_of head) → IsTrue result }
{
    match head {
        Head::Atom(own, q, _) => own == flag && q == p,
        _ => false,
    }
}

/// Puts the rule of that number into the set, if its head is an atom of the predicate, negated where the flag
/// is false.
fn add_one_headed(closed: &Closed, flag: bool, p: PredId, number: usize, set: &mut RuleSet)
    requires count { length set.old ≡ length (rules_of closed.now) }
    requires within { number < length set.old }
    ensures { HasAtLeast (AreOf (λ n. n ≡ number) (IsRuleThat (HasHeadWith flag p.0) (rules_of closed.now)))
        set.old set.new }
{
    if is_atom(closed.head(number), flag, p) {
        set.insert(number);
    }
}

/// Puts the rules of these numbers into the set whose head is an atom of the predicate, negated where the
/// flag is false.
fn add_all_headed(closed: &Closed, flag: bool, p: PredId, numbers: &[usize], set: &mut RuleSet)
    requires count { length set.old ≡ length (rules_of closed.now) }
    requires within { All (λ n. n < length set.old) numbers.now }
    ensures { HasAtLeast
        (AreOf (Contains numbers.now) (IsRuleThat (HasHeadWith flag p.0) (rules_of closed.now)))
        set.old set.new }
{
    for number in numbers {
        add_one_headed(closed, flag, p, *number, set);
    }
}

/// Puts the rules into the set, if it is so, whose head is an atom of the predicate, negated where the flag
/// is false.
fn add_headed(closed: &Closed, is_so: bool, flag: bool, p: PredId, set: &mut RuleSet)
    requires { length set.old ≡ length (rules_of closed.now) }
    ensures { HasAtLeast (λ n. IsTrue is_so × IsRuleThat (HasHeadWith flag p.0) (rules_of closed.now) n)
        set.old set.new }
{
    if is_so {
        add_all_headed(closed, flag, p, closed.by_pred(p), set);
    }
}

/// Puts the rules into the set that may be unmet where the predicate's values became so.
fn add_turned(closed: &Closed, turned: Turned, p: PredId, set: &mut RuleSet)
    requires { length set.old ≡ length (rules_of closed.now) }
    ensures { HasAtLeast (IsRuleThat (MaySee turned p.0) (rules_of closed.now)) set.old set.new }
{
    add_seeing(closed, turned.to_yes, true, p, set);
    add_seeing(closed, turned.to_no, false, p, set);
    add_headed(closed, turned.from_yes, true, p, set);
    add_headed(closed, turned.from_no, false, p, set);
}

/// The rules found so far and those that may be unmet by what the predicate's values became: those that see
/// definite values come, and those whose head was met by definite values that went.
pub fn with_changed(
    alloc: Global,
    closed: &Closed,
    from: &Structure,
    s: &Structure,
    p: PredId,
    found: Option<RuleSet>,
) -> Result<Option<RuleSet>, AllocError>
    requires size { from.now.size ≡ s.now.size }
    requires over { arities_of from.now ≡ arities_of s.now }
    requires count { length (set_of (rules_of closed.now) found) ≡ length (rules_of closed.now) }
    ensures { IfOk result (λ more. (preds : List ℕ)
        → WaitsAmong preds (rules_of closed.now) from.now s.now found
        → WaitsAmong (preds ++ p.0 ∷ []) (rules_of closed.now) from.now s.now more) }
{
    if stands_in_none(closed, p) {
        return Ok(found);
    }
    let turned = turned_values(from, s, p);
    if turned.is_nothing() {
        return Ok(found);
    }
    let mut set = set_or_none(alloc, closed, found)?;
    add_turned(closed, turned, p, &mut set);
    Ok(Some(set))
}
