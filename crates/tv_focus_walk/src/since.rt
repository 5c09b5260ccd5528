//! What was done to a structure since it was stable, and the rules that this may have left unmet.

ghost use Rattle.std.specs.Prelude.{[], ◌≡◌, ◌<◌, ◌≤◌, length, All, IfOk, IsTrue};
ghost use Rattle.tv_coerce.specs.RuleSets.{HasAtLeast, IsRuleThat};
ghost use Rattle.tv_focus.specs.Anchored.{IsAimOver};
ghost use Rattle.tv_focus.specs.Seen.{aim_of};
ghost use Rattle.tv_focus_laws.specs.Written.{written};
ghost use Rattle.tv_focus_step_laws.specs.Above.{writes_at};
ghost use Rattle.tv_model.specs.Program.{HAtom};
ghost use Rattle.tv_rules.specs.EntryForms.{rules_of};
ghost use Rattle.tv_rules.specs.Seen.{Sees};
ghost use Rattle.tv_rules.specs.Standing.{SeesSummaries};
ghost use Rattle.tv_structure_form.specs.StructureForm.{IsStructure, arities_of};
ghost use Rattle.tv_focus_walk.specs.Walk.{ArePlain, HasRulesSince, IsNoted, IsUnchanged, KeepsRest};
ghost use Rattle.tv_focus_walk.specs.Walk.{walk_pred};

use crate::fits::{Test, does_pass};
use crate::walk::Walk;
use std::alloc::AllocError;
use tv_coerce::RuleSet;
use tv_focus::{Aim, Vector, put_vector};
use tv_kleene::K3;
use tv_model::{Head, Terms};
use tv_struct::Structure;

/// What was done to a structure since it was stable: unknown values became `No`, or `Yes`, individuals were
/// split, or anything.
#[derive(Clone, Copy, Debug)]
pub struct Since {
    pub no: bool,
    pub yes: bool,
    pub copies: bool,
    pub any: bool,
}

impl Since {
    /// Nothing was done.
    pub fn nothing() -> Since
        ensures { IsUnchanged result }
    {
        Since {
            no: false,
            yes: false,
            copies: false,
            any: false,
        }
    }

    /// Whether nothing was done.
    pub fn is_nothing(self) -> bool
        ensures { IsTrue result → IsUnchanged self }
    {
        !self.no && !self.yes && !self.copies && !self.any
    }

    /// The same, and individuals were split.
    pub fn with_copies(self) -> Since
        ensures no { result.no ≡ self.no }
        ensures yes { result.yes ≡ self.yes }
        ensures copies { IsTrue result.copies }
        ensures any { result.any ≡ self.any }
    {
        Since {
            no: self.no,
            yes: self.yes,
            copies: true,
            any: self.any,
        }
    }
}

/// Puts the rules into the set that see unknown values become `Yes`, or `No` where the flag is false.
fn add_sign(w: &Walk, on: bool, flag: bool, waiting: &mut RuleSet)
    requires { length waiting.old ≡ length (rules_of w.now.closed.now) }
    ensures { HasAtLeast (λ n. IsTrue on
        × IsRuleThat (Sees (HAtom flag (walk_pred w.now) [])) (rules_of w.now.closed.now) n)
        waiting.old waiting.new }
{
    if on {
        waiting.add_watching(w.closed, Head::Atom(flag, w.choosing.pred, Terms::Zero));
    }
}

/// Puts the rules into the set that see what is a summary.
fn add_copies(w: &Walk, on: bool, waiting: &mut RuleSet)
    requires { length waiting.old ≡ length (rules_of w.now.closed.now) }
    ensures { HasAtLeast (λ n. IsTrue on × IsRuleThat SeesSummaries (rules_of w.now.closed.now) n)
        waiting.old waiting.new }
{
    if on {
        waiting.add_seeing(w.closed);
    }
}

/// The rules that may be unmet.
pub fn rules_since(w: &Walk, since: Since) -> Result<RuleSet, AllocError>
    ensures { IfOk result (HasRulesSince w.now since) }
{
    if since.any {
        return RuleSet::of_all(w.alloc, w.closed);
    }
    let mut waiting = RuleSet::of_none(w.alloc, w.closed)?;
    add_sign(w, since.no, false, &mut waiting);
    add_sign(w, since.yes, true, &mut waiting);
    add_copies(w, since.copies, &mut waiting);
    Ok(waiting)
}

/// Whether all values are the one.
fn are_only(value: K3, values: &[K3]) -> bool
    ensures { IsTrue result → All (λ k. k ≡ value) values.now }
{
    values.iter().all(|k| *k == value)
}

/// What was done once these values are put, which lie under those that were there, or may not.
fn noted(since: Since, are_under: bool, values: &[K3]) -> Since
    ensures { IsNoted since are_under values.now result }
{
    let is_yes = !values.is_empty() && are_only(K3::Yes, values);
    let is_no = are_only(K3::No, values);
    Since {
        no: since.no || is_no,
        yes: since.yes || is_yes,
        copies: since.copies,
        any: since.any || !are_under || !(is_yes || is_no),
    }
}

/// Puts a vector's values at a copy, and tells what was done in all.
pub fn put_noted(
    w: &Walk,
    t: &mut Structure,
    aim: &Aim,
    at: u32,
    vector: &Vector,
    since: Since,
) -> Since
    requires plain { ArePlain w.now }
    requires table { IsStructure t.old }
    requires aim { IsAimOver t.old (walk_pred w.now) (aim_of aim.now) }
    requires copy { at < t.old.size }
    ensures value { t.new ≡ written t.old (walk_pred w.now) (writes_at (aim_of aim.now) at vector.now) }
    ensures over { arities_of t.new ≡ arities_of t.old }
    ensures size { t.new.size ≡ t.old.size }
    ensures kept { IsStructure t.new }
    ensures rest { KeepsRest w.now since t.old result t.new }
{
    let are_under = does_pass(Test::Under, t, w.choosing.pred, aim, at, vector);
    put_vector(t, w.choosing.pred, aim, at, vector);
    noted(since, are_under, vector.as_slice())
}
