//! Sets of numbers of rules.

ghost use Rattle.std.specs.Prelude.{◌≡◌, ◌<◌, ◌≤◌, ◌≢◌, ℕ, false, true, length, replicate, slice_index_or};
ghost use Rattle.std.specs.Prelude.{slice_set, All, Contains, IfOk, IfSome, IsTrue, MatchOption, Some};
ghost use Rattle.tv_model.specs.Program.{head_of};
ghost use Rattle.tv_rules.specs.EntryForms.{rules_of};
ghost use Rattle.tv_rules.specs.Moved.{IsMoved, IsMovedBySome};
ghost use Rattle.tv_rules.specs.Seen.{Sees};
ghost use Rattle.tv_rules.specs.Standing.{StandsIn, SeesSummaries};
ghost use Rattle.tv_coerce.specs.RuleSets.{AreOf, IsIn, IsRuleThat, HasAtLeast, HasFewer, HasMore, HasLost};
ghost use Rattle.tv_coerce.specs.RuleSets.{IsSeenTo, SeesRule, SeesSome};

use crate::noted::Ask;
use std::alloc::{AllocError, Global};
use std::marker::Model;
use tv_coerce_moves::Occurrence;
use tv_model::{Head, PredId};
use tv_row::Flags;
use tv_rules::Closed;

/// A set of numbers of closed rules, seen by contracts as a flag for each number.
#[derive(Debug, Drop)]
pub struct RuleSet {
    flags: Flags,
    /// A number below which none is in the set.
    first: usize,
    /// Numbers below which none is in the set but those of rules that are tried later, and that are tried
    /// last. Hints, of which nothing is promised.
    first_early: usize,
    first_later: usize,
}

impl Model for RuleSet {
    ghost use Rattle.std.specs.Prelude.{ℕ, List, Bool, ◌<◌, ◌≤◌, length};
    ghost use Rattle.tv_coerce.specs.RuleSets.{BeginsAt};

    ghost Value = { List Bool };

    ghost view = { λ s. s.flags };

    ghost invariant = { λ s. BeginsAt s.first s.flags };
}

/// Whether the number is told.
fn is_that(told: Option<usize>, number: usize) -> bool
    ensures { IsTrue result → told ≡ Some number }
{
    match told {
        Some(n) => n == number,
        None => false,
    }
}

impl RuleSet {
    /// No rules, of those that are closed.
    pub fn of_none(alloc: Global, closed: &Closed) -> Result<RuleSet, AllocError>
        ensures { IfOk result (λ set. set ≡ replicate (length (rules_of closed.now)) false) }
    {
        Ok(RuleSet {
            flags: Flags::of(alloc, closed.count(), false)?,
            first: 0,
            first_early: 0,
            first_later: 0,
        })
    }

    /// All rules of those that are closed.
    pub fn of_all(alloc: Global, closed: &Closed) -> Result<RuleSet, AllocError>
        ensures { IfOk result (λ set. set ≡ replicate (length (rules_of closed.now)) true) }
    {
        Ok(RuleSet {
            flags: Flags::of(alloc, closed.count(), true)?,
            first: 0,
            first_early: 0,
            first_later: 0,
        })
    }

    /// An equal set in memory of its own.
    pub fn copy(&self, alloc: Global) -> Result<RuleSet, AllocError>
        ensures { IfOk result (λ set. set ≡ self.now) }
    {
        Ok(RuleSet {
            flags: self.flags.copied(alloc)?,
            first: self.first,
            first_early: self.first_early,
            first_later: self.first_later,
        })
    }

    /// Puts the number into the set.
    pub fn insert(&mut self, number: usize)
        requires { number < length self.old }
        ensures { HasMore (λ n. n ≡ number) self.old self.new }
    {
        self.flags.put(number, true);
        self.first = self.first.min(number);
        self.first_early = self.first_early.min(number);
        self.first_later = self.first_later.min(number);
    }

    /// Takes the number out of the set, if it is there. What the set loses is no other number; that it loses
    /// this one isn't promised.
    fn remove(&mut self, number: usize)
        requires { number < length self.old }
        ensures { HasFewer (λ n. n ≡ number) self.old self.new }
    {
        self.flags.put(number, false);
    }

    /// Takes the numbers out of the set, those that are there: it loses no others.
    #[tactic(auto, using(crate::proofs::SetLaws::none_gone))]
    pub fn remove_all(&mut self, numbers: &[usize])
        requires { All (λ n. n < length self.old) numbers.now }
        ensures { HasFewer (Contains numbers.now) self.old self.new }
    {
        for number in numbers {
            self.remove(*number);
        }
    }

    /// Puts the numbers into the set.
    #[tactic(auto, using(crate::proofs::SetLaws::more_none, crate::proofs::SetLaws::more_next))]
    fn insert_all(&mut self, numbers: &[usize])
        requires { All (λ n. n < length self.old) numbers.now }
        ensures { HasMore (Contains numbers.now) self.old self.new }
    {
        match numbers {
            [] => {}
            [number, rest @ ..] => {
                self.insert(*number);
                self.insert_all(rest);
            }
        }
    }

    /// Puts the rules in which the predicate stands into the set: those that a change of its values may make
    /// unmet.
    pub fn add_pred(&mut self, closed: &Closed, p: PredId)
        requires { length self.old ≡ length (rules_of closed.now) }
        ensures { HasMore (IsRuleThat (StandsIn p.0) (rules_of closed.now)) self.old self.new }
    {
        self.insert_all(closed.by_pred(p));
    }

    /// Puts the rules that see what is a summary into the set.
    pub fn add_seeing(&mut self, closed: &Closed)
        requires { length self.old ≡ length (rules_of closed.now) }
        ensures { HasMore (IsRuleThat SeesSummaries (rules_of closed.now)) self.old self.new }
    {
        self.insert_all(closed.by_sm());
    }

    /// Puts the rule into the set if the occurrence moves a member of it.
    #[tactic(auto, using(crate::proofs::Waking::one_in, crate::proofs::Waking::one_out))]
    fn insert_moved(&mut self, closed: &Closed, occurrence: Occurrence, number: usize)
        requires count { length self.old ≡ length (rules_of closed.now) }
        requires within { number < length self.old }
        ensures { HasAtLeast (AreOf (λ n. n ≡ number) (IsMoved closed.now occurrence)) self.old self.new }
    {
        if closed.is_moved(number, occurrence) {
            self.insert(number);
        }
    }

    /// Puts at least those of the rules into the set of which the occurrence moves a member.
    fn insert_all_moved(&mut self, closed: &Closed, occurrence: Occurrence, numbers: &[usize])
        requires count { length self.old ≡ length (rules_of closed.now) }
        requires within { All (λ n. n < length self.old) numbers.now }
        ensures { HasAtLeast
            (AreOf (Contains numbers.now) (IsMoved closed.now occurrence)) self.old self.new }
    {
        for number in numbers {
            self.insert_moved(closed, occurrence, *number);
        }
    }

    /// Puts at least the rules into the set of which one of the occurrences moves a member.
    fn insert_families(&mut self, closed: &Closed, occurrences: &[Occurrence])
        requires { length self.old ≡ length (rules_of closed.now) }
        ensures { HasAtLeast (IsMovedBySome closed.now occurrences.now) self.old self.new }
    {
        for occurrence in occurrences {
            self.insert_all_moved(closed, *occurrence, closed.family(*occurrence));
        }
    }

    /// Puts at least the rules into the set that see what a rule with this head may change, and maybe others.
    pub fn add_watching(&mut self, closed: &Closed, head: Head)
        requires { length self.old ≡ length (rules_of closed.now) }
        ensures { HasAtLeast (IsRuleThat (Sees (head_of head)) (rules_of closed.now)) self.old self.new }
    {
        self.insert_families(closed, closed.occurrences(head));
    }

    /// Puts at least the rules into the set that see what the rule of that number may change; nothing where
    /// they stand there, since it is one of those two that were seen to.
    fn add_seeing_rule(
        &mut self,
        closed: &Closed,
        number: usize,
        last: Option<usize>,
        other: Option<usize>,
    )
        requires count { length self.old ≡ length (rules_of closed.now) }
        requires within { number < length (rules_of closed.now) }
        requires last { IsSeenTo (rules_of closed.now) last self.old }
        requires other { IsSeenTo (rules_of closed.now) other self.old }
        ensures { HasAtLeast (IsRuleThat (SeesRule (rules_of closed.now) number) (rules_of closed.now))
            self.old self.new }
    {
        if !is_that(last, number) && !is_that(other, number) {
            self.add_watching(closed, closed.head(number));
        }
    }

    /// Puts at least the rules into the set that see what the rules which ask may change. These mostly take
    /// turns, so the last two of them are remembered.
    pub(crate) fn add_seeing_asks(&mut self, closed: &Closed, asks: &[Ask])
        requires count { length self.old ≡ length (rules_of closed.now) }
        requires within { All (λ ask. ask.number < length (rules_of closed.now)) asks.now }
        ensures { HasAtLeast (IsRuleThat (SeesSome (rules_of closed.now) asks.now) (rules_of closed.now))
            self.old self.new }
    {
        let mut last = None;
        let mut other = None;
        for ask in asks {
            self.add_seeing_rule(closed, ask.number, last, other);
            if !is_that(last, ask.number) {
                other = last;
                last = Some(ask.number);
            }
        }
    }

    /// A number of the set, of a rule that isn't tried last: one that is tried later only where none is left
    /// that is tried first.
    fn next_early(&mut self, closed: &Closed) -> Option<usize>
        ensures number { IfSome result (λ n. (n < length self.old) × IsIn self.old n) }
        ensures same { self.new ≡ self.old }
    {
        if let Some(n) = self.flags.next_other(closed.later(), self.first_early) {
            self.first_early = n;
            return Some(n);
        }
        self.first_early = usize::MAX;
        if let Some(n) = self.flags.next_other(closed.last(), self.first_later) {
            self.first_later = n;
            return Some(n);
        }
        self.first_later = usize::MAX;
        None
    }

    /// A number of the set, if there is one: that of a rule that is tried last only where no other is left.
    fn next(&mut self, closed: &Closed) -> Option<usize>
        ensures number { MatchOption result ((n : ℕ) → ¬ IsIn self.old n)
            (λ n. (n < length self.old) × IsIn self.old n) }
        ensures same { self.new ≡ self.old }
    {
        if let Some(n) = self.next_early(closed) {
            return Some(n);
        }
        match self.flags.next_true(self.first) {
            None => None,
            Some(n) => {
                self.first = n;
                Some(n)
            }
        }
    }

    /// Takes a number out of the set, if there is one.
    pub(crate) fn take(&mut self, closed: &Closed) -> Option<usize>
        ensures { MatchOption result
            (((n : ℕ) → ¬ IsIn self.old n) × (self.new ≡ self.old))
            (λ n. (n < length self.old) × HasLost n self.old self.new) }
    {
        match self.next(closed) {
            None => None,
            Some(n) => {
                self.flags.put(n, false);
                Some(n)
            }
        }
    }
}
