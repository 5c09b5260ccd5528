//! The closed rules of a program, kept by their base rules.

ghost use Rattle.std.specs.Prelude.{ℕ, List, [], unwrap_or, ◌≡◌, ◌<◌, ◌≤◌, ◌+◌, ◌-◌, ◌↔◌, length};
ghost use Rattle.std.specs.Prelude.{map, ◌≢◌, MatchOption};
ghost use Rattle.std.specs.Prelude.{IfOk, All, Some, slice_get, Contains, IsTrue};
ghost use Rattle.std.specs.List.{AllZip};
ghost use Rattle.tv_model.specs.Form.{form_of, height, vars_of};
ghost use Rattle.tv_model.specs.Heap.{Heap};
ghost use Rattle.tv_model.specs.Program.{KDefined, RuleForm, head_of, kind_of, rule_of, program_of};
ghost use Rattle.tv_model.specs.Rules.{IsConcrete, MeetsProgram, MeetsRule};
ghost use Rattle.tv_model.specs.Valid.{IsValid, IsRule};
ghost use Rattle.tv_stable_laws.specs.Laws.{IsPlainRule};
ghost use Rattle.tv_model.specs.Rules.{IsFreeInRule};
ghost use Rattle.tv_rules.specs.Closing.{closed_rules, closed_set, conjuncts};
ghost use Rattle.tv_rules.specs.Defining.{IsOfDefinition};
ghost use Rattle.tv_rules.specs.Standing.{AreNumbersOf, StandsIn, SeesSummaries};
ghost use Rattle.tv_rules.specs.EntryForms.{entry_of, closed_entries, rules_of};
ghost use Rattle.tv_rules.specs.Laws.{IsNoHigher};
ghost use Rattle.tv_rules.specs.Moved.{IsMoved, IsMovedBySome};
ghost use Rattle.tv_rules.specs.Seen.{Sees};
ghost use Rattle.tv_rules.specs.Kin.{IsKin, IsTriedBy, skip_of};
ghost use Rattle.tv_rules.specs.Waiting.{IsShape};
ghost use Rattle.tv_coerce_members.specs.Members.{IsLaidOut};

use crate::base::base_rules;
use crate::defined::is_defining;
use crate::entries::{Entries, Entry, closed_entries};
use crate::mentioned::rules_with;
use crate::moved::{families, occurrences_of};
use crate::shapes::{Shapes, shape_of};
use crate::turns::{Turn, tried_from};
use crate::watch::{Numbers, seeing_summaries, standing};
use std::alloc::{AllocError, Global};
use std::marker::Model;
use tv_coerce_members::Shape;
use tv_coerce_moves::{Occurrence, Occurrences};
use tv_model::{Formula, Head, Items, Kind, PredId, Program, Rule, Rules, Terms};
use tv_row::Flags;

/// The closed rules of a program, and for each predicate the numbers of the rules in which it stands. A
/// further rule is kept by the number of its base rule and the place of its conjunct, so that many rules
/// about one long body take no copies of it.
#[derive(Debug, Drop)]
pub struct Closed {
    bases: Rules,
    /// For each base rule its free variables, and its conjuncts.
    shapes: Shapes,
    entries: Entries,
    by_pred: Items<Numbers>,
    by_sm: Numbers,
    /// For each change the members of base rules that it may make greater.
    occurrences: Occurrences,
    /// For each base rule the numbers of its closed rules.
    families: Items<Numbers>,
    /// The rules that aren't tried first, and those of them that are tried last. Hints, of which nothing is
    /// promised.
    later: Flags,
    last: Flags,
}

impl Model for Closed {
    ghost use Rattle.std.specs.Prelude.{List};
    ghost use Rattle.tv_model.specs.declared.program.Rule.{Rule};

    ghost Value = { List Rule };

    ghost use Rattle.tv_model.specs.contracts.formula.Formula as formula;
    ghost use Rattle.std.specs.Coded.{codes};

    ghost coded = { Prim.hlevel (codes, formula.the_row.coded) };

    ghost use Rattle.tv_rules.specs.Kept.{AreRuleLists};
    ghost use Rattle.tv_rules.specs.Moved.{AreMovedBy};

    ghost view = { λ c. c.bases };

    ghost invariant = { λ c. AreRuleLists c.bases c.shapes c.entries c.by_pred c.by_sm
        × AreMovedBy c.bases c.occurrences c.families };
}

/// The closed rules of a valid program, base rules first.
pub fn close_rules(alloc: Global, program: &Program) -> Result<Closed, AllocError>
    requires { IsValid (program_of program.now) }
    ensures rules { IfOk result (λ c. rules_of c ≡ closed_rules (program_of program.now)) }
    // each rule holds in every concrete heap that meets the program
    ensures met { IfOk result (λ c. (h : Heap) → IsConcrete (program_of program.now) h
        → MeetsProgram (program_of program.now) h → All (MeetsRule h) (rules_of c)) }
    // over the vocabulary, with variables in range, and nothing about a fresh individual
    ensures valid { IfOk result (λ c. All (IsRule (program_of program.now)) (rules_of c)) }
    ensures plain { IfOk result (λ c. All IsPlainRule (rules_of c)) }
    ensures heights { IfOk result (λ c. (n : ℕ) → IsNoHigher (program_of program.now) n
        → All (λ rule. height rule.body ≤ n + 4) (rules_of c)) }
{
    let bases = base_rules(alloc, program)?;
    closed_of(alloc, bases, program.vocab.preds.len())
}

/// The closed set of base rules over so many predicates.
fn closed_of(alloc: Global, bases: Rules, preds: usize) -> Result<Closed, AllocError>
    requires count { preds ≤ 512 }
    requires preds { (q n : ℕ) (rule : RuleForm) → slice_get (rules_of bases) n ≡ Some rule → StandsIn q rule
        → q < preds }
    requires variables { (v : ℕ) (rule : RuleForm) → Contains (map rule_of bases) rule → IsFreeInRule v rule
        → v < 32 }
    ensures { IfOk result (λ c. c ≡ bases) }
{
    let shapes = shapes(alloc, bases.as_slice())?;
    let entries = closed_entries(alloc, bases.as_slice())?;
    let by_pred = watch_lists(alloc, bases.as_slice(), entries.as_slice(), preds)?;
    let by_sm = seeing_summaries(alloc, bases.as_slice(), entries.as_slice())?;
    let occurrences = occurrences_of(alloc, bases.as_slice(), entries.as_slice(), preds)?;
    let families = families(alloc, entries.as_slice(), bases.len())?;
    let later = tried_from(alloc, Turn::Later, shapes.as_slice(), entries.as_slice())?;
    let last = tried_from(alloc, Turn::Last, shapes.as_slice(), entries.as_slice())?;
    Ok(Closed {
        bases,
        shapes,
        entries,
        by_pred,
        by_sm,
        occurrences,
        families,
        later,
        last,
    })
}

fn shapes(alloc: Global, bases: &[Rule]) -> Result<Shapes, AllocError>
    requires { (v : ℕ) (rule : RuleForm) → Contains (map rule_of bases.now) rule → IsFreeInRule v rule
        → v < 32 }
    ensures { IfOk result (λ list. AllZip IsShape (map rule_of bases.now) list) }
{
    let mut list = Items::new(alloc);
    for rule in bases {
        list.push(shape_of(alloc, rule)?)?;
    }
    Ok(list)
}

fn watch_lists(
    alloc: Global,
    bases: &[Rule],
    entries: &[Entry],
    preds: usize,
) -> Result<Items<Numbers>, AllocError>
    requires count { preds ≤ 512 }
    requires entries { map entry_of entries.now ≡ closed_entries (map rule_of bases.now) }
    requires preds { (q n : ℕ) (rule : RuleForm) → slice_get (map rule_of bases.now) n ≡ Some rule
        → StandsIn q rule → q < preds }
    ensures count { IfOk result (λ lists. length lists ≡ preds) }
    ensures lists { IfOk result (λ lists. (q : ℕ) (ns : List ℕ) → slice_get lists q ≡ Some ns
        → AreNumbersOf (StandsIn q) (closed_set (map rule_of bases.now)) ns) }
{
    let with = rules_with(alloc, bases, preds)?;
    let mut lists = Items::new(alloc);
    for q in 0..preds {
        let of_bases = with[q].as_slice();
        lists.push(standing(alloc, bases, entries, PredId(q as u32), of_bases)?)?;
    }
    Ok(lists)
}

impl Closed {
    /// The number of rules.
    pub fn count(&self) -> usize
        ensures { result ≡ length (rules_of self.now) }
    {
        self.entries.len()
    }

    /// The head of a rule.
    pub fn head(&self, number: usize) -> Head
        requires { number < length (rules_of self.now) }
        ensures { (rule : RuleForm) → slice_get (rules_of self.now) number ≡ Some rule
            → head_of result ≡ rule.head }
    {
        item_at(self.entries.as_slice(), number).head
    }

    /// What trying a rule goes by, and each that came of the same base rule: their variables, and the members
    /// of the base rule, all but one of which are the conjuncts of each. Takes no memory.
    pub fn shape(&self, number: usize) -> &Shape
        requires { number < length (rules_of self.now) }
        ensures laid { IsLaidOut result.now }
        ensures kin { (n : ℕ) (rule : RuleForm) → IsKin self.now number n
            → slice_get (rules_of self.now) n ≡ Some rule → IsTriedBy result.now (skip_of self.now n) rule }
    {
        let entry = item_at(self.entries.as_slice(), number);
        item_at(self.shapes.as_slice(), entry.base)
    }

    /// The numbers of the rules that came of the same base rule, its own among them.
    pub fn kin(&self, number: usize) -> &[usize]
        requires { number < length (rules_of self.now) }
        ensures { (n : ℕ) → Contains result.now n ↔ IsKin self.now number n }
    {
        let entry = item_at(self.entries.as_slice(), number);
        numbers_at(self.families.as_slice(), entry.base)
    }

    /// Whether the rule came of the predicate's definition.
    fn is_of_definition(&self, number: usize, p: PredId, vars: Terms, body: &Formula) -> bool
        requires { number < length (rules_of self.now) }
        ensures { IsTrue result
            → IsOfDefinition self.now p.0 (KDefined (vars_of vars) (form_of body.now)) number }
    {
        let entry = item_at(self.entries.as_slice(), number);
        is_defining(item_at(self.bases.as_slice(), entry.base), p, vars, body)
    }

    /// Numbers of rules that came of the predicate's definition, if it has one.
    pub fn defining(&self, alloc: Global, p: PredId, kind: &Kind) -> Result<Numbers, AllocError>
        ensures { IfOk result (All (IsOfDefinition self.now p.0 (kind_of kind.now))) }
    {
        let mut numbers = Items::new(alloc);
        if let Kind::Defined { vars, body } = kind {
            for number in self.by_pred(p) {
                if self.is_of_definition(*number, p, *vars, body) {
                    numbers.push(*number)?;
                }
            }
        }
        Ok(numbers)
    }

    /// The number of the member of its base rule that a rule's head denies.
    fn skip(&self, number: usize) -> usize
        requires { number < length (rules_of self.now) }
        ensures { result ≡ skip_of self.now number }
    {
        let entry = item_at(self.entries.as_slice(), number);
        let shape = item_at(self.shapes.as_slice(), entry.base);
        skipped(shape.members.len(), entry.conjunct)
    }

    /// Of the rules that came of the same base rule as this one, one whose head denies the member of that
    /// number, if there is one.
    pub fn denying(&self, number: usize, member: usize) -> Option<usize>
        requires { number < length (rules_of self.now) }
        ensures { MatchOption result
            ((n : ℕ) → IsKin self.now number n → skip_of self.now n ≢ member)
            (λ n. IsKin self.now number n × (skip_of self.now n ≡ member)) }
    {
        for n in self.kin(number) {
            if self.skip(*n) == member {
                return Some(*n);
            }
        }
        None
    }

    /// The numbers of the rules in whose body or head the predicate stands, in rising order.
    pub fn by_pred(&self, p: PredId) -> &[usize]
        ensures { AreNumbersOf (StandsIn p.0) (rules_of self.now) result.now }
    {
        numbers_at(self.by_pred.as_slice(), p.0 as usize)
    }

    /// The numbers of the rules in which an equality stands or whose head has one variable twice, in
    /// rising order: whether a structure is stable under these may turn on what is a summary.
    pub fn by_sm(&self) -> &[usize]
        ensures { AreNumbersOf SeesSummaries (rules_of self.now) result.now }
    {
        self.by_sm.as_slice()
    }

    /// The rules that aren't best tried first: those with fewer than three variables. A hint, of which
    /// nothing is promised.
    pub fn later(&self) -> &Flags {
        &self.later
    }

    /// Of these the rules that are best tried when no others wait: those with a member that is no literal,
    /// and at most one variable, as a definition's mostly are. A hint, of which nothing is promised.
    pub fn last(&self) -> &Flags {
        &self.last
    }

    /// Base rules with members that the changes which the head asks for may make greater: at least those of
    /// the rules that see such changes.
    pub fn occurrences(&self, head: Head) -> &[Occurrence]
        ensures { (n : ℕ) (rule : RuleForm) → slice_get (rules_of self.now) n ≡ Some rule
            → Sees (head_of head) rule → IsMovedBySome self.now result.now n }
    {
        self.occurrences.by_change(head)
    }

    /// Numbers of closed rules, among them each rule of the occurrence's base rule that it moves.
    pub fn family(&self, occurrence: Occurrence) -> &[usize]
        ensures those { (n : ℕ) → IsMoved self.now occurrence n → Contains result.now n }
        ensures within { All (λ n. n < length (rules_of self.now)) result.now }
    {
        numbers_at(self.families.as_slice(), occurrence.rule)
    }

    /// False only where the rule, one of the occurrence's base rule, has no member that the occurrence moves,
    /// but for the one that the rule's head denies. That it is true promises nothing.
    pub fn is_moved(&self, number: usize, occurrence: Occurrence) -> bool
        requires { number < length (rules_of self.now) }
        ensures { IsMoved self.now occurrence number → IsTrue result }
    {
        let entry = item_at(self.entries.as_slice(), number);
        occurrence.moving.moves_other(entry.conjunct)
    }
}

fn item_at<T>(items: &[T], number: usize) -> &T
    requires { number < length items.now }
    ensures { slice_get items.now number ≡ Some result.now }
{
    &items[number]
}

fn numbers_at(lists: &[Numbers], place: usize) -> &[usize]
    ensures { result.now ≡ unwrap_or (slice_get lists.now place) [] }
{
    if place < lists.len() {
        lists[place].as_slice()
    } else {
        &[]
    }
}

/// The member of a base rule's family, of so many, that a rule's head denies: that in whose place the negated
/// head stands, and of the base rule the negated head, behind all.
fn skipped(members: usize, place: Option<usize>) -> usize
    requires { 0 < members }
    ensures { result ≡ unwrap_or place (members - 1) }
{
    place.unwrap_or(members - 1)
}
