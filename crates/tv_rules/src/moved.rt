//! For each change the members of base rules that it may make greater, and the closed rules of each base
//! rule.

ghost use Rattle.std.specs.Prelude.{ℕ, ◌≡◌, ◌<◌, IfOk, OnOk, Some, length, map, slice_get};
ghost use Rattle.tv_model.specs.Program.{RuleForm, rule_of};
ghost use Rattle.tv_coerce_moves.specs.Occurrences.{KeepsMembers};
ghost use Rattle.tv_rules.specs.Closing.{closed_set};
ghost use Rattle.tv_rules.specs.EntryForms.{EntryForm, closed_entries, entry_of, forms_of};
ghost use Rattle.tv_rules.specs.Moved.{AreConjunctsNoted, AreFamilies, AreHeadsNoted, AreOccurrences};
ghost use Rattle.tv_rules.specs.Moved.{AreRulesNoted};
ghost use Rattle.tv_rules.specs.Moved.{IsHeadNoted, IsRuleNoted, other_place};
ghost use Rattle.tv_rules.specs.Standing.{StandsIn};

use crate::conjuncts::{conjuncts, negated_head};
use crate::entries::Entry;
use crate::mentioned::empty_lists;
use crate::watch::{Numbers, has_twice};
use std::alloc::{AllocError, Global};
use tv_coerce_moves::{Member, Occurrences};
use tv_model::{Formula, Items, Rule};

/// Notes the conjuncts of a rule for each change that may make them greater.
fn note_conjuncts(
    occurrences: &mut Occurrences,
    list: &[&Formula],
    rule: usize,
) -> Result<(), AllocError>
    ensures { OnOk result
        (AreConjunctsNoted (length list.now) rule (forms_of list.now) occurrences.old occurrences.new) }
{
    for (k, f) in list.iter().enumerate() {
        let place = Some(k);
        occurrences.note_moves(f, true, Member { rule, place })?;
    }
    Ok(())
}

/// Notes the members of a rule: its conjuncts and the negation of its head.
fn note_members(
    alloc: Global,
    occurrences: &mut Occurrences,
    rule: &Rule,
    number: usize,
) -> Result<(), AllocError>
    ensures kept { OnOk result (KeepsMembers occurrences.old occurrences.new) }
    ensures noted { OnOk result (IsRuleNoted number (rule_of rule.now) occurrences.new) }
{
    let list = conjuncts(alloc, &rule.body)?;
    note_conjuncts(occurrences, list.as_slice(), number)?;
    let negation = negated_head(alloc, rule.head)?;
    let member = Member {
        rule: number,
        place: None,
    };
    occurrences.note_moves(&negation, true, member)
}

/// Notes the members of each rule.
fn note_rules(
    alloc: Global,
    occurrences: &mut Occurrences,
    rules: &[Rule],
) -> Result<(), AllocError>
    ensures kept { OnOk result (KeepsMembers occurrences.old occurrences.new) }
    ensures noted { OnOk result (AreRulesNoted (length rules.now) (map rule_of rules.now) occurrences.new) }
{
    for (number, rule) in rules.iter().enumerate() {
        note_members(alloc, occurrences, rule, number)?;
    }
    Ok(())
}

/// A place of a member of the same rule that isn't this one.
fn other_place(place: Option<usize>) -> Option<usize>
    ensures { result ≡ other_place place }
{
    match place {
        None => Some(0),
        Some(_) => None,
    }
}

/// A head that has one variable twice sees each change that may make it known. The rule denies the member of
/// its head, so this is noted as of another one.
fn note_if_twice(occurrences: &mut Occurrences, entry: &Entry) -> Result<(), AllocError>
    ensures kept { OnOk result (KeepsMembers occurrences.old occurrences.new) }
    ensures noted { OnOk result (IsHeadNoted occurrences.new (entry_of entry.now)) }
{
    if has_twice(&entry.head) {
        let member = Member {
            rule: entry.base,
            place: other_place(entry.conjunct),
        };
        occurrences.note_head(entry.head, member)?;
    }
    Ok(())
}

fn note_heads(occurrences: &mut Occurrences, entries: &[Entry]) -> Result<(), AllocError>
    ensures kept { OnOk result (KeepsMembers occurrences.old occurrences.new) }
    ensures noted { OnOk result
        (AreHeadsNoted (length entries.now) (map entry_of entries.now) occurrences.new) }
{
    for entry in entries {
        note_if_twice(occurrences, entry)?;
    }
    Ok(())
}

/// For each change at least the members of base rules that it may make greater.
pub fn occurrences_of(
    alloc: Global,
    bases: &[Rule],
    entries: &[Entry],
    preds: usize,
) -> Result<Occurrences, AllocError>
    requires entries { map entry_of entries.now ≡ closed_entries (map rule_of bases.now) }
    requires preds { (q n : ℕ) (rule : RuleForm)
        → slice_get (closed_set (map rule_of bases.now)) n ≡ Some rule
        → StandsIn q rule → q < preds }
    ensures { IfOk result (AreOccurrences (map rule_of bases.now)) }
{
    let mut occurrences = Occurrences::new(alloc, preds)?;
    note_rules(alloc, &mut occurrences, bases)?;
    note_heads(&mut occurrences, entries)?;
    Ok(occurrences)
}

/// For each of so many base rules the numbers of its closed rules.
pub fn families(
    alloc: Global,
    entries: &[Entry],
    bases: usize,
) -> Result<Items<Numbers>, AllocError>
    requires { (n : ℕ) (e : EntryForm) → slice_get (map entry_of entries.now) n ≡ Some e → e.base < bases }
    ensures { IfOk result (AreFamilies (length entries.now) (map entry_of entries.now)) }
{
    let mut lists = empty_lists(alloc, bases)?;
    for (number, entry) in entries.iter().enumerate() {
        let list = &mut lists[entry.base];
        list.push(number)?;
    }
    Ok(Items::from_vec(lists))
}
