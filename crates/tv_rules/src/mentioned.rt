//! For each predicate the base rules in which it stands, found by one walk over each rule.

ghost use Rattle.std.specs.Prelude.{ℕ, ◌≡◌, ◌<◌, ◌⊎◌, ◌↔◌, ◌++◌, List, [], length, map, replicate, Some, All};
ghost use Rattle.std.specs.Prelude.{slice_get, Contains, IfOk, IsTrue, OnOk};
ghost use Rattle.tv_model.specs.Program.{RuleForm, head_of, rule_of};
ghost use Rattle.tv_rules.specs.Noting.{AreBasesWith, Notes, mentioned_by, mentioned_in};
ghost use Rattle.tv_rules.specs.Standing.{StandsIn};

use crate::watch::Numbers;
use std::alloc::{AllocError, Global};
use tv_model::{Head, Items, Rule, push_mentioned};

/// Puts the predicate that the head is about behind the others, if it is about one.
fn push_head(head: &Head, found: &mut Vec<u32>) -> Result<(), AllocError>
    ensures { OnOk result (found.new.items ≡ found.old.items ++ mentioned_by (head_of head.now)) }
{
    match head {
        Head::Never | Head::Same(_, _, _) => Ok(()),
        Head::Atom(_, p, _) => {
            found.push(p.0)?;
            Ok(())
        }
    }
}

/// The predicates that stand in the rule, each as often as it does.
fn mentioned_in(alloc: Global, rule: &Rule) -> Result<Vec<u32>, AllocError>
    ensures { IfOk result (λ found. found.items ≡ mentioned_in (rule_of rule.now)) }
{
    let mut found = Vec::new(alloc);
    push_mentioned(&rule.body, &mut found)?;
    push_head(&rule.head, &mut found)?;
    Ok(found)
}

/// Whether the number is the last one of the list.
fn ends_with(list: &[usize], number: usize) -> bool
    ensures { IsTrue result → Contains list.now number }
{
    match list {
        [.., last] => *last == number,
        [] => false,
    }
}

/// Puts the number behind the list, unless it is the last one there.
fn note_once(list: &mut Numbers, number: usize) -> Result<(), AllocError>
    ensures { OnOk result ((n : ℕ) → Contains list.new n ↔ (Contains list.old n ⊎ (n ≡ number))) }
{
    if ends_with(list.as_slice(), number) {
        return Ok(());
    }
    list.push(number)
}

/// Notes the number for each of the predicates.
fn note_all(lists: &mut Vec<Numbers>, preds: &[u32], number: usize) -> Result<(), AllocError>
    requires { All (λ q. q < length lists.old.items) preds.now }
    ensures { OnOk result (Notes preds.now number lists.old.items lists.new.items) }
{
    for q in preds {
        note_once(&mut lists[*q as usize], number)?;
    }
    Ok(())
}

/// Notes each rule by its number for the predicates that stand in it.
fn note_rules(alloc: Global, lists: &mut Vec<Numbers>, rules: &[Rule]) -> Result<(), AllocError>
    requires none { lists.old.items ≡ replicate (length lists.old.items) [] }
    requires preds { (q n : ℕ) (rule : RuleForm) → slice_get (map rule_of rules.now) n ≡ Some rule
        → StandsIn q rule → q < length lists.old.items }
    ensures count { OnOk result (length lists.new.items ≡ length lists.old.items) }
    ensures lists { OnOk result ((q : ℕ) (ns : List ℕ) → slice_get lists.new.items q ≡ Some ns
        → AreBasesWith q (map rule_of rules.now) ns) }
{
    for (number, rule) in rules.iter().enumerate() {
        let preds = mentioned_in(alloc, rule)?;
        note_all(lists, preds.as_slice(), number)?;
    }
    Ok(())
}

/// So many empty lists.
pub fn empty_lists(alloc: Global, count: usize) -> Result<Vec<Numbers>, AllocError>
    ensures { IfOk result (λ lists. lists.items ≡ replicate count []) }
{
    let mut lists = Vec::with_capacity(alloc, count)?;
    for _ in 0..count {
        lists.push(Items::new(alloc))?;
    }
    Ok(lists)
}

/// For each of so many predicates the numbers of the rules in which it stands.
pub fn rules_with(alloc: Global, rules: &[Rule], preds: usize) -> Result<Vec<Numbers>, AllocError>
    requires { (q n : ℕ) (rule : RuleForm) → slice_get (map rule_of rules.now) n ≡ Some rule
        → StandsIn q rule → q < preds }
    ensures count { IfOk result (λ lists. length lists.items ≡ preds) }
    ensures lists { IfOk result (λ lists. (q : ℕ) (ns : List ℕ) → slice_get lists.items q ≡ Some ns
        → AreBasesWith q (map rule_of rules.now) ns) }
{
    let mut lists = empty_lists(alloc, preds)?;
    note_rules(alloc, &mut lists, rules)?;
    Ok(lists)
}
