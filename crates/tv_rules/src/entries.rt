//! How closed rules are kept: by the number of their base rule, and the place of the conjunct that gives
//! way to the negated head.

ghost use Rattle.std.specs.Prelude.{◌≡◌, [], ◌∷◌, ◌++◌, map, IfOk, OnOk};
ghost use Rattle.tv_model.specs.Form.{form_of};
ghost use Rattle.tv_model.specs.Program.{head_of, rule_of};
ghost use Rattle.tv_rules.specs.Closing.{conjuncts};
ghost use Rattle.tv_rules.specs.EntryForms.{entry_of, base_entries, literal_entries, further_entries};
ghost use Rattle.tv_rules.specs.EntryForms.{closed_entries, forms_of};

use crate::conjuncts::{conjuncts, negated};
use std::alloc::{AllocError, Global};
use tv_model::{Formula, Head, Items, Rule};

/// A closed rule, without its formulas.
#[derive(Debug, Drop)]
pub struct Entry {
    /// The number of its base rule.
    pub base: usize,
    /// The place of the conjunct of the base rule's body at which the negated head stands; none for the
    /// base rule itself.
    pub conjunct: Option<usize>,
    /// Its head: that of the base rule, or the negated conjunct.
    pub head: Head,
}

/// A list of closed rules, as they are kept.
pub type Entries = Items<Entry>;

/// The closed rules of these base rules: themselves, then for each of them a further rule for each
/// conjunct that is a literal.
pub fn closed_entries(alloc: Global, bases: &[Rule]) -> Result<Entries, AllocError>
    ensures { IfOk result (λ entries. map entry_of entries ≡ closed_entries (map rule_of bases.now)) }
{
    let mut entries = Items::new(alloc);
    push_bases(bases, &mut entries)?;
    push_further(alloc, bases, &mut entries)?;
    Ok(entries)
}

fn push_bases(bases: &[Rule], entries: &mut Entries) -> Result<(), AllocError>
    ensures { OnOk result (map entry_of entries.new
        ≡ map entry_of entries.old ++ base_entries 0 (map rule_of bases.now)) }
{
    for (base, rule) in bases.iter().enumerate() {
        entries.push(Entry {
            base,
            conjunct: None,
            head: rule.head,
        })?;
    }
    Ok(())
}

fn push_further(alloc: Global, bases: &[Rule], entries: &mut Entries) -> Result<(), AllocError>
    ensures { OnOk result (map entry_of entries.new
        ≡ map entry_of entries.old ++ further_entries 0 (map rule_of bases.now)) }
{
    for (base, rule) in bases.iter().enumerate() {
        push_literals(base, conjuncts(alloc, &rule.body)?.as_slice(), entries)?;
    }
    Ok(())
}

fn push_literals(base: usize, list: &[&Formula], entries: &mut Entries) -> Result<(), AllocError>
    ensures { OnOk result (map entry_of entries.new
        ≡ map entry_of entries.old ++ literal_entries base 0 (forms_of list.now)) }
{
    for (place, f) in list.iter().enumerate() {
        push_literal(base, place, f, entries)?;
    }
    Ok(())
}

fn push_literal(
    base: usize,
    place: usize,
    f: &Formula,
    entries: &mut Entries,
) -> Result<(), AllocError>
    ensures { OnOk result (map entry_of entries.new
        ≡ map entry_of entries.old ++ literal_entries base place (form_of f.now ∷ [])) }
{
    match negated(f) {
        None => Ok(()),
        Some(head) => entries.push(Entry {
            base,
            conjunct: Some(place),
            head,
        }),
    }
}
