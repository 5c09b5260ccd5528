//! The numbers of the closed rules in which a predicate stands, and of those that see summaries.

ghost use Rattle.std.specs.Prelude.{◌≡◌, ◌↔◌, ◌<◌, length, map, [], ◌∷◌, ◌++◌, IsTrue, IfOk, OnOk, All};
ghost use Rattle.std.specs.List.{AllZip};
ghost use Rattle.tv_model.specs.Program.{head_of, rule_of};
ghost use Rattle.tv_rules.specs.Closing.{closed_set};
ghost use Rattle.tv_rules.specs.Standing.{AreNumbersOf, StandsIn};
ghost use Rattle.tv_rules.specs.Standing.{HasEqualityIn, SeesSummaries};
ghost use Rattle.tv_rules.specs.EntryForms.{entry_of, closed_entries};
ghost use Rattle.tv_rules.specs.Noting.{AreBasesWith};
ghost use Rattle.tv_rules.specs.Flags.{Flags, IsOfBase, IsOfBaseOrTwice, AreTrueAt, has_twice, true_places};

use crate::entries::Entry;
use std::alloc::{AllocError, Global};
use tv_coerce_moves::{has_equality, is_equality};
use tv_model::{Head, Items, PredId, Rule, Terms};

/// Numbers of closed rules.
pub type Numbers = Items<usize>;

/// The numbers of the closed rules in which the predicate `p` stands, of whose base rules those are given.
pub fn standing(
    alloc: Global,
    bases: &[Rule],
    entries: &[Entry],
    p: PredId,
    with: &[usize],
) -> Result<Numbers, AllocError>
    requires entries { map entry_of entries.now ≡ closed_entries (map rule_of bases.now) }
    requires with { AreBasesWith p.0 (map rule_of bases.now) with.now }
    ensures { IfOk result (AreNumbersOf (StandsIn p.0) (closed_set (map rule_of bases.now))) }
{
    let of_bases = standing_flags(alloc, bases, p, with)?;
    let flags = entry_flags(alloc, of_bases.as_slice(), entries)?;
    numbers(alloc, flags.as_slice())
}

/// The numbers of the closed rules in which an equality stands or whose head has one variable twice.
pub fn seeing_summaries(
    alloc: Global,
    bases: &[Rule],
    entries: &[Entry],
) -> Result<Numbers, AllocError>
    requires { map entry_of entries.now ≡ closed_entries (map rule_of bases.now) }
    ensures { IfOk result (AreNumbersOf SeesSummaries (closed_set (map rule_of bases.now))) }
{
    let of_bases = equality_flags(alloc, bases)?;
    let flags = summary_flags(alloc, of_bases.as_slice(), entries)?;
    numbers(alloc, flags.as_slice())
}

/// For each base rule whether the predicate `p` stands in it, as it does in those that are given.
fn standing_flags(
    alloc: Global,
    bases: &[Rule],
    p: PredId,
    with: &[usize],
) -> Result<Vec<bool>, AllocError>
    requires { AreBasesWith p.0 (map rule_of bases.now) with.now }
    ensures { IfOk result (λ flags. AllZip (Flags (StandsIn p.0)) (map rule_of bases.now) flags.items) }
{
    let mut flags = vec![in alloc; false; bases.len()]?;
    for number in with {
        flags[*number] = true;
    }
    Ok(flags)
}

fn equality_flags(alloc: Global, bases: &[Rule]) -> Result<Vec<bool>, AllocError>
    ensures { IfOk result (λ flags. AllZip (Flags HasEqualityIn) (map rule_of bases.now) flags.items) }
{
    let mut flags = Vec::new(alloc);
    for rule in bases {
        flags.push(has_equality_in(rule))?;
    }
    Ok(flags)
}

fn entry_flags(alloc: Global, of_bases: &[bool], entries: &[Entry]) -> Result<Vec<bool>, AllocError>
    requires { All (λ (e : Entry). e.base < length of_bases.now) entries.now }
    ensures { IfOk result (λ flags. AllZip (IsOfBase of_bases.now) (map entry_of entries.now) flags.items) }
{
    let mut flags = Vec::new(alloc);
    for entry in entries {
        flags.push(base_flag(of_bases, entry))?;
    }
    Ok(flags)
}

fn summary_flags(
    alloc: Global,
    of_bases: &[bool],
    entries: &[Entry],
) -> Result<Vec<bool>, AllocError>
    requires { All (λ (e : Entry). e.base < length of_bases.now) entries.now }
    ensures { IfOk result
        (λ flags. AllZip (IsOfBaseOrTwice of_bases.now) (map entry_of entries.now) flags.items) }
{
    let mut flags = Vec::new(alloc);
    for entry in entries {
        flags.push(base_flag_or_twice(of_bases, entry))?;
    }
    Ok(flags)
}

fn base_flag(of_bases: &[bool], entry: &Entry) -> bool
    requires { entry.now.base < length of_bases.now }
    ensures { IsOfBase of_bases.now (entry_of entry.now) result }
{
    of_bases[entry.base]
}

fn base_flag_or_twice(of_bases: &[bool], entry: &Entry) -> bool
    requires { entry.now.base < length of_bases.now }
    ensures { IsOfBaseOrTwice of_bases.now (entry_of entry.now) result }
{
    base_flag(of_bases, entry) || has_twice(&entry.head)
}

/// The places of the true flags.
fn numbers(alloc: Global, flags: &[bool]) -> Result<Numbers, AllocError>
    ensures { IfOk result (AreTrueAt flags.now) }
{
    let mut numbers = Items::new(alloc);
    for (number, flag) in flags.iter().enumerate() {
        note(*flag, number, &mut numbers)?;
    }
    Ok(numbers)
}

fn note(flag: bool, number: usize, numbers: &mut Numbers) -> Result<(), AllocError>
    ensures { OnOk result (numbers.new ≡ numbers.old ++ true_places number (flag ∷ [])) }
{
    if flag {
        numbers.push(number)?;
    }
    Ok(())
}

fn has_equality_in(rule: &Rule) -> bool
    ensures { IsTrue result ↔ HasEqualityIn (rule_of rule.now) }
{
    has_equality(&rule.body) || is_equality(&rule.head)
}

/// Whether the head has one variable twice. Takes no memory.
pub fn has_twice(head: &Head) -> bool
    ensures { result ≡ has_twice (head_of head.now) }
{
    match head {
        Head::Never | Head::Atom(_, _, Terms::Zero) | Head::Atom(_, _, Terms::One(_)) => false,
        Head::Atom(_, _, Terms::Two(v, w)) | Head::Same(_, v, w) => v.0 == w.0,
    }
}
