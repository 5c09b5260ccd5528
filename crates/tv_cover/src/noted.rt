//! Places of structures, noted for what these say at a glance.

ghost use Rattle.std.specs.Prelude.{◌≡◌, ℕ, [], ◌∷◌, ◌++◌, ◌==◌, List, length, All, Contains, IfOk, OnOk};
ghost use Rattle.std.specs.Prelude.{IsTrue, unwrap_or, if◌then◌else◌};
ghost use Rattle.std.specs.Ordering.{nat_cmp};
ghost use Rattle.std.specs.BTreeMap.{get};
ghost use Rattle.std.specs.List.Sorted.{IsNonDecreasing};
ghost use Rattle.tv_kleene.specs.declared.K3.{K3};
ghost use Rattle.tv_cover.specs.Glance.{AreKnown, AreWithinMarks, AreWithin, glance_number};
ghost use Rattle.tv_cover.specs.Noted.{Finds, Notes};

use crate::glance::Glance;
use crate::profile::Profile;
use std::alloc::{AllocError, Global};
use std::collections::BTreeMap;
use tv_model::Items;
use tv_row::Word;

/// A place, and the slots of summaries there.
#[derive(Clone, Copy)]
pub struct Noting {
    pub place: usize,
    pub summaries: Word,
}

/// Places, by the number for what is said at a glance.
pub type PlacesByGlance = BTreeMap<u64, Items<Noting>>;

/// Places of structures by what these say at a glance, and at which places of it that was known: each profile
/// of known ones once.
#[derive(Drop)]
pub struct Noted {
    pub known: Vec<Profile>,
    pub places: PlacesByGlance,
}

/// What is noted for the number.
fn notings_at(places: &PlacesByGlance, number: u64) -> &[Noting]
    ensures { result.now ≡ unwrap_or (get nat_cmp places.now number) [] }
{
    match places.get(&number) {
        Some(list) => list.as_slice(),
        None => &[],
    }
}

/// Notes the place for the number, behind what is noted for it.
fn note(
    alloc: Global,
    places: &mut PlacesByGlance,
    number: u64,
    noting: Noting,
) -> Result<(), AllocError>
    ensures { OnOk result ((g : ℕ) → unwrap_or (get nat_cmp places.new g) [] ≡ (if g == number then unwrap_or
        (get nat_cmp places.old g) [] ++ noting ∷ [] else unwrap_or (get nat_cmp places.old g) [])) }
{
    if let Some(list) = places.get_mut(&number) {
        return list.push(noting);
    }
    let mut list = Items::new(alloc);
    list.push(noting)?;
    places.insert(number, list)?;
    Ok(())
}

/// True only where the row is among these.
pub fn has_row(rows: &[Profile], row: &Profile) -> bool
    ensures { IsTrue result → Contains rows.now row.now }
{
    for other in rows {
        if other.equals(row) {
            return true;
        }
    }
    false
}

/// Puts the row behind the others where it isn't among them.
fn add_row(rows: &mut Vec<Profile>, row: Profile) -> Result<(), AllocError>
    ensures kept { OnOk result
        ((other : List K3) → Contains rows.old.items other → Contains rows.new.items other) }
    ensures added { OnOk result (Contains rows.new.items row) }
{
    if !has_row(rows.as_slice(), &row) {
        rows.push(row)?;
    }
    Ok(())
}

/// Whether no slot that isn't `No` is `No` in the others. That it is true promises nothing.
#[inline(always)]
fn are_within(slots: Word, others: Word) -> bool
    ensures { AreWithin slots others → IsTrue result }
{
    slots.and(others) == slots
}

/// Puts the place behind the others where a structure with these summaries may be covered.
fn add_place(found: &mut Vec<usize>, noting: Noting, slots: Word) -> Result<(), AllocError>
    ensures kept { OnOk result
        ((place : ℕ) → Contains found.old.items place → Contains found.new.items place) }
    ensures added { OnOk result (AreWithin slots noting.summaries → Contains found.new.items noting.place) }
{
    if are_within(slots, noting.summaries) {
        found.push(noting.place)?;
    }
    Ok(())
}

/// Puts all such places behind the others.
fn add_places(found: &mut Vec<usize>, notings: &[Noting], slots: Word) -> Result<(), AllocError>
    ensures kept { OnOk result
        ((place : ℕ) → Contains found.old.items place → Contains found.new.items place) }
    ensures added { OnOk result (All
        (λ noting. AreWithin slots noting.summaries → Contains found.new.items noting.place) notings.now) }
{
    for noting in notings {
        add_place(found, *noting, slots)?;
    }
    Ok(())
}

impl Noted {
    /// No places; takes no memory. What is noted is a hint: of what is found by it nothing is promised here.
    pub fn new(alloc: Global) -> Noted {
        Noted {
            known: Vec::new(alloc),
            places: BTreeMap::new(alloc),
        }
    }

    /// Notes the place of a structure that says this at a glance.
    pub fn add(&mut self, alloc: Global, glance: &Glance, place: usize) -> Result<(), AllocError>
        ensures { OnOk result (Notes self.old self.new glance.now place) }
    {
        let known = glance.known();
        let number = glance.number(&known);
        let summaries = glance.summaries(&known);
        add_row(&mut self.known, known)?;
        note(alloc, &mut self.places, number, Noting { place, summaries })
    }

    /// Puts behind the others the places of structures that say the same at a glance as far as this is known,
    /// and have summaries where this has some.
    fn add_alike(
        &self,
        found: &mut Vec<usize>,
        glance: &Glance,
        known: &Profile,
    ) -> Result<(), AllocError>
        ensures kept { OnOk result
            ((place : ℕ) → Contains found.old.items place → Contains found.new.items place) }
        ensures added { OnOk result (Finds self.now glance.now known.now found.new.items) }
    {
        let notings = notings_at(&self.places, glance.number(known));
        add_places(found, notings, glance.summaries(known))
    }

    /// The same where no place that is known has an unknown value here: one with such a value lies under none
    /// with that profile.
    fn add_if_known(
        &self,
        found: &mut Vec<usize>,
        glance: &Glance,
        marks: &Profile,
        known: &Profile,
    ) -> Result<(), AllocError>
        requires { (other : List K3) → AreKnown glance.now other → AreWithinMarks other marks.now }
        ensures kept { OnOk result
            ((place : ℕ) → Contains found.old.items place → Contains found.new.items place) }
        ensures added { OnOk result
            (AreKnown glance.now known.now → Finds self.now glance.now known.now found.new.items) }
    {
        if !known.may_be_marked(marks) {
            return Ok(());
        }
        self.add_alike(found, glance, known)
    }

    /// The places of structures that say the same at a glance as far as it is known in them, and have
    /// summaries where this has some, in ascending order.
    pub fn places(&self, alloc: Global, glance: &Glance) -> Result<Vec<usize>, AllocError>
        ensures each { IfOk result (λ found. (known : List K3) → Contains self.now.known.items known
            → AreKnown glance.now known → Finds self.now glance.now known found.items) }
        ensures order { IfOk result (λ found. IsNonDecreasing found.items) }
    {
        let mut found = Vec::new(alloc);
        let marks = glance.marks();
        for known in self.known.as_slice() {
            self.add_if_known(&mut found, glance, &marks, known)?;
        }
        found.sort_unstable();
        Ok(found)
    }
}
