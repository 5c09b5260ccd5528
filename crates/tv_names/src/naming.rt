//! The variables of one item: which name has which number.

ghost use Rattle.std.specs.Prelude.{◌≡◌, ◌<◌, ℕ, IfSome, Some, None, Option, map, position, slice_set, IfOk};
ghost use Rattle.tv_model.specs.Form.{vars_of};
ghost use Rattle.tv_names.specs.Refusal.{GivesOrRefuses};
ghost use Rattle.tv_names.specs.Naming.{is_vacant, is_named, number_of, filled, Vacant, Named, Nameless};
ghost use Rattle.tv_names.specs.Naming.{sighted, hidden, hidden_slot, declared, two_declared, declared_all};
ghost use Rattle.tv_names.specs.Naming.{two_more, own_pair, no_names, kept_slot, kept_from};
ghost use Rattle.tv_names.specs.Copies.{slot_of, naming_of};

use crate::place::Known;
use crate::refusal::ResolveError;
use tv_model::{Terms, Var};
use tv_tree::trees::Spelling;

/// What a number stands for.
#[derive(Clone, Copy, Debug)]
pub enum Slot<'a> {
    /// Nothing yet.
    Vacant,
    /// A variable without a name.
    Nameless,
    /// The variable of this name.
    Named(&'a [u8]),
}

impl Slot<'_> {
    fn is_vacant(&self) -> bool
        ensures { result ≡ is_vacant (slot_of self.now) }
    {
        matches!(self, Slot::Vacant)
    }

    fn is_named(&self, name: &[u8]) -> bool
        ensures { result ≡ is_named name.now (slot_of self.now) }
    {
        match self {
            Slot::Vacant | Slot::Nameless => false,
            Slot::Named(word) => name == *word,
        }
    }

    fn hide(self, name: &[u8]) -> Self
        ensures { slot_of result ≡ hidden_slot name.now (slot_of self.entry) }
    {
        if self.is_named(name) {
            Slot::Nameless
        } else {
            self
        }
    }

    fn kept_if(self, keeps: bool) -> Self
        ensures { slot_of result ≡ kept_slot keeps (slot_of self.entry) }
    {
        if keeps { self } else { Slot::Vacant }
    }
}

// The picked variable of this name, if there is one, loses its name.
fn hide(slots: &mut [Slot<'_>], name: &[u8])
    ensures { map slot_of slots.new ≡ hidden name.now (map slot_of slots.old) }
{
    for n in 0..slots.len() {
        slots[n] = slots[n].hide(name);
    }
}

// The variables that aren't picked go.
fn keep(slots: &mut [Slot<'_>], picks: Known)
    ensures { map slot_of slots.new ≡ kept_from 0 picks.flags (map slot_of slots.old) }
{
    for n in 0..slots.len() {
        slots[n] = slots[n].kept_if(picks.has_at(n));
    }
}

/// The variables of one item, by number.
#[derive(Clone, Copy, Debug)]
pub struct Naming<'a> {
    slots: [Slot<'a>; 32],
    own: Option<(u8, u8)>,
    further: Option<u8>,
}

impl<'a> Naming<'a> {
    /// An item of which nothing is numbered yet.
    pub fn new() -> Naming<'a>
        ensures { naming_of result ≡ no_names }
    {
        Naming {
            slots: [Slot::Vacant; 32],
            own: None,
            further: None,
        }
    }

    /// The one further variable that stands free, if there is one.
    pub fn further(&self) -> Option<u8>
        ensures { result ≡ (naming_of self.now).further }
    {
        self.further
    }

    /// Notes the one further variable that stands free.
    pub(crate) fn note(&mut self, v: u8)
        ensures { naming_of self.new ≡ record (naming_of self.old) { further = Some v } }
    {
        self.further = Some(v);
    }

    fn first_vacant(&self) -> Option<usize>
        ensures first { result ≡ position (λ slot. is_vacant (slot_of slot)) self.now.slots }
        ensures within { IfSome result (λ n. n < 32) }
    {
        self.slots.iter().position(|slot| slot.is_vacant())
    }

    fn first_named(&self, name: &[u8]) -> Option<usize>
        ensures first { result ≡ position (λ slot. is_named name.now (slot_of slot)) self.now.slots }
        ensures within { IfSome result (λ n. n < 32) }
    {
        self.slots.iter().position(|slot| slot.is_named(name))
    }

    /// The number of the name, if it has one.
    #[tactic(auto, using(crate::proofs::SlotLaws::position_over))]
    pub(crate) fn number_of(&self, name: &[u8]) -> Option<u8>
        ensures { result ≡ number_of name.now (naming_of self.now).slots }
    {
        match self.first_named(name) {
            Some(n) => Some(n as u8),
            None => None,
        }
    }

    #[tactic(auto, using(crate::proofs::SlotLaws::position_over))]
    fn vacancy(&self) -> Option<usize>
        ensures first { result ≡ position is_vacant (naming_of self.now).slots }
        ensures within { IfSome result (λ n. n < 32) }
    {
        self.first_vacant()
    }

    /// A further variable: it gets the lowest number that stands for nothing yet.
    #[tactic(auto, unfolding(crate::specs::Naming::filled))]
    pub fn fill(&mut self, slot: Slot<'a>) -> Result<u8, ResolveError>
        ensures { GivesOrRefuses (λ n. (n, naming_of self.new)) result
            (filled (slot_of slot.entry) (naming_of self.old)) }
    {
        match self.vacancy() {
            Some(n) => {
                self.slots[n] = slot;
                Ok(n as u8)
            }
            None => Err(ResolveError::TooManyVariables),
        }
    }

    /// The number of a name that is seen: its own, or a new one.
    #[tactic(auto, unfolding(crate::specs::Naming::sighted))]
    pub(crate) fn sight(&mut self, name: &'a [u8]) -> Result<u8, ResolveError>
        ensures { GivesOrRefuses (λ n. (n, naming_of self.new)) result
            (sighted name.now (naming_of self.old)) }
    {
        match self.number_of(name) {
            Some(n) => Ok(n),
            None => self.fill(Slot::Named(name)),
        }
    }

    /// An own variable of a definition or an update: it gets a number of its own, and hides a picked
    /// variable of the same name.
    #[tactic(auto, unfolding(crate::specs::Naming::declared))]
    pub(crate) fn declare(&mut self, name: &'a [u8]) -> Result<u8, ResolveError>
        ensures { GivesOrRefuses (λ n. (n, naming_of self.new)) result
            (declared name.now (naming_of self.old)) }
    {
        hide(&mut self.slots, name);
        self.fill(Slot::Named(name))
    }

    #[tactic(auto, unfolding(crate::specs::Naming::two_declared))]
    fn declare_two(&mut self, v: &'a Spelling, w: &'a Spelling) -> Result<Terms, ResolveError>
        ensures { GivesOrRefuses (λ ts. (vars_of ts, naming_of self.new)) result
            (two_declared v.now w.now (naming_of self.old)) }
    {
        let a = self.declare(&v.0)?;
        let b = self.declare(&w.0)?;
        Ok(Terms::Two(Var(a), Var(b)))
    }

    /// The own variables of a definition or an update; no predicate has more than two.
    pub fn declare_all(&mut self, params: &'a [Spelling]) -> Result<Terms, ResolveError>
        ensures { GivesOrRefuses (λ ts. (vars_of ts, naming_of self.new)) result
            (declared_all params.now (naming_of self.old)) }
    {
        match params {
            [] => Ok(Terms::Zero),
            [v] => Ok(Terms::One(Var(self.declare(&v.0)?))),
            [v, w] => self.declare_two(v, w),
            _ => Err(ResolveError::ArityTooLarge),
        }
    }

    #[tactic(auto, unfolding(crate::specs::Naming::two_more))]
    fn two_more(&mut self) -> Result<(u8, u8), ResolveError>
        ensures { GivesOrRefuses (λ pair. (pair, naming_of self.new)) result (two_more (naming_of self.old)) }
    {
        let left = self.fill(Slot::Nameless)?;
        let right = self.fill(Slot::Nameless)?;
        self.own = Some((left, right));
        Ok((left, right))
    }

    /// The two variables that all `p*` and `p+` of the item share.
    #[tactic(auto, unfolding(crate::specs::Naming::own_pair))]
    pub(crate) fn own_pair(&mut self) -> Result<(u8, u8), ResolveError>
        ensures { GivesOrRefuses (λ pair. (pair, naming_of self.new)) result (own_pair (naming_of self.old)) }
    {
        match self.own {
            Some(pair) => Ok(pair),
            None => self.two_more(),
        }
    }

    /// Keeps the picked variables alone, with their names and numbers.
    pub fn keep_picks(&mut self, picks: Known)
        ensures { naming_of self.new
            ≡ record no_names { slots = kept_from 0 picks.flags (naming_of self.old).slots } }
    {
        keep(&mut self.slots, picks);
        self.own = None;
        self.further = None;
    }
}
