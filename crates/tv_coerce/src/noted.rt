//! Changes that were asked for. One that was asked for before may be passed over.

ghost use Rattle.std.specs.Prelude.{◌≡◌, ◌≢◌, [], IsTrue, MatchBool, OnOk};
ghost use Rattle.tv_coerce.specs.Trying.{IsAdded};

use crate::change::Change;
use std::alloc::{AllocError, Global};
use std::mem;
use tv_struct::Tuple;

/// A change, and the number of the rule that asks for it.
#[derive(Clone, Copy, Debug, PartialEq, Eq)]
pub(crate) struct Ask {
    pub number: usize,
    pub change: Change,
}

/// Which changes a rule asked for, by their places. A hint, of which nothing is promised.
#[derive(Debug, Drop)]
struct Seen {
    /// The number of the rule.
    number: usize,
    /// The first places, as bits.
    inside: [u64; WORDS],
    /// Those behind them, where there are so many.
    behind: Vec<bool>,
}

/// So many words hold the first places.
const WORDS: usize = 4;

/// So many places they hold.
const INSIDE: usize = 256;

/// Changes that rules which came of one base rule ask for in a structure of `size` individuals. What more
/// than some of them ask for is passed over.
#[derive(Debug, Drop)]
pub(crate) struct Queue {
    list: Vec<Ask>,
    /// For each rule that asked which changes stand in the list.
    seen: Vec<Seen>,
    /// How often a rule asked for a change, in turns of the count.
    asked: usize,
    /// How many variables before the last don't stand in the head of the rule that asked last, none where the
    /// last one does. A hint, of which nothing is promised.
    settled: Option<usize>,
    alloc: Global,
    size: u32,
}

/// The changes of so many rules are noted.
const MOST: usize = 8;

/// The place of a change among those that a rule may ask for.
fn place_of(change: Change, size: u32) -> usize {
    match change {
        Change::Ordinary(u) | Change::Value(_, Tuple::One(u), _) => u as usize,
        Change::Value(_, Tuple::Zero, _) => 0,
        Change::Value(_, Tuple::Two(u, w), _) => (u as usize)
            .wrapping_mul(size as usize)
            .wrapping_add(w as usize),
    }
}

/// How many places changes like this one have.
fn count_of(change: Change, size: u32) -> usize {
    match change {
        Change::Value(_, Tuple::Zero, _) => 1,
        Change::Ordinary(_) | Change::Value(_, Tuple::One(_), _) => size as usize,
        Change::Value(_, Tuple::Two(_, _), _) => (size as usize).wrapping_mul(size as usize),
    }
}

impl Seen {
    /// No changes, of which there are so many places.
    fn new(alloc: Global, number: usize, count: usize) -> Result<Seen, AllocError> {
        Ok(Seen {
            number,
            inside: [0; WORDS],
            behind: vec![in alloc; false; count.saturating_sub(INSIDE)]?,
        })
    }

    fn has(&self, place: usize) -> bool {
        if place < INSIDE {
            return (self.inside[place / 64] >> (place % 64)) & 1 == 1;
        }
        place - INSIDE < self.behind.len() && self.behind[place - INSIDE]
    }

    fn mark(&mut self, place: usize) {
        if place < INSIDE {
            self.inside[place / 64] |= 1 << (place % 64);
        } else if place - INSIDE < self.behind.len() {
            self.behind[place - INSIDE] = true;
        }
    }
}

/// Which of them has that number; as many as there are, where none has. A hint, of which nothing is promised.
fn place_in(seen: &[Seen], number: usize) -> usize {
    for (place, one) in seen.iter().enumerate() {
        if one.number == number {
            return place;
        }
    }
    seen.len()
}

impl Queue {
    /// No changes. The size, that of the structure, tells places of changes apart: a hint, of which nothing
    /// is promised.
    pub fn new(alloc: Global, size: u32) -> Queue
        ensures { result.list.items ≡ [] }
    {
        Queue {
            list: Vec::new(alloc),
            seen: Vec::new(alloc),
            asked: 0,
            settled: None,
            alloc,
            size,
        }
    }

    /// Notes what a rule asks for, or passes it over, but only where something is noted already.
    pub fn add(&mut self, ask: Ask, settled: Option<usize>) -> Result<(), AllocError>
        ensures { OnOk result (IsAdded ask self.old self.new) }
    {
        if self.is_new(ask)? || self.list.is_empty() {
            self.list.push(ask)?;
        }
        self.asked = self.asked.wrapping_add(1);
        self.settled = settled;
        Ok(())
    }

    /// Whether the change wasn't asked for by its rule so far, which is marked; false too where too many
    /// rules ask. A hint, of which nothing is promised.
    fn is_new(&mut self, ask: Ask) -> Result<bool, AllocError>
        ensures { OnOk result (self.new.list ≡ self.old.list) }
    {
        let place = place_of(ask.change, self.size);
        let at = place_in(self.seen.as_slice(), ask.number);
        if at == self.seen.len() {
            if at == MOST {
                return Ok(false);
            }
            let count = count_of(ask.change, self.size);
            self.seen.push(Seen::new(self.alloc, ask.number, count)?)?;
        }
        if at < self.seen.len() && !self.seen[at].has(place) {
            self.seen[at].mark(place);
            return Ok(true);
        }
        Ok(false)
    }

    /// How often a rule asked for a change, noted anew or not, in turns of the count: a hint, of which
    /// nothing is promised.
    pub fn asked(&self) -> usize {
        self.asked
    }

    /// Tells, by that count, whether a change was asked for since it stood so, while so many variables before
    /// the last were left, none of which stands in the head of the rule that asked: what follows can then ask
    /// for no more than that one. True only where some change is noted; that it is false promises nothing.
    pub fn has_more(&self, asked: usize, rest: usize) -> bool
        ensures { IsTrue result → self.now.list.items ≢ [] }
    {
        if self.list.is_empty() {
            return false;
        }
        match self.settled {
            Some(left) => rest <= left && self.asked != asked,
            None => false,
        }
    }

    /// Whether a change is noted.
    pub fn has_some(&self) -> bool
        ensures { MatchBool result (self.now.list.items ≢ []) (self.now.list.items ≡ []) }
    {
        !self.list.is_empty()
    }

    /// Takes all out, with what is known of it; no changes are left here.
    pub fn take(&mut self) -> Queue
        ensures { result ≡ self.old }
    {
        mem::replace(self, Queue::new(self.alloc, self.size))
    }

    /// Takes out the changes, in the order in which they were noted, each with the rule that asks for it.
    pub fn take_asks(&mut self) -> Vec<Ask>
        ensures { result ≡ self.old.list }
    {
        self.seen.clear();
        mem::replace(&mut self.list, Vec::new(self.alloc))
    }

    /// Takes back the memory of changes that were made; none is noted then.
    pub fn reuse(&mut self, asks: Vec<Ask>)
        ensures { self.new.list.items ≡ [] }
    {
        let mut asks = asks;
        asks.clear();
        self.list = asks;
    }
}
