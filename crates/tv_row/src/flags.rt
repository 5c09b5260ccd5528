//! Flags of numbers, kept as bits of words.

ghost use Rattle.std.specs.Prelude.{◌≡◌, ℕ, ◌<◌, ◌≤◌, ◌==◌, Bool, false, true, if◌then◌else◌, length};
ghost use Rattle.std.specs.Prelude.{replicate, slice_index_or, slice_set, IfOk, IfSome, MatchOption};
ghost use Rattle.tv_row.specs.Bits.{bit};
ghost use Rattle.tv_row.specs.FlagWords.{flag_at};

use crate::bits;
use std::alloc::{AllocError, Global};
use std::marker::Model;

/// A flag for each number below a count, seen by contracts as their list: 64 in each word.
#[derive(Debug, Drop)]
pub struct Flags {
    words: Vec<u64>,
    count: usize,
}

impl Model for Flags {
    ghost use Rattle.std.specs.Prelude.{List, Bool};
    ghost use Rattle.tv_row.specs.FlagWords.{HoldsFlags, flags_in};

    ghost Value = { List Bool };

    ghost view = { λ f. flags_in f.words.items f.count };

    ghost invariant = { λ f. HoldsFlags f.words.items f.count };
}

/// The number, if it is below the count.
fn number_below(number: usize, count: usize) -> Option<usize>
    ensures { MatchOption result (count ≤ number) (λ n. (n ≡ number) × (n < count)) }
{
    if number < count { Some(number) } else { None }
}

impl Flags {
    /// That many flags, all of them `on`.
    pub fn of(alloc: Global, count: usize, on: bool) -> Result<Flags, AllocError>
        ensures { IfOk result (λ flags. flags ≡ replicate count on) }
    {
        if count > usize::MAX / 2 {
            return Err(AllocError);
        }
        let word = if on { u64::MAX } else { 0 };
        Ok(Flags {
            words: vec![in alloc; word; count.div_ceil(64)]?,
            count,
        })
    }

    /// Equal flags in memory of their own.
    pub fn copied(&self, alloc: Global) -> Result<Flags, AllocError>
        ensures { IfOk result (λ flags. flags ≡ self.now) }
    {
        Ok(Flags {
            words: Vec::from_slice(alloc, self.words.as_slice())?,
            count: self.count,
        })
    }

    /// Puts the flag of the number, and changes no other.
    pub fn put(&mut self, number: usize, on: bool)
        requires { number < length self.old }
        ensures { self.new ≡ slice_set self.old number on }
    {
        let at = number / 64;
        self.words[at] = bits::with(self.words[at], (number % 64) as u32, on);
    }

    /// The first number at or after `from` whose flag is true.
    pub fn next_true(&self, from: usize) -> Option<usize>
        ensures first { MatchOption result
            ((n : ℕ) → from ≤ n → slice_index_or self.now n false ≡ false)
            (λ k. (k < length self.now) × (slice_index_or self.now k false ≡ true)
            × ((n : ℕ) → from ≤ n → n < k → slice_index_or self.now n false ≡ false)) }
        ensures from { IfSome result (λ k. from ≤ k) }
    {
        let mut at = from;
        while at < self.count {
            match bits::first_from(self.words[at / 64], (at % 64) as u32) {
                Some(bit) => return number_below(at / 64 * 64 + bit as usize, self.count),
                None => at = (at / 64 + 1) * 64,
            }
        }
        None
    }

    /// A number at or after `from` whose flag is true and whose flag among the others isn't, the first one.
    pub fn next_other(&self, others: &Flags, from: usize) -> Option<usize>
        ensures { IfSome result (λ k. (k < length self.now) × (slice_index_or self.now k false ≡ true)) }
    {
        let mut at = from;
        while at < self.count {
            match bits::first_from(
                self.words[at / 64] & !others.word(at / 64),
                (at % 64) as u32,
            ) {
                Some(bit) => return number_below(at / 64 * 64 + bit as usize, self.count),
                None => at = (at / 64 + 1) * 64,
            }
        }
        None
    }

    /// The flags of 64 numbers, as bits, none where there are no more.
    fn word(&self, place: usize) -> u64 {
        if place < self.words.len() {
            self.words[place]
        } else {
            0
        }
    }
}
