//! A class: individuals that have one name.

ghost use Rattle.std.specs.Prelude.{◌≡◌, ◌<◌, ℕ, [], ◌∷◌, ◌++◌, length, All, OnOk, nat_lt, slice_index};
ghost use Rattle.std.specs.Prelude.{slice_index_or, IfSome, List};
ghost use Rattle.tv_kleene.specs.declared.K3.TheVariants.{No};
ghost use Rattle.tv_blur.specs.Classes.{IsAmongMembers, IsMask};
ghost use Rattle.tv_blur.specs.Merged.{IsJoin};

use smallvec::SmallVec;
use std::alloc::{AllocError, Global};
use std::marker::Model;
use tv_kleene::K3;
use tv_row::Row;

/// So many members are joined one by one sooner than by words.
const FEW: usize = 16;

/// So many members behind the first are kept in the class itself.
const INSIDE: usize = 6;

/// Some individuals, at least one, seen by contracts as their list. Many are kept as bits too, so that their
/// values are joined word by word. A class of few takes no memory.
#[derive(Drop)]
pub struct Class {
    first: u32,
    others: SmallVec<u32, INSIDE>,
    mask: Option<Row>,
}

impl Model for Class {
    ghost use Rattle.std.specs.Prelude.{ℕ, List, ◌∷◌};
    ghost use Rattle.tv_blur.specs.Classes.{MayHaveMask};

    ghost Value = { List ℕ };

    ghost view = { λ c. c.first ∷ c.others.items };

    ghost invariant = { λ c. MayHaveMask (c.first ∷ c.others.items) c.mask };
}

impl Class {
    /// The class of one individual.
    pub fn of(alloc: Global, u: u32) -> Class
        requires { u < 256 }
        ensures { result ≡ u ∷ [] }
    {
        Class {
            first: u,
            others: SmallVec::new(alloc),
            mask: None,
        }
    }

    /// Puts one more individual behind the others.
    pub fn add(&mut self, u: u32) -> Result<(), AllocError>
        requires { u < 256 }
        ensures { OnOk result (self.new ≡ self.old ++ u ∷ []) }
    {
        self.others.push(u)?;
        self.mask = mask_with(&self.mask, self.first, self.others.as_slice(), u);
        Ok(())
    }

    /// The first individual.
    pub fn first(&self) -> u32
        ensures { result ≡ slice_index self.now 0 }
    {
        self.first
    }

    /// The individuals behind the first.
    pub fn others(&self) -> &[u32]
        ensures { self.now ≡ slice_index self.now 0 ∷ result.now }
    {
        self.others.as_slice()
    }

    /// Whether there are several.
    pub fn has_several(&self) -> bool
        ensures { result ≡ nat_lt 1 (length self.now) }
    {
        !self.others.as_slice().is_empty()
    }

    /// The join of the row's values at the individuals.
    pub fn joined(&self, row: &Row) -> K3
        requires { All (λ u. u < length row.now) self.now }
        ensures { IsJoin (IsAmongMembers (λ u j. slice_index_or row.now u No ≡ j) self.now) result }
    {
        match &self.mask {
            None => joined_each(row, self.first, self.others.as_slice()),
            Some(mask) => {
                let flags = mask.first(row.size());
                let greatest = flags.and(row).greatest();
                let least = flags.not().or(row).least();
                least.join(greatest)
            }
        }
    }
}

/// The mask of these individuals, the last of which is `u`, if there was one of the others or they are many.
fn mask_with(mask: &Option<Row>, first: u32, others: &[u32], u: u32) -> Option<Row>
    requires small { All (λ w. w < 256) (first ∷ others.now) }
    requires last { u < 256 }
    requires known { (before : List ℕ) × (first ∷ others.now ≡ before ++ u ∷ [])
        × IfSome mask.now (IsMask before) }
    ensures { IfSome result (IsMask (first ∷ others.now)) }
{
    match mask {
        Some(mask) => {
            let mut more = *mask;
            more.set(u, K3::Yes);
            Some(more)
        }
        None if others.len() < FEW => None,
        None => Some(mask_of(first, others)),
    }
}

/// The mask of these individuals.
fn mask_of(first: u32, others: &[u32]) -> Row
    requires { All (λ u. u < 256) (first ∷ others.now) }
    ensures { IsMask (first ∷ others.now) result }
{
    let mut mask = Row::of(256, K3::No);
    mask.set(first, K3::Yes);
    for i in 0..others.len() {
        mask.set(others[i], K3::Yes);
    }
    mask
}

/// The join of the row's values at these individuals, one by one.
fn joined_each(row: &Row, first: u32, others: &[u32]) -> K3
    requires { All (λ u. u < length row.now) (first ∷ others.now) }
    ensures { IsJoin (IsAmongMembers (λ u j. slice_index_or row.now u No ≡ j) (first ∷ others.now)) result }
{
    let mut k = row.get(first);
    for i in 0..others.len() {
        k = k.join(row.get(others[i]));
    }
    k
}
