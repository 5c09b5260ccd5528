//! Values at 256 places, which say something of a structure or of one of its individuals.

ghost use Rattle.std.specs.Prelude.{ℕ, ◌≡◌, ◌≢◌, ◌<◌, ◌≤◌, IsTrue, length, replicate, slice_index_or};
ghost use Rattle.std.specs.Prelude.{slice_set};
ghost use Rattle.tv_kleene.specs.declared.K3.TheVariants.{No, Half, Yes};
ghost use Rattle.tv_cover.specs.Glance.{AreWithinMarks, LieUnder, profile_number};

use std::marker::Model;
use tv_kleene::K3;
use tv_row::{Row, Word};

/// Values at 256 places, seen by contracts as their list.
#[derive(Drop)]
pub struct Profile {
    row: Row,
}

impl Model for Profile {
    ghost use Rattle.std.specs.Prelude.{List, ◌≡◌, length};
    ghost use Rattle.tv_kleene.specs.declared.K3.{K3};

    ghost Value = { List K3 };

    ghost view = { λ p. p.row };

    ghost invariant = { λ p. length p.row ≡ 256 };
}

/// Whether each value lies under that of the other word.
#[inline(always)]
fn is_under(word: Word, other: Word) -> bool
    requires { length word ≡ length other }
    ensures { LieUnder word other → IsTrue result }
{
    word.join(other) == other
}

impl Profile {
    /// `No` at all places.
    pub fn of_no() -> Profile
        ensures { result ≡ replicate 256 No }
    {
        Profile {
            row: Row::of(256, K3::No),
        }
    }

    /// The value at the place.
    pub fn get(&self, place: u32) -> K3
        requires { place < 256 }
        ensures { result ≡ slice_index_or self.now place No }
    {
        self.row.get(place)
    }

    /// Puts the value at the place.
    pub fn put(&mut self, place: u32, k: K3)
        requires { place < 256 }
        ensures { self.new ≡ slice_set self.old place k }
    {
        self.row.set(place, k);
    }

    /// False only where some value doesn't lie under that of the other profile, of which the first
    /// `64 * chunks` are compared. That it is true promises nothing.
    #[inline(always)]
    pub fn may_lie_under(&self, other: &Profile, chunks: u32) -> bool
        requires { chunks ≤ 4 }
        ensures { LieUnder self.now other.now → IsTrue result }
    {
        if chunks == 1 {
            return is_under(self.row.word(0), other.row.word(0));
        }
        for chunk in 0..chunks {
            if !is_under(self.row.word(chunk), other.row.word(chunk)) {
                return false;
            }
        }
        true
    }

    /// True only where the values are the same.
    pub fn equals(&self, other: &Profile) -> bool
        ensures { IsTrue result → self.now ≡ other.now }
    {
        self.row.equals(&other.row)
    }

    /// `Yes` at all places.
    pub fn of_yes() -> Profile
        ensures { result ≡ replicate 256 Yes }
    {
        Profile {
            row: Row::of(256, K3::Yes),
        }
    }

    /// A profile with `Yes` where it has it here and the other value isn't unknown.
    pub fn known_in(&self, other: &Profile) -> Profile
        ensures { (place : ℕ) → place < 256 → slice_index_or self.now place No ≡ Yes
            → slice_index_or other.now place No ≢ Half → slice_index_or result place No ≡ Yes }
    {
        Profile {
            row: self.row.and(&other.row.or(&other.row.not())),
        }
    }

    /// False only where some place that isn't `No` here isn't `Yes` in the other profile. That it is true
    /// promises nothing.
    pub fn may_be_marked(&self, marks: &Profile) -> bool
        ensures { AreWithinMarks self.now marks.now → IsTrue result }
    {
        self.row.and(&marks.row).equals(&self.row)
    }

    /// A number for the values at the places that are known.
    pub fn number(&self, known: &Profile) -> u64
        ensures { result ≡ profile_number known.now self.now }
    {
        self.row.and(&known.row).mix(0)
    }
}
