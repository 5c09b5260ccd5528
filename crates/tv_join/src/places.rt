//! Places of structures, each once.

ghost use Rattle.std.specs.Prelude.{◌≡◌, ◌≢◌, [], ◌∷◌, Contains, IfSome, IfNone, MatchBool, OnOk};
ghost use Rattle.tv_join.specs.Places.{Notes};

use std::alloc::{AllocError, Global};
use std::collections::BTreeSet;
use std::marker::Model;

/// A structure by its node and its place there.
#[derive(Clone, Copy, Debug, PartialEq, Eq, PartialOrd, Ord)]
pub(crate) struct Place {
    pub node: u32,
    pub at: usize,
}

/// Places in order, each once.
#[derive(Drop)]
pub(crate) struct Places {
    set: BTreeSet<Place>,
}

impl Model for Places {
    ghost use Rattle.std.specs.Prelude.{List};
    ghost use Rattle.tv_join.specs.declared.places.Place.{Place};

    ghost Value = { List Place };

    ghost view = { λ p. p.set.keys };
}

impl Places {
    /// No places; takes no memory.
    pub fn new(alloc: Global) -> Places
        ensures { result ≡ [] }
    {
        Places {
            set: BTreeSet::new(alloc),
        }
    }

    /// Notes a place beside the others, unless it was noted.
    pub fn note(&mut self, place: Place) -> Result<(), AllocError>
        ensures { OnOk result (Notes place self.old self.new) }
    {
        self.set.insert(place)?;
        Ok(())
    }

    /// Takes out the first place, if there is one.
    pub fn take_first(&mut self) -> Option<Place>
        ensures some { IfSome result (λ w. self.old ≡ w ∷ self.new) }
        ensures none { IfNone result (self.old ≡ []) }
    {
        self.set.pop_first()
    }

    /// Whether there is none.
    pub fn is_empty(&self) -> bool
        ensures { MatchBool result (self.now ≡ []) (self.now ≢ []) }
    {
        self.set.is_empty()
    }
}
