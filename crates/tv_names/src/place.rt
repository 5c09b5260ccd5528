//! Where a formula stands: what its names may mean.

ghost use Rattle.std.specs.Prelude.{◌≡◌, [], true, false, get_or, slice_set, fold, map};
ghost use Rattle.std.specs.List.{repeat};
ghost use Rattle.tv_model.specs.Form.{vars_of};
ghost use Rattle.tv_model.specs.Program.{picks_of};
ghost use Rattle.tv_names.specs.Picks.{flagged, flags_of};
ghost use Rattle.tv_names.specs.Copies.{place_form};
ghost use Rattle.tv_names.specs.Resolving.{under};

use crate::symbols::Symbols;
use tv_model::{Terms, Var};

/// Which variables beside the known ones may be free.
#[derive(Clone, Copy, Debug, PartialEq, Eq)]
pub enum Others {
    /// All.
    Any,
    /// None.
    Never,
    /// One.
    Once,
}

/// A set of variables.
#[derive(Clone, Copy, Debug)]
pub struct Known {
    flags: [bool; 32],
}

impl Known {
    /// The empty set.
    pub fn nothing() -> Known
        ensures { result.flags ≡ flags_of [] }
    {
        Known { flags: [false; 32] }
    }

    /// The set of these variables.
    pub fn of(terms: &Terms) -> Known
        ensures { result.flags ≡ flags_of (vars_of terms.now) }
    {
        match terms {
            Terms::Zero => Known::nothing(),
            Terms::One(v) => Known::nothing().with(v.0),
            Terms::Two(v, w) => Known::nothing().with(v.0).with(w.0),
        }
    }

    /// The set with these variables too.
    pub fn with_all(self, vars: &[Var]) -> Known
        ensures { result.flags ≡ flagged self.flags (picks_of vars.now) }
    {
        let mut known = self;
        for v in vars {
            known = known.with(v.0);
        }
        known
    }

    /// The set with this variable too; a number from 32 on is none.
    pub(crate) fn with(mut self, v: u8) -> Known
        ensures { result.flags ≡ slice_set self.flags v true }
    {
        if (v as usize) < 32 {
            self.flags[v as usize] = true;
        }
        self
    }

    /// Whether the variable of this number is in the set.
    pub(crate) fn has_at(&self, n: usize) -> bool
        ensures { result ≡ get_or self.now.flags n false }
    {
        if n < 32 { self.flags[n] } else { false }
    }

    /// Whether the variable is in the set.
    pub(crate) fn has(&self, v: u8) -> bool
        ensures { result ≡ get_or self.now.flags v false }
    {
        self.has_at(v as usize)
    }
}

/// Where a formula stands: the predicates, whether `isNew` is allowed, which variables are known
/// since they are bound here or allowed to be free, and which others may be free.
#[derive(Clone, Copy)]
pub struct Place<'a> {
    pub symbols: &'a Symbols,
    pub with_new: bool,
    pub known: Known,
    pub others: Others,
}

impl<'a> Place<'a> {
    /// The place under a quantifier of this variable.
    pub(crate) fn under(&self, v: u8) -> Place<'a>
        ensures { place_form result ≡ under (place_form self.now) v }
    {
        Place {
            symbols: self.symbols,
            with_new: self.with_new,
            known: self.known.with(v),
            others: self.others,
        }
    }
}
