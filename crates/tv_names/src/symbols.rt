//! The names of predicates, and the numbers that they have.

ghost use Rattle.std.specs.Prelude.{ℕ, ◌≡◌, ◌+◌, ◌<◌, ◌≤◌, ◌++◌, ◌∷◌, [], length, Option, Some, None, IfOk};
ghost use Rattle.std.specs.Prelude.{OnOk, MatchOption, codes};
ghost use Rattle.std.specs.Option.{option_map};
ghost use Rattle.std.specs.Str.{bytes_eq};
ghost use Rattle.tv_names.specs.Symbols.{is_sm, is_new_word, is_reserved, symbol_of, KnownForm};

use indexmap::IndexMap;
use std::alloc::{AllocError, Global};

fn is_text(name: &[u8], text: &[u8]) -> bool
    ensures { result ≡ bytes_eq name.now text.now }
{
    name == text
}

/// Whether the name is `sm`.
pub fn is_sm(name: &[u8]) -> bool
    ensures { result ≡ is_sm name.now }
{
    is_text(name, b"sm")
}

/// Whether the name is `isNew`.
pub fn is_new_word(name: &[u8]) -> bool
    ensures { result ≡ is_new_word name.now }
{
    is_text(name, b"isNew")
}

/// Whether no predicate may have the name.
pub fn is_reserved(name: &[u8]) -> bool
    ensures { result ≡ is_reserved name.now }
{
    is_sm(name) || is_new_word(name)
}

/// A predicate that is declared: its number and its arity.
#[derive(Clone, Copy, Debug, PartialEq, Eq)]
pub struct KnownSymbol {
    pub pred: u32,
    pub arity: u8,
}

/// The predicates that are declared, at most 512, numbered in this order.
#[derive(Drop, Debug)]
pub struct Symbols {
    entries: IndexMap<Vec<u8>, u8>,
    ghost few: { length entries.entries ≤ 512 },
}

impl Symbols {
    ghost use Rattle.tv_names.specs.Copies.{symbols_of};

    /// No predicates.
    pub fn new(alloc: Global) -> Symbols
        ensures { symbols_of result ≡ [] }
    {
        Symbols {
            entries: IndexMap::new(alloc),
        }
    }

    /// How many predicates there are.
    pub fn len(&self) -> usize
        ensures { result ≡ length (symbols_of self.now) }
    {
        self.entries.len()
    }

    /// The predicate of this name.
    pub fn find(&self, name: &[u8]) -> Option<KnownSymbol>
        ensures { option_map (λ k. record { pred = k.pred; arity = k.arity }) result
            ≡ symbol_of name.now (symbols_of self.now) }
    {
        match self.entries.get_full(name) {
            Some((number, _, arity)) => Some(KnownSymbol {
                pred: number as u32,
                arity: *arity,
            }),
            None => None,
        }
    }

    /// Declares a predicate behind the others.
    pub fn declare(&mut self, name: Vec<u8>, arity: u8) -> Result<(), AllocError>
        requires new { symbol_of name.items (symbols_of self.old) ≡ None }
        requires room { length (symbols_of self.old) < 512 }
        ensures { OnOk result
            (symbols_of self.new ≡ symbols_of self.old ++ record { name = name.items; arity = arity } ∷ []) }
    {
        self.entries.insert(name, arity)?;
        Ok(())
    }
}
