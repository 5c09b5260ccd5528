//! What is written of individuals, made once.

ghost use Rattle.std.specs.Prelude.{◌≡◌, ◌++◌, ◌+◌, ◌<◌, ◌≤◌, IfOk, map, length, codes, if◌then◌else◌};
ghost use Rattle.std.specs.List.{range_with_len};
ghost use Rattle.tv_tvs.specs.Canonical.{individual};
ghost use Rattle.tv_tvs.specs.Rows.{IsPlaced, listed_name, pair_prefix};

use crate::draft::Draft;
use crate::short::{ShortText, unknown};
use itoa::Buffer;
use std::alloc::{AllocError, Global};
use std::marker::Model;

/// The name of an individual with the text behind it.
fn name_with(draft: &mut Draft, u: u32, end: &ShortText) -> Result<ShortText, AllocError>
    requires individual { u < 256 }
    requires end { length end.now ≤ 4 }
    ensures { IfOk result (λ text. text ≡ individual u ++ end.now) }
{
    let mut digits = Buffer::new();
    draft.clear();
    draft.put_bytes(b"i")?;
    draft.put_bytes(digits.format(u).as_bytes())?;
    draft.put(end)?;
    Ok(ShortText::of(draft.as_slice()))
}

/// The names of 256 individuals, each with the text behind it.
fn all_with(alloc: Global, draft: &mut Draft, end: &ShortText) -> Result<Vec<ShortText>, AllocError>
    requires { length end.now ≤ 4 }
    ensures { IfOk result
        (λ texts. texts.items ≡ map (λ u. individual u ++ end.now) (range_with_len 0 256)) }
{
    let mut texts = Vec::with_capacity(alloc, 256)?;
    for u in 0..256 {
        let text = name_with(draft, u, end)?;
        texts.push(text)?;
    }
    Ok(texts)
}

/// What is written of each of 256 individuals at an item's end, and at the front of a pair.
#[derive(Debug, Drop)]
pub(crate) struct Individuals {
    lasts: Vec<ShortText>,
    firsts: Vec<ShortText>,
}

impl Model for Individuals {
    ghost use Rattle.std.specs.Prelude.{ℕ, List, ◌≡◌, map};
    ghost use Rattle.std.specs.List.{range_with_len};
    ghost use Rattle.tv_tvs.specs.Rows.{listed_name, pair_prefix};

    ghost Value = { List (List ℕ) };

    ghost view = { λ t. t.lasts.items };

    ghost invariant = { λ t. (t.lasts.items ≡ map listed_name (range_with_len 0 256))
        × (t.firsts.items ≡ map pair_prefix (range_with_len 0 256)) };
}

impl Individuals {
    /// All that is written of them, put together in the draft.
    pub fn new(alloc: Global, draft: &mut Draft) -> Result<Individuals, AllocError> {
        let lasts = all_with(alloc, draft, &ShortText::of(b", "))?;
        let firsts = all_with(alloc, draft, &ShortText::of(b"->"))?;
        Ok(Individuals { lasts, firsts })
    }

    /// What stands for an individual at the end of an item.
    #[inline(always)]
    pub fn last(&self, u: u32) -> &ShortText
        requires { u < 256 }
        ensures { result.now ≡ listed_name u }
    {
        let lasts = self.lasts.as_slice();
        &lasts[u as usize]
    }

    /// What stands for an individual in front of the second one of a pair.
    #[inline(always)]
    pub fn first(&self, u: u32) -> &ShortText
        requires { u < 256 }
        ensures { result.now ≡ pair_prefix u }
    {
        let firsts = self.firsts.as_slice();
        &firsts[u as usize]
    }

    /// Puts down what stands for an individual at the end of an item, as `ShortText::place` does, with its
    /// value unless that is known to be 1.
    #[inline(always)]
    pub fn place_last(&self, room: &mut [u8], at: usize, u: u32, known: bool) -> usize
        requires individual { u < 256 }
        requires room { at + 16 ≤ length room.old }
        ensures placed { IsPlaced room.old room.new at
            (if known then listed_name u else (individual u ++ codes ":1/2, ")) result }
        ensures short { result ≤ at + 16 }
    {
        let end = self.last(u).place(room, at);
        if known {
            end
        } else {
            unknown().place(room, end - 2)
        }
    }
}
