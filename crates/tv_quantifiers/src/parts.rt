//! Values of quantified formulas that are kept as they are found: they depend on free variables alone.

ghost use Rattle.std.specs.Prelude.{ℕ, ◌≡◌, ◌<◌, ◌≤◌, ◌+◌, ◌*◌, ◌%◌, length, slice_index_or, slice_set};
ghost use Rattle.std.specs.Prelude.{IfSome, IsTrue};
ghost use Rattle.std.specs.Prelude.{Some};
ghost use Rattle.tv_kleene.specs.declared.K3.TheVariants.{No};
ghost use Rattle.tv_model.specs.Form.{form_of, IsFree};
ghost use Rattle.tv_model.specs.Truth.{Assignment, put};
ghost use Rattle.tv_embedding_laws.specs.LogicalStructure.{LogicalStructure};
ghost use Rattle.tv_eval_laws.specs.Value.{value};
ghost use Rattle.tv_quantifiers.specs.Parts.{HoldsPart, HoldsParts, StandsAt};

use crate::edges::is_same;
use tv_kleene::K3;
use tv_model::{Formula, Var, free};
use tv_row::Word;

/// How many words of values are kept, at most.
const PLACES: usize = 8;

/// For how many quantified formulas one is long: values of no other are kept. Over more than 64 individuals
/// one that asks for another at each of them, for two words of its own, is long.
const LONG: usize = 128;

/// Whose values stand at a place: the formula's for the individuals from `64 * chunk` on, put for `var`.
#[derive(Clone, Copy)]
pub struct Held<'f> {
    formula: &'f Formula,
    var: Var,
    chunk: u32,
}

/// Values of quantified formulas, kept by what their only free variable stands for, as far as they are known.
/// The oldest make room for new ones.
#[derive(Drop)]
pub struct Parts<'f> {
    parts: [Option<Held<'f>>; 8],
    known: [Word; 8],
    values: [Word; 8],
    next: usize,
    turns: usize,
}

impl<'f> Parts<'f> {
    /// Nothing is kept.
    pub fn new() -> Parts<'f>
        ensures { (s : LogicalStructure) → HoldsParts s result }
    {
        Parts {
            parts: [None; 8],
            known: [Word::of(64, K3::No); 8],
            values: [Word::of(64, K3::No); 8],
            next: 0,
            turns: 0,
        }
    }

    /// Counts a quantified formula that is asked for: how many there were by then.
    #[inline(always)]
    pub fn turn(&mut self) -> usize
        ensures { (s : LogicalStructure) → HoldsParts s self.old → HoldsParts s self.new }
    {
        self.turns = self.turns.saturating_add(1);
        self.turns
    }

    /// Whether there were many since then: a hint, of which nothing is promised.
    #[inline(always)]
    pub fn took_long(&mut self, since: usize) -> bool
        ensures { self.new ≡ self.old }
    {
        self.turns.saturating_sub(since) >= LONG
    }

    /// By which variable values of the formula are kept, if some are: a hint, of which nothing is promised.
    pub fn variable(&mut self, f: &Formula) -> Option<Var>
        ensures { self.new ≡ self.old }
    {
        let parts = &mut self.parts[..];
        for k in 0..PLACES {
            match parts[k] {
                None => return None,
                Some(part) => {
                    if is_same(part.formula, f) {
                        return Some(part.var);
                    }
                }
            }
        }
        None
    }

    /// The value of the formula with `u` put for `v`, if it is kept.
    pub fn value(&mut self, f: &Formula, v: Var, u: u32) -> Option<K3>
        ensures value { IfSome result (λ x. (s : LogicalStructure) (a : Assignment) → HoldsParts s self.old
            → value s (put a v.0 u) (form_of f.now) ≡ x) }
        ensures same { self.new ≡ self.old }
    {
        let k = place(&mut self.parts[..], f, v, u / 64)?;
        let known = &mut self.known[..];
        if known[k].get(u % 64) != K3::Yes {
            return None;
        }
        let values = &mut self.values[..];
        Some(values[k].get(u % 64))
    }

    /// Keeps the value of the formula with `u` put for `v`, whatever the other variables stand for.
    pub fn keep(&mut self, f: &'f Formula, v: Var, u: u32, x: K3)
        ensures { (s : LogicalStructure) → HoldsParts s self.old
            → ((a : Assignment) → value s (put a v.0 u) (form_of f.now) ≡ x) → HoldsParts s self.new }
    {
        let part = Held {
            formula: f,
            var: v,
            chunk: u / 64,
        };
        match place(&mut self.parts[..], f, v, u / 64) {
            None => {
                let none = Word::of(64, K3::No);
                let place = self.next % PLACES;
                self.next = place + 1;
                self.put(
                    place,
                    part,
                    none.with(u % 64, K3::Yes),
                    none.with(u % 64, x),
                );
            }
            Some(place) => {
                let known = &mut self.known[..];
                let known = known[place].with(u % 64, K3::Yes);
                let values = &mut self.values[..];
                let values = values[place].with(u % 64, x);
                self.put(place, part, known, values);
            }
        }
    }

    /// Puts values in a place.
    fn put(&mut self, place: usize, part: Held<'f>, known: Word, values: Word)
        requires { place < 8 }
        ensures { (s : LogicalStructure) → HoldsParts s self.old → HoldsPart s part.entry known values
            → HoldsParts s self.new }
    {
        let all = &mut self.parts[..];
        all[place] = Some(part);
        let all = &mut self.known[..];
        all[place] = known;
        let all = &mut self.values[..];
        all[place] = values;
    }
}

/// Where values of the formula stand for individuals of that chunk, put for `v`.
fn place(parts: &mut [Option<Held<'_>>], f: &Formula, v: Var, chunk: u32) -> Option<usize>
    ensures place { IfSome result (λ k. (k < length parts.old)
        × StandsAt parts.old k (form_of f.now) v.0 chunk) }
    ensures same { parts.new ≡ parts.old }
{
    for k in 0..parts.len() {
        match parts[k] {
            None => return None,
            Some(part) => {
                if part.var.0 == v.0 && part.chunk == chunk && is_same(part.formula, f) {
                    return Some(k);
                }
            }
        }
    }
    None
}

/// The only variable that is free in the formula, one behind all where there is none; none where there are
/// more.
pub fn lone(f: &Formula) -> Option<Var>
    ensures { IfSome result (λ x. (v : ℕ) → v < 32 → IsFree v (form_of f.now) → v ≡ x.0) }
{
    let mut found = 32;
    for v in 0..32 {
        if free(f, Var(v)) {
            if found != 32 {
                return None;
            }
            found = v;
        }
    }
    Some(Var(found))
}
