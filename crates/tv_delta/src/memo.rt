//! What is known of atoms: their deltas, found by a hash.

ghost use Rattle.std.specs.Prelude.{◌≡◌, Bool, List, Contains, IfSome, IsTrue, option_map};
ghost use Rattle.tv_model.specs.Form.{vars_of};
ghost use Rattle.tv_delta_form.specs.Views.{GivesFormed, delta_form};
ghost use Rattle.tv_delta.specs.Opening.{atom_at, AreKnown, AreKnownAt, IsOf};
ghost use Rattle.tv_delta.specs.declared.opening.Opening.{Opening};
ghost use Rattle.tv_model.specs.declared.program.Action.{Action};
ghost use Rattle.tv_model.specs.declared.program.Program.{Program};

use std::alloc::{AllocError, Global};
use std::collections::HashMap;
use tv_delta_form::{Delta, Stop};
use tv_model::{PredId, Terms};

/// The delta of an atom for an update with these own variables, or none where it isn't formed.
#[derive(Debug, Drop)]
pub struct Entry {
    pub own: Terms,
    pub pred: PredId,
    pub args: Terms,
    pub delta: Option<Delta>,
}

/// The variables of an atom.
#[derive(Clone, Copy, Debug, PartialEq, Eq, Hash)]
enum Places {
    Zero,
    One(u8),
    Two(u8, u8),
}

/// By what an entry is found.
#[derive(Clone, Copy, Debug, PartialEq, Eq, Hash)]
struct Key {
    own: Places,
    pred: u32,
    args: Places,
}

/// The entries for an action, and the place of each.
#[derive(Drop)]
pub struct Memo {
    pub entries: Vec<Entry>,
    places: HashMap<Key, usize>,
}

fn places_of(terms: Terms) -> Places {
    match terms {
        Terms::Zero => Places::Zero,
        Terms::One(v) => Places::One(v.0),
        Terms::Two(v, w) => Places::Two(v.0, w.0),
    }
}

fn key_of(own: Terms, pred: PredId, args: Terms) -> Key {
    Key {
        own: places_of(own),
        pred: pred.0,
        args: places_of(args),
    }
}

/// Nothing is known.
pub fn empty(alloc: Global) -> Memo
    ensures { (program : Program) (action : Action) (affected : List Bool)
        → AreKnown program action affected result.entries.items }
{
    Memo {
        entries: Vec::new(alloc),
        places: HashMap::new(alloc),
    }
}

/// Whether both have the same variables.
fn same_terms(a: &Terms, b: &Terms) -> bool
    ensures { IsTrue result → vars_of a.now ≡ vars_of b.now }
{
    match (a, b) {
        (Terms::Zero, Terms::Zero) => true,
        (Terms::One(v), Terms::One(w)) => v.0 == w.0,
        (Terms::Two(v, x), Terms::Two(w, y)) => v.0 == w.0 && x.0 == y.0,
        _ => false,
    }
}

/// Whether the entry is of this atom.
fn is_of(e: &Entry, own: &Terms, pred: PredId, args: &Terms) -> bool
    ensures { IsTrue result → IsOf e.now (vars_of own.now) pred.0 (vars_of args.now) }
{
    e.pred.0 == pred.0 && same_terms(&e.own, own) && same_terms(&e.args, args)
}

#[tactic(auto, using(crate::proofs::Known::in_list))]
fn entry_at(entries: &[Entry], place: usize) -> Option<&Entry>
    ensures { IfSome result (λ e. Contains entries.now e.now) }
{
    entries.get(place)
}

/// The entry of the atom, if there is one.
pub fn entry_of(memo: &Memo, own: Terms, pred: PredId, args: Terms) -> Option<&Entry>
    ensures { IfSome result (λ e. Contains memo.now.entries.items e.now
        × IsOf e.now (vars_of own) pred.0 (vars_of args)) }
{
    let place = memo.places.get(&key_of(own, pred, args)).copied()?;
    let e = entry_at(memo.entries.as_slice(), place)?;
    if is_of(e, &own, pred, &args) {
        Some(e)
    } else {
        None
    }
}

/// The delta of the entry.
#[tactic(auto, using(tv_delta_form::proofs::Steps::memory_fails))]
pub fn delta_in(e: &Entry) -> Result<Delta, Stop>
    ensures { GivesFormed delta_form result (option_map delta_form e.now.delta) }
{
    match &e.delta {
        None => Err(Stop::Unformed),
        Some(d) => Ok(tv_delta_form::again(d)?),
    }
}

/// One entry more.
#[tactic(auto, using(crate::proofs::Known::known_more))]
pub fn remember(memo: &mut Memo, e: Entry) -> Result<(), AllocError>
    ensures { (o : Opening) → vars_of o.own ≡ vars_of e.own → AreKnownAt o memo.old.entries.items
        → atom_at o e.pred.0 (vars_of e.args) ≡ option_map delta_form e.delta
        → AreKnownAt o memo.new.entries.items }
{
    let key = key_of(e.own, e.pred, e.args);
    memo.places.insert(key, memo.entries.len())?;
    memo.entries.push(e)?;
    Ok(())
}
