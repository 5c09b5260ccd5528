//! The walk.

ghost use Rattle.std.specs.Prelude.{[], ◌∷◌, ◌++◌, ◌+◌, ◌≡◌, ◌≤◌, All, length, IfOk, OnOk};
ghost use Rattle.std.specs.List.{flat_map, AllByRecursion};
ghost use Rattle.tv_focus.specs.Anchored.{IsAimOver};
ghost use Rattle.tv_focus.specs.Focused.{tables_in};
ghost use Rattle.tv_focus.specs.Puts.{AreChosen, IsChoiceOf, chosen_tables};
ghost use Rattle.tv_focus_walk.specs.Walk.{AddsCoerced, CanWalk, IsAbove, IsHand, walk_aim, walk_pred};
ghost use Rattle.tv_focus_walk.specs.Walk.{walk_table};

use crate::fits::has_choice;
use crate::lent::{Lent, owned};
use crate::narrow::{Outlook, look_ahead};
use crate::since::{Since, rules_since};
use std::alloc::{AllocError, Global};
use tv_coerce::{RuleSet, coerce_in_place};
use tv_eval::Scratch;
use tv_focus::{Aim, Choosing, Sets, Vector, VectorSet, make_choice};
use tv_focus_step_laws::structures_lead;
use tv_model::Program;
use tv_rules::Closed;
use tv_struct::{Structure, Structures};

/// The choices of a stable structure, with the closed rules of its program, and those of them that a choice
/// may leave unmet.
#[derive(Clone, Copy)]
pub struct Walk<'a> {
    pub alloc: Global,
    pub program: &'a Program,
    pub closed: &'a Closed,
    pub waiting: &'a RuleSet,
    pub from: &'a Structure,
    pub choosing: &'a Choosing,
}

/// A structure at hand, which leads to some choices that begin with the same sets: the aim among its
/// individuals, the number of the next one that is given a set, and what was done since it was stable.
#[derive(Clone, Copy)]
pub struct Hand<'a> {
    pub structure: &'a Structure,
    pub aim: &'a Aim,
    pub at: u32,
    pub since: Since,
}

/// Puts the greatest stable structure below the one at hand behind the others, if there is one.
fn push_hand(
    w: &Walk,
    hand: Hand<'_>,
    choice: &[Lent<'_>],
    scratch: &mut Scratch,
    out: &mut Structures,
) -> Result<(), AllocError>
    requires can { CanWalk w.now scratch.old }
    requires hand { IsHand w.now choice.now hand }
    ensures out { OnOk result (AddsCoerced w.now (hand.entry.structure.now ∷ []) out.old out.new) }
    ensures scratch { scratch.new ≡ scratch.old }
{
    let t = hand.structure.copy(w.alloc)?;
    if hand.since.is_nothing() {
        return out.push(t);
    }
    let waiting = rules_since(w, hand.since)?;
    match coerce_in_place(w.alloc, w.closed, t, waiting, scratch)? {
        None => Ok(()),
        Some(t) => out.push(t),
    }
}

/// The structure of the choice.
fn made(w: &Walk, choice: &[Lent<'_>]) -> Result<Structure, AllocError>
    requires over { IsAimOver w.now.from.now (walk_pred w.now) (walk_aim w.now) }
    requires choice { IsChoiceOf w.now.from.now (walk_pred w.now) (walk_aim w.now) choice.now }
    ensures { IfOk result (λ t. t ≡ walk_table w.now choice.now) }
{
    let own = owned(w.alloc, choice)?;
    let choosing = w.choosing;
    let sets = own.as_slice();
    make_choice(w.alloc, w.from, choosing.pred, &choosing.aim, sets)
}

/// Puts the greatest stable structure below the choice behind the others, if there is one.
fn push_made(
    w: &Walk,
    choice: &[Lent<'_>],
    scratch: &mut Scratch,
    out: &mut Structures,
) -> Result<(), AllocError>
    requires can { CanWalk w.now scratch.old }
    requires choice { IsChoiceOf w.now.from.now (walk_pred w.now) (walk_aim w.now) choice.now }
    ensures out { OnOk result (AddsCoerced w.now (walk_table w.now choice.now ∷ []) out.old out.new) }
    ensures scratch { scratch.new ≡ scratch.old }
{
    let t = made(w, choice)?;
    let waiting = w.waiting.copy(w.alloc)?;
    match coerce_in_place(w.alloc, w.closed, t, waiting, scratch)? {
        None => Ok(()),
        Some(t) => out.push(t),
    }
}

/// The same, where the structure at hand leads to the choice: it takes the choice's place where it has its
/// vectors.
fn push_choice(
    w: &Walk,
    hand: Hand<'_>,
    choice: &[Lent<'_>],
    scratch: &mut Scratch,
    out: &mut Structures,
) -> Result<(), AllocError>
    requires can { CanWalk w.now scratch.old }
    requires hand { IsHand w.now choice.now hand }
    requires places { length choice.now ≡ w.now.from.now.size }
    requires above { IsAbove w.now choice.now hand.structure.now choice.now }
    ensures out { OnOk result (AddsCoerced w.now (walk_table w.now choice.now ∷ []) out.old out.new) }
    ensures scratch { scratch.new ≡ scratch.old }
{
    if has_choice(hand.structure, w.choosing.pred, hand.aim, 0, choice) {
        push_hand(w, hand, choice, scratch, out)
    } else {
        push_made(w, choice, scratch, out)
    }
}

/// Puts what comes of all choices that begin with `choice` and go on with one set of each of `sets` behind
/// the others. The structure at hand leads to each of them.
#[cycle(walk_sets)]
fn walk_sets<'a>(
    w: &Walk,
    hand: Hand<'_>,
    sets: &'a [Sets],
    choice: &mut Vec<Lent<'a>>,
    scratch: &mut Scratch,
    out: &mut Structures,
) -> Result<(), AllocError>
    requires can { CanWalk w.now scratch.old }
    requires hand { IsHand w.now choice.old.items hand }
    requires places { length choice.old.items + length sets.now ≡ w.now.from.now.size }
    requires some { All (λ those. 1 ≤ length those) sets.now }
    requires choices { AreChosen
        (IsAbove w.now choice.old.items hand.structure.now) choice.old.items sets.now }
    ensures out { OnOk result (AddsCoerced w.now
        (chosen_tables (walk_table w.now) choice.old.items sets.now) out.old out.new) }
    ensures choice { OnOk result (choice.new.items ≡ choice.old.items) }
    ensures scratch { scratch.new ≡ scratch.old }
{
    match sets {
        [] => push_choice(w, hand, choice.as_slice(), scratch, out),
        [first, rest @ ..] => walk_one(w, hand, first.as_slice(), rest, choice, scratch, out),
    }
}

/// The same, for those that go on with one of `first` and one of each of `rest`.
#[cycle(walk_sets)]
fn walk_one<'a>(
    w: &Walk,
    hand: Hand<'_>,
    first: &'a [VectorSet],
    rest: &'a [Sets],
    choice: &mut Vec<Lent<'a>>,
    scratch: &mut Scratch,
    out: &mut Structures,
) -> Result<(), AllocError>
    requires can { CanWalk w.now scratch.old }
    requires hand { IsHand w.now choice.old.items hand }
    requires places { length choice.old.items + (length rest.now + 1) ≡ w.now.from.now.size }
    requires some { All (λ those. 1 ≤ length those) rest.now }
    requires choices { AllByRecursion
        (λ set. AreChosen (IsAbove w.now choice.old.items hand.structure.now)
        (choice.old.items ++ set ∷ []) rest.now) first.now }
    ensures out { OnOk result (AddsCoerced w.now
        (flat_map (λ set. chosen_tables (walk_table w.now) (choice.old.items ++ set ∷ []) rest.now) first.now)
        out.old out.new) }
    ensures choice { OnOk result (choice.new.items ≡ choice.old.items) }
    ensures scratch { scratch.new ≡ scratch.old }
{
    match first {
        [] => Ok(()),
        [set, later @ ..] => {
            walk_with(w, hand, set.as_slice(), rest, choice, scratch, out)?;
            walk_one(w, hand, later, rest, choice, scratch, out)?;
            Ok(())
        }
    }
}

/// The same, for those that go on with this set and one of each of `rest`: nothing, where it contradicts what
/// was known.
#[cycle(walk_sets)]
fn walk_with<'a>(
    w: &Walk,
    hand: Hand<'_>,
    set: &'a [Vector],
    rest: &'a [Sets],
    choice: &mut Vec<Lent<'a>>,
    scratch: &mut Scratch,
    out: &mut Structures,
) -> Result<(), AllocError>
    requires can { CanWalk w.now scratch.old }
    requires hand { IsHand w.now choice.old.items hand }
    requires places { length choice.old.items + (length rest.now + 1) ≡ w.now.from.now.size }
    requires some { All (λ those. 1 ≤ length those) rest.now }
    requires choices { AreChosen (IsAbove w.now choice.old.items hand.structure.now)
        (choice.old.items ++ set.now ∷ []) rest.now }
    ensures out { OnOk result (AddsCoerced w.now
        (chosen_tables (walk_table w.now) (choice.old.items ++ set.now ∷ []) rest.now) out.old out.new) }
    ensures choice { OnOk result (choice.new.items ≡ choice.old.items) }
    ensures scratch { scratch.new ≡ scratch.old }
{
    let at = hand.at + set.len() as u32;
    match look_ahead(w, hand, choice.as_slice(), set, rest, scratch)? {
        Outlook::Nothing => Ok(()),
        Outlook::Same => {
            let hand = Hand {
                structure: hand.structure,
                aim: hand.aim,
                at,
                since: hand.since,
            };
            walk_on(w, hand, set, rest, choice, scratch, out)
        }
        Outlook::Next(given) => {
            let hand = Hand {
                structure: &given.structure,
                aim: &given.aim,
                at,
                since: given.since,
            };
            walk_on(w, hand, set, rest, choice, scratch, out)
        }
    }
}

/// The same, where the structure at hand leads to each of them with this set.
#[cycle(walk_sets)]
fn walk_on<'a>(
    w: &Walk,
    hand: Hand<'_>,
    set: &'a [Vector],
    rest: &'a [Sets],
    choice: &mut Vec<Lent<'a>>,
    scratch: &mut Scratch,
    out: &mut Structures,
) -> Result<(), AllocError>
    requires can { CanWalk w.now scratch.old }
    requires hand { IsHand w.now (choice.old.items ++ set.now ∷ []) hand }
    requires places { length choice.old.items + (length rest.now + 1) ≡ w.now.from.now.size }
    requires some { All (λ those. 1 ≤ length those) rest.now }
    requires choices { AreChosen (IsAbove w.now (choice.old.items ++ set.now ∷ []) hand.structure.now)
        (choice.old.items ++ set.now ∷ []) rest.now }
    ensures out { OnOk result (AddsCoerced w.now
        (chosen_tables (walk_table w.now) (choice.old.items ++ set.now ∷ []) rest.now) out.old out.new) }
    ensures choice { OnOk result (choice.new.items ≡ choice.old.items) }
    ensures scratch { scratch.new ≡ scratch.old }
{
    choice.push(Lent::of(set))?;
    walk_sets(w, hand, rest, choice, scratch, out)?;
    let _ = choice.pop();
    Ok(())
}

/// Puts the greatest stable structure below each choice behind the others, in the choices' order, and nothing
/// for a choice below which there is none. The only error is lack of memory.
pub fn walk_choices(w: &Walk, scratch: &mut Scratch, out: &mut Structures) -> Result<(), AllocError>
    requires can { CanWalk w.now scratch.old }
    ensures out { OnOk result
        (AddsCoerced w.now (tables_in w.now.from.now w.now.choosing.now) out.old out.new) }
    ensures scratch { scratch.new ≡ scratch.old }
{
    structures_lead();
    let _ = w.from.size();
    let mut choice = Vec::new(w.alloc);
    let hand = Hand {
        structure: w.from,
        aim: &w.choosing.aim,
        at: 0,
        since: Since::nothing(),
    };
    walk_sets(
        w,
        hand,
        w.choosing.sets.as_slice(),
        &mut choice,
        scratch,
        out,
    )
}
