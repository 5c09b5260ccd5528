//! What is known of a structure once an individual has its vectors.

ghost use Rattle.std.specs.Prelude.{[], ◌∷◌, ◌++◌, ◌<◌, ◌≤◌, ◌+◌, ◌≡◌, IfOk, length};
ghost use Rattle.tv_focus.specs.Seen.{aim_of};
ghost use Rattle.tv_focus_walk.specs.Walk.{CanWalk, Foretells, IsHand, IsReady, Sharpens};

use crate::apart::is_one_apart;
use crate::fits::{Test, does_pass};
use crate::lent::Lent;
use crate::since::{Since, put_noted, rules_since};
use crate::split::{put_all, with_copies, with_shift};
use crate::walk::{Hand, Walk};
use std::alloc::AllocError;
use tv_coerce::coerce_in_place;
use tv_eval::Scratch;
use tv_focus::{Aim, Sets, Vector};
use tv_focus_step_laws::vectors_lead;
use tv_kleene::K3;
use tv_struct::Structure;

/// A structure that leads to some choices once an individual has its vectors, the aim among its individuals,
/// and what was done to it since it was stable.
#[derive(Drop)]
pub struct Given {
    pub structure: Structure,
    pub aim: Aim,
    pub since: Since,
}

/// What is known of the choices that give an individual a set.
#[derive(Drop)]
pub enum Outlook {
    /// None has a stable structure below.
    Nothing,
    /// The set is of one vector, and what led to them does so still.
    Same,
    /// This leads to them.
    Next(Given),
}

/// So many choices that are left are worth a coerce.
const WORTH: usize = 4;

/// Whether the sets have so many choices that a coerce which may refute them pays.
fn are_many(sets: &[Sets], count: usize) -> bool {
    if count >= WORTH {
        return true;
    }
    match sets {
        [] => false,
        [first, rest @ ..] => are_many(rest, count * first.as_slice().len().min(WORTH)),
    }
}

/// Whether one of the values is `Yes`.
fn has_yes(values: &[K3]) -> bool {
    match values {
        [] => false,
        [K3::Yes, ..] => true,
        [_, rest @ ..] => has_yes(rest),
    }
}

/// What is known where the structure has the vectors of the last of the sets `begun` and `set`: what coerce
/// makes of it, where that is worth it.
fn narrowed(
    w: &Walk,
    begun: &[Lent<'_>],
    set: &[Vector],
    given: Given,
    is_worth: bool,
    scratch: &mut Scratch,
) -> Result<Outlook, AllocError>
    requires can { CanWalk w.now scratch.old }
    requires ready { IsReady w.now (begun.now ++ set.now ∷ []) given.structure
        (aim_of given.aim) given.since }
    ensures outlook { IfOk result (Sharpens w.now (begun.now ++ set.now ∷ []) given.structure) }
    ensures scratch { scratch.new ≡ scratch.old }
{
    if !is_worth {
        return Ok(Outlook::Next(given));
    }
    let waiting = rules_since(w, given.since)?;
    match coerce_in_place(w.alloc, w.closed, given.structure, waiting, scratch)? {
        None => Ok(Outlook::Nothing),
        Some(structure) => Ok(Outlook::Next(Given {
            structure,
            aim: given.aim,
            since: Since::nothing(),
        })),
    }
}

/// What is known of the choices that begin with `begun` and give the next individual this vector alone, and
/// later ones one of `rest` each.
fn look_at_one(
    w: &Walk,
    hand: Hand<'_>,
    begun: &[Lent<'_>],
    set: &[Vector],
    vector: &Vector,
    rest: &[Sets],
    scratch: &mut Scratch,
) -> Result<Outlook, AllocError>
    requires can { CanWalk w.now scratch.old }
    requires hand { IsHand w.now begun.now hand }
    requires place { length begun.now < w.now.from.now.size }
    requires one { set.now ≡ vector.now ∷ [] }
    ensures outlook { IfOk result (Foretells w.now begun.now set.now hand.entry.structure.now) }
    ensures scratch { scratch.new ≡ scratch.old }
{
    let c = hand.structure;
    let _ = c.size();
    if does_pass(Test::Same, c, w.choosing.pred, hand.aim, hand.at, vector) {
        return Ok(Outlook::Same);
    }
    vectors_lead();
    let aim = with_shift(w, c, hand.aim, hand.at, 0)?;
    let mut structure = c.copy(w.alloc)?;
    let since = put_noted(w, &mut structure, hand.aim, hand.at, vector, hand.since);
    let given = Given {
        structure,
        aim,
        since,
    };
    // a value `No` seldom forces others: coerce waits for the next `Yes`
    let is_worth = has_yes(vector.as_slice()) && are_many(rest, 1);
    narrowed(w, begun, set, given, is_worth, scratch)
}

/// The same, where they give it several vectors.
fn look_at_several(
    w: &Walk,
    hand: Hand<'_>,
    begun: &[Lent<'_>],
    set: &[Vector],
    rest: &[Sets],
    scratch: &mut Scratch,
) -> Result<Outlook, AllocError>
    requires can { CanWalk w.now scratch.old }
    requires hand { IsHand w.now begun.now hand }
    requires place { length begun.now < w.now.from.now.size }
    requires several { 1 < length set.now }
    requires few { hand.structure.now.size + length set.now ≤ 257 }
    ensures outlook { IfOk result (Foretells w.now begun.now set.now hand.entry.structure.now) }
    ensures scratch { scratch.new ≡ scratch.old }
{
    let c = hand.structure;
    let _ = c.size();
    if !c.summary(hand.at) {
        return Ok(Outlook::Nothing);
    }
    vectors_lead();
    let count = set.len() as u32;
    let aim = with_shift(w, c, hand.aim, hand.at, count - 1)?;
    let mut structure = with_copies(w.alloc, c, hand.at, count)?;
    let since = put_all(
        w,
        &mut structure,
        &aim,
        hand.at,
        set,
        hand.since.with_copies(),
    );
    let given = Given {
        structure,
        aim,
        since,
    };
    narrowed(w, begun, set, given, are_many(rest, 1), scratch)
}

/// What is known of the choices that begin with `begun` and give the next individual this set, and later ones
/// one of `rest` each.
pub fn look_ahead(
    w: &Walk,
    hand: Hand<'_>,
    begun: &[Lent<'_>],
    set: &[Vector],
    rest: &[Sets],
    scratch: &mut Scratch,
) -> Result<Outlook, AllocError>
    requires can { CanWalk w.now scratch.old }
    requires hand { IsHand w.now begun.now hand }
    requires place { length begun.now < w.now.from.now.size }
    requires some { 1 ≤ length set.now }
    requires few { hand.structure.now.size + length set.now ≤ 257 }
    ensures outlook { IfOk result (Foretells w.now begun.now set.now hand.entry.structure.now) }
    ensures scratch { scratch.new ≡ scratch.old }
{
    let _ = hand.structure.size();
    if is_one_apart(hand.structure, w.choosing.pred, hand.aim, hand.at, set) {
        return Ok(Outlook::Nothing);
    }
    match set {
        [vector] => look_at_one(w, hand, begun, set, vector, rest, scratch),
        _ => look_at_several(w, hand, begun, set, rest, scratch),
    }
}
