//! The structures of the choices.

ghost use Rattle.std.specs.Prelude.{◌≡◌, ◌<◌, ◌≤◌, ◌+◌, ◌++◌, [], ◌∷◌, length, map, take, sum, Some, All};
ghost use Rattle.std.specs.Prelude.{Contains, IfOk, IfSome, IsTrue, OnOk, slice_get, slice_index};
ghost use Rattle.std.specs.List.{flat_map, AllByRecursion};
ghost use Rattle.tv_structure_form.specs.StructureForm.{IsStructure, arities_of, split, structure_of};
ghost use Rattle.tv_focus_laws.specs.Written.{chosen_table};
ghost use Rattle.tv_focus_laws.specs.Tables.{parts_of};
ghost use Rattle.tv_focus.specs.Anchored.{IsAimOver};
ghost use Rattle.tv_focus.specs.Puts.{copies_in, aim_in, AreAimsWithin, IsChoiceOf, AreChosen, chosen_tables};
ghost use Rattle.tv_focus.specs.Seen.{aim_of};

use crate::aim::Aim;
use crate::put::put_choice;
use crate::sets::{Sets, VectorSet, copied};
use crate::vector::Vector;
use std::alloc::{AllocError, Global};
use tv_model::PredId;
use tv_struct::{Structure, Structures};

/// The number of the first copy of the individual `a`.
fn copy_at(choice: &[VectorSet], a: u32) -> u32
    requires individual { a < length choice.now }
    requires few { copies_in choice.now ≤ 256 }
    ensures { result ≡ sum (take a (parts_of choice.now)) }
{
    match choice {
        [] => 0,
        [set, rest @ ..] => {
            if a == 0 {
                0
            } else {
                set.len() as u32 + copy_at(rest, a - 1)
            }
        }
    }
}

/// The numbers of the anchors' copies.
fn copies_of(alloc: Global, choice: &[VectorSet], anchors: &[u32]) -> Result<Vec<u32>, AllocError>
    requires anchors { All (λ a. a < length choice.now) anchors.now }
    requires few { copies_in choice.now ≤ 256 }
    ensures { IfOk result
        (λ copies. copies.items ≡ map (λ a. sum (take a (parts_of choice.now))) anchors.now) }
{
    let mut copies = Vec::new(alloc);
    for a in anchors {
        copies.push(copy_at(choice, *a))?;
    }
    Ok(copies)
}

/// The aim among the copies.
fn aim_among(alloc: Global, choice: &[VectorSet], aim: &Aim) -> Result<Aim, AllocError>
    requires aim { AreAimsWithin (length choice.now) (aim_of aim.now) }
    requires few { copies_in choice.now ≤ 256 }
    ensures { IfOk result (λ among. aim_of among ≡ aim_in choice.now (aim_of aim.now)) }
{
    match aim {
        Aim::Alone => Ok(Aim::Alone),
        Aim::Before(anchors) => Ok(Aim::Before(copies_of(alloc, choice, anchors.as_slice())?)),
        Aim::Behind(anchors) => Ok(Aim::Behind(copies_of(alloc, choice, anchors.as_slice())?)),
    }
}

/// Puts behind the others how many copies each individual has.
#[tactic(auto, using(crate::proofs::Puts::copies_more))]
fn push_parts(parts: &mut Vec<u32>, choice: &[VectorSet]) -> Result<(), AllocError>
    requires { copies_in choice.now ≤ 256 }
    ensures { OnOk result (parts.new.items ≡ parts.old.items ++ parts_of choice.now) }
{
    match choice {
        [] => Ok(()),
        [set, rest @ ..] => {
            parts.push(set.len() as u32)?;
            push_parts(parts, rest)
        }
    }
}

/// Whether each individual is split into one.
fn are_once(parts: &[u32]) -> bool
    ensures { IsTrue result → AllByRecursion (λ part. part ≡ 1) parts.now }
{
    match parts {
        [] => true,
        [part, rest @ ..] => *part == 1 && are_once(rest),
    }
}

/// The structure in which each individual stands as often as its part says: a copy where each stands once.
fn split_by(alloc: Global, s: &Structure, parts: &[u32]) -> Result<Structure, AllocError>
    requires individuals { length parts.now ≡ s.now.size }
    requires each { All (λ part. 1 ≤ part) parts.now }
    requires total { sum parts.now ≤ 256 }
    requires fresh_once { IfSome s.now.fresh (λ u. slice_index parts.now u ≡ 1) }
    ensures value { IfOk result (λ t. t ≡ split s.now parts.now) }
    ensures over { IfOk result (λ t. arities_of t ≡ arities_of s.now) }
    ensures kept { IfOk result IsStructure }
{
    let _ = s.size();
    if are_once(parts) {
        return s.copy(alloc);
    }
    s.split(alloc, parts)
}

/// The structure of a choice.
#[inline(never)]
pub fn make_choice(
    alloc: Global,
    s: &Structure,
    p: PredId,
    aim: &Aim,
    choice: &[VectorSet],
) -> Result<Structure, AllocError>
    requires aim { IsAimOver s.now p.0 (aim_of aim.now) }
    requires choice { IsChoiceOf s.now p.0 (aim_of aim.now) choice.now }
    ensures { IfOk result (λ t. t ≡ chosen_table s.now p.0 (aim_of aim.now) choice.now) }
{
    let _ = s.size();
    let mut parts = Vec::new(alloc);
    push_parts(&mut parts, choice)?;
    let among = aim_among(alloc, choice, aim)?;
    let mut t = split_by(alloc, s, parts.as_slice())?;
    put_choice(&mut t, p, &among, 0, choice);
    Ok(t)
}

/// Puts the structures of all choices that begin with `choice` and go on with one set of each of `sets`.
#[cycle(choose)]
pub fn choose(
    alloc: Global,
    s: &Structure,
    p: PredId,
    aim: &Aim,
    sets: &[Sets],
    choice: &mut Vec<VectorSet>,
    out: &mut Structures,
) -> Result<(), AllocError>
    requires aim { IsAimOver s.now p.0 (aim_of aim.now) }
    requires choices { AreChosen (IsChoiceOf s.now p.0 (aim_of aim.now)) choice.old.items sets.now }
    ensures out { OnOk result (out.new
        ≡ out.old ++ chosen_tables (chosen_table s.now p.0 (aim_of aim.now)) choice.old.items sets.now) }
    ensures choice { OnOk result (choice.new.items ≡ choice.old.items) }
{
    match sets {
        [] => out.push(make_choice(alloc, s, p, aim, choice.as_slice())?),
        [first, rest @ ..] => choose_one(alloc, s, p, aim, first.as_slice(), rest, choice, out),
    }
}

/// Puts the structures of the choices that go on with one of `first` and one of each of `rest`.
#[cycle(choose)]
#[tactic(auto, using(crate::proofs::ChosenTables::one_more))]
fn choose_one(
    alloc: Global,
    s: &Structure,
    p: PredId,
    aim: &Aim,
    first: &[VectorSet],
    rest: &[Sets],
    choice: &mut Vec<VectorSet>,
    out: &mut Structures,
) -> Result<(), AllocError>
    requires aim { IsAimOver s.now p.0 (aim_of aim.now) }
    requires choices { AllByRecursion
        (λ set. AreChosen (IsChoiceOf s.now p.0 (aim_of aim.now))
        (choice.old.items ++ set ∷ []) rest.now) first.now }
    ensures out { OnOk result (out.new ≡ out.old ++ flat_map
        (λ set. chosen_tables (chosen_table s.now p.0 (aim_of aim.now))
        (choice.old.items ++ set ∷ []) rest.now) first.now) }
    ensures choice { OnOk result (choice.new.items ≡ choice.old.items) }
{
    match first {
        [] => Ok(()),
        [set, later @ ..] => {
            choose_with(alloc, s, p, aim, set.as_slice(), rest, choice, out)?;
            choose_one(alloc, s, p, aim, later, rest, choice, out)?;
            Ok(())
        }
    }
}

/// Puts the structures of the choices that go on with this set and one of each of `rest`.
#[cycle(choose)]
fn choose_with(
    alloc: Global,
    s: &Structure,
    p: PredId,
    aim: &Aim,
    set: &[Vector],
    rest: &[Sets],
    choice: &mut Vec<VectorSet>,
    out: &mut Structures,
) -> Result<(), AllocError>
    requires aim { IsAimOver s.now p.0 (aim_of aim.now) }
    requires choices { AreChosen (IsChoiceOf s.now p.0 (aim_of aim.now))
        (choice.old.items ++ set.now ∷ []) rest.now }
    ensures out { OnOk result (out.new
        ≡ out.old ++ chosen_tables (chosen_table s.now p.0 (aim_of aim.now))
        (choice.old.items ++ set.now ∷ []) rest.now) }
    ensures choice { OnOk result (choice.new.items ≡ choice.old.items) }
{
    choice.push(copied(alloc, set)?)?;
    choose(alloc, s, p, aim, rest, choice, out)?;
    let _ = choice.pop();
    Ok(())
}
