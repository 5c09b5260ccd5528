//! Individuals split into a copy for each vector of a set.

ghost use Rattle.std.specs.Prelude.{◌≡◌, ◌<◌, ◌≤◌, ◌+◌, ◌-◌, ◌++◌, length, map, replicate, All, IfOk, OnOk};
ghost use Rattle.tv_focus.specs.Anchored.{IsAimOver};
ghost use Rattle.tv_focus.specs.Puts.{set_writes};
ghost use Rattle.tv_focus.specs.Seen.{aim_of};
ghost use Rattle.tv_focus_laws.specs.Written.{written};
ghost use Rattle.tv_focus_step_laws.specs.Above.{parts_at};
ghost use Rattle.tv_structure_form.specs.StructureForm.{IsStructure, arities_of, split};
ghost use Rattle.tv_focus_walk.specs.Walk.{ArePlain, IsSplittable, KeepsRest, shifted_aim, shifted_by};
ghost use Rattle.tv_focus_walk.specs.Walk.{walk_pred};

use crate::since::{Since, put_noted};
use crate::walk::Walk;
use std::alloc::{AllocError, Global};
use tv_focus::{Aim, Vector};
use tv_struct::Structure;

/// Puts so many ones behind the others.
fn push_ones(parts: &mut Vec<u32>, count: u32) -> Result<(), AllocError>
    ensures { OnOk result (parts.new.items ≡ parts.old.items ++ replicate count 1) }
{
    if count == 0 {
        return Ok(());
    }
    parts.push(1)?;
    push_ones(parts, count - 1)
}

/// The structure in which the individual `at` stands so often.
pub fn with_copies(
    alloc: Global,
    c: &Structure,
    at: u32,
    count: u32,
) -> Result<Structure, AllocError>
    requires { IsSplittable c.now at count }
    ensures value { IfOk result (λ t. t ≡ split c.now (parts_at at count (c.now.size - at - 1))) }
    ensures over { IfOk result (λ t. arities_of t ≡ arities_of c.now) }
    ensures kept { IfOk result IsStructure }
{
    let _ = c.size();
    let mut parts = Vec::new(alloc);
    push_ones(&mut parts, at)?;
    parts.push(count)?;
    push_ones(&mut parts, c.size() - at - 1)?;
    c.split(alloc, parts.as_slice())
}

/// The number of the individual `a` where the individual `at` has so many copies more.
fn shifted_by(a: u32, at: u32, more: u32) -> u32
    requires few { more ≤ 256 }
    requires place { a < 256 }
    ensures { result ≡ shifted_by at more a }
{
    if a <= at { a } else { a + more }
}

/// The anchors where the individual `at` has so many copies more.
fn shifted(alloc: Global, anchors: &[u32], at: u32, more: u32) -> Result<Vec<u32>, AllocError>
    requires few { more ≤ 256 }
    requires anchors { All (λ a. a < 256) anchors.now }
    ensures { IfOk result (λ out. out.items ≡ map (shifted_by at more) anchors.now) }
{
    let mut out = Vec::new(alloc);
    for a in anchors {
        out.push(shifted_by(*a, at, more))?;
    }
    Ok(out)
}

/// The aim where the individual `at` has so many copies more.
pub fn with_shift(w: &Walk, c: &Structure, aim: &Aim, at: u32, more: u32) -> Result<Aim, AllocError>
    requires aim { IsAimOver c.now (walk_pred w.now) (aim_of aim.now) }
    requires few { more ≤ 256 }
    ensures { IfOk result (λ out. aim_of out ≡ shifted_aim at more (aim_of aim.now)) }
{
    let _ = c.size();
    match aim {
        Aim::Alone => Ok(Aim::Alone),
        Aim::Before(anchors) => Ok(Aim::Before(shifted(w.alloc, anchors.as_slice(), at, more)?)),
        Aim::Behind(anchors) => Ok(Aim::Behind(shifted(w.alloc, anchors.as_slice(), at, more)?)),
    }
}

/// Puts the vectors' values at the copies from `at` on, and tells what was done in all.
pub fn put_all(
    w: &Walk,
    t: &mut Structure,
    aim: &Aim,
    at: u32,
    set: &[Vector],
    since: Since,
) -> Since
    requires plain { ArePlain w.now }
    requires table { IsStructure t.old }
    requires aim { IsAimOver t.old (walk_pred w.now) (aim_of aim.now) }
    requires copies { at + length set.now ≤ t.old.size }
    ensures value { t.new ≡ written t.old (walk_pred w.now) (set_writes (aim_of aim.now) at set.now) }
    ensures over { arities_of t.new ≡ arities_of t.old }
    ensures size { t.new.size ≡ t.old.size }
    ensures kept { IsStructure t.new }
    ensures rest { KeepsRest w.now since t.old result t.new }
{
    let _ = t.size();
    match set {
        [] => since,
        [vector, rest @ ..] => {
            let since = put_noted(w, t, aim, at, vector, since);
            put_all(w, t, aim, at + 1, rest, since)
        }
    }
}
