//! Coerce in a step.

ghost use Rattle.std.specs.Prelude.{◌≡◌, [], ◌∷◌, length, All, IfOk, IsTrue, OnOk};
ghost use Rattle.tv_coerce.specs.RuleSets.{IsStableBut};
ghost use Rattle.tv_rules.specs.EntryForms.{rules_of};
ghost use Rattle.tv_structure_form.specs.StructureForm.{IsOver};
ghost use Rattle.tv_step_laws.specs.Parts.{AreFrom};
ghost use Rattle.tv_step_laws.specs.Shaped.{IsShaped};
ghost use Rattle.tv_step.specs.Changed.{DiffersWithin, IsFew};
ghost use Rattle.tv_step.specs.Ending.{Becomes, IsEndOf};
ghost use Rattle.tv_step.specs.Redefined.{IsMetBy};
ghost use Rattle.tv_step.specs.Setting.{form_in, IsReadyToStep, IsStableIn};
ghost use Rattle.tv_step.specs.Steps.{Adds};

use crate::changed::{Parent, waiting_in};
use crate::setting::Setting;
use std::alloc::AllocError;
use tv_blur::{into_blurred, is_blurred};
use tv_coerce::{RuleSet, coerce_in_place};
use tv_eval::Scratch;
use tv_struct::{Structure, Structures};

/// What is done with a coerced structure.
#[derive(Clone, Copy, Debug, PartialEq, Eq)]
pub enum Ending {
    /// Nothing: the step goes on with it.
    Open,
    /// It is blurred: the step ends.
    Blurred,
}

/// Blurs a coerced structure where the step ends with it; where the step goes on, it stays as it is.
fn finish(x: &Setting, ending: Ending, t: Structure) -> Result<Structure, AllocError>
    requires { IsOver x.now.program.now.vocab t }
    ensures { IfOk result (IsEndOf ending x.now.program.now t) }
{
    match ending {
        Ending::Open => Ok(t),
        Ending::Blurred => into_blurred(x.alloc, &x.program.vocab, t),
    }
}

/// Coerces and finishes a structure in its own memory, and puts it behind the others, or drops it. Only the
/// rules that wait may be unmet.
fn coerce_one(
    x: &Setting,
    ending: Ending,
    waiting: RuleSet,
    s: Structure,
    scratch: &mut Scratch,
    out: &mut Structures,
) -> Result<(), AllocError>
    requires ready { IsReadyToStep x.now scratch.old }
    requires shaped { IsShaped (form_in x.now) s }
    requires count { length waiting ≡ length (rules_of x.now.closed.now) }
    requires rest { IsStableBut (rules_of x.now.closed.now) waiting s }
    ensures out { OnOk result (Adds (Becomes ending (form_in x.now)) s out.old out.new) }
    ensures scratch { scratch.new ≡ scratch.old }
{
    let _ = s.size();
    match coerce_in_place(x.alloc, x.closed, s, waiting, scratch)? {
        None => Ok(()),
        Some(t) => out.push(finish(x, ending, t)?),
    }
}

/// Coerces a structure where rules may be unmet in it, finishes it, and puts it behind the others. None is
/// tried where none is told.
fn coerce_if_unmet(
    x: &Setting,
    ending: Ending,
    found: Option<RuleSet>,
    s: Structure,
    scratch: &mut Scratch,
    out: &mut Structures,
) -> Result<(), AllocError>
    requires ready { IsReadyToStep x.now scratch.old }
    requires shaped { IsShaped (form_in x.now) s }
    requires few { IsFew (form_in x.now) (rules_of x.now.closed.now) s found }
    ensures out { OnOk result (Adds (Becomes ending (form_in x.now)) s out.old out.new) }
    ensures scratch { scratch.new ≡ scratch.old }
{
    match found {
        None => out.push(finish(x, ending, s)?),
        Some(few) => coerce_one(x, ending, few, s, scratch, out),
    }
}

/// The only structure of a list, and the list without it, which keeps its memory.
#[inline(always)]
fn take_only(structures: Structures) -> (Structure, Structures)
    requires { length structures ≡ 1 }
    ensures one { structures ≡ result.0 ∷ [] }
    ensures none { result.1 ≡ [] }
{
    let mut items = structures.into_vec();
    match items.pop() {
        Some(s) => (s, Structures::from_vec(items)),
        None => unreachable!(),
    }
}

/// Whether a coerced structure is what finishing would make of it.
fn is_finished(x: &Setting, ending: Ending, t: &Structure) -> bool
    requires { IsOver x.now.program.now.vocab t.now }
    ensures { IsTrue result → IsEndOf ending x.now.program.now t.now t.now }
{
    let _ = t.size();
    match ending {
        Ending::Open => true,
        Ending::Blurred => is_blurred(&x.program.vocab, t),
    }
}

/// Coerces and finishes the only structure of a list, and puts it back into the list's memory.
#[inline(never)]
fn replace_only(
    x: &Setting,
    ending: Ending,
    found: Option<RuleSet>,
    structures: Structures,
    scratch: &mut Scratch,
    out: &mut Structures,
) -> Result<(), AllocError>
    requires ready { IsReadyToStep x.now scratch.old }
    requires shaped { All (IsShaped (form_in x.now)) structures }
    requires few { All (λ s. IsFew (form_in x.now) (rules_of x.now.closed.now) s found) structures }
    requires one { length structures ≡ 1 }
    requires none { length out.old ≡ 0 }
    ensures out { OnOk result (Adds (AreFrom (Becomes ending (form_in x.now))) structures out.old out.new) }
    ensures scratch { scratch.new ≡ scratch.old }
{
    let (s, mut own) = take_only(structures);
    coerce_if_unmet(x, ending, found, s, scratch, &mut own)?;
    *out = own;
    Ok(())
}

/// Coerces and finishes the only structure of a list, and hands the list on. Nothing is done where nothing
/// is left to do.
#[inline(always)]
fn coerce_only(
    x: &Setting,
    ending: Ending,
    found: Option<RuleSet>,
    structures: Structures,
    scratch: &mut Scratch,
    out: &mut Structures,
) -> Result<(), AllocError>
    requires ready { IsReadyToStep x.now scratch.old }
    requires shaped { All (IsShaped (form_in x.now)) structures }
    requires few { All (λ s. IsFew (form_in x.now) (rules_of x.now.closed.now) s found) structures }
    requires one { length structures ≡ 1 }
    requires none { length out.old ≡ 0 }
    ensures out { OnOk result (Adds (AreFrom (Becomes ending (form_in x.now))) structures out.old out.new) }
    ensures scratch { scratch.new ≡ scratch.old }
{
    if found.is_none() && is_finished(x, ending, &structures.as_slice()[0]) {
        *out = structures;
        return Ok(());
    }
    replace_only(x, ending, found, structures, scratch, out)
}

/// Coerces and finishes structures that came of a stable one. Each goes as soon as it is coerced.
#[inline(never)]
fn coerce_each(
    x: &Setting,
    ending: Ending,
    waiting: &RuleSet,
    parent: &Parent<'_>,
    structures: Structures,
    scratch: &mut Scratch,
    out: &mut Structures,
) -> Result<(), AllocError>
    requires ready { IsReadyToStep x.now scratch.old }
    requires like { IsShaped (form_in x.now) parent.now.from.now }
    requires from { IsStableIn (form_in x.now) parent.now.from.now }
    requires shaped { All (IsShaped (form_in x.now)) structures }
    requires within { All (DiffersWithin parent.now.reach parent.now.from.now) structures }
    requires count { length waiting.now ≡ length (rules_of x.now.closed.now) }
    requires rest { All (IsStableBut (rules_of x.now.closed.now) waiting.now) structures }
    requires met { All (IsMetBy parent.now.redefined (rules_of x.now.closed.now)) structures }
    ensures out { OnOk result (Adds (AreFrom (Becomes ending (form_in x.now))) structures out.old out.new) }
    ensures scratch { scratch.new ≡ scratch.old }
{
    for s in structures.into_vec() {
        let few = waiting_in(x, waiting, parent, &s)?;
        coerce_if_unmet(x, ending, few, s, scratch, out)?;
    }
    Ok(())
}

/// Coerces and finishes the structures that came of a stable one, and puts them behind the others. Where no
/// value differs no rule is tried, and where a structure is over the same individuals and summaries only the
/// rules about a predicate whose values differ.
pub fn coerce_all(
    x: &Setting,
    ending: Ending,
    waiting: &RuleSet,
    parent: &Parent<'_>,
    structures: Structures,
    scratch: &mut Scratch,
    out: &mut Structures,
) -> Result<(), AllocError>
    requires ready { IsReadyToStep x.now scratch.old }
    requires like { IsShaped (form_in x.now) parent.now.from.now }
    requires from { IsStableIn (form_in x.now) parent.now.from.now }
    requires shaped { All (IsShaped (form_in x.now)) structures }
    requires within { All (DiffersWithin parent.now.reach parent.now.from.now) structures }
    requires count { length waiting.now ≡ length (rules_of x.now.closed.now) }
    requires rest { All (IsStableBut (rules_of x.now.closed.now) waiting.now) structures }
    requires met { All (IsMetBy parent.now.redefined (rules_of x.now.closed.now)) structures }
    ensures out { OnOk result (Adds (AreFrom (Becomes ending (form_in x.now))) structures out.old out.new) }
    ensures scratch { scratch.new ≡ scratch.old }
{
    if out.len() == 0 && structures.len() == 1 {
        let found = waiting_in(x, waiting, parent, &structures.as_slice()[0])?;
        return coerce_only(x, ending, found, structures, scratch, out);
    }
    coerce_each(x, ending, waiting, parent, structures, scratch, out)
}
