//! Deltas of connectives and quantifiers over what was formed of their parts.

ghost use Rattle.std.specs.Prelude.{◌≡◌, Option, Some};
ghost use Rattle.tv_model.specs.Form.{form_of};
ghost use Rattle.tv_delta_laws.specs.Deltas.{Delta as DeltaForm, unchanged, negated, both, either, some};
ghost use Rattle.tv_delta_laws.specs.Deltas.{every};
ghost use Rattle.tv_delta_form.specs.Views.{GivesFormed, delta_form};
ghost use Rattle.tv_delta.specs.Quantified.{quantified, quantified_by};

use std::alloc::Global;
use tv_delta_form::{
    Delta, Stop, alike, both, choice, either, every, negated, share, some, unchanged,
};
use tv_model::{Binding, Formula, Var};

/// A formula that the step leaves as it is.
#[inline(never)]
#[tactic(auto, using(tv_delta_form::proofs::Steps::memory_fails))]
pub fn still(alloc: Global, f: &Formula) -> Result<Delta, Stop>
    ensures { GivesFormed delta_form result (unchanged (form_of f.now)) }
{
    let g = share(alloc, f)?;
    Ok(unchanged(alloc, g)?)
}

/// The negation.
#[inline(never)]
#[tactic(auto, using(tv_delta_form::proofs::DeltaSteps::not_stops))]
pub fn not_with(alloc: Global, d: Result<Delta, Stop>) -> Result<Delta, Stop>
    ensures { (o : Option DeltaForm) → GivesFormed delta_form d o
        → GivesFormed delta_form result (negated o) }
{
    match d {
        Err(stop) => Err(stop),
        Ok(d) => negated(alloc, &d),
    }
}

/// That some individual makes it true.
#[inline(never)]
#[tactic(auto, using(tv_delta_form::proofs::DeltaSteps::some_stops))]
pub fn some_with(alloc: Global, v: Var, d: Result<Delta, Stop>) -> Result<Delta, Stop>
    ensures { (o : Option DeltaForm) → GivesFormed delta_form d o
        → GivesFormed delta_form result (some v.0 o) }
{
    match d {
        Err(stop) => Err(stop),
        Ok(d) => some(alloc, v, &d),
    }
}

/// That every individual makes it true.
#[inline(never)]
#[tactic(auto, using(tv_delta_form::proofs::DeltaSteps::every_stops))]
pub fn every_with(alloc: Global, v: Var, d: Result<Delta, Stop>) -> Result<Delta, Stop>
    ensures { (o : Option DeltaForm) → GivesFormed delta_form d o
        → GivesFormed delta_form result (every v.0 o) }
{
    match d {
        Err(stop) => Err(stop),
        Ok(d) => every(alloc, v, &d),
    }
}

/// The quantifier over what was formed of its body.
fn binding_with(alloc: Global, binding: Binding, d: Result<Delta, Stop>) -> Result<Delta, Stop>
    ensures { (o : Option DeltaForm) → GivesFormed delta_form d o
        → GivesFormed delta_form result (quantified binding o) }
{
    match binding {
        Binding::Exists(v) => some_with(alloc, v, d),
        Binding::Forall(v) => every_with(alloc, v, d),
    }
}

/// The quantifiers, of which the first comes to stand outermost, over what was formed of their body.
#[inline(never)]
#[tactic(auto, using(crate::proofs::QuantifiedLaws::quantified_last))]
pub fn bound_with(
    alloc: Global,
    mut bindings: Vec<Binding>,
    d: Result<Delta, Stop>,
) -> Result<Delta, Stop>
    ensures { (o : Option DeltaForm) → GivesFormed delta_form d o
        → GivesFormed delta_form result (quantified_by bindings.items o) }
{
    let mut whole = d;
    while let Some(binding) = bindings.pop() {
        whole = binding_with(alloc, binding, whole);
    }
    whole
}

/// The conjunction.
#[inline(never)]
#[tactic(auto, using(tv_delta_form::proofs::DeltaSteps::and_stops_second))]
pub fn and_with(alloc: Global, d: Delta, e: Result<Delta, Stop>) -> Result<Delta, Stop>
    ensures { (o p : Option DeltaForm) → o ≡ Some (delta_form d) → GivesFormed delta_form e p
        → GivesFormed delta_form result (both o p) }
{
    match e {
        Err(stop) => Err(stop),
        Ok(e) => both(alloc, &d, &e),
    }
}

/// The disjunction.
#[inline(never)]
#[tactic(auto, using(tv_delta_form::proofs::DeltaSteps::or_stops_second))]
pub fn or_with(alloc: Global, d: Delta, e: Result<Delta, Stop>) -> Result<Delta, Stop>
    ensures { (o p : Option DeltaForm) → o ≡ Some (delta_form d) → GivesFormed delta_form e p
        → GivesFormed delta_form result (either o p) }
{
    match e {
        Err(stop) => Err(stop),
        Ok(e) => either(alloc, &d, &e),
    }
}

/// The equivalence.
#[inline(never)]
#[tactic(auto, using(tv_delta_form::proofs::DeltaSteps::alike_stops_second))]
pub fn iff_with(alloc: Global, d: Delta, e: Result<Delta, Stop>) -> Result<Delta, Stop>
    ensures { (o p : Option DeltaForm) → o ≡ Some (delta_form d) → GivesFormed delta_form e p
        → GivesFormed delta_form result (both (either (negated o) p) (either (negated p) o)) }
{
    match e {
        Err(stop) => Err(stop),
        Ok(e) => alike(alloc, &d, &e),
    }
}

/// The conditional.
#[inline(never)]
#[tactic(auto, using(tv_delta_form::proofs::DeltaSteps::choice_stops_third))]
pub fn cond_with(alloc: Global, b: Delta, d: Delta, e: Result<Delta, Stop>) -> Result<Delta, Stop>
    ensures { (c o p : Option DeltaForm) → c ≡ Some (delta_form b) → o ≡ Some (delta_form d)
        → GivesFormed delta_form e p
        → GivesFormed delta_form result (either (both c o) (both (negated c) p)) }
{
    match e {
        Err(stop) => Err(stop),
        Ok(e) => choice(alloc, &b, &d, &e),
    }
}
