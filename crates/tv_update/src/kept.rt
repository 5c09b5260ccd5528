//! Choices of the individuals that stay.

ghost use Rattle.std.specs.Prelude.{◌≡◌, ◌≤◌, ◌++◌, ◌∷◌, [], length, map, All, IfOk, IsTrue, OnOk};
ghost use Rattle.tv_kleene.specs.declared.K3.TheVariants.{Yes};
ghost use Rattle.tv_structure_form.specs.Halves.{row_halves};
ghost use Rattle.tv_update.specs.Kept.{flag_choices};

use std::alloc::{AllocError, Global};
use tv_kleene::K3;
use tv_model::Items;

/// A flag for each individual: whether it stays.
pub type StayFlags = Items<bool>;

/// Which individuals stay.
#[derive(Debug, Drop)]
pub enum Staying {
    /// All do: the structure stays whole.
    Whole,
    /// By these values of the retain formula, individual by individual.
    By(Vec<K3>),
}

/// How many of the values are `Half`.
pub fn halves(values: &[K3]) -> u32
    requires { length values.now ≤ 256 }
    ensures count { result ≡ row_halves values.now }
    ensures few { result ≤ length values.now }
{
    match values {
        [] => 0,
        [K3::Half, later @ ..] => halves(later) + 1,
        [_, later @ ..] => halves(later),
    }
}

/// Puts behind the others all choices that begin with the flags `begun` and go on by these values.
#[cycle(push_choices)]
fn push_choices(
    alloc: Global,
    values: &[K3],
    begun: &mut Vec<bool>,
    out: &mut Vec<StayFlags>,
) -> Result<(), AllocError>
    ensures out { OnOk result (out.new.items
        ≡ out.old.items ++ map (λ later. begun.old.items ++ later) (flag_choices values.now)) }
    ensures begun { OnOk result (begun.new.items ≡ begun.old.items) }
{
    match values {
        [] => {
            out.push(StayFlags::from_vec(Vec::from_slice(alloc, begun.as_slice())?))?;
            Ok(())
        }
        [K3::No, later @ ..] => push_with(alloc, false, later, begun, out),
        [K3::Yes, later @ ..] => push_with(alloc, true, later, begun, out),
        [K3::Half, later @ ..] => {
            push_with(alloc, false, later, begun, out)?;
            push_with(alloc, true, later, begun, out)
        }
    }
}

/// Puts behind the others all choices that begin with `begun`, have this flag next, and go on so.
#[cycle(push_choices)]
fn push_with(
    alloc: Global,
    stays: bool,
    later: &[K3],
    begun: &mut Vec<bool>,
    out: &mut Vec<StayFlags>,
) -> Result<(), AllocError>
    ensures out { OnOk result (out.new.items ≡ out.old.items ++ map (λ flags. begun.old.items ++ flags)
        (map (λ flags. stays ∷ flags) (flag_choices later.now))) }
    ensures begun { OnOk result (begun.new.items ≡ begun.old.items) }
{
    begun.push(stays)?;
    push_choices(alloc, later, begun, out)?;
    let _ = begun.pop();
    Ok(())
}

/// True only where all individuals stay.
fn are_yes(values: &[K3]) -> bool
    ensures { IsTrue result → All (λ k. k ≡ Yes) values.now }
{
    for k in values {
        if *k != K3::Yes {
            return false;
        }
    }
    true
}

/// The choices of the individuals that stay, by the values of the retain formula: `Yes` stays and
/// `No` is dropped; at `Half` either may be, dropped before kept. They come in the lexicographic
/// order of the individuals.
pub fn choices(alloc: Global, values: &[K3]) -> Result<Vec<StayFlags>, AllocError>
    ensures { IfOk result (λ choices. choices.items ≡ flag_choices values.now) }
{
    let mut out = Vec::new(alloc);
    if are_yes(values) {
        out.push(StayFlags::from_vec(vec![in alloc; true; values.len()]?))?;
        return Ok(out);
    }
    let mut begun = Vec::new(alloc);
    push_choices(alloc, values, &mut begun, &mut out)?;
    Ok(out)
}
