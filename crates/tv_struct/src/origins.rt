//! Which individuals of a structure those of a further one come from.

ghost use Rattle.std.specs.Prelude.{◌≡◌, ◌<◌, ◌≤◌, ◌+◌, ◌++◌, ◌^◌, length, IfOk, OnErr, OnOk, sum, take};
ghost use Rattle.std.specs.Prelude.{replicate, [], ◌∷◌, if◌then◌else◌};
ghost use Rattle.std.specs.List.{range_with_len};
ghost use Rattle.tv_structure_form.specs.StructureForm.{kept_from, copies_from};

use std::alloc::{AllocError, Global};

/// The individuals from 0 to `size`.
#[tactic(auto, using(tv_lemmas::proofs::Lists::range_more))]
pub fn all_and_next(alloc: Global, size: u32) -> Result<Vec<u32>, AllocError>
    requires { size ≤ 255 }
    ensures items { IfOk result (λ origins. origins.items ≡ range_with_len 0 (size + 1)) }
    ensures count { IfOk result (λ origins. length origins.items ≡ size + 1) }
{
    let mut origins = Vec::with_capacity(alloc, size as usize + 1)?;
    for u in 0..size + 1 {
        origins.push(u)?;
    }
    Ok(origins)
}

/// The individuals whose flag is true, in order.
#[tactic(auto, using(tv_structure_form::proofs::OriginLaws::kept_from_more))]
pub fn kept(alloc: Global, keep: &[bool]) -> Result<Vec<u32>, AllocError>
    requires { length keep.now ≤ 256 }
    ensures items { IfOk result (λ origins. origins.items ≡ kept_from 0 keep.now) }
    ensures count { IfOk result (λ origins. length origins.items ≤ length keep.now) }
{
    let mut origins = Vec::with_capacity(alloc, keep.len())?;
    for (u, is_kept) in keep.iter().enumerate() {
        push_if(&mut origins, u as u32, *is_kept)?;
    }
    Ok(origins)
}

fn push_if(origins: &mut Vec<u32>, u: u32, is_kept: bool) -> Result<(), AllocError>
    ensures { OnOk result (origins.new.items ≡ origins.old.items ++ (if is_kept then u ∷ [] else [])) }
{
    if is_kept {
        origins.push(u)?;
    }
    Ok(())
}

/// Each individual as often as its part says.
#[tactic(auto, using(tv_structure_form::proofs::OriginLaws::copies_from_more))]
pub fn copies(alloc: Global, parts: &[u32]) -> Result<Vec<u32>, AllocError>
    requires { length parts.now ≤ 256 }
    ensures items { IfOk result (λ origins. origins.items ≡ copies_from 0 parts.now) }
    ensures count { IfOk result (λ origins. length origins.items ≡ sum parts.now) }
{
    let mut origins = Vec::with_capacity(alloc, parts.len() + 1)?;
    for (u, part) in parts.iter().enumerate() {
        push_copies(&mut origins, u as u32, *part)?;
    }
    Ok(origins)
}

fn push_copies(origins: &mut Vec<u32>, u: u32, part: u32) -> Result<(), AllocError>
    ensures { OnOk result (origins.new.items ≡ origins.old.items ++ replicate part u) }
{
    for _ in 0..part {
        origins.push(u)?;
    }
    Ok(())
}

/// How many copies these parts make: the number of the first copy of the individual behind them.
pub fn total(parts: &[u32]) -> u32
    requires { sum parts.now ≤ 256 }
    ensures { result ≡ sum parts.now }
{
    parts.iter().sum()
}
