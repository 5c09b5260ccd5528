//! Where each individual may go as far as it alone is concerned.

ghost use Rattle.std.specs.Prelude.{◌≡◌, ◌≢◌, ◌<◌, ◌+◌, ◌++◌, [], ◌∷◌, is_ok, if◌then◌else◌, ℕ, length, IfOk};
ghost use Rattle.std.specs.Prelude.{IfNone, IfSome, OnOk, slice_index_or};
ghost use Rattle.tv_kleene.specs.declared.K3.TheVariants.{No};
ghost use Rattle.tv_kleene.specs.Kleene.{LiesUnder};
ghost use Rattle.tv_structure_form.specs.StructureForm.{arities_of};
ghost use Rattle.tv_embed.specs.Search.{AllowsAll, AreCandidates, AreAllCandidates, HasNoneWith};

use crate::fits::is_candidate;
use std::alloc::{AllocError, Global};
use tv_kleene::K3;
use tv_model::PredId;
use tv_row::Row;
use tv_struct::{Numbers, Structure, Tuple};

/// The candidates of each individual of `small`, in ascending order; nothing where one of them has none, so
/// that there is no embedding.
pub fn all_candidates(
    alloc: Global,
    small: &Structure,
    large: &Structure,
) -> Result<Option<Vec<Numbers>>, AllocError>
    requires { arities_of small.now ≡ arities_of large.now }
    ensures some { IfOk result (λ found. IfSome found
        (λ lists. AreAllCandidates small.now large.now small.now.size lists.items)) }
    ensures none { IfOk result (λ found. IfNone found (HasNoneWith small.now large.now [])) }
{
    let size = small.size();
    let mut lists = Vec::with_capacity(alloc, size as usize)?;
    for u in 0..size {
        let list = candidates(alloc, small, large, u)?;
        if list.as_slice().is_empty() {
            return Ok(None);
        }
        lists.push(list)?;
    }
    Ok(Some(lists))
}

/// Not `No` where `k` lies under the value.
fn over(k: K3, values: Row) -> Row
    ensures long { length result ≡ length values }
    ensures over { (w : ℕ) → w < length values → LiesUnder k (slice_index_or values w No)
        → slice_index_or result w No ≢ No }
{
    match k {
        K3::No => values.not(),
        K3::Half => values.and(&values.not()),
        K3::Yes => values,
    }
}

/// Rules out the individuals of `large` whose value of the predicate doesn't lie over that of `u`, where it
/// is unary.
fn narrow(allowed: &mut Row, small: &Structure, large: &Structure, u: u32, p: PredId)
    requires vocabulary { arities_of small.now ≡ arities_of large.now }
    requires individual { u < small.now.size }
    requires pred { p.0 < length (arities_of small.now) }
    requires allowed { AllowsAll small.now large.now u allowed.old }
    ensures { AllowsAll small.now large.now u allowed.new }
{
    if small.arity(p) != 1 {
        return;
    }
    let above = over(small.get(p, Tuple::One(u)), large.unary_row(p));
    *allowed = allowed.and(&above);
}

/// Among so few individuals each is looked at by itself.
const FEW: u32 = 16;

/// `No` at individuals of `large` that `u` can't go to by the values of unary predicates, where there are
/// many.
fn allowed(small: &Structure, large: &Structure, u: u32) -> Row
    requires vocabulary { arities_of small.now ≡ arities_of large.now }
    requires individual { u < small.now.size }
    ensures { AllowsAll small.now large.now u result }
{
    let mut allowed = Row::of(large.size(), K3::Yes);
    if large.size() <= FEW {
        return allowed;
    }
    for p in 0..small.pred_count() {
        narrow(&mut allowed, small, large, u, PredId(p));
    }
    allowed
}

fn candidates(
    alloc: Global,
    small: &Structure,
    large: &Structure,
    u: u32,
) -> Result<Numbers, AllocError>
    requires vocabulary { arities_of small.now ≡ arities_of large.now }
    requires individual { u < small.now.size }
    ensures { IfOk result (AreCandidates small.now large.now u large.now.size) }
{
    let _ = large.size();
    let allowed = allowed(small, large, u);
    let mut list = Numbers::new(alloc);
    let mut from = 0;
    while let Some(w) = allowed.next_possible(from) {
        push_candidate(&mut list, small, large, u, w)?;
        from = w + 1;
    }
    Ok(list)
}

fn push_candidate(
    list: &mut Numbers,
    small: &Structure,
    large: &Structure,
    u: u32,
    w: u32,
) -> Result<(), AllocError>
    requires vocabulary { arities_of small.now ≡ arities_of large.now }
    requires individual { u < small.now.size }
    requires image { w < large.now.size }
    requires so_far { AreCandidates small.now large.now u w list.old }
    ensures { OnOk result (AreCandidates small.now large.now u (w + 1) list.new) }
{
    if is_candidate(small, large, u, w) {
        list.push(w)?;
    }
    Ok(())
}
