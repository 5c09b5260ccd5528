//! Joined rows of merged individuals.

ghost use Rattle.std.specs.Prelude.{◌≡◌, ◌<◌, ◌≤◌, ℕ, [], ◌∷◌, length, All, slice_index_or, slice_set};
ghost use Rattle.tv_kleene.specs.declared.K3.TheVariants.{No};
ghost use Rattle.tv_structure_form.specs.StructureForm.{value_at};
ghost use Rattle.tv_struct.specs.StructureRows.{HasArity};
ghost use Rattle.tv_blur.specs.Classes.{IsAmongMembers, class_at};
ghost use Rattle.tv_blur.specs.Merged.{IsJoin};

use crate::class::Class;
use tv_kleene::K3;
use tv_model::PredId;
use tv_row::Row;
use tv_struct::Structure;

/// For each individual, the join of the values of the binary predicate `p` at the pairs of a member and
/// that individual.
pub fn joined_rows(s: &Structure, p: PredId, members: &Class) -> Row
    requires arity { HasArity s.now p.0 2 }
    requires some { 0 < length members.now }
    requires within { All (λ u. u < s.now.size) members.now }
    ensures length { length result ≡ s.now.size }
    ensures values { (v : ℕ) → v < s.now.size
        → IsJoin (IsAmongMembers (λ u j. value_at s.now p.0 (u ∷ v ∷ []) ≡ j) members.now)
        (slice_index_or result v No) }
{
    let mut joined = s.row(p, members.first());
    let others = members.others();
    for i in 0..others.len() {
        joined = joined.join(&s.row(p, others[i]));
    }
    joined
}

/// The join of the row's values at the members.
#[inline(always)]
fn value_of(row: &Row, members: &Class) -> K3
    requires some { 0 < length members.now }
    requires within { All (λ u. u < length row.now) members.now }
    ensures { IsJoin (IsAmongMembers (λ u j. slice_index_or row.now u No ≡ j) members.now) result }
{
    if members.has_several() {
        return members.joined(row);
    }
    row.get(members.first())
}

/// Puts the value where the row has `No`.
#[inline(always)]
fn put_value(row: &mut Row, w: u32, k: K3)
    requires place { w < length row.old }
    requires blank { slice_index_or row.old w No ≡ No }
    ensures { row.new ≡ slice_set row.old w k }
{
    match k {
        K3::No => {}
        K3::Half | K3::Yes => row.set(w, k),
    }
}

/// For each class, the join of the row's values at its members.
pub fn merged_row(row: &Row, classes: &[Class]) -> Row
    requires few { length classes.now ≤ 256 }
    requires some { All (λ members. 0 < length members) classes.now }
    requires within { All (λ members. All (λ u. u < length row.now) members) classes.now }
    ensures length { length result ≡ length classes.now }
    ensures values { (w : ℕ) → w < length classes.now
        → IsJoin (IsAmongMembers (λ u j. slice_index_or row.now u No ≡ j) (class_at classes.now w))
        (slice_index_or result w No) }
{
    let mut merged = Row::of(classes.len() as u32, K3::No);
    if !row.has_possible() {
        return merged;
    }
    for (w, members) in classes.iter().enumerate() {
        put_value(&mut merged, w as u32, value_of(row, members));
    }
    merged
}
