//! Joined values of merged individuals, so few, and of so few classes, that values stand in one word.

ghost use Rattle.std.specs.Prelude.{◌≡◌, ◌≢◌, ◌<◌, ◌≤◌, ℕ, [], ◌∷◌, length, All, IsTrue, slice_index_or};
ghost use Rattle.std.specs.Prelude.{slice_set, MatchBool};
ghost use Rattle.tv_kleene.specs.declared.K3.TheVariants.{No};
ghost use Rattle.tv_structure_form.specs.StructureForm.{value_at};
ghost use Rattle.tv_struct.specs.StructureRows.{HasArity};
ghost use Rattle.tv_blur.specs.Classes.{FitWord, IsAmongMembers, class_at};
ghost use Rattle.tv_blur.specs.Merged.{IsJoin};

use crate::class::Class;
use tv_kleene::K3;
use tv_model::PredId;
use tv_row::{Row, Word};
use tv_struct::Structure;

/// So many values stand in one word.
pub const ROOM: u32 = 64;

/// Whether there are individuals, and so few of them and of classes that values stand in one word.
pub fn fit_word(s: &Structure, classes: &[Class]) -> bool
    ensures { IsTrue result → FitWord s.now classes.now }
{
    0 < s.size() && s.size() <= ROOM && 0 < classes.len() && classes.len() <= ROOM as usize
}

/// Whether one of the first `n` values isn't `No`.
#[inline(always)]
pub fn has_possible(word: Word, n: u32) -> bool
    ensures { MatchBool result ((u : ℕ) × (u < n) × (slice_index_or word u No ≢ No))
        ((u : ℕ) → u < n → u < 64 → slice_index_or word u No ≡ No) }
{
    match word.first_possible(0) {
        Some(u) => u < n,
        None => false,
    }
}

/// For each individual, the join of the values of the binary predicate `p` at the pairs of a member and
/// that individual. What stands behind the last individual isn't told.
#[inline(always)]
pub fn joined_words(s: &Structure, p: PredId, members: &Class) -> Word
    requires arity { HasArity s.now p.0 2 }
    requires some { 0 < length members.now }
    requires within { All (λ u. u < s.now.size) members.now }
    requires few { s.now.size ≤ 64 }
    ensures long { length result ≡ 64 }
    ensures values { (v : ℕ) → v < s.now.size
        → IsJoin (IsAmongMembers (λ u j. value_at s.now p.0 (u ∷ v ∷ []) ≡ j) members.now)
        (slice_index_or result v No) }
{
    let mut joined = s.word(p, members.first(), 0);
    let others = members.others();
    for i in 0..others.len() {
        joined = joined.join(s.word(p, others[i], 0));
    }
    joined
}

/// The join of the word's values at the members of a class of several.
#[inline(never)]
fn joined_in(word: Word, members: &Class) -> K3
    requires within { All (λ u. u < 64) members.now }
    requires long { length word ≡ 64 }
    ensures { IsJoin (IsAmongMembers (λ u j. slice_index_or word u No ≡ j) members.now) result }
{
    let mut row = Row::of(ROOM, K3::No);
    row.put_word(0, word);
    members.joined(&row)
}

/// The join of the word's values at the members.
#[inline(always)]
fn value_in(word: Word, members: &Class) -> K3
    requires some { 0 < length members.now }
    requires within { All (λ u. u < 64) members.now }
    requires long { length word ≡ 64 }
    ensures { IsJoin (IsAmongMembers (λ u j. slice_index_or word u No ≡ j) members.now) result }
{
    if members.has_several() {
        return joined_in(word, members);
    }
    word.get(members.first())
}

/// The word with the value where it has `No`.
#[inline(always)]
fn with_value(word: Word, w: u32, k: K3) -> Word
    requires place { w < 64 }
    requires blank { slice_index_or word w No ≡ No }
    ensures { result ≡ slice_set word w k }
{
    match k {
        K3::No => word,
        K3::Half | K3::Yes => word.with(w, k),
    }
}

/// For each class, the join of the word's values at its members.
#[inline(always)]
fn merged_word(word: Word, classes: &[Class]) -> Word
    requires few { length classes.now ≤ 64 }
    requires some { All (λ members. 0 < length members) classes.now }
    requires within { All (λ members. All (λ u. u < 64) members) classes.now }
    requires long { length word ≡ 64 }
    ensures { (w : ℕ) → w < length classes.now
        → IsJoin (IsAmongMembers (λ u j. slice_index_or word u No ≡ j) (class_at classes.now w))
        (slice_index_or result w No) }
{
    let mut merged = Word::of(0, K3::No);
    for (w, members) in classes.iter().enumerate() {
        merged = with_value(merged, w as u32, value_in(word, members));
    }
    merged
}

/// For each class, the join of the word's values at its members, as a row.
pub fn merged_in(word: Word, classes: &[Class]) -> Row
    requires some_classes { 0 < length classes.now }
    requires few { length classes.now ≤ 64 }
    requires some { All (λ members. 0 < length members) classes.now }
    requires within { All (λ members. All (λ u. u < 64) members) classes.now }
    requires long { length word ≡ 64 }
    ensures length { length result ≡ length classes.now }
    ensures values { (w : ℕ) → w < length classes.now
        → IsJoin (IsAmongMembers (λ u j. slice_index_or word u No ≡ j) (class_at classes.now w))
        (slice_index_or result w No) }
{
    let mut merged = Row::of(classes.len() as u32, K3::No);
    merged.put_word(0, merged_word(word, classes));
    merged
}
