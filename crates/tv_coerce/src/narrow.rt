//! Before rules of many variables are tried the candidates of each variable before the last are narrowed,
//! from the last one backwards: what the members tested later leave of it, as far as literals of two
//! variables tell.

ghost use Rattle.std.specs.Prelude.{◌≡◌, ◌≢◌, ◌<◌, ◌≤◌, ◌++◌, ◌∷◌, [], ℕ, All, Bool, Some, length, slice_get};
ghost use Rattle.std.specs.Prelude.{◌+◌, ◌-◌, IsTrue, List, slice_index_or};
ghost use Rattle.tv_kleene.specs.declared.K3.{K3};
ghost use Rattle.tv_kleene.specs.declared.K3.TheVariants.{No, Yes};
ghost use Rattle.tv_model.specs.Form.{Form};
ghost use Rattle.tv_model.specs.Truth.{Assignment};
ghost use Rattle.tv_model.specs.Valid.{IsFormulaOver};
ghost use Rattle.tv_coerce_members.specs.Members.{AreSteps, IsReadAs, MemberForm, numbers_of};
ghost use Rattle.tv_eval_laws.specs.Value.{value};
ghost use Rattle.tv_structure_form.specs.StructureForm.{arities_of, structure_of};
ghost use Rattle.tv_coerce.specs.Counting.{AreNarrowed, CountTells, IsAt, IsBarring, IsBest, IsNarrowed};
ghost use Rattle.tv_coerce.specs.Counting.{IsSeen};
ghost use Rattle.tv_coerce.specs.Counting.{RestsOn, Tells, members_in, variables_in};
ghost use Rattle.tv_coerce.specs.Opened.{IsGoingOn};
ghost use Rattle.tv_coerce.specs.Trying.{IsTrial};

use crate::places::{counted, signed};
use crate::trial::{Trial, is_no, level_of};
use tv_coerce_members::{Reading, Step};
use tv_eval::same_as;
use tv_kleene::K3;
use tv_model::Var;
use tv_row::Word;
use tv_struct::Structure;

/// The values of those individuals with which something is left to be asked for, as far as was narrowed; the
/// others are `No`. What is counted of the last variable is `tail`.
#[inline(always)]
pub(crate) fn going_on(later: &[Word], left: usize, tail: Word, ways: Word) -> Word
    requires long { length ways ≡ 64 }
    requires words { (word : List K3) → slice_get later.now left ≡ Some word → length word ≡ 64 }
    ensures { IsGoingOn later.now left tail ways result }
{
    match word_at(later, left) {
        None => ways,
        Some(word) => counted(counted(ways, Word::of(64, tail.greatest())), word),
    }
}

#[inline(always)]
fn word_at(later: &[Word], left: usize) -> Option<Word>
    ensures { result ≡ slice_get later.now left }
{
    later.get(left).copied()
}

/// For each number of variables before the last that are left: how the members that are tested later count
/// at best, by the individual of the variable before those.
#[inline(never)]
pub(crate) fn narrow(trial: &Trial<'_, '_>, before: &[Var]) -> [Word; 32]
    requires trial { IsTrial trial.now }
    requires variables { variables_in trial.now ≡ numbers_of before.now ++ trial.now.last.0 ∷ [] }
    requires over { (k : ℕ) (m : MemberForm) → slice_get (members_in trial.now) k ≡ Some m
        → IsFormulaOver (arities_of trial.now.structure.now) m.form }
    requires few { (length before.now ≤ 32) × (trial.now.structure.now.size ≤ 64) }
    ensures { AreNarrowed trial.now result }
{
    let mut later = [Word::of(64, K3::Yes); 32];
    for left in 0..before.len() {
        let word = narrowed(trial, before, left, &later);
        later[left] = word;
    }
    later
}

/// The same for one variable, where it is known for those behind it.
fn narrowed(trial: &Trial<'_, '_>, before: &[Var], left: usize, later: &[Word; 32]) -> Word
    requires trial { IsTrial trial.now }
    requires variables { variables_in trial.now ≡ numbers_of before.now ++ trial.now.last.0 ∷ [] }
    requires over { (k : ℕ) (m : MemberForm) → slice_get (members_in trial.now) k ≡ Some m
        → IsFormulaOver (arities_of trial.now.structure.now) m.form }
    requires few { (length before.now ≤ 32) × (trial.now.structure.now.size ≤ 64) }
    requires left { left < length before.now }
    requires later { AreNarrowed trial.now later.now }
    ensures long { length result ≡ 64 }
    ensures narrowed { IsNarrowed trial.now.structure.now (variables_in trial.now) (members_in trial.now) left
        result }
{
    let v = variable_before(before, left);
    let all = Word::of(64, K3::Yes);
    let mut word = all;
    for behind in 0..left {
        let level = level_of(trial, behind);
        let steps = level.own.as_slice();
        if reads_some(steps, v) {
            let leaves = best(trial, steps, v, word_of(later, behind));
            word = word.and(leaves);
        }
    }
    let last = level_of(trial, left).last.as_slice();
    let ends = best(trial, last, v, all);
    counted(word, ends)
}

/// The variable before the last that has so many between itself and the last.
fn variable_before(before: &[Var], left: usize) -> Var
    requires { left < length before.now }
    ensures { slice_get before.now (length before.now - (left + 1)) ≡ Some result }
{
    before[before.len() - (left + 1)]
}

fn word_of(later: &[Word; 32], left: usize) -> Word
    requires { left < 32 }
    ensures { slice_get later.now left ≡ Some result }
{
    later[left]
}

/// Whether one of the steps reads the variable. A hint, of which nothing is promised.
fn reads_some(steps: &[Step], v: Var) -> bool {
    for step in steps {
        match step.reading {
            Reading::Second(_, _, x) | Reading::First(_, _, x) | Reading::Same(_, x) => {
                if x.0 == v.0 {
                    return true;
                }
            }
            Reading::Alone(_, _) | Reading::Other => {}
        }
    }
    false
}

/// By the individual of the variable, how the steps count at best with a word of individuals for the variable
/// that they are read along.
fn best(trial: &Trial<'_, '_>, steps: &[Step], v: Var, begun: Word) -> Word
    requires few { trial.now.structure.now.size ≤ 64 }
    requires long { length begun ≡ 64 }
    requires can { (w : ℕ) × All (IsSeen trial.now w) steps.now }
    ensures long { length result ≡ 64 }
    ensures best { (left : ℕ) (last : Bool) (w : ℕ) (b : Assignment)
        → AreSteps (members_in trial.now) left last steps.now → All (IsSeen trial.now w) steps.now
        → b v.0 < trial.now.structure.now.size → b w < trial.now.structure.now.size
        → IsBest trial.now left last b (slice_index_or begun (b w) No) (slice_index_or result (b v.0) No) }
{
    let mut word = Word::of(64, K3::No);
    for u in 0..trial.structure.size() {
        word = word.with(u, counted(begun, seen_all(trial, steps, v, u)).greatest());
    }
    word
}

/// How the steps count that read nothing but the variable, with the individual put for it.
fn seen_all(trial: &Trial<'_, '_>, steps: &[Step], v: Var, u: u32) -> Word
    requires few { (u < trial.now.structure.now.size) × (trial.now.structure.now.size ≤ 64) }
    requires can { (w : ℕ) × All (IsSeen trial.now w) steps.now }
    ensures long { length result ≡ 64 }
    ensures tells { (left : ℕ) (last : Bool) (w : ℕ) (b : Assignment)
        → AreSteps (members_in trial.now) left last steps.now → All (IsSeen trial.now w) steps.now
        → b v.0 ≡ u → b w < trial.now.structure.now.size
        → Tells (IsAt left last) trial.now.structure.now b (members_in trial.now)
        (slice_index_or result (b w) No) }
{
    let mut word = Word::of(64, K3::Yes);
    for step in steps {
        word = counted(word, seen(trial.structure, step.reading, v, u));
    }
    word
}

/// The values that are read with the individual put for the variable, and `Yes` where they rest on another.
fn seen(s: &Structure, reading: Reading, v: Var, u: u32) -> Word
    requires few { (u < s.now.size) × (s.now.size ≤ 64) }
    requires can { (w : ℕ) × (f : Form) × IsReadAs w reading f × IsFormulaOver (arities_of s.now) f }
    ensures long { length result ≡ 64 }
    ensures tells { (w : ℕ) (b : Assignment) (m : MemberForm) → IsReadAs w reading m.form → b v.0 ≡ u
        → b w < s.now.size → CountTells (value (structure_of s.now) b m.form ≢ Yes) (IsBarring s.now b m)
        (slice_index_or result (b w) No) }
{
    if rests_on(reading, v) {
        read_with(s, reading, u)
    } else {
        Word::of(64, K3::Yes)
    }
}

/// Whether nothing is read but the variable.
fn rests_on(reading: Reading, v: Var) -> bool
    ensures { IsTrue result → RestsOn v.0 reading }
{
    match reading {
        Reading::Alone(_, _) => true,
        Reading::Second(_, _, x) => x.0 == v.0,
        Reading::First(_, _, x) => x.0 == v.0,
        Reading::Same(_, x) => x.0 == v.0,
        Reading::Other => false,
    }
}

/// The values that are read with the individual put for the variable on which they rest.
fn read_with(s: &Structure, reading: Reading, u: u32) -> Word
    requires few { (u < s.now.size) × (s.now.size ≤ 64) }
    requires can { (w : ℕ) × (f : Form) × IsReadAs w reading f × IsFormulaOver (arities_of s.now) f }
    ensures long { length result ≡ 64 }
    ensures tells { (w v : ℕ) (b : Assignment) (m : MemberForm) → IsReadAs w reading m.form
        → RestsOn v reading
        → b v ≡ u → b w < s.now.size → CountTells (value (structure_of s.now) b m.form ≢ Yes)
        (IsBarring s.now b m) (slice_index_or result (b w) No) }
{
    match reading {
        Reading::Alone(flag, p) => signed(s, flag, s.unary_word(p, 0), 0),
        Reading::Second(flag, p, _) => signed(s, flag, s.word(p, u, 0), 0),
        Reading::First(flag, p, _) => signed(s, flag, s.column_word(p, u, 0), 0),
        Reading::Same(flag, _) => signed(s, flag, same_as(u, 0, s), 0),
        Reading::Other => Word::of(64, K3::Yes),
    }
}
