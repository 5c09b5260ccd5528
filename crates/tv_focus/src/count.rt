//! How many choices there are, and how many individuals the largest has.

ghost use Rattle.std.specs.Prelude.{◌≡◌, ◌<◌, ◌≤◌, ◌^◌, min, Some, All, IsTrue, length, map, fold, slice_get};
ghost use Rattle.std.specs.Prelude.{[], ◌∷◌};
ghost use Rattle.std.specs.List.{range_with_len};
ghost use Rattle.tv_kleene.specs.declared.K3.{K3};
ghost use Rattle.tv_structure_form.specs.StructureForm.{arities_of, structure_of, value_at, summary_at};
ghost use Rattle.tv_structure_form.specs.TableForm.{HasEntry};
ghost use Rattle.tv_structure_form.specs.StructureForm.{table_of};
ghost use Rattle.tv_struct.specs.TupleForm.{tuple_of};
ghost use Rattle.tv_focus_laws.specs.Counts.{halves, halves_at, few_sets, few_choices, vector_count};
ghost use Rattle.tv_focus_laws.specs.Counts.{largest_size};
ghost use Rattle.tv_focus.specs.Anchored.{pair_of, IsAimOver};
ghost use Rattle.tv_focus.specs.Seen.{aim_of};

use crate::aim::Aim;
use crate::anchors::{Place, pair};
use tv_kleene::K3;
use tv_model::PredId;
use tv_struct::{Structure, Tuple};

/// The limit of choices of one stage.
pub const MAX_CHOICES: u32 = 4096;

/// How many of the pairs of an individual with the anchors have the value `Half`.
fn pair_halves(s: &Structure, p: PredId, place: Place, anchors: &[u32], u: u32) -> usize
    requires arity { slice_get (arities_of s.now) p.0 ≡ Some 2 }
    requires individual { u < s.now.size }
    requires anchors { All (λ a. a < s.now.size) anchors.now }
    ensures value { result ≡ halves (map (λ a. value_at s.now p.0 (pair_of place a u)) anchors.now) }
    ensures most { result ≤ length anchors.now }
{
    match anchors {
        [] => 0,
        [a, rest @ ..] => {
            let later = pair_halves(s, p, place, rest, u);
            match s.get(p, pair(place, *a, u)) {
                K3::Half => later + 1,
                _ => later,
            }
        }
    }
}

/// How many of the tuples of an individual that are aimed at have the value `Half`.
fn halves_at(s: &Structure, p: PredId, aim: &Aim, u: u32) -> usize
    requires aim { IsAimOver s.now p.0 (aim_of aim.now) }
    requires individual { u < s.now.size }
    ensures { result ≡ halves_at (structure_of s.now) p.0 (aim_of aim.now) u }
{
    match aim {
        Aim::Alone => match s.get(p, Tuple::One(u)) {
            K3::Half => 1,
            _ => 0,
        },
        Aim::Before(anchors) => pair_halves(s, p, Place::Second, anchors.as_slice(), u),
        Aim::Behind(anchors) => pair_halves(s, p, Place::First, anchors.as_slice(), u),
    }
}

/// How many sets of vectors an individual has, where that many values are `Half`; over 4,096 count as 4,097.
fn few_sets(summary: bool, half: usize) -> u32
    ensures value { result ≡ few_sets summary half }
    ensures most { result ≤ 4097 }
{
    if summary {
        match half {
            0 => 1,
            1 => 3,
            2 => 15,
            3 => 255,
            _ => MAX_CHOICES + 1,
        }
    } else {
        power(half)
    }
}

/// 2 to that power; over 4,096 counts as 4,097.
fn power(half: usize) -> u32
    ensures { result ≡ min (2 ^ half) 4097 }
{
    if half < 13 {
        1u32 << half
    } else {
        MAX_CHOICES + 1
    }
}

/// How many choices there are; over 4,096 count as 4,097.
#[tactic(auto, using(crate::proofs::Folds::fold_range_more))]
pub fn few_choices(s: &Structure, p: PredId, aim: &Aim) -> u32
    requires aim { IsAimOver s.now p.0 (aim_of aim.now) }
    ensures { result ≡ few_choices (structure_of s.now) p.0 (aim_of aim.now) }
{
    let mut total = 1u32;
    for u in 0..s.size() {
        total = (total * few_sets(s.summary(u), halves_at(s, p, aim, u))).min(MAX_CHOICES + 1);
    }
    total
}

/// The most vectors that an individual may have.
fn vector_count(summary: bool, half: usize) -> u32
    requires { IsTrue summary → half ≤ 3 }
    ensures value { result ≡ vector_count summary half }
    ensures most { result ≤ 8 }
{
    if summary { power(half) } else { 1 }
}

/// The number of individuals of the largest choice, where there aren't too many choices.
#[tactic(auto, using(crate::proofs::Folds::fold_range_more))]
pub fn largest_size(s: &Structure, p: PredId, aim: &Aim) -> u32
    requires aim { IsAimOver s.now p.0 (aim_of aim.now) }
    requires few { few_choices (structure_of s.now) p.0 (aim_of aim.now) ≤ 4096 }
    ensures { result ≡ largest_size (structure_of s.now) p.0 (aim_of aim.now) }
{
    let mut total = 0u32;
    for u in 0..s.size() {
        total += vector_count(s.summary(u), halves_at(s, p, aim, u));
    }
    total
}
