//! Atoms whose values are known.

ghost use Rattle.std.specs.Prelude.{◌≡◌, ◌≢◌, ◌<◌, ℕ, All, IsTrue, Some, length, map, slice_get};
ghost use Rattle.std.specs.Prelude.{slice_index_or};
ghost use Rattle.tv_kleene.specs.declared.K3.TheVariants.{No, Half};
ghost use Rattle.tv_structure_form.specs.StructureForm.{arities_of, structure_of, value_at};
ghost use Rattle.tv_focus_laws.specs.Counts.{halves, halves_at};
ghost use Rattle.tv_focus.specs.Anchored.{IsAimOver, IsSplitOver, pair_of};
ghost use Rattle.tv_focus.specs.Laws.{IsSharp};
ghost use Rattle.tv_focus.specs.Seen.{aim_of, split_form};

use crate::aim::{Aim, Split};
use crate::anchors::{Place, line};
use tv_kleene::K3;
use tv_model::PredId;
use tv_row::Row;
use tv_struct::{Structure, Tuple};

/// True only where no value of the row is unknown.
fn is_definite(row: &Row) -> bool
    ensures { IsTrue result → (u : ℕ) → u < length row.now → slice_index_or row.now u No ≢ Half }
{
    !row.and(&row.not()).has_possible()
}

/// True only where no value at the pairs of an anchor and an individual is unknown.
fn are_pairs_known(s: &Structure, p: PredId, place: Place, anchors: &[u32]) -> bool
    requires arity { slice_get (arities_of s.now) p.0 ≡ Some 2 }
    requires anchors { All (λ a. a < s.now.size) anchors.now }
    ensures { IsTrue result → (u : ℕ) → u < s.now.size
        → halves (map (λ a. value_at s.now p.0 (pair_of place a u)) anchors.now) ≡ 0 }
{
    match anchors {
        [] => true,
        [a, rest @ ..] => {
            is_definite(&line(s, p, place, *a)) && are_pairs_known(s, p, place, rest)
        }
    }
}

/// True only where no value at a tuple that is aimed at is unknown.
fn are_known(s: &Structure, p: PredId, aim: &Aim) -> bool
    requires { IsAimOver s.now p.0 (aim_of aim.now) }
    ensures { IsTrue result
        → (u : ℕ) → u < s.now.size → halves_at (structure_of s.now) p.0 (aim_of aim.now) u ≡ 0 }
{
    match aim {
        Aim::Alone => is_definite(&s.unary_row(p)),
        Aim::Before(anchors) => are_pairs_known(s, p, Place::Second, anchors.as_slice()),
        Aim::Behind(anchors) => are_pairs_known(s, p, Place::First, anchors.as_slice()),
    }
}

/// True only where no value that the split aims at is unknown: such a split gives the structure itself. That
/// it is false promises nothing.
#[tactic(auto, using(crate::proofs::Sharp::known_sharp))]
pub fn is_sharp(s: &Structure, p: PredId, split: &Split) -> bool
    requires { IsSplitOver s.now p.0 (split_form split.now) }
    ensures { IsTrue result → IsSharp (structure_of s.now) p.0 (split_form split.now) }
{
    match split {
        Split::Nothing => true,
        Split::Whole => match s.get(p, Tuple::Zero) {
            K3::Half => false,
            _ => true,
        },
        Split::Each(aim) => are_known(s, p, aim),
    }
}
