//! Unknown values of a structure.

ghost use Rattle.std.specs.Prelude.{◌<◌, length};
ghost use Rattle.tv_openings.specs.Gaps.{IsGapIn, IsGapInRow, IsGapOf};
ghost use Rattle.tv_structure_form.specs.StructureForm.{arities_of};
ghost use Rattle.tv_struct.specs.StructureRows.{HasArity};

use tv_kleene::K3;
use tv_model::PredId;
use tv_struct::{Structure, Table, Tuple};

/// An entry of a structure: a predicate and a tuple of its arity.
#[derive(Clone, Copy, Debug)]
pub struct Gap {
    pub pred: PredId,
    pub tuple: Tuple,
}

/// The unknown value of the predicate without arguments, if it is unknown.
fn flag_gap(s: &Structure, pred: PredId) -> Option<Gap>
    requires { HasArity s.now pred.0 0 }
    ensures { IsGapOf s.now pred.0 result }
{
    let tuple = Tuple::Zero;
    if s.get(pred, tuple) == K3::Half {
        return Some(Gap { pred, tuple });
    }
    None
}

/// The first unknown value of the predicate of one argument, if one is unknown.
fn unary_gap(s: &Structure, pred: PredId) -> Option<Gap>
    requires { HasArity s.now pred.0 1 }
    ensures { IsGapOf s.now pred.0 result }
{
    for u in 0..s.size() {
        let tuple = Tuple::One(u);
        if s.get(pred, tuple) == K3::Half {
            return Some(Gap { pred, tuple });
        }
    }
    None
}

/// The first unknown value of the binary predicate at the pairs with first member `u`, if one is unknown.
fn row_gap(s: &Structure, pred: PredId, u: u32) -> Option<Gap>
    requires arity { HasArity s.now pred.0 2 }
    requires individual { u < s.now.size }
    ensures { IsGapInRow s.now pred.0 u result }
{
    for w in 0..s.size() {
        let tuple = Tuple::Two(u, w);
        if s.get(pred, tuple) == K3::Half {
            return Some(Gap { pred, tuple });
        }
    }
    None
}

/// The first unknown value of the binary predicate, if one is unknown.
fn binary_gap(s: &Structure, pred: PredId) -> Option<Gap>
    requires { HasArity s.now pred.0 2 }
    ensures { IsGapOf s.now pred.0 result }
{
    for u in 0..s.size() {
        let gap = row_gap(s, pred, u);
        if gap.is_some() {
            return gap;
        }
    }
    None
}

/// The first unknown value of the predicate, if one is unknown.
fn pred_gap(s: &Structure, pred: PredId) -> Option<Gap>
    requires { pred.0 < length (arities_of s.now) }
    ensures { IsGapOf s.now pred.0 result }
{
    match s.arity(pred) {
        0 => flag_gap(s, pred),
        1 => unary_gap(s, pred),
        _ => binary_gap(s, pred),
    }
}

/// The first unknown value, by predicate; none where all values are known.
pub fn first_gap(s: &Structure) -> Option<Gap>
    ensures { IsGapIn s.now result }
{
    for number in 0..s.pred_count() {
        let gap = pred_gap(s, PredId(number));
        if gap.is_some() {
            return gap;
        }
    }
    None
}
