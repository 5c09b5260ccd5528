//! One stage of focus.

ghost use Rattle.std.specs.Prelude.{◌≡◌, ◌<◌, ◌≤◌, ◌++◌, [], length, map, All, IfOk, IfErr, IfNone, IfSome};
ghost use Rattle.std.specs.Prelude.{IsTrue, OnOk, Some, slice_get, ◌∷◌};
ghost use Rattle.tv_model.specs.Form.{form_of};
ghost use Rattle.tv_structure_form.specs.StructureForm.{IsOver, arities_of, structure_of, value_at};
ghost use Rattle.tv_structure_form.specs.StructureForm.{with_value};
ghost use Rattle.tv_focus_laws.specs.FocusAtoms.{focus_atoms};
ghost use Rattle.tv_focus_laws.specs.Choices.{aimed, choices, definite, sets_in};
ghost use Rattle.tv_focus_laws.specs.Stages.{atom_at, split_at};
ghost use Rattle.tv_focus_laws.specs.Tables.{AreStage};
ghost use Rattle.tv_focus_laws.specs.Written.{chosen_table, stage_tables, split_tables};
ghost use Rattle.tv_focus.specs.Anchored.{AreAtomsOver, IsAimOver, IsSplitOver, pair_of};
ghost use Rattle.tv_focus.specs.Focused.{CanBeMade, IsSplitAim, focused_from, structures_in};
ghost use Rattle.tv_focus_step_laws.specs.Above.{IsAim};
ghost use Rattle.tv_focus.specs.Stage.{IsWithinLimits, IsStageCause, IsEachCause, AreLimitsKept};
ghost use Rattle.tv_focus.specs.Stage.{AreSplitLimitsKept, IsSplitCause, KeepsHeaps};
ghost use Rattle.tv_focus.specs.Seen.{aim_of, split_form};

use crate::aim::{Aim, Split, split_of};
use crate::anchors::{Place, pair};
use crate::atoms::FocusAtoms;
use crate::chosen::choose;
use crate::count::{MAX_CHOICES, few_choices, largest_size};
use crate::focused::{Choosing, Focused};
use crate::known::is_sharp;
use crate::sets::{Sets, sets_of};
use std::alloc::{AllocError, Global};
use tv_kleene::K3;
use tv_model::{Formula, PredId, Vocab};
use tv_struct::{StageError, Structure, Structures, Tuple};

/// The most individuals of a structure.
const MAX_INDIVIDUALS: u32 = 256;

/// So many choices are made at once: of more, a walk refutes some before they are made, and coerces the
/// others by fewer rules.
const FEW_CHOICES: u32 = 1;

/// The values at the pairs of an individual with the anchors.
fn push_pairs(
    s: &Structure,
    p: PredId,
    place: Place,
    anchors: &[u32],
    u: u32,
    values: &mut Vec<K3>,
) -> Result<(), AllocError>
    requires arity { slice_get (arities_of s.now) p.0 ≡ Some 2 }
    requires individual { u < s.now.size }
    requires anchors { All (λ a. a < s.now.size) anchors.now }
    ensures { OnOk result (values.new.items
        ≡ values.old.items ++ map (λ a. value_at s.now p.0 (pair_of place a u)) anchors.now) }
{
    match anchors {
        [] => Ok(()),
        [a, rest @ ..] => {
            values.push(s.get(p, pair(place, *a, u)))?;
            push_pairs(s, p, place, rest, u, values)
        }
    }
}

/// The values at the pairs of an individual with the anchors.
fn pairs(
    alloc: Global,
    s: &Structure,
    p: PredId,
    place: Place,
    anchors: &[u32],
    u: u32,
) -> Result<Vec<K3>, AllocError>
    requires arity { slice_get (arities_of s.now) p.0 ≡ Some 2 }
    requires individual { u < s.now.size }
    requires anchors { All (λ a. a < s.now.size) anchors.now }
    ensures { IfOk result
        (λ values. values.items ≡ map (λ a. value_at s.now p.0 (pair_of place a u)) anchors.now) }
{
    let mut values = Vec::new(alloc);
    push_pairs(s, p, place, anchors, u, &mut values)?;
    Ok(values)
}

/// The value at an individual alone.
fn alone(alloc: Global, s: &Structure, p: PredId, u: u32) -> Result<Vec<K3>, AllocError>
    requires arity { slice_get (arities_of s.now) p.0 ≡ Some 1 }
    requires individual { u < s.now.size }
    ensures { IfOk result (λ values. values.items ≡ value_at s.now p.0 (u ∷ []) ∷ []) }
{
    let mut values = Vec::new(alloc);
    values.push(s.get(p, Tuple::One(u)))?;
    Ok(values)
}

/// The values at the tuples of an individual that are aimed at.
#[tactic(auto, using(crate::proofs::Aims::before_values, crate::proofs::Aims::behind_values))]
fn values_at(
    alloc: Global,
    s: &Structure,
    p: PredId,
    aim: &Aim,
    u: u32,
) -> Result<Vec<K3>, AllocError>
    requires aim { IsAimOver s.now p.0 (aim_of aim.now) }
    requires individual { u < s.now.size }
    ensures { IfOk result (λ values. values.items ≡ map (value_at s.now p.0) (aimed (aim_of aim.now) u)) }
{
    match aim {
        Aim::Alone => alone(alloc, s, p, u),
        Aim::Before(anchors) => pairs(alloc, s, p, Place::Second, anchors.as_slice(), u),
        Aim::Behind(anchors) => pairs(alloc, s, p, Place::First, anchors.as_slice(), u),
    }
}

/// The sets of vectors that each individual may be given.
#[tactic(auto, using(tv_lemmas::proofs::Lists::map_range_more))]
fn all_sets(alloc: Global, s: &Structure, p: PredId, aim: &Aim) -> Result<Vec<Sets>, AllocError>
    requires aim { IsAimOver s.now p.0 (aim_of aim.now) }
    ensures { IfOk result (λ sets. sets.items ≡ sets_in (structure_of s.now) p.0 (aim_of aim.now)) }
{
    let mut sets = Vec::with_capacity(alloc, s.size() as usize)?;
    for u in 0..s.size() {
        let values = values_at(alloc, s, p, aim, u)?;
        sets.push(sets_of(alloc, s.summary(u), values)?)?;
    }
    Ok(sets)
}

/// The structure with a nullary predicate made each of the definite values that its value stands for.
fn whole(alloc: Global, s: &Structure, p: PredId) -> Result<Structures, AllocError>
    requires arity { slice_get (arities_of s.now) p.0 ≡ Some 0 }
    ensures { IfOk result (λ ts. ts ≡ map (with_value s.now p.0 []) (definite (value_at s.now p.0 []))) }
{
    let mut out = Structures::new(alloc);
    let k = s.get(p, Tuple::Zero);
    if k != K3::Yes {
        out.push(with_whole(alloc, s, p, K3::No)?)?;
    }
    if k != K3::No {
        out.push(with_whole(alloc, s, p, K3::Yes)?)?;
    }
    Ok(out)
}

fn with_whole(alloc: Global, s: &Structure, p: PredId, k: K3) -> Result<Structure, AllocError>
    requires arity { slice_get (arities_of s.now) p.0 ≡ Some 0 }
    ensures { IfOk result (λ t. t ≡ with_value s.now p.0 [] k) }
{
    let mut t = s.copy(alloc)?;
    t.set(p, Tuple::Zero, k);
    Ok(t)
}

/// One structure for each choice, where there are few choices and none is large.
fn all_chosen(alloc: Global, s: &Structure, p: PredId, aim: &Aim) -> Result<Structures, AllocError>
    requires aim { IsAimOver s.now p.0 (aim_of aim.now) }
    requires limits { AreLimitsKept s.now p.0 (aim_of aim.now) }
    ensures { IfOk result (λ ts. ts
        ≡ map (chosen_table s.now p.0 (aim_of aim.now)) (choices (structure_of s.now) p.0 (aim_of aim.now))) }
{
    let sets = all_sets(alloc, s, p, aim)?;
    let mut out = Structures::new(alloc);
    let mut choice = Vec::new(alloc);
    choose(alloc, s, p, aim, sets.as_slice(), &mut choice, &mut out)?;
    Ok(out)
}

/// One structure for each choice.
#[tactic(auto, using(crate::proofs::Limits::too_many, crate::proofs::Limits::too_large, crate::proofs::Limits::limits_kept))]
fn each(alloc: Global, s: &Structure, p: PredId, aim: &Aim) -> Result<Structures, StageError>
    requires aim { IsAimOver s.now p.0 (aim_of aim.now) }
    ensures exact { IfOk result (λ ts. ts
        ≡ map (chosen_table s.now p.0 (aim_of aim.now)) (choices (structure_of s.now) p.0 (aim_of aim.now))) }
    ensures within { OnOk result (AreLimitsKept s.now p.0 (aim_of aim.now)) }
    ensures cause { IfErr result (IsEachCause s.now p.0 (aim_of aim.now)) }
{
    if few_choices(s, p, aim) > MAX_CHOICES {
        return Err(StageError::Splits);
    }
    if largest_size(s, p, aim) > MAX_INDIVIDUALS {
        return Err(StageError::Individuals);
    }
    Ok(all_chosen(alloc, s, p, aim)?)
}

/// The structures that a split makes of one.
fn split_structures(
    alloc: Global,
    s: &Structure,
    p: PredId,
    split: &Split,
) -> Result<Structures, StageError>
    requires split { IsSplitOver s.now p.0 (split_form split.now) }
    ensures exact { IfOk result (λ ts. ts ≡ split_tables s.now p.0 (split_form split.now)) }
    ensures within { OnOk result (AreSplitLimitsKept s.now p.0 (split_form split.now)) }
    ensures cause { IfErr result (IsSplitCause s.now p.0 (split_form split.now)) }
{
    match split {
        Split::Nothing => Ok(one(alloc, s)?),
        Split::Whole => Ok(whole(alloc, s, p)?),
        Split::Each(aim) => each(alloc, s, p, aim),
    }
}

/// The structure alone.
fn one(alloc: Global, s: &Structure) -> Result<Structures, AllocError>
    ensures { IfOk result (λ ts. ts ≡ s.now ∷ []) }
{
    let mut out = Structures::new(alloc);
    out.push(s.copy(alloc)?)?;
    Ok(out)
}

/// What a stage does: the predicate of its atom, and how it splits the structure.
#[derive(Drop)]
struct StagePlan {
    pred: PredId,
    split: Split,
}

/// What focus does with an atom of the formula.
fn planned(
    alloc: Global,
    f: &FocusAtoms<'_>,
    atom: usize,
    s: &Structure,
) -> Result<StagePlan, AllocError>
    requires formula { AreAtomsOver (arities_of s.now) (form_of f.now) }
    requires atom { atom < length (focus_atoms (form_of f.now)) }
    ensures pred { IfOk result (λ plan. plan.pred.0 ≡ (atom_at (form_of f.now) atom).pred) }
    ensures split { IfOk result
        (λ plan. split_form plan.split ≡ split_at (structure_of s.now) (form_of f.now) atom) }
{
    let atoms = f.as_slice();
    let one = atoms[atom];
    let split = split_of(alloc, s, atoms, one.terms)?;
    Ok(StagePlan {
        pred: one.pred,
        split,
    })
}

/// What the stage makes of the structure; nothing where that is the structure itself, since the atom's values
/// are known.
fn staged(
    alloc: Global,
    f: &FocusAtoms<'_>,
    atom: usize,
    s: &Structure,
) -> Result<Option<Structures>, StageError>
    requires formula { AreAtomsOver (arities_of s.now) (form_of f.now) }
    requires atom { atom < length (focus_atoms (form_of f.now)) }
    ensures same { IfOk result
        (λ found. IfNone found (stage_tables s.now (form_of f.now) atom ≡ s.now ∷ [])) }
    ensures choices { IfOk result
        (λ found. IfSome found (λ ts. ts ≡ stage_tables s.now (form_of f.now) atom)) }
    ensures stage { OnOk result
        (AreStage s.now (form_of f.now) atom (stage_tables s.now (form_of f.now) atom)) }
    ensures within { OnOk result (IsWithinLimits s.now (form_of f.now) atom) }
    ensures cause { IfErr result (IsStageCause s.now (form_of f.now) atom) }
{
    let _ = s.size();
    let plan = planned(alloc, f, atom, s)?;
    if is_sharp(s, plan.pred, &plan.split) {
        return Ok(None);
    }
    match split_structures(alloc, s, plan.pred, &plan.split) {
        Ok(structures) => Ok(Some(structures)),
        Err(error) => Err(error),
    }
}

/// Whether the atom's values are known in the structure, so that its stage leaves the structure as it is. The
/// only error is lack of memory.
pub fn is_known(
    alloc: Global,
    f: &FocusAtoms<'_>,
    atom: usize,
    s: &Structure,
) -> Result<bool, AllocError>
    requires formula { AreAtomsOver (arities_of s.now) (form_of f.now) }
    requires atom { atom < length (focus_atoms (form_of f.now)) }
    ensures stage { IfOk result
        (λ known. IsTrue known → AreStage s.now (form_of f.now) atom (s.now ∷ [])) }
    ensures within { IfOk result (λ known. IsTrue known → IsWithinLimits s.now (form_of f.now) atom) }
{
    let _ = s.size();
    let plan = planned(alloc, f, atom, s)?;
    Ok(is_sharp(s, plan.pred, &plan.split))
}

/// One structure for each choice of a focus atom of the formula, in order: the atom `atom`, counted from 0,
/// is made definite at all tuples for which the structure's anchors stand, and all other values, the
/// summaries and the mark stay. Each heap that embeds in the structure, however large, embeds in one of those
/// given.
///
/// `Splits` comes exactly where there are over 4,096 choices, and `Individuals` exactly where there are not
/// and some choice has over 256 individuals.
pub fn focus_stage(
    alloc: Global,
    vocab: &Vocab,
    f: &Formula,
    atom: usize,
    s: &Structure,
) -> Result<Structures, StageError>
    requires over { IsOver vocab.now s.now }
    requires formula { AreAtomsOver (arities_of s.now) (form_of f.now) }
    requires atom { atom < length (focus_atoms (form_of f.now)) }
    ensures exact { IfOk result (λ ts. ts ≡ stage_tables s.now (form_of f.now) atom) }
    ensures stage { IfOk result (AreStage s.now (form_of f.now) atom) }
    ensures within { OnOk result (IsWithinLimits s.now (form_of f.now) atom) }
    ensures cause { IfErr result (IsStageCause s.now (form_of f.now) atom) }
    ensures heaps { IfOk result (KeepsHeaps s.now) }
{
    let _ = vocab;
    let atoms = FocusAtoms::new(alloc, f)?;
    match staged(alloc, &atoms, atom, s)? {
        None => Ok(one(alloc, s)?),
        Some(structures) => Ok(structures),
    }
}

/// The choices of an aim: made, where there are a few, and else ready to be made.
#[tactic(auto, using(crate::proofs::Limits::too_many, crate::proofs::Limits::too_large, crate::proofs::Limits::limits_kept))]
fn each_focused(alloc: Global, p: PredId, aim: Aim, s: Structure) -> Result<Focused, StageError>
    requires over { IsAimOver s p.0 (aim_of aim) }
    requires aim { IsAim s p.0 (aim_of aim) }
    ensures from { IfOk result (λ focused. focused_from focused ≡ s) }
    ensures exact { IfOk result (λ focused. structures_in focused
        ≡ map (chosen_table s p.0 (aim_of aim)) (choices (structure_of s) p.0 (aim_of aim))) }
    ensures ready { IfOk result CanBeMade }
    ensures within { OnOk result (AreLimitsKept s p.0 (aim_of aim)) }
    ensures cause { IfErr result (IsEachCause s p.0 (aim_of aim)) }
{
    let count = few_choices(&s, p, &aim);
    if count > MAX_CHOICES {
        return Err(StageError::Splits);
    }
    if largest_size(&s, p, &aim) > MAX_INDIVIDUALS {
        return Err(StageError::Individuals);
    }
    if count <= FEW_CHOICES {
        let structures = all_chosen(alloc, &s, p, &aim)?;
        return Ok(Focused::Choices(s, structures));
    }
    let sets = all_sets(alloc, &s, p, &aim)?;
    Ok(Focused::Many(s, Choosing { pred: p, aim, sets }))
}

/// What a split makes of a structure that isn't needed elsewhere.
fn split_focused(alloc: Global, plan: StagePlan, s: Structure) -> Result<Focused, StageError>
    requires over { IsSplitOver s plan.pred.0 (split_form plan.split) }
    requires aim { IsSplitAim s plan.pred.0 (split_form plan.split) }
    ensures from { IfOk result (λ focused. focused_from focused ≡ s) }
    ensures exact { IfOk result
        (λ focused. structures_in focused ≡ split_tables s plan.pred.0 (split_form plan.split)) }
    ensures ready { IfOk result CanBeMade }
    ensures within { OnOk result (AreSplitLimitsKept s plan.pred.0 (split_form plan.split)) }
    ensures cause { IfErr result (IsSplitCause s plan.pred.0 (split_form plan.split)) }
{
    let StagePlan { pred, split } = plan;
    match split {
        Split::Nothing => Ok(Focused::Same(s)),
        Split::Whole => {
            let structures = whole(alloc, &s, pred)?;
            Ok(Focused::Choices(s, structures))
        }
        Split::Each(aim) => each_focused(alloc, pred, aim, s),
    }
}

/// The stage of a structure that isn't needed elsewhere: where the atom's values are known, it is given back
/// as it is; where there are more than a few choices, they are ready to be made. Refusals are those of
/// `focus_stage`.
pub fn into_focused(
    alloc: Global,
    f: &FocusAtoms<'_>,
    atom: usize,
    s: Structure,
) -> Result<Focused, StageError>
    requires formula { AreAtomsOver (arities_of s) (form_of f.now) }
    requires atom { atom < length (focus_atoms (form_of f.now)) }
    ensures from { IfOk result (λ focused. focused_from focused ≡ s) }
    ensures ready { IfOk result CanBeMade }
    ensures exact { IfOk result (λ focused. structures_in focused ≡ stage_tables s (form_of f.now) atom) }
    ensures stage { IfOk result (λ focused. AreStage s (form_of f.now) atom (structures_in focused)) }
    ensures within { OnOk result (IsWithinLimits s (form_of f.now) atom) }
    ensures cause { IfErr result (IsStageCause s (form_of f.now) atom) }
    ensures heaps { IfOk result (λ focused. KeepsHeaps s (structures_in focused)) }
{
    let _ = s.size();
    let plan = planned(alloc, f, atom, &s)?;
    if is_sharp(&s, plan.pred, &plan.split) {
        return Ok(Focused::Same(s));
    }
    split_focused(alloc, plan, s)
}
