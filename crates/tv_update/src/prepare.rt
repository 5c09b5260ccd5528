//! What is read in the middle structure.

ghost use Rattle.std.specs.Prelude.{◌≡◌, ◌≤◌, IsTrue, IfOk, IfErr, OnOk};
ghost use Rattle.tv_structure_form.specs.Halves.{row_halves};
ghost use Rattle.tv_structure_form.specs.StructureForm.{StructureForm, IsStructure};
ghost use Rattle.tv_eval.specs.Bound.{bound_structure, bound_room};
ghost use Rattle.tv_update.specs.Applying.{CanBeApplied, IsUpdated, values_to_keep};
ghost use Rattle.tv_update.specs.Staying.{AllStay, IsStaying};
ghost use Rattle.tv_update.specs.Updated.{IsPrepareCause};

use crate::application::Application;
use crate::kept::{Staying, halves};
use crate::rows::Rows;
use crate::updates::make_all;
use std::alloc::{AllocError, Global};
use tv_eval::Evaluator;
use tv_kleene::K3;
use tv_row::Row;
use tv_struct::{StageError, Structure};

/// With more unknown values of the retain formula than these there are over 4,096 choices.
const MAX_HALVES: u32 = 12;

/// What is read in the middle structure: the updated values, of all its individuals, and which of them stay.
#[derive(Debug, Drop)]
pub struct Prepared {
    pub updated: Structure,
    pub staying: Staying,
}

/// The values of a row as a list.
fn listed(alloc: Global, row: &Row) -> Result<Vec<K3>, AllocError>
    ensures { IfOk result (λ values. values.items ≡ row.now) }
{
    let mut values = Vec::with_capacity(alloc, row.size() as usize)?;
    for u in 0..row.size() {
        values.push(row.get(u))?;
    }
    Ok(values)
}

/// The values of the retain formula, individual by individual; `Yes` where there is none.
fn keep_row<'a>(applied: &Application<'a>, middle: &Structure, e: &mut Evaluator<'_, 'a>) -> Row
    requires structure { bound_structure e.old ≡ middle.now }
    requires can { CanBeApplied applied.now middle.now (bound_room e.old) }
    ensures values { result ≡ values_to_keep applied.now middle.now }
    ensures same { e.new ≡ e.old }
{
    match &applied.action.retain {
        None => Row::of(middle.size(), K3::Yes),
        Some(retain) => e.row(&retain.keep, retain.var, applied.picks),
    }
}

/// Which individuals stay by these values of the retain formula.
fn staying_by(alloc: Global, keep: &Row) -> Result<Staying, StageError>
    ensures staying { IfOk result (IsStaying keep.now) }
    ensures few { OnOk result (row_halves keep.now ≤ 12) }
    ensures cause { IfErr result (IsPrepareCause keep.now) }
{
    if keep.are_yes() {
        return Ok(Staying::Whole);
    }
    let _ = keep.size();
    let values = listed(alloc, keep)?;
    if halves(values.as_slice()) > MAX_HALVES {
        return Err(StageError::Splits);
    }
    Ok(Staying::By(values))
}

/// Whether there is no retain formula.
pub fn stays_unasked(applied: &Application) -> bool
    ensures { IsTrue result → (middle : StructureForm) → AllStay (values_to_keep applied.now middle) }
{
    match &applied.action.retain {
        None => true,
        Some(_) => false,
    }
}

/// Which individuals stay. `Splits` comes where there are over 4,096 choices.
fn staying<'a>(
    alloc: Global,
    applied: &Application<'a>,
    middle: &Structure,
    e: &mut Evaluator<'_, 'a>,
) -> Result<Staying, StageError>
    requires structure { bound_structure e.old ≡ middle.now }
    requires can { CanBeApplied applied.now middle.now (bound_room e.old) }
    ensures staying { IfOk result (IsStaying (values_to_keep applied.now middle.now)) }
    ensures few { OnOk result (row_halves (values_to_keep applied.now middle.now) ≤ 12) }
    ensures cause { IfErr result (IsPrepareCause (values_to_keep applied.now middle.now)) }
    ensures same { e.new ≡ e.old }
{
    if stays_unasked(applied) {
        return Ok(Staying::Whole);
    }
    staying_by(alloc, &keep_row(applied, middle, e))
}

/// The structure with the updates that count.
fn updated<'a>(
    alloc: Global,
    applied: &Application<'a>,
    middle: &Structure,
    e: &mut Evaluator<'_, 'a>,
) -> Result<Structure, AllocError>
    requires structure { bound_structure e.old ≡ middle.now }
    requires can { CanBeApplied applied.now middle.now (bound_room e.old) }
    ensures made { IfOk result (IsUpdated applied.now middle.now) }
    ensures kept { IfOk result IsStructure }
    ensures same { e.new ≡ e.old }
{
    let mut t = middle.copy(alloc)?;
    let mut rows = Rows::new(alloc, middle.size());
    make_all(
        applied,
        e,
        applied.action.updates.as_slice(),
        &mut t,
        &mut rows,
    )?;
    Ok(t)
}

/// Reads all that is read in the middle structure. `Splits` comes where there are over 4,096
/// choices.
pub fn prepare<'a>(
    alloc: Global,
    applied: &Application<'a>,
    middle: &Structure,
    e: &mut Evaluator<'_, 'a>,
) -> Result<Prepared, StageError>
    requires structure { bound_structure e.old ≡ middle.now }
    requires can { CanBeApplied applied.now middle.now (bound_room e.old) }
    ensures staying { IfOk result
        (λ x. IsStaying (values_to_keep applied.now middle.now) x.staying) }
    ensures few { OnOk result (row_halves (values_to_keep applied.now middle.now) ≤ 12) }
    ensures made { IfOk result (λ x. IsUpdated applied.now middle.now x.updated) }
    ensures cause { IfErr result (IsPrepareCause (values_to_keep applied.now middle.now)) }
    ensures same { e.new ≡ e.old }
{
    let _ = middle.size();
    let staying = staying(alloc, applied, middle, e)?;
    let updated = updated(alloc, applied, middle, e)?;
    Ok(Prepared { updated, staying })
}
