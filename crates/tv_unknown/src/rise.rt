//! Predicates that are unknown at more tuples in one structure than in another.

ghost use Rattle.std.specs.Prelude.{◌≡◌, ◌<◌, ◌-◌, ◌++◌, IfOk, OnOk, length};
ghost use Rattle.tv_structure_form.specs.StructureForm.{arities_of};
ghost use Rattle.tv_unknown.specs.Unknown.{rise_by, rises, unknown_count};

use crate::count::unknown_count;
use std::alloc::{AllocError, Global};
use tv_model::{Items, PredId};
use tv_struct::{Structure, Table};

/// A predicate, by its number, and at how many more tuples it is unknown.
#[derive(Clone, Copy, Debug, PartialEq, Eq)]
pub struct Rise {
    pub pred: u32,
    pub more: u32,
}

/// A list of these.
pub type Rises = Items<Rise>;

/// Appends the predicate, where it is unknown at more tuples in the second structure.
fn push_rise(
    rises: &mut Rises,
    pred: u32,
    before: &Structure,
    after: &Structure,
) -> Result<(), AllocError>
    requires before { pred < length (arities_of before.now) }
    requires after { pred < length (arities_of after.now) }
    ensures { OnOk result (rises.new
        ≡ rises.old ++ rise_by pred (unknown_count after.now pred - unknown_count before.now pred)) }
{
    let old = unknown_count(before, PredId(pred));
    let new = unknown_count(after, PredId(pred));
    if old < new {
        rises.push(Rise {
            pred,
            more: new - old,
        })?;
    }
    Ok(())
}

/// The predicates that are unknown at more tuples in the second structure than in the first, in their order,
/// each with how many more. The two are over the same predicates. The only error is lack of memory.
pub fn rises(alloc: Global, before: &Structure, after: &Structure) -> Result<Rises, AllocError>
    requires { arities_of after.now ≡ arities_of before.now }
    ensures { IfOk result (λ found. found ≡ rises before.now after.now) }
{
    let mut found = Items::new(alloc);
    for pred in 0..before.pred_count() {
        push_rise(&mut found, pred, before, after)?;
    }
    Ok(found)
}
