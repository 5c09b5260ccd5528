//! Whether a plain heap meets the rules of a program's properties.

ghost use Rattle.std.specs.Prelude.{◌≡◌, ◌↔◌, ◌≤◌, IsTrue, IfOk, All, length, map};
ghost use Rattle.tv_model.specs.Program.{pred_of, EachPred};
ghost use Rattle.tv_model.specs.Rules.{MeetsRule, property_rules};
ghost use Rattle.tv_concrete.specs.Lists.{heap_of};

use crate::{HeapList, meets_rules};
use std::alloc::{AllocError, Global};
use tv_model::{Items, Pred, PredId, Props, push_properties};

/// Whether the heap meets the rule of each declared property of each predicate.
pub fn meets_all_properties(
    alloc: Global,
    heap: &HeapList,
    preds: &[Pred],
) -> Result<bool, AllocError>
    requires { length preds.now ≤ 512 }
    ensures { IfOk result (λ b. IsTrue b
        ↔ EachPred (map pred_of preds.now)
        (λ q d. All (MeetsRule (heap_of heap.now)) (property_rules q d.props))) }
{
    for (q, pred) in preds.iter().enumerate() {
        if !meets_properties(alloc, heap, PredId(q as u32), &pred.props)? {
            return Ok(false);
        }
    }
    Ok(true)
}

fn meets_properties(
    alloc: Global,
    heap: &HeapList,
    p: PredId,
    props: &Props,
) -> Result<bool, AllocError>
    ensures { IfOk result
        (λ b. IsTrue b ↔ All (MeetsRule (heap_of heap.now)) (property_rules p.0 props.now)) }
{
    let mut rules = Items::new(alloc);
    push_properties(alloc, p, *props, &mut rules)?;
    meets_rules(alloc, heap, rules.as_slice())
}
