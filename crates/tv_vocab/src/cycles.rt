//! Whether a definition rests on itself.

ghost use Rattle.std.specs.Prelude.{◌≡◌, map, IfOk};
ghost use Rattle.tv_model.specs.Program.{pred_of, kind_of};
ghost use Rattle.tv_vocab.specs.Vocabulary.{mentioned_by, uses_of};
ghost use Rattle.tv_vocab.specs.Cycles.{has_cycle};

use crate::walk::finds_cycle;
use std::alloc::{AllocError, Global};
use tv_model::{Kind, Pred, push_mentioned};

fn uses_of(alloc: Global, kind: &Kind) -> Result<Vec<u32>, AllocError>
    ensures { IfOk result (λ uses. uses.items ≡ mentioned_by (kind_of kind.now)) }
{
    let mut uses = Vec::new(alloc);
    if let Kind::Defined { body, .. } = kind {
        push_mentioned(body, &mut uses)?;
    }
    Ok(uses)
}

fn all_uses(alloc: Global, preds: &[Pred]) -> Result<Vec<Vec<u32>>, AllocError>
    ensures { IfOk result (λ uses. map (λ one. one.items) uses.items ≡ uses_of (map pred_of preds.now)) }
{
    let mut uses = Vec::new(alloc);
    for pred in preds {
        uses.push(uses_of(alloc, &pred.kind)?)?;
    }
    Ok(uses)
}

/// Whether some definition rests on itself, directly or through others.
pub fn has_cycle(alloc: Global, preds: &[Pred]) -> Result<bool, AllocError>
    ensures { IfOk result (λ found. found ≡ has_cycle (uses_of (map pred_of preds.now))) }
{
    let uses = all_uses(alloc, preds)?;
    finds_cycle(alloc, &uses)
}
