//! Copies of vocabularies and rules.

ghost use Rattle.std.specs.Prelude.{◌≡◌, map, IfOk};
ghost use Rattle.tv_model.specs.Program.{pred_of, rule_of};

use std::alloc::{AllocError, Global};
use tv_model::{Preds, Rules, Vocab, copy_pred, copy_rule};

/// A copy of the vocabulary.
#[tactic(auto, using(crate::proofs::Copies::copied_more))]
pub fn copy_vocab(alloc: Global, vocab: &Vocab) -> Result<Vocab, AllocError>
    ensures { IfOk result (λ x. map pred_of x.preds ≡ map pred_of vocab.now.preds) }
{
    let preds = vocab.preds.as_slice();
    let mut out = Vec::with_capacity(alloc, preds.len())?;
    for pred in preds {
        out.push(copy_pred(alloc, pred)?)?;
    }
    Ok(Vocab {
        preds: Preds::from_vec(out),
    })
}

/// A copy of the rules.
#[tactic(auto, using(crate::proofs::Copies::copied_more))]
pub fn copy_rules(alloc: Global, rules: &Rules) -> Result<Rules, AllocError>
    ensures { IfOk result (λ x. map rule_of x ≡ map rule_of rules.now) }
{
    let rules = rules.as_slice();
    let mut out = Vec::with_capacity(alloc, rules.len())?;
    for rule in rules {
        out.push(copy_rule(alloc, rule)?)?;
    }
    Ok(Rules::from_vec(out))
}
