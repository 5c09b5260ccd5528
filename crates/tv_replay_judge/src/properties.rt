//! The rules that the properties of predicates stand for.

ghost use Rattle.std.specs.Prelude.{◌≡◌, ◌≤◌, length, map, IfOk};
ghost use Rattle.tv_model.specs.Program.{pred_of, rule_of};
ghost use Rattle.tv_replay_laws.specs.JudgedRules.{rules_of_properties};

use std::alloc::{AllocError, Global};
use tv_model::{Items, Pred, PredId, Rules, push_properties};

/// The rules that the properties stand for, predicate by predicate.
pub fn property_rules(alloc: Global, preds: &[Pred]) -> Result<Rules, AllocError>
    requires { length preds.now ≤ 512 }
    ensures { IfOk result (λ rules. map rule_of rules ≡ rules_of_properties 0 (map pred_of preds.now)) }
{
    let mut rules = Items::new(alloc);
    for (number, pred) in preds.iter().enumerate() {
        push_properties(alloc, PredId(number as u32), pred.props, &mut rules)?;
    }
    Ok(rules)
}
