//! The base rules of a program: those of its predicates' properties and definitions, and the declared
//! ones, each without the Exists that may be dropped.

ghost use Rattle.std.specs.Prelude.{◌≡◌, ◌≤◌, [], ◌∷◌, ◌++◌, length, map, IfOk, OnOk};
ghost use Rattle.tv_model.specs.Form.{form_of};
ghost use Rattle.tv_model.specs.Program.{head_of, kind_of, pred_of, rule_of, program_of};
ghost use Rattle.tv_rules.specs.Closing.{base_rules, pred_rules, rules_from, definition_rules, dropped_rule};
ghost use Rattle.tv_rules.specs.Closing.{rule_of_parts};

use crate::conjuncts::dropped;
use std::alloc::{AllocError, Global};
use tv_model::{
    Formula, Head, Items, Kind, Pred, PredId, Program, Rule, Rules, copy, push_properties,
};

/// The base rules of the program: predicate by predicate those of its properties and of its definition,
/// then the declared ones.
pub fn base_rules(alloc: Global, program: &Program) -> Result<Rules, AllocError>
    requires { length program.now.vocab.preds ≤ 512 }
    ensures { IfOk result
        (λ rules. map rule_of rules ≡ map dropped_rule (base_rules (program_of program.now))) }
{
    let mut rules = Items::new(alloc);
    push_preds(alloc, program.vocab.preds.as_slice(), &mut rules)?;
    push_rules(alloc, program.rules.as_slice(), &mut rules)?;
    Ok(rules)
}

fn push_preds(alloc: Global, preds: &[Pred], rules: &mut Rules) -> Result<(), AllocError>
    requires { length preds.now ≤ 512 }
    ensures { OnOk result (map rule_of rules.new
        ≡ map rule_of rules.old ++ map dropped_rule (rules_from 0 (map pred_of preds.now))) }
{
    for (number, pred) in preds.iter().enumerate() {
        push_pred(alloc, PredId(number as u32), pred, rules)?;
    }
    Ok(())
}

fn push_rules(alloc: Global, declared: &[Rule], rules: &mut Rules) -> Result<(), AllocError>
    ensures { OnOk result (map rule_of rules.new
        ≡ map rule_of rules.old ++ map dropped_rule (map rule_of declared.now)) }
{
    for rule in declared {
        push_dropped(alloc, &rule.body, rule.head, rules)?;
    }
    Ok(())
}

fn push_pred(alloc: Global, p: PredId, pred: &Pred, rules: &mut Rules) -> Result<(), AllocError>
    ensures { OnOk result (map rule_of rules.new
        ≡ map rule_of rules.old ++ map dropped_rule (pred_rules p.0 (pred_of pred.now))) }
{
    push_properties(alloc, p, pred.props, rules)?;
    push_definition(alloc, p, &pred.kind, rules)
}

/// Puts the two rules of a definition behind the list: where the body is true the predicate holds, and
/// nowhere else.
fn push_definition(
    alloc: Global,
    p: PredId,
    kind: &Kind,
    rules: &mut Rules,
) -> Result<(), AllocError>
    ensures { OnOk result (map rule_of rules.new
        ≡ map rule_of rules.old ++ map dropped_rule (definition_rules p.0 (kind_of kind.now))) }
{
    match kind {
        Kind::Core => Ok(()),
        Kind::Defined { vars, body } => {
            push_dropped(alloc, body, Head::Atom(true, p, *vars), rules)?;
            let not_body = Formula::Not(Box::new(alloc, copy(alloc, body)?)?);
            rules.push(Rule {
                body: not_body,
                head: Head::Atom(false, p, *vars),
            })
        }
    }
}

fn push_dropped(
    alloc: Global,
    body: &Formula,
    head: Head,
    rules: &mut Rules,
) -> Result<(), AllocError>
    ensures { OnOk result (map rule_of rules.new
        ≡ map rule_of rules.old ++ dropped_rule (rule_of_parts (form_of body.now) (head_of head)) ∷ []) }
{
    let body = copy(alloc, dropped(&head, body))?;
    rules.push(Rule { body, head })
}
