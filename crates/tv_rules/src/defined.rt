//! Which base rules a predicate's definition makes.

ghost use Rattle.std.specs.Prelude.{◌≡◌, IsTrue, Contains, map, if◌then◌else◌};
ghost use Rattle.tv_model.specs.Form.{FNot, form_of, vars_of};
ghost use Rattle.tv_model.specs.Program.{KDefined, head_of, rule_of};
ghost use Rattle.tv_rules.specs.Closing.{definition_rules, dropped, dropped_rule};

use crate::conjuncts::dropped;
use tv_model::{Formula, Head, PredId, Rule, Terms};
use tv_quantifiers::is_same;

/// Whether the body is that of the definition, without the Exists that may be dropped, or its negation where
/// the flag is false.
fn is_body(own: &Formula, flag: bool, head: &Head, body: &Formula) -> bool
    ensures { IsTrue result → form_of own.now
        ≡ (if flag then dropped (head_of head.now) (form_of body.now) else FNot (form_of body.now)) }
{
    if flag {
        return is_same(own, dropped(head, body));
    }
    match own {
        Formula::Not(f) => is_same(f, body),
        _ => false,
    }
}

/// Whether the rule is one of the two of the predicate's definition.
pub fn is_defining(rule: &Rule, p: PredId, vars: Terms, body: &Formula) -> bool
    ensures { IsTrue result → Contains
        (map dropped_rule (definition_rules p.0 (KDefined (vars_of vars) (form_of body.now))))
        (rule_of rule.now) }
{
    match rule.head {
        Head::Atom(flag, q, own) => {
            q == p && own == vars && is_body(&rule.body, flag, &rule.head, body)
        }
        _ => false,
    }
}
