//! Rules.

ghost use Rattle.std.specs.Prelude.{◌≡◌, map};
ghost use Rattle.tv_tree.specs.Copies.{form_of as tree_of};
ghost use Rattle.tv_model.specs.Form.{form_of};
ghost use Rattle.tv_model.specs.Program.{head_of as head_form, rule_of};
ghost use Rattle.tv_names.specs.Refusal.{GivesOrRefuses, each};
ghost use Rattle.tv_names.specs.Copies.{symbols_of, place_form};
ghost use Rattle.tv_flat.specs.FlatForm.{rule_of as decl_of};
ghost use Rattle.tv_vocab.specs.Vocabulary.{anywhere, negated_head, head_of, rule};

use std::alloc::Global;
use tv_model::{Formula, Head, Rule};
use tv_names::{Known, Naming, Others, Place, ResolveError, Symbols, resolve_formula};
use tv_tree::trees::{FormulaTree, RuleDecl};

/// Where any variables may be free.
pub fn anywhere(symbols: &Symbols) -> Place<'_>
    ensures { place_form result ≡ anywhere (symbols_of symbols.now) }
{
    Place {
        symbols,
        with_new: false,
        known: Known::nothing(),
        others: Others::Any,
    }
}

fn negated_head(f: &Formula) -> Result<Head, ResolveError>
    ensures { GivesOrRefuses head_form result (negated_head (form_of f.now)) }
{
    match f {
        Formula::Atom(pred, terms) => Ok(Head::Atom(false, *pred, *terms)),
        Formula::Same(v, w) => Ok(Head::Same(false, *v, *w)),
        _ => Err(ResolveError::HeadForm),
    }
}

// What a head's formula demands.
fn head_of(f: &Formula) -> Result<Head, ResolveError>
    ensures { GivesOrRefuses head_form result (head_of (form_of f.now)) }
{
    match f {
        Formula::Zero => Ok(Head::Never),
        Formula::Atom(pred, terms) => Ok(Head::Atom(true, *pred, *terms)),
        Formula::Same(v, w) => Ok(Head::Same(true, *v, *w)),
        Formula::Not(g) => negated_head(g),
        _ => Err(ResolveError::HeadForm),
    }
}

#[tactic(auto, unfolding(crate::specs::Vocabulary::rule))]
fn rule(
    alloc: Global,
    symbols: &Symbols,
    body: &FormulaTree,
    head: &FormulaTree,
) -> Result<Rule, ResolveError>
    ensures { GivesOrRefuses rule_of result
        (rule (symbols_of symbols.now) (tree_of body.now) (tree_of head.now)) }
{
    let place = anywhere(symbols);
    let mut naming = Naming::new();
    let body = resolve_formula(alloc, &place, body, &mut naming)?;
    let demanded = resolve_formula(alloc, &place, head, &mut naming)?;
    let head = head_of(&demanded)?;
    Ok(Rule { body, head })
}

/// The rules, in their order.
pub fn rules(
    alloc: Global,
    symbols: &Symbols,
    decls: &[RuleDecl],
) -> Result<Vec<Rule>, ResolveError>
    ensures { GivesOrRefuses (λ rules. map rule_of rules.items) result
        (each (λ r. rule (symbols_of symbols.now) r.body r.head) (map decl_of decls.now)) }
{
    let mut rules = Vec::new(alloc);
    for decl in decls {
        rules.push(rule(alloc, symbols, &decl.body, &decl.head)?)?;
    }
    Ok(rules)
}
