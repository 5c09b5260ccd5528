//! The program that makes one declaration alone.

ghost use Rattle.std.specs.Prelude.{◌≡◌, [], ◌∷◌, IfOk, OnOk, map, codes};
ghost use Rattle.tv_model.specs.Program.{action_of, pred_of, program_of, rule_of};
ghost use Rattle.tv_losses_unmet.specs.Alone.{alone, idle, kept_pred, loop_edge, plain_pred, preds_alone};
ghost use Rattle.tv_losses_unmet.specs.Alone.{rules_alone};
ghost use Rattle.tv_losses_unmet.specs.Kept.{IsOfRule};
ghost use Rattle.tv_losses_unmet.specs.declared.claim.Claim.TheVariants.{Rule as OfRule};

use crate::claim::Claim;
use std::alloc::{AllocError, Global};
use tv_model::{
    Action, Actions, Bytes, Edge, Edges, Items, Kind, NO_PROPS, Names, Pred, Preds, Program, Rule,
    Rules, Vocab, copy_bytes, copy_pred, copy_rule,
};

/// The predicate without what is declared of it.
fn plain_pred(alloc: Global, pred: &Pred) -> Result<Pred, AllocError>
    ensures { IfOk result (λ x. pred_of x ≡ plain_pred (pred_of pred.now)) }
{
    let name = copy_bytes(alloc, &pred.name)?;
    Ok(Pred {
        name,
        arity: pred.arity,
        kind: Kind::Core,
        abs: pred.abs,
        props: NO_PROPS,
    })
}

fn kept_pred(alloc: Global, on: bool, pred: &Pred) -> Result<Pred, AllocError>
    ensures { IfOk result (λ x. pred_of x ≡ kept_pred on (pred_of pred.now)) }
{
    if on {
        copy_pred(alloc, pred)
    } else {
        plain_pred(alloc, pred)
    }
}

/// The predicates, of which nothing but the claim is declared.
fn preds_alone(alloc: Global, preds: &[Pred], claim: Claim) -> Result<Preds, AllocError>
    ensures { IfOk result (λ all. map pred_of all ≡ preds_alone claim 0 (map pred_of preds.now)) }
{
    let mut all = Items::new(alloc);
    for (number, pred) in preds.iter().enumerate() {
        all.push(kept_pred(alloc, claim.is_of(number), pred)?)?;
    }
    Ok(all)
}

/// A list of one element.
fn single<T: Drop>(alloc: Global, item: T) -> Result<Items<T>, AllocError>
    ensures { IfOk result (λ items. items ≡ item ∷ []) }
{
    let mut items = Items::new(alloc);
    items.push(item)?;
    Ok(items)
}

/// The rule that the claim is, if it is one.
fn rules_alone(alloc: Global, rules: &[Rule], claim: Claim) -> Result<Rules, AllocError>
    ensures { IfOk result (λ all. map rule_of all ≡ rules_alone claim (map rule_of rules.now)) }
{
    let Claim::Rule(number) = claim else {
        return Ok(Items::new(alloc));
    };
    match rules.get(number) {
        None => Ok(Items::new(alloc)),
        Some(rule) => single(alloc, copy_rule(alloc, rule)?),
    }
}

/// An action that does nothing.
fn idle(alloc: Global) -> Action
    ensures { action_of result ≡ idle }
{
    Action {
        pre: None,
        picks: Items::new(alloc),
        focus: Items::new(alloc),
        messages: Items::new(alloc),
        fresh: false,
        retain: None,
        updates: Items::new(alloc),
    }
}

fn idle_actions(alloc: Global) -> Result<Actions, AllocError>
    ensures { IfOk result (λ all. map action_of all ≡ idle ∷ []) }
{
    single(alloc, idle(alloc))
}

fn loop_edges(alloc: Global) -> Result<Edges, AllocError>
    ensures { IfOk result (λ all. all ≡ loop_edge ∷ []) }
{
    single(
        alloc,
        Edge {
            from: 0,
            action: 0,
            to: 0,
        },
    )
}

fn node_names(alloc: Global) -> Result<Names, AllocError>
    ensures { IfOk result (λ all. all ≡ codes "L" ∷ []) }
{
    single(alloc, Bytes::from_vec(Vec::from_slice(alloc, b"L")?))
}

/// The program over the same predicates that makes this claim alone.
pub fn alone(alloc: Global, program: &Program, claim: Claim) -> Result<Program, AllocError>
    ensures { IfOk result (λ x. program_of x ≡ alone claim (program_of program.now)) }
{
    let preds = preds_alone(alloc, program.vocab.preds.as_slice(), claim)?;
    let rules = rules_alone(alloc, program.rules.as_slice(), claim)?;
    let actions = idle_actions(alloc)?;
    let edges = loop_edges(alloc)?;
    let nodes = node_names(alloc)?;
    Ok(Program {
        vocab: Vocab { preds },
        rules,
        actions,
        edges,
        nodes,
    })
}

/// Puts the rule of this number in the place of that which `made` makes alone.
pub fn exchange_rule(
    alloc: Global,
    program: &Program,
    made: &mut Program,
    number: usize,
) -> Result<(), AllocError>
    requires { IsOfRule (program_of program.now) (program_of made.old) }
    ensures { OnOk result (program_of made.new ≡ alone (OfRule number) (program_of program.now)) }
{
    made.rules = rules_alone(alloc, program.rules.as_slice(), Claim::Rule(number))?;
    Ok(())
}
