//! The limits on items and formula nodes, and how many nodes there are, counted up to the largest number.

ghost use Rattle.std.specs.Prelude.{◌≡◌, ◌+◌, min, map, sum_by};
ghost use Rattle.tv_tree.specs.Copies.{form_of, pred_of_body, pred_of};
ghost use Rattle.tv_flat.specs.FlatForm.{nodes, body_nodes, pred_nodes};

use tv_tree::trees::{FormulaTree, PredDecl};

/// The most items of a flat program.
pub const MAX_ITEMS: u32 = 65_536;

/// The most formula nodes in the items of a flat program.
pub const MAX_NODES: u32 = 1_048_576;

fn plus(a: u64, b: u64) -> u64
    ensures { result ≡ min (a + b) u64.MAX }
{
    a.saturating_add(b)
}

/// The nodes of a formula as it is written.
pub fn formula_nodes(f: &FormulaTree) -> u64
    ensures { result ≡ min (nodes (form_of f.now)) u64.MAX }
{
    match f {
        FormulaTree::Zero
        | FormulaTree::One
        | FormulaTree::Half
        | FormulaTree::Same(_, _)
        | FormulaTree::Differ(_, _)
        | FormulaTree::Atom(_, _)
        | FormulaTree::Star(_, _, _)
        | FormulaTree::Plus(_, _, _) => 1,
        FormulaTree::Paren(g)
        | FormulaTree::Not(g)
        | FormulaTree::Exists(_, g)
        | FormulaTree::Forall(_, g) => plus(1, formula_nodes(g)),
        FormulaTree::And(g, h)
        | FormulaTree::Or(g, h)
        | FormulaTree::Imp(g, h)
        | FormulaTree::Iff(g, h) => plus(1, plus(formula_nodes(g), formula_nodes(h))),
        FormulaTree::Cond(test, g, h) => {
            plus(
                1,
                plus(
                    formula_nodes(test),
                    plus(formula_nodes(g), formula_nodes(h)),
                ),
            )
        }
        FormulaTree::Tc { body, .. } => plus(1, formula_nodes(body)),
    }
}

/// The nodes of formulas together.
#[tactic(auto, using(crate::proofs::NodeLaws::sum_more, crate::proofs::NodeLaws::sum_done))]
pub fn formulas_nodes(formulas: &[FormulaTree]) -> u64
    ensures { result ≡ min (sum_by nodes (map form_of formulas.now)) u64.MAX }
{
    let mut sum = 0;
    for formula in formulas {
        sum = plus(sum, formula_nodes(formula));
    }
    sum
}

fn body_nodes(body: &Option<FormulaTree>) -> u64
    ensures { result ≡ min (body_nodes (pred_of_body body.now)) u64.MAX }
{
    match body {
        None => 0,
        Some(f) => formula_nodes(f),
    }
}

/// The nodes of a predicate's definition, if it has one.
pub fn pred_nodes(pred: &PredDecl) -> u64
    ensures { result ≡ min (pred_nodes (pred_of pred.now)) u64.MAX }
{
    body_nodes(&pred.body)
}

/// The nodes of a rule.
pub fn rule_nodes(body: &FormulaTree, head: &FormulaTree) -> u64
    ensures { result ≡ min (nodes (form_of body.now) + nodes (form_of head.now)) u64.MAX }
{
    plus(formula_nodes(body), formula_nodes(head))
}
