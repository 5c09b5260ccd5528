//! Flat programs: their items, the limits on them, and copies of items in which words are replaced.
#![tactic(auto)]

mod binding;
mod copies;
mod flat;
mod nodes;

pub use binding::{Bound, Params, Scope, bind, put_param, replaced, with_params};
pub use copies::{
    flat_formula, flat_formulas, flat_pred, flat_rule, flat_update, one_text, spelling,
};
pub use flat::{Flat, FlatAction, FlatActions, FlatEdge, FlatEdges, FlatPreds, FlatRules};
pub use nodes::{MAX_ITEMS, MAX_NODES, formula_nodes, formulas_nodes, pred_nodes, rule_nodes};
