//! How many items and formula nodes may still come.

ghost use Rattle.std.specs.Prelude.{◌≡◌, ◌+◌, ℕ, min, map, sum_by};
ghost use Rattle.tv_tree.specs.Copies.{form_of, pred_of};
ghost use Rattle.tv_expand.specs.Outcome.{GivesExpansion};
ghost use Rattle.tv_flat.specs.FlatForm.{nodes, pred_nodes};
ghost use Rattle.tv_expand.specs.Expansion.{counted};
ghost use Rattle.tv_expand.specs.States.{room_of};

use crate::error::ExpandError;
use tv_flat::{formula_nodes, formulas_nodes, pred_nodes, rule_nodes};
use tv_tree::trees::{FormulaTree, PredDecl};

/// How many items, and how many formula nodes in them, may still come.
#[derive(Clone, Copy, Debug)]
pub struct Room {
    pub items: u32,
    pub nodes: u32,
}

impl Room {
    // What is left behind an item with this many nodes.
    #[tactic(auto, using(crate::proofs::RoomLaws::room_enough, crate::proofs::RoomLaws::room_empty, crate::proofs::RoomLaws::room_short))]
    fn count(self, item_nodes: u64) -> Result<Room, ExpandError>
        ensures { (n : ℕ) → item_nodes ≡ min n u64.MAX
            → GivesExpansion room_of result (counted n (room_of self)) }
    {
        if self.items == 0 {
            return Err(ExpandError::TooManyItems);
        }
        if item_nodes > u64::from(self.nodes) {
            return Err(ExpandError::TooManyItems);
        }
        Ok(Room {
            items: self.items - 1,
            nodes: self.nodes - item_nodes as u32,
        })
    }

    /// What is left behind an item without formulas.
    pub fn count_none(self) -> Result<Room, ExpandError>
        ensures { GivesExpansion room_of result (counted 0 (room_of self)) }
    {
        self.count(0)
    }

    /// What is left behind an item with this formula.
    pub fn count_formula(self, f: &FormulaTree) -> Result<Room, ExpandError>
        ensures { GivesExpansion room_of result (counted (nodes (form_of f.now)) (room_of self)) }
    {
        self.count(formula_nodes(f))
    }

    /// What is left behind an item with these formulas.
    pub fn count_formulas(self, formulas: &[FormulaTree]) -> Result<Room, ExpandError>
        ensures { GivesExpansion room_of result
            (counted (sum_by nodes (map form_of formulas.now)) (room_of self)) }
    {
        self.count(formulas_nodes(formulas))
    }

    /// What is left behind a predicate's declaration.
    pub fn count_pred(self, pred: &PredDecl) -> Result<Room, ExpandError>
        ensures { GivesExpansion room_of result (counted (pred_nodes (pred_of pred.now)) (room_of self)) }
    {
        self.count(pred_nodes(pred))
    }

    /// What is left behind a rule.
    pub fn count_rule(self, body: &FormulaTree, head: &FormulaTree) -> Result<Room, ExpandError>
        ensures { GivesExpansion room_of result
            (counted (nodes (form_of body.now) + nodes (form_of head.now)) (room_of self)) }
    {
        self.count(rule_nodes(body, head))
    }
}
