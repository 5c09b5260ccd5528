//! A whole program.

ghost use Rattle.std.specs.Prelude.{◌≡◌, IfOk, Ok};
ghost use Rattle.tv_tree.specs.Copies.{program_of};
ghost use Rattle.tv_tree.specs.Spelled.{IsSpelled};
ghost use Rattle.tv_expand.specs.Outcome.{GivesExpansion};
ghost use Rattle.tv_flat.specs.FlatForm.{flat_of, IsFlat};
ghost use Rattle.tv_expand.specs.Expansion.{expansion};
ghost use Rattle.tv_expand.specs.Origins.{rule_origins};

use crate::declare::{Declared, declare_program};
use crate::error::ExpandError;
use crate::wiring::{declare_actions, wire_all};
use std::alloc::Global;
use tv_flat::Flat;
use tv_tree::Items;
use tv_tree::trees::Tree;

/// The flat form of a program, and for each of its rules, in order, the mark of the declaration that it comes
/// from.
#[derive(Drop)]
pub struct Expanded<'a> {
    pub flat: Flat<'a>,
    pub origins: Vec<u32>,
}

/// The flat form of a program, as `expand` gives it, with the origins of its rules. The marks are those of
/// the declarations of rules in the order in which they are written, say the places where these stand; a
/// declaration that has no mark counts as one whose mark is 0.
///
/// # Errors
/// Those of `expand`.
pub fn expand_marked<'a>(
    alloc: Global,
    t: &Tree<'a>,
    marks: &[u32],
) -> Result<Expanded<'a>, ExpandError>
    ensures exact { GivesExpansion (λ e. flat_of e.flat) result (expansion (program_of t.now)) }
    ensures flat { IfOk result (λ e. IsSpelled (program_of t.now) → IsFlat (flat_of e.flat)) }
    ensures origins { IfOk result (λ e. rule_origins marks.now (program_of t.now) ≡ Ok e.origins.items) }
{
    let declared = declare_program(alloc, marks, &t.decls)?;
    let actions = declare_actions(alloc, t.actions.as_slice())?;
    let Declared {
        sets,
        preds,
        rules,
        origins,
        room,
    } = declared;
    let wired = wire_all(alloc, &sets, &actions, room, t.edges.as_slice())?;
    let flat = Flat {
        preds: Items::from_vec(preds),
        rules: Items::from_vec(rules),
        actions: Items::from_vec(wired.actions),
        edges: Items::from_vec(wired.edges),
    };
    Ok(Expanded { flat, origins })
}

/// The flat form of a program: sets, `foreach` and the parameters of actions are put in. Where the tree
/// is well spelled, the flat form is within the limits and well spelled, and its edges take actions
/// that are there.
///
/// # Errors
/// The first condition that is met, in the order of declarations, actions and edges.
pub fn expand<'a>(alloc: Global, t: &Tree<'a>) -> Result<Flat<'a>, ExpandError>
    ensures exact { GivesExpansion flat_of result (expansion (program_of t.now)) }
    ensures flat { IfOk result (λ f. IsSpelled (program_of t.now) → IsFlat (flat_of f)) }
{
    let Expanded { flat, origins: _ } = expand_marked(alloc, t, &[])?;
    Ok(flat)
}
