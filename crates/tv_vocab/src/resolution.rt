//! The whole of resolution.

ghost use Rattle.std.specs.Prelude.{◌≡◌, map, IfOk};
ghost use Rattle.tv_model.specs.Program.{program_of};
ghost use Rattle.tv_model.specs.Valid.{IsValid};
ghost use Rattle.tv_flat.specs.FlatForm.{flat_of};
ghost use Rattle.tv_names.specs.Refusal.{GivesOrRefuses};
ghost use Rattle.tv_vocab.specs.Premise.{IsResolvable};
ghost use Rattle.tv_vocab.specs.Resolution.{program};

use crate::actions::actions;
use crate::draw::draw;
use crate::rules::rules;
use crate::vocabulary::{Declared, vocabulary};
use std::alloc::Global;
use tv_flat::Flat;
use tv_model::{Items, Program, Vocab};
use tv_names::ResolveError;

#[tactic(auto, unfolding(crate::specs::Resolution::program))]
fn flat_program(alloc: Global, flat: &Flat<'_>) -> Result<Program, ResolveError>
    ensures { GivesOrRefuses program_of result (program (flat_of flat.now)) }
{
    let declared = vocabulary(alloc, flat.preds.as_slice())?;
    let rules = rules(alloc, &declared.symbols, flat.rules.as_slice())?;
    let flat_actions = flat.actions.as_slice();
    let actions = actions(alloc, &declared.symbols, &declared.preds, flat_actions)?;
    let drawn = draw(alloc, flat.edges.as_slice())?;
    let Declared { symbols: _, preds } = declared;
    Ok(Program {
        vocab: Vocab {
            preds: Items::from_vec(preds),
        },
        rules: Items::from_vec(rules),
        actions: Items::from_vec(actions),
        edges: drawn.edges,
        nodes: drawn.nodes,
    })
}

/// The program that a flat tree stands for, or the refusal that is met first: predicates and their
/// definitions come first, then rules, then actions, then nodes and edges. Each refusal but
/// `Memory` comes exactly where the definition of the program gives it. The program is valid where
/// there are at most 65,536 items, names, node words and texts are well spelled, and each edge's action is
/// there, as in what expansion gives of a tree that was read.
pub fn resolve(alloc: Global, flat: &Flat<'_>) -> Result<Program, ResolveError>
    ensures program { GivesOrRefuses program_of result (program (flat_of flat.now)) }
    ensures valid { IsResolvable (flat_of flat.now) → IfOk result (λ p. IsValid (program_of p)) }
{
    flat_program(alloc, flat)
}
