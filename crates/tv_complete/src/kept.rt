//! The definitions that are evaluated, as a program.

ghost use Rattle.std.specs.Prelude.{◌≡◌, ◌∷◌, [], map, codes, IfOk};
ghost use Rattle.tv_model.specs.Program.{program_of, pred_of, action_of};
ghost use Rattle.tv_model.specs.Valid.{IsValid};
ghost use Rattle.tv_structure_form.specs.StructureForm.{StructureForm, IsOver};
ghost use Rattle.tv_complete.specs.Kept.{core_if_named, idle_action, idle_edge, definitions_but};

use std::alloc::{AllocError, Global};
use tv_model::{Action, Bytes, Edge, Items, Kind, Names, Pred, Program, Vocab, copy_pred};
use tv_tree::{Spelling, is_among};

/// The predicate, without its definition where it is named.
fn core_if_named(alloc: Global, names: &[Spelling], pred: &Pred) -> Result<Pred, AllocError>
    ensures { IfOk result (λ x. pred_of x ≡ core_if_named names.now (pred_of pred.now)) }
{
    let mut kept = copy_pred(alloc, pred)?;
    if is_among(names, pred.name.as_slice()) {
        kept.kind = Kind::Core;
    }
    Ok(kept)
}

fn kept_preds(alloc: Global, names: &[Spelling], preds: &[Pred]) -> Result<Items<Pred>, AllocError>
    ensures { IfOk result
        (λ xs. map pred_of xs ≡ map (core_if_named names.now) (map pred_of preds.now)) }
{
    let mut kept = Vec::new(alloc);
    for pred in preds {
        kept.push(core_if_named(alloc, names, pred)?)?;
    }
    Ok(Items::from_vec(kept))
}

/// An action that does nothing.
fn idle_action(alloc: Global) -> Action
    ensures { action_of result ≡ idle_action }
{
    Action {
        pre: None,
        picks: Items::new(alloc),
        focus: Items::new(alloc),
        messages: Items::new(alloc),
        fresh: false,
        retain: None,
        updates: Items::new(alloc),
    }
}

fn one_action(alloc: Global) -> Result<Items<Action>, AllocError>
    ensures { IfOk result (λ xs. map action_of xs ≡ idle_action ∷ []) }
{
    let mut actions = Vec::new(alloc);
    actions.push(idle_action(alloc))?;
    Ok(Items::from_vec(actions))
}

fn one_edge(alloc: Global) -> Result<Items<Edge>, AllocError>
    ensures { IfOk result (λ xs. xs ≡ idle_edge ∷ []) }
{
    let mut edges = Vec::new(alloc);
    edges.push(Edge {
        from: 0,
        action: 0,
        to: 0,
    })?;
    Ok(Items::from_vec(edges))
}

fn one_node(alloc: Global) -> Result<Names, AllocError>
    ensures { IfOk result (λ xs. xs ≡ codes "0" ∷ []) }
{
    let mut nodes = Vec::new(alloc);
    nodes.push(Bytes::from_vec(Vec::from_slice(alloc, b"0")?))?;
    Ok(Items::from_vec(nodes))
}

/// The program of the definitions of those predicates that aren't named; it has no rules, and one edge, along
/// which nothing is done.
pub fn definitions_but(
    alloc: Global,
    names: &[Spelling],
    program: &Program,
) -> Result<Program, AllocError>
    requires valid { IsValid (program_of program.now) }
    ensures is { IfOk result
        (λ x. program_of x ≡ definitions_but names.now (program_of program.now)) }
    ensures valid { IfOk result (λ x. IsValid (program_of x)) }
    ensures over { IfOk result (λ x. (s : StructureForm) → IsOver program.now.vocab s → IsOver x.vocab s) }
{
    let preds = kept_preds(alloc, names, program.vocab.preds.as_slice())?;
    Ok(Program {
        vocab: Vocab { preds },
        rules: Items::new(alloc),
        actions: one_action(alloc)?,
        edges: one_edge(alloc)?,
        nodes: one_node(alloc)?,
    })
}
