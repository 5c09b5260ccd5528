//! Whole programs as text.

ghost use Rattle.std.specs.Prelude.{◌≡◌, ◌++◌, OnOk, IfOk, codes, decimal, map};
ghost use Rattle.std.specs.List.{flat_map};
ghost use Rattle.tv_model.specs.Program.{action_of, pred_of, program_of, rule_of};
ghost use Rattle.tv_compiled.specs.Parts.{pred_text, rule_text};
ghost use Rattle.tv_compiled.specs.Whole.{noted, parts_text, action_text, actions_text, node_at, edge_text};
ghost use Rattle.tv_compiled.specs.Whole.{program_text};

use crate::parts::{
    append_flag, append_focus, append_messages, append_precondition, append_pred, append_retain,
    append_rule, append_updates,
};
use std::alloc::{AllocError, Global};
use tv_formula_text::append_number;
use tv_model::{Action, Bytes, Edge, Pred, Program, Rule};

#[tactic(auto, using(crate::proofs::Turns::preds_step, crate::proofs::Turns::preds_done))]
fn append_preds(out: &mut Vec<u8>, preds: &[Pred]) -> Result<(), AllocError>
    ensures { OnOk result (out.new.items
        ≡ out.old.items ++ flat_map (pred_text (map pred_of preds.now)) (map pred_of preds.now)) }
{
    for pred in preds {
        append_pred(out, preds, pred)?;
    }
    Ok(())
}

#[tactic(auto, using(crate::proofs::Turns::rules_step, crate::proofs::Turns::rules_done))]
fn append_rules(out: &mut Vec<u8>, preds: &[Pred], rules: &[Rule]) -> Result<(), AllocError>
    ensures { OnOk result (out.new.items
        ≡ out.old.items ++ flat_map (rule_text (map pred_of preds.now)) (map rule_of rules.now)) }
{
    for rule in rules {
        append_rule(out, preds, rule)?;
    }
    Ok(())
}

/// Appends what is noted of the action of this number, if anything is, in a comment.
fn append_note(out: &mut Vec<u8>, notes: &[Bytes], number: usize) -> Result<(), AllocError>
    ensures { OnOk result (out.new.items ≡ out.old.items ++ noted notes.now number) }
{
    let Some(note) = notes.get(number) else {
        return Ok(());
    };
    out.extend_from_slice(b" // ")?;
    out.extend_from_slice(note.as_slice())
}

fn append_action_head(out: &mut Vec<u8>, notes: &[Bytes], number: usize) -> Result<(), AllocError>
    ensures { OnOk result (out.new.items ≡ out.old.items ++ (codes "%action A"
        ++ (decimal number ++ (codes "() {" ++ (noted notes.now number ++ codes "\n"))))) }
{
    out.extend_from_slice(b"%action A")?;
    append_number(out, number)?;
    out.extend_from_slice(b"() {")?;
    append_note(out, notes, number)?;
    out.extend_from_slice(b"\n")
}

fn append_parts(out: &mut Vec<u8>, preds: &[Pred], action: &Action) -> Result<(), AllocError>
    ensures { OnOk result
        (out.new.items ≡ out.old.items ++ parts_text (map pred_of preds.now) (action_of action.now)) }
{
    append_focus(out, preds, action.focus.as_slice())?;
    append_precondition(out, preds, &action.pre)?;
    append_messages(out, preds, action.messages.as_slice())?;
    append_flag(out, action.fresh, b"  %new\n")?;
    append_retain(out, preds, &action.retain)?;
    append_updates(out, preds, action.updates.as_slice())
}

fn append_action(
    out: &mut Vec<u8>,
    preds: &[Pred],
    notes: &[Bytes],
    number: usize,
    action: &Action,
) -> Result<(), AllocError>
    ensures { OnOk result (out.new.items
        ≡ out.old.items ++ action_text (map pred_of preds.now) notes.now number (action_of action.now)) }
{
    append_action_head(out, notes, number)?;
    append_parts(out, preds, action)?;
    out.extend_from_slice(b"}\n")
}

fn append_actions(
    out: &mut Vec<u8>,
    preds: &[Pred],
    notes: &[Bytes],
    actions: &[Action],
) -> Result<(), AllocError>
    ensures { OnOk result (out.new.items
        ≡ out.old.items ++ actions_text (map pred_of preds.now) notes.now 0 (map action_of actions.now)) }
{
    for number in 0..actions.len() {
        append_action(out, preds, notes, number, &actions[number])?;
    }
    Ok(())
}

/// The name of the node of this number, or no bytes where there is none.
fn node_at(nodes: &[Bytes], number: u32) -> &[u8]
    ensures { result.now ≡ node_at nodes.now number }
{
    match nodes.get(number as usize) {
        Some(name) => name.as_slice(),
        None => &[],
    }
}

fn append_edge(
    out: &mut Vec<u8>,
    nodes: &[Bytes],
    notes: &[Bytes],
    edge: &Edge,
) -> Result<(), AllocError>
    ensures { OnOk result (out.new.items ≡ out.old.items ++ edge_text nodes.now notes.now edge.now) }
{
    out.extend_from_slice(node_at(nodes, edge.from))?;
    out.extend_from_slice(b" A")?;
    append_number(out, edge.action as usize)?;
    out.extend_from_slice(b"() ")?;
    out.extend_from_slice(node_at(nodes, edge.to))?;
    append_note(out, notes, edge.action as usize)?;
    out.extend_from_slice(b"\n")
}

#[tactic(auto, using(crate::proofs::Turns::edges_step, crate::proofs::Turns::edges_done))]
fn append_edges(
    out: &mut Vec<u8>,
    nodes: &[Bytes],
    notes: &[Bytes],
    edges: &[Edge],
) -> Result<(), AllocError>
    ensures { OnOk result
        (out.new.items ≡ out.old.items ++ flat_map (edge_text nodes.now notes.now) edges.now) }
{
    for edge in edges {
        append_edge(out, nodes, notes, edge)?;
    }
    Ok(())
}

/// The text of a program. What is noted of an action stands in a comment behind its name, and behind each
/// edge that has it.
pub fn program_text(
    alloc: Global,
    program: &Program,
    notes: &[Bytes],
) -> Result<Vec<u8>, AllocError>
    ensures { IfOk result (λ text. text.items ≡ program_text notes.now (program_of program.now)) }
{
    let mut out = Vec::new(alloc);
    let preds = program.vocab.preds.as_slice();
    append_preds(&mut out, preds)?;
    append_rules(&mut out, preds, program.rules.as_slice())?;
    out.extend_from_slice(b"%%\n")?;
    append_actions(&mut out, preds, notes, program.actions.as_slice())?;
    out.extend_from_slice(b"%%\n")?;
    append_edges(
        &mut out,
        program.nodes.as_slice(),
        notes,
        program.edges.as_slice(),
    )?;
    Ok(out)
}
