//! The states of a replay to their text.

ghost use Rattle.std.specs.Prelude.{◌≡◌, ◌++◌, ◌<◌, IfOk, OnOk, map};
ghost use Rattle.tv_replay.specs.Text.{node_name, predicate_name, broken_text, rule_text, place_text};
ghost use Rattle.tv_replay.specs.Text.{head_text, judged_text, first_text, later_text, later_texts};
ghost use Rattle.tv_replay.specs.Text.{states_text, why_name, stuck_line};

use std::alloc::{AllocError, Global};
use tv_model::{PredId, Program};
use tv_replay_laws::{ListedCover, State, States, Why};
use tv_tvs::{write_number, write_numbers};

/// Appends the name of the node; nothing where there is no such node.
fn write_node(out: &mut Vec<u8>, program: &Program, node: u32) -> Result<(), AllocError>
    ensures { OnOk result (out.new.items ≡ out.old.items ++ node_name program.now node) }
{
    match program.nodes.as_slice().get(node as usize) {
        Some(name) => out.extend_from_slice(name.as_slice()),
        None => Ok(()),
    }
}

/// Appends the name of the predicate; nothing where there is no such predicate.
fn write_predicate(out: &mut Vec<u8>, program: &Program, pred: PredId) -> Result<(), AllocError>
    ensures { OnOk result (out.new.items ≡ out.old.items ++ predicate_name program.now pred) }
{
    match program.vocab.preds.as_slice().get(pred.0 as usize) {
        Some(found) => out.extend_from_slice(found.name.as_slice()),
        None => Ok(()),
    }
}

fn write_broken(
    out: &mut Vec<u8>,
    program: &Program,
    broken: Option<PredId>,
) -> Result<(), AllocError>
    ensures { OnOk result (out.new.items ≡ out.old.items ++ broken_text program.now broken) }
{
    let Some(pred) = broken else {
        return out.extend_from_slice(b" ok\n");
    };
    out.extend_from_slice(b" broken ")?;
    write_predicate(out, program, pred)?;
    out.extend_from_slice(b"\n")
}

fn write_rule(out: &mut Vec<u8>, rule: Option<u32>) -> Result<(), AllocError>
    ensures { OnOk result (out.new.items ≡ out.old.items ++ rule_text rule) }
{
    let Some(number) = rule else {
        return out.extend_from_slice(b"rules ok\n");
    };
    out.extend_from_slice(b"rules broken ")?;
    write_number(out, u64::from(number))?;
    out.extend_from_slice(b"\n")
}

fn write_place(out: &mut Vec<u8>, place: &Option<ListedCover>) -> Result<(), AllocError>
    ensures { OnOk result (out.new.items ≡ out.old.items ++ place_text place.now) }
{
    let Some(found) = place else {
        return out.extend_from_slice(b" none\n");
    };
    out.extend_from_slice(b" ")?;
    write_number(out, u64::from(found.structure))?;
    out.extend_from_slice(b" {")?;
    write_numbers(out, found.map.as_slice())?;
    out.extend_from_slice(b"}\n")
}

fn write_head(
    out: &mut Vec<u8>,
    program: &Program,
    number: u64,
    state: &State,
) -> Result<(), AllocError>
    ensures { OnOk result (out.new.items ≡ out.old.items ++ head_text program.now number state.now) }
{
    out.extend_from_slice(b"state ")?;
    write_number(out, number)?;
    out.extend_from_slice(b" node ")?;
    write_node(out, program, state.node)?;
    out.extend_from_slice(b" size ")?;
    write_number(out, u64::from(state.heap.size()))?;
    out.extend_from_slice(b"\n")
}

fn write_judged(out: &mut Vec<u8>, state: &State) -> Result<(), AllocError>
    ensures { OnOk result (out.new.items ≡ out.old.items ++ judged_text state.now) }
{
    write_rule(out, state.rule)?;
    out.extend_from_slice(b"listed")?;
    write_place(out, &state.listed)
}

fn write_first(out: &mut Vec<u8>, program: &Program, state: &State) -> Result<(), AllocError>
    ensures { OnOk result (out.new.items ≡ out.old.items ++ first_text program.now state.now) }
{
    write_head(out, program, 0, state)?;
    out.extend_from_slice(b"concrete")?;
    write_broken(out, program, state.broken)?;
    out.extend_from_slice(b"initial")?;
    write_place(out, &state.initial)?;
    write_judged(out, state)
}

fn write_next(
    out: &mut Vec<u8>,
    program: &Program,
    number: u64,
    state: &State,
) -> Result<(), AllocError>
    ensures { OnOk result (out.new.items ≡ out.old.items ++ later_text program.now number state.now) }
{
    write_head(out, program, number, state)?;
    out.extend_from_slice(b"updates")?;
    write_broken(out, program, state.broken)?;
    write_judged(out, state)
}

/// Appends the states behind the first, numbered from 1 on.
fn write_later(out: &mut Vec<u8>, program: &Program, later: &[State]) -> Result<(), AllocError>
    ensures { OnOk result (out.new.items ≡ out.old.items ++ later_texts program.now 1 later.now) }
{
    let mut number = 0;
    for state in later {
        number += 1;
        write_next(out, program, number, state)?;
    }
    Ok(())
}

/// The text of the states: each with its number, its node's name, the size of its heap and what is judged of
/// it; `end` is the last line. A node or a predicate that the program lacks is written without a name.
pub fn write_states(
    alloc: Global,
    program: &Program,
    states: &States,
) -> Result<Vec<u8>, AllocError>
    ensures { IfOk result (λ text. text.items ≡ states_text program.now states.now.list) }
{
    let mut out = Vec::new(alloc);
    if let Some((first, later)) = states.list.as_slice().split_first() {
        write_first(&mut out, program, first)?;
        write_later(&mut out, program, later)?;
    }
    out.extend_from_slice(b"end\n")?;
    Ok(out)
}

fn name_of(why: Why) -> &'static [u8]
    ensures { result.now ≡ why_name why }
{
    match why {
        Why::Edge => b"edge",
        Why::Picks => b"picks",
        Why::Precondition => b"precondition",
        Why::Individuals => b"individuals",
        Why::Values => b"values",
    }
}

/// The line of a replay that is stuck at a step.
pub fn write_stuck(alloc: Global, step: u32, why: Why) -> Result<Vec<u8>, AllocError>
    ensures { IfOk result (λ text. text.items ≡ stuck_line step why) }
{
    let mut out = Vec::new(alloc);
    out.extend_from_slice(b"stuck: step ")?;
    write_number(&mut out, u64::from(step))?;
    out.extend_from_slice(b" ")?;
    out.extend_from_slice(name_of(why))?;
    out.extend_from_slice(b"\n")?;
    Ok(out)
}
