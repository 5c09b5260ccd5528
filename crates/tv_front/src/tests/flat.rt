//! Flat forms, printed as programs whose actions are numbers.
use super::show::{Shown, put};
use std::alloc::{AllocError, Global};
use tv_flat::{Flat, FlatActions, FlatEdges, FlatPreds, FlatRules};
use tv_tree::trees::{ActionTree, ActionTrees, Decl, Decls, EdgeTree, EdgeTrees, Spelling, Tree};
use tv_tree::{Items, print_program};

fn number(alloc: Global, number: u32) -> Result<Spelling, AllocError> {
    Ok(Spelling(format!(in alloc; "{number}")?.into_bytes()))
}

fn decls(alloc: Global, preds: FlatPreds, rules: FlatRules) -> Result<Decls, AllocError> {
    let mut items = Vec::new(alloc);
    for pred in preds.into_vec() {
        items.push(Decl::Pred(pred))?;
    }
    for rule in rules.into_vec() {
        items.push(Decl::Rule(rule))?;
    }
    Ok(Decls { items })
}

// The words by which so many flat actions are called.
fn numbers(alloc: Global, count: usize) -> Result<Vec<Spelling>, AllocError> {
    let mut words = Vec::new(alloc);
    let mut next = 0u32;
    for _ in 0..count {
        words.push(number(alloc, next)?)?;
        next = next.saturating_add(1);
    }
    Ok(words)
}

fn actions(alloc: Global, flat: FlatActions) -> Result<ActionTrees, AllocError> {
    let mut actions = Vec::new(alloc);
    let mut count = 0u32;
    for action in flat.into_vec() {
        actions.push(ActionTree {
            name: number(alloc, count)?,
            params: Items::new(alloc),
            parts: action.parts,
        })?;
        count = count.saturating_add(1);
    }
    Ok(Items::from_vec(actions))
}

fn called(words: &[Spelling], action: u32) -> &[u8] {
    match words.get(action as usize) {
        Some(word) => &word.0,
        None => b"lost",
    }
}

fn edges<'a>(
    alloc: Global,
    words: &'a [Spelling],
    flat: FlatEdges<'a>,
) -> Result<EdgeTrees<'a>, AllocError> {
    let mut edges = Vec::new(alloc);
    for edge in flat.into_vec() {
        edges.push(EdgeTree {
            from: edge.from,
            action: called(words, edge.action),
            arguments: Items::new(alloc),
            to: edge.to,
        })?;
    }
    Ok(Items::from_vec(edges))
}

fn printed(alloc: Global, flat: Flat<'_>) -> Result<Vec<u8>, AllocError> {
    let words = numbers(alloc, flat.actions.len())?;
    let tree = Tree {
        decls: decls(alloc, flat.preds, flat.rules)?,
        actions: actions(alloc, flat.actions)?,
        edges: edges(alloc, &words, flat.edges)?,
        tail: None,
    };
    print_program(alloc, &tree)
}

pub fn put_flat(alloc: Global, out: &mut Shown, flat: Flat<'_>) {
    match printed(alloc, flat) {
        Ok(text) => put(out, &text),
        Err(_) => put(out, b"lost"),
    }
}
