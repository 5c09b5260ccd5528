//! Actions by their names, and edges with the flat actions that they take.

ghost use Rattle.std.specs.Prelude.{◌≡◌, ◌≤◌, ◌++◌, ◌∷◌, [], map, length, not, false, if◌then◌else◌, is_some};
ghost use Rattle.std.specs.Prelude.{IfOk, OnOk};
ghost use Rattle.std.specs.List.{zip, list_any, position_or_len};
ghost use Rattle.tv_tree.specs.Copies.{part_of, action_of, edge_of};
ghost use Rattle.tv_expand.specs.Outcome.{GivesExpansion, each};
ghost use Rattle.tv_expand.specs.Sets.{once, known};
ghost use Rattle.tv_expand.specs.Expansion.{with_action, find_action, same_call, made, called, with_edge};
ghost use Rattle.tv_expand.specs.Expansion.{wired_to, wired, gathered, nothing_wired};
ghost use Rattle.tv_flat.specs.Replaced.{all_bound};
ghost use Rattle.tv_flat.specs.Views.{params_of, binding_of};
ghost use Rattle.tv_expand.specs.Views.{names_of, sets_of, actions_of, calls_of};
ghost use Rattle.tv_expand.specs.States.{room_of, gathered_of, wired_of};

use crate::error::ExpandError;
use crate::gather::{Gathered, put_parts};
use crate::room::Room;
use crate::sets::Sets;
use crate::words::{Words, once};
use indexmap::{IndexMap, IndexSet};
use std::alloc::{AllocError, Global};
use tv_flat::{FlatAction, FlatEdge, Params, Scope, put_param, with_params};
use tv_tree::Items;
use tv_tree::trees::{ActionTree, EdgeTree, Part, Spelling};

/// The actions that are declared, each by its name.
pub type Actions<'a> = IndexMap<&'a [u8], &'a ActionTree>;

/// The calls of actions so far: an action's name, and its arguments.
pub type Calls<'a> = IndexSet<Vec<&'a [u8]>>;

/// The edges so far, and the flat actions that they take.
#[derive(Drop)]
pub struct Wired<'t, 'a> {
    pub calls: Calls<'t>,
    pub actions: Vec<FlatAction>,
    pub edges: Vec<FlatEdge<'a>>,
    pub room: Room,
}

fn check_params<'a>(alloc: Global, params: &'a [Spelling]) -> Result<Words<'a>, ExpandError>
    ensures { GivesExpansion (λ seen. names_of seen.keys) result (each once params.now []) }
{
    let mut seen = IndexSet::new(alloc);
    for param in params {
        once(&mut seen, param.0.as_slice())?;
    }
    Ok(seen)
}

fn is_action(actions: &Actions<'_>, name: &[u8]) -> bool
    ensures { result ≡ is_some (find_action (actions_of actions.now.entries) name.now) }
{
    actions.contains_key(name)
}

fn add_action<'a>(
    actions: &mut Actions<'a>,
    name: &'a [u8],
    action: &'a ActionTree,
) -> Result<(), AllocError>
    requires { is_some (find_action (actions_of actions.old.entries) name.now) ≡ false }
    ensures { OnOk result (actions_of actions.new.entries
        ≡ actions_of actions.old.entries ++ (name.now, action_of action.now) ∷ []) }
{
    actions.insert(name, action)?;
    Ok(())
}

fn declare_action<'a>(
    alloc: Global,
    actions: &mut Actions<'a>,
    action: &'a ActionTree,
) -> Result<(), ExpandError>
    ensures { GivesExpansion (λ _. actions_of actions.new.entries) result
        (with_action (action_of action.now) (actions_of actions.old.entries)) }
{
    if is_action(actions, &action.name.0) {
        return Err(ExpandError::NameTwice);
    }
    check_params(alloc, action.params.as_slice())?;
    add_action(actions, &action.name.0, action)?;
    Ok(())
}

/// The actions by their names.
///
/// # Errors
/// `NameTwice` exactly where a name, or a parameter of one action, stands twice.
pub fn declare_actions<'a>(
    alloc: Global,
    actions: &'a [ActionTree],
) -> Result<Actions<'a>, ExpandError>
    ensures { GivesExpansion (λ declared. actions_of declared.entries) result
        (each with_action (map action_of actions.now) []) }
{
    let mut declared = IndexMap::new(alloc);
    for action in actions {
        declare_action(alloc, &mut declared, action)?;
    }
    Ok(declared)
}

#[tactic(auto, using(crate::proofs::WiringLaws::pairs_more, crate::proofs::WiringLaws::pairs_done))]
fn call_params<'a>(
    alloc: Global,
    params: &'a [Spelling],
    arguments: &'a [Spelling],
) -> Result<Params<'a>, AllocError>
    requires { length params.now ≡ length arguments.now }
    ensures { IfOk result (λ bound. params_of bound.entries ≡ all_bound [] (zip params.now arguments.now)) }
{
    let mut bound = IndexMap::new(alloc);
    for i in 0..params.len() {
        let param = &params[i];
        let argument = &arguments[i];
        put_param(&mut bound, &param.0, &argument.0)?;
    }
    Ok(bound)
}

fn call_words<'a>(
    alloc: Global,
    name: &'a Spelling,
    arguments: &'a [Spelling],
) -> Result<Vec<&'a [u8]>, AllocError>
    ensures { IfOk result (λ words. names_of words.items ≡ name.now ∷ arguments.now) }
{
    let mut words = Vec::new(alloc);
    words.push(name.0.as_slice())?;
    for argument in arguments {
        words.push(argument.0.as_slice())?;
    }
    Ok(words)
}

fn bound_parts<'a>(
    alloc: Global,
    sets: &Sets<'a>,
    binding: &Scope<'_, 'a>,
    parts: &'a [Part],
    room: Room,
) -> Result<Gathered, ExpandError>
    ensures { GivesExpansion gathered_of result
        (each (gathered (sets_of sets.now.entries) (binding_of binding.now)) (map part_of parts.now)
        (record { parts = []; room = room_of room })) }
{
    let mut state = Gathered {
        parts: Vec::new(alloc),
        room,
    };
    put_parts(alloc, sets, &mut state, binding, parts)?;
    Ok(state)
}

fn flat_parts<'a>(
    alloc: Global,
    sets: &Sets<'a>,
    action: &'a ActionTree,
    arguments: &'a [Spelling],
    room: Room,
) -> Result<Gathered, ExpandError>
    requires { length action.now.params ≡ length arguments.now }
    ensures { GivesExpansion gathered_of result
        (each (gathered (sets_of sets.now.entries) (all_bound [] (zip action.now.params arguments.now)))
        (map part_of action.now.parts) (record { parts = []; room = room_of room })) }
{
    let params = call_params(alloc, action.params.as_slice(), arguments)?;
    let binding = with_params(alloc, &params);
    bound_parts(alloc, sets, &binding, action.parts.as_slice(), room)
}

// Takes up a call. Gives its place, and whether it is new.
fn enter<'a>(
    alloc: Global,
    calls: &mut Calls<'a>,
    name: &'a Spelling,
    arguments: &'a [Spelling],
) -> Result<(usize, bool), AllocError>
    ensures place { IfOk result
        (λ r. r.0 ≡ position_or_len (same_call (name.now ∷ arguments.now)) (calls_of calls.old.keys)) }
    ensures new { IfOk result
        (λ r. r.1 ≡ not (list_any (same_call (name.now ∷ arguments.now)) (calls_of calls.old.keys))) }
    ensures calls { OnOk result (calls_of calls.new.keys
        ≡ (if list_any (same_call (name.now ∷ arguments.now)) (calls_of calls.old.keys)
        then calls_of calls.old.keys else calls_of calls.old.keys ++ (name.now ∷ arguments.now) ∷ [])) }
{
    let words = call_words(alloc, name, arguments)?;
    Ok(calls.insert_full(words)?)
}

fn make_action<'a>(
    alloc: Global,
    sets: &Sets<'a>,
    state: &mut Wired<'a, '_>,
    action: &'a ActionTree,
    arguments: &'a [Spelling],
) -> Result<(), ExpandError>
    requires { length action.now.params ≡ length arguments.now }
    ensures { GivesExpansion (λ _. wired_of state.new) result
        (made (sets_of sets.now.entries) (action_of action.now) arguments.now (wired_of state.old)) }
{
    let Gathered { parts, room } = flat_parts(alloc, sets, action, arguments, state.room)?;
    state.actions.push(FlatAction {
        parts: Items::from_vec(parts),
    })?;
    state.room = room;
    Ok(())
}

// The flat action of a call is made at its first edge. Gives its number, which is small: each call is made
// at an edge, and edges are items.
#[tactic(auto, using(crate::proofs::CallLaws::call_within))]
fn call<'a>(
    alloc: Global,
    sets: &Sets<'a>,
    state: &mut Wired<'a, '_>,
    action: &'a ActionTree,
    arguments: &'a [Spelling],
) -> Result<u32, ExpandError>
    requires arity { length action.now.params ≡ length arguments.now }
    requires few { length state.old.calls.keys ≤ 4294967295 }
    ensures made { GivesExpansion (λ _. wired_of state.new) result
        (called (sets_of sets.now.entries) (action_of action.now) arguments.now (wired_of state.old)) }
    ensures number { IfOk result (λ number. number
        ≡ position_or_len (same_call (action.now.name ∷ arguments.now)) (calls_of state.old.calls.keys)) }
{
    let (index, is_new) = enter(alloc, &mut state.calls, &action.name, arguments)?;
    if is_new {
        make_action(alloc, sets, state, action, arguments)?;
    }
    Ok(index as u32)
}

fn put_edge<'a>(
    state: &mut Wired<'_, 'a>,
    number: u32,
    edge: &EdgeTree<'a>,
) -> Result<(), ExpandError>
    ensures { GivesExpansion (λ _. wired_of state.new) result
        (with_edge number (edge_of edge.now) (wired_of state.old)) }
{
    let room = state.room.count_none()?;
    state.edges.push(FlatEdge {
        from: edge.from,
        action: number,
        to: edge.to,
    })?;
    state.room = room;
    Ok(())
}

fn find<'a>(actions: &Actions<'a>, name: &[u8]) -> Result<&'a ActionTree, ExpandError>
    ensures { GivesExpansion (λ a. action_of a.now) result
        (known (find_action (actions_of actions.now.entries) name.now)) }
{
    match actions.get(name) {
        Some(action) => Ok(*action),
        None => Err(ExpandError::NameUnknown),
    }
}

fn wire_to<'t, 'a>(
    alloc: Global,
    sets: &Sets<'t>,
    state: &mut Wired<'t, 'a>,
    action: &'t ActionTree,
    edge: &'t EdgeTree<'a>,
) -> Result<(), ExpandError>
    requires few { length state.old.calls.keys ≤ 4294967295 }
    ensures { GivesExpansion (λ _. wired_of state.new) result
        (wired_to (sets_of sets.now.entries) (action_of action.now) (edge_of edge.now) (wired_of state.old)) }
{
    if edge.arguments.len() != action.params.len() {
        return Err(ExpandError::ArgumentCount);
    }
    let number = call(alloc, sets, state, action, edge.arguments.as_slice())?;
    put_edge(state, number, edge)
}

fn wire<'t, 'a>(
    alloc: Global,
    sets: &Sets<'t>,
    actions: &Actions<'t>,
    state: &mut Wired<'t, 'a>,
    edge: &'t EdgeTree<'a>,
) -> Result<(), ExpandError>
    requires few { length state.old.calls.keys ≤ 4294967295 }
    ensures { GivesExpansion (λ _. wired_of state.new) result (wired (sets_of sets.now.entries)
        (actions_of actions.now.entries) (edge_of edge.now) (wired_of state.old)) }
{
    let action = find(actions, edge.action)?;
    wire_to(alloc, sets, state, action, edge)
}

fn nothing_wired<'t, 'a>(alloc: Global, room: Room) -> Wired<'t, 'a>
    ensures { wired_of result ≡ nothing_wired (room_of room) }
{
    Wired {
        calls: IndexSet::new(alloc),
        actions: Vec::new(alloc),
        edges: Vec::new(alloc),
        room,
    }
}

/// Takes up the edges in order, and makes the flat actions that they take.
///
/// # Errors
/// The first refusal.
pub fn wire_all<'t, 'a>(
    alloc: Global,
    sets: &Sets<'t>,
    actions: &Actions<'t>,
    room: Room,
    edges: &'t [EdgeTree<'a>],
) -> Result<Wired<'t, 'a>, ExpandError>
    ensures { GivesExpansion wired_of result
        (each (wired (sets_of sets.now.entries) (actions_of actions.now.entries)) (map edge_of edges.now)
        (nothing_wired (room_of room))) }
{
    let mut state = nothing_wired(alloc, room);
    for edge in edges {
        wire(alloc, sets, actions, &mut state, edge)?;
    }
    Ok(state)
}
