//! The whole compilation.

ghost use Rattle.std.specs.Prelude.{◌≡◌, ◌≤◌, ◌<◌, ◌+◌, ◌*◌, ◌^◌, IsTrue, ◌↔◌, length, map, min, IfOk, IfErr};
ghost use Rattle.tv_model.specs.Program.{action_of, program_of};
ghost use Rattle.tv_model.specs.Valid.{IsValid};
ghost use Rattle.tv_source.specs.Copies.{source_of};
ghost use Rattle.tv_source.specs.Valid.{IsSource};
ghost use Rattle.tv_plang_laws.specs.Compiled.{compiled, IsSmall};
ghost use Rattle.tv_plang_laws.specs.Laws.{NullsAreToldBy, RunsAreRunsOf};
ghost use Rattle.tv_plang_laws.specs.Positions.{last as last_position};
ghost use Rattle.tv_plang.specs.Arcs.{arcs_of};
ghost use Rattle.tv_plang.specs.Limits.{HasFewNames, HasFewPredicates};
ghost use Rattle.tv_plang.specs.declared.whole.CompileError.TheVariants.{Memory, TooMany};

use crate::arcs::{Arc, arcs_between};
use crate::nodes::Positions;
use crate::predicates::predicates;
use crate::statements::size_of_block;
use std::alloc::{AllocError, AllocFailed, Global};
use thiserror::Error;
use tv_model::{Action, Items, Program, Vocab};
use tv_plang_laws::{compiled_is_valid, nulls_are_told, source_runs_are_runs};
use tv_source::Source;

/// Why a program isn't compiled.
#[derive(Clone, Copy, Debug, PartialEq, Eq, Error)]
pub enum CompileError {
    /// It would have over 512 predicates, 4,096 nodes or 16,384 edges.
    #[error("too many predicates, nodes or edges")]
    TooMany,
    /// There was no memory for the program.
    #[error("no memory")]
    Memory,
}

impl From<AllocError> for CompileError {
    ghost from_gives = { λ _ e. e ≡ Memory };

    fn from(_failed: AllocError) -> CompileError {
        CompileError::Memory
    }
}

impl<T: Drop> From<AllocFailed<T>> for CompileError {
    ghost from_gives = { λ _ e. e ≡ Memory };

    fn from(_failed: AllocFailed<T>) -> CompileError {
        CompileError::Memory
    }
}

/// Whether the predicates are at most 512.
fn has_few_predicates(source: &Source) -> bool
    ensures { IsTrue result ↔ HasFewPredicates (source_of source.now) }
{
    let variables = source.variables.len();
    let fields = source.fields.len();
    variables <= 512 && fields <= 512 && variables + fields + variables * fields <= 512
}

/// The program of predicates and actions that does what the source program does.
///
/// Each variable is a unary predicate and each field a binary one; for each field and variable a defined
/// predicate tells what the variable reaches along the field. Each statement is an edge, and each test two,
/// from the node before it. The heaps of the states that the source program goes through are a run of the
/// program.
///
/// # Errors
/// `TooMany` exactly where it would have over 512 predicates, 4,096 nodes or 16,384 edges; `Memory` where
/// memory ran out.
pub fn compile(alloc: Global, source: &Source) -> Result<Program, CompileError>
    requires source { IsSource (source_of source.now) }
    ensures program { IfOk result (λ p. program_of p ≡ compiled (source_of source.now)) }
    ensures within { IfOk result (λ p. IsSmall (program_of p)) }
    ensures valid { IfOk result (λ p. IsValid (program_of p)) }
    ensures runs { IfOk result (λ p. RunsAreRunsOf (program_of p) (source_of source.now)) }
    ensures nulls { IfOk result (λ p. NullsAreToldBy (program_of p) (source_of source.now)) }
    ensures too_many { IfErr result (λ e. e ≡ TooMany → ¬ IsSmall (compiled (source_of source.now))) }
{
    compiled_is_valid();
    source_runs_are_runs();
    nulls_are_told();
    let last = size_of_block(&source.body);
    if !has_few_predicates(source) || last > 16384 {
        return Err(CompileError::TooMany);
    }
    built(alloc, source, last as u32)
}

/// The program, where its predicates and its statements are few.
fn built(alloc: Global, source: &Source, last: u32) -> Result<Program, CompileError>
    requires source { IsSource (source_of source.now) }
    requires few { HasFewPredicates (source_of source.now) }
    requires last { last ≡ last_position (source_of source.now) }
    requires small { last ≤ 16384 }
    ensures program { IfOk result (λ p. program_of p ≡ compiled (source_of source.now)) }
    ensures within { IfOk result (λ _. IsSmall (compiled (source_of source.now))) }
    ensures too_many { IfErr result (λ e. e ≡ TooMany → ¬ IsSmall (compiled (source_of source.now))) }
{
    let arcs = arcs_between(alloc, source, last)?;
    let places = Positions::of(alloc, &arcs)?;
    if arcs.len() > 16384 || places.len() > 4096 {
        return Err(CompileError::TooMany);
    }
    let edges = places.edges(alloc, &arcs)?;
    let nodes = places.names(alloc, last)?;
    Ok(Program {
        vocab: Vocab {
            preds: Items::from_vec(predicates(alloc, source)?),
        },
        rules: Items::new(alloc),
        actions: Items::from_vec(actions_of_arcs(alloc, arcs)?),
        edges: Items::from_vec(edges),
        nodes: Items::from_vec(nodes),
    })
}

/// The actions of the arcs, in order.
fn actions_of_arcs(alloc: Global, arcs: Vec<Arc>) -> Result<Vec<Action>, AllocError>
    ensures { IfOk result
        (λ actions. map action_of actions.items ≡ map (λ a. a.action) (arcs_of arcs.items)) }
{
    let mut actions = Vec::new(alloc);
    for arc in arcs {
        actions.push(arc.action)?;
    }
    Ok(actions)
}
