//! What programs of the pointer language mean, and that their compiled programs do the same; no code.
#![tactic(auto)]

ghost use Rattle.tv_plang_laws.specs.Laws.{CompiledIsValid, MemoriesHaveHeaps, MemoriesStay, NullsAreTold};
ghost use Rattle.tv_plang_laws.specs.Laws.{SourceRunsAreRuns};

use tv_concrete::at_least_one_is_concrete;

/// The heaps of the states that a program of the pointer language goes through are a run of its compiled
/// program, in both modes, that brings each heap to the node of its state's position.
pub fn source_runs_are_runs()
    ensures { SourceRunsAreRuns }
{}

/// The compiled program is valid within the limits of programs.
pub fn compiled_is_valid()
    ensures { CompiledIsValid }
{}

/// For each memory of a program within the limits there is a heap.
pub fn memories_have_heaps()
    ensures { MemoriesHaveHeaps }
{
    at_least_one_is_concrete();
}

/// Statements keep memories: cells differ, and variables and fields lead to cells.
pub fn memories_stay()
    ensures { MemoriesStay }
{}

/// Where a dereference meets null, a message of an edge from the node of its position is true.
pub fn nulls_are_told()
    ensures { NullsAreTold }
{}
