//! Compiled programs with updates of what variables reach, which are exact on every heap; no code.
#![tactic(auto)]

ghost use Rattle.tv_updates_laws.specs.Laws.{NullsAreToldWithUpdates, SourceRunsAreUpdatedRuns};
ghost use Rattle.tv_updates_laws.specs.Laws.{UpdatesAreExact};

use tv_plang_laws::{nulls_are_told, source_runs_are_runs};

/// The compiled program with updates has the runs of the compiled program, in both modes.
pub fn updates_are_exact()
    ensures { UpdatesAreExact }
{}

/// The heaps of the states that a program of the pointer language goes through are a run of its compiled
/// program with updates, in both modes, that brings each heap to the node of its state's position.
pub fn source_runs_are_updated_runs()
    ensures { SourceRunsAreUpdatedRuns }
{
    source_runs_are_runs();
}

/// Where a dereference meets null, a message of an edge of the program with updates is true.
pub fn nulls_are_told_with_updates()
    ensures { NullsAreToldWithUpdates }
{
    nulls_are_told();
}
