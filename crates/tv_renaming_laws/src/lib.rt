//! Heaps, steps and runs under other names of individuals; no code.
#![tactic(auto)]

ghost use Rattle.tv_renaming_laws.specs.Laws.{RenamingKeepsTruth, RenamingKeepsSteps, RenamingKeepsRuns};
ghost use Rattle.tv_renaming_laws.specs.Laws.{FrontsAreRenamings};

/// A formula is true in a heap exactly where it is true in the renamed heap under the renamed assignment.
pub fn renaming_keeps_truth()
    ensures { RenamingKeepsTruth }
{}

/// A step through a middle heap, fair or not, is one under other names, and what given updates agree with
/// stays so.
pub fn renaming_keeps_steps()
    ensures { RenamingKeepsSteps }
{}

/// A run of a valid program is a run under other names.
pub fn renaming_keeps_runs()
    ensures { RenamingKeepsRuns }
{}

/// Different individuals are what some renaming calls the numbers below their count, in order.
pub fn fronts_are_renamings()
    ensures { FrontsAreRenamings }
{}
