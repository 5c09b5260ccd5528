//! Laws of replays: functions that do nothing, and whose contracts are the laws.

ghost use Rattle.tv_replay_laws.specs.Laws.{JudgedRulesAreTheProgram, ReplaysShowRuns, RunsHaveOneEnding};

use tv_concrete::at_most_one_is_concrete;

/// Where the start heap embeds in an initial structure and nothing is broken in a replay, there is a run
/// along its edges through its heaps, each up to a renumbering; where definitions are evaluated anew, only
/// those of the start heap and the rules count.
pub fn replays_show_runs()
    ensures { ReplaysShowRuns }
{}

/// A given run of a valid program has one ending: one list of states, or one step that can't be made, for one
/// reason, the first that holds.
pub fn runs_have_one_ending()
    ensures { RunsHaveOneEnding }
{
    at_most_one_is_concrete();
}

/// A heap meets a program exactly where it meets all rules by which it is judged.
pub fn judged_rules_are_the_programs()
    ensures { JudgedRulesAreTheProgram }
{}
