//! Laws of commands. Each function does nothing of its own: its clause is what it shows.

ghost use Rattle.tv_top.specs.Laws.{AnswersAreOne, CommandsAreBounded, JoinedReportsAreAccepted};
ghost use Rattle.tv_top.specs.Laws.{ReportsAreAccepted, SourceReportsAreAccepted, VerdictsAreOne};

use tv_join::joined_analyses_are_one;
use tv_judge::closed_listings_are_closed_reports;
use tv_replay_laws::runs_have_one_ending;
use tv_report::reports_are_read_again;
use tv_step_laws::steps_are_exact;
use tv_texts::one_meaning_each;
use tv_words::one_command;
use tv_work::analyses_are_one;

/// The numbers that words spell are within their limits, and their options go together.
pub fn commands_are_bounded()
    ensures { CommandsAreBounded }
{}

/// What `analyze` wrote is accepted by `check`, where REPORT holds it, PROGRAM, its includes and INITIAL hold
/// what they held, the mode is the same, and both have `--delta` or neither.
pub fn reports_are_accepted()
    ensures { ReportsAreAccepted }
{
    one_command();
    reports_are_read_again();
    closed_listings_are_closed_reports();
}

/// What `join` wrote is accepted by `check`, where REPORT holds it, PROGRAM, its includes and INITIAL hold
/// what they held, and the mode is the same.
pub fn joined_reports_are_accepted()
    ensures { JoinedReportsAreAccepted }
{
    one_command();
    reports_are_read_again();
    closed_listings_are_closed_reports();
}

/// What `source` wrote is accepted by `check` of a program that means what SOURCE is compiled to, where
/// REPORT holds it and INITIAL holds what it held.
pub fn source_reports_are_accepted()
    ensures { SourceReportsAreAccepted }
{
    one_command();
    reports_are_read_again();
    closed_listings_are_closed_reports();
}

/// The words and what steady files hold fix the status, places aside, and what standard output takes, where
/// sinks don't fail and memory suffices; but not which of several limits is told.
pub fn answers_are_one()
    ensures { AnswersAreOne }
{
    one_command();
    one_meaning_each();
    runs_have_one_ending();
    analyses_are_one();
    joined_analyses_are_one();
    steps_are_exact();
}

/// A report on a valid program is accepted, with one list of maps, or rejected for one demand.
pub fn verdicts_are_one()
    ensures { VerdictsAreOne }
{
    steps_are_exact();
}
