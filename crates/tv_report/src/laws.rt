//! Laws of reports: functions that do nothing, and whose contracts are the laws.

ghost use Rattle.tv_lex.specs.Token.{HaveOneMeaning};
ghost use Rattle.tv_model.specs.declared.program.Program.{Program};
ghost use Rattle.tv_report.specs.Grammar.{IsReport};
ghost use Rattle.tv_report.specs.Laws.{ReportsAreReadAgain};
ghost use Rattle.tv_report.specs.Meaning.{MeansReport};

/// A list of tokens is a report in one way at most.
pub fn one_reading()
    ensures { HaveOneMeaning IsReport }
{}

/// A list of tokens means one analysis of a program at most.
pub fn one_meaning()
    ensures { (program : Program) → HaveOneMeaning (MeansReport program) }
{}

/// What is written of an analysis is read as the same analysis, the marks of fresh individuals aside,
/// where its listing is one of the program's, its message lines name messages that may be true, each
/// message in one line at most, and its map lines have different items, name listed structures, and
/// have no number of 2 ^ 32 or more.
pub fn reports_are_read_again()
    ensures { ReportsAreReadAgain }
{}
