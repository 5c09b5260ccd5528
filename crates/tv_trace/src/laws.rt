//! Laws of traces: functions that do nothing, and whose contracts are the laws.

ghost use Rattle.tv_lex.specs.Token.{HaveOneMeaning};
ghost use Rattle.tv_model.specs.declared.program.Program.{Program};
ghost use Rattle.tv_trace.specs.Grammar.{IsTrace};
ghost use Rattle.tv_trace.specs.Meaning.{MeansTrace};

/// A list of tokens is a trace in one way at most.
pub fn one_reading()
    ensures { HaveOneMeaning IsTrace }
{}

/// A list of tokens means one trace on a program at most.
pub fn one_meaning()
    ensures { (program : Program) → HaveOneMeaning (MeansTrace program) }
{}
