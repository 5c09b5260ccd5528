//! Laws of source programs. Each function does nothing: its clause is what it shows.

ghost use Rattle.tv_lex.specs.Token.{HaveOneMeaning};
ghost use Rattle.tv_source_names.specs.Outcome.{MeansSource};

/// Tokens mean one source program at most.
pub fn one_meaning()
    ensures { HaveOneMeaning MeansSource }
{}
