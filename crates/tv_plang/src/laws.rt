//! Laws about what texts mean. Each function does nothing of its own: its clause is what it shows.

ghost use Rattle.tv_plang.specs.Laws.{HaveOneProgram, HaveOneRefusal};

/// Tokens mean one program at most, and none where they are refused.
pub fn one_meaning()
    ensures { HaveOneProgram }
{
    tv_source_names::one_meaning();
    tv_source_syntax::one_source();
}

/// Tokens are refused for one reason, its place aside.
pub fn one_refusal()
    ensures { HaveOneRefusal }
{
    tv_source_names::one_meaning();
    tv_source_syntax::one_source();
}
