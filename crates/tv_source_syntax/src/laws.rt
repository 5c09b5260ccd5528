//! Laws about source programs and their tokens. Each function does nothing: its clause is what it shows.

ghost use Rattle.tv_lex.specs.Token.{HaveOneMeaning};
ghost use Rattle.tv_phrases.specs.Repeated.{HasOne};
ghost use Rattle.tv_source_syntax.specs.Grammar.{IsName, IsAssign, IsTest, IsStatement, AreStatements};
ghost use Rattle.tv_source_syntax.specs.Grammar.{IsSource};

/// Tokens are those of one source program at most.
pub fn one_source()
    ensures { HaveOneMeaning IsSource }
{}

/// From any place there is one statement at most: one tree and one end. The same of its parts.
pub fn one_statement()
    ensures name { HasOne IsName }
    ensures assign { HasOne IsAssign }
    ensures test { HasOne IsTest }
    ensures statement { HasOne IsStatement }
    ensures row { HasOne AreStatements }
{}
