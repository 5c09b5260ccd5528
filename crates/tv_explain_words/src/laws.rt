//! Laws about words. Each function does nothing of its own: its clauses are what it shows.

ghost use Rattle.std.specs.Prelude.{ℕ, ◌≡◌, List};
ghost use Rattle.tv_explain_words.specs.Words.{CommandForm, Spells};

/// Words spell one command at most.
pub fn one_command()
    ensures { (words : List (List ℕ)) (a b : CommandForm) → Spells words a → Spells words b → a ≡ b }
{}
