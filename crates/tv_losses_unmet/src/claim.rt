//! Declarations that claim something of heaps.

ghost use Rattle.std.specs.Prelude.{◌≡◌};
ghost use Rattle.tv_losses_unmet.specs.Alone.{is_of};

use tv_model::PredId;

/// A declaration of a program.
#[derive(Clone, Copy, Debug, PartialEq, Eq)]
pub enum Claim {
    /// What is declared of a predicate: its properties, and its definition if it has one.
    Predicate(PredId),
    /// A rule, by its number.
    Rule(usize),
}

impl Claim {
    /// Whether it is what is declared of the predicate of this number.
    pub(crate) fn is_of(&self, number: usize) -> bool
        ensures { result ≡ is_of self.now number }
    {
        match self {
            Claim::Predicate(q) => q.0 as usize == number,
            Claim::Rule(_) => false,
        }
    }
}
