//! Quantifiers, of which "for all" is "there is" with the values negated before and behind it.

ghost use Rattle.std.specs.Prelude.{◌≡◌, ◌≤◌, map};
ghost use Rattle.tv_kleene.specs.declared.K3.{K3};
ghost use Rattle.tv_kleene.specs.Kleene.{negation_of};
ghost use Rattle.tv_row.specs.Bits.{padded};
ghost use Rattle.tv_quantifiers.specs.Chains.{across, other};
ghost use Rattle.tv_quantifiers.specs.Quantified.{turned};

use tv_kleene::K3;
use tv_row::Word;

/// A quantifier.
#[derive(Clone, Copy, Debug)]
pub enum Quantifier {
    /// "There is": the greatest value.
    Exists,
    /// "For all": the least value, the greatest of the negated ones negated.
    Forall,
}

impl Quantifier {
    /// The other one.
    #[inline(always)]
    pub fn other(self) -> Quantifier
        ensures turned { (k : K3) → turned result k ≡ turned self (negation_of k) }
        ensures other { result ≡ other self }
    {
        match self {
            Quantifier::Exists => Quantifier::Forall,
            Quantifier::Forall => Quantifier::Exists,
        }
    }

    /// This quantifier, the other one for "for all": it passes a negation so.
    pub fn across(self, sign: Quantifier) -> Quantifier
        ensures { result ≡ across sign self }
    {
        match sign {
            Quantifier::Exists => self,
            Quantifier::Forall => self.other(),
        }
    }

    /// The value, negated for "for all".
    #[inline(always)]
    pub fn turned(self, k: K3) -> K3
        ensures { result ≡ turned self k }
    {
        match self {
            Quantifier::Exists => k,
            Quantifier::Forall => k.not(),
        }
    }

    /// The first `count` values, negated for "for all", and `No` behind them.
    #[inline(always)]
    pub fn turned_word(self, word: Word, count: u32) -> Word
        requires { count ≤ 64 }
        ensures { result ≡ padded count (map (turned self) word) }
    {
        match self {
            Quantifier::Exists => word.first(count),
            Quantifier::Forall => word.not(count),
        }
    }
}
