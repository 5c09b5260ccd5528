//! The three truth values of Kleene's strong logic, with their two orders.
//!
//! `No < Half < Yes` is the order of truth: `and` and `or` are its least and greatest value.
//! `Half` stands for either of the two others, which is the order of information: `join` is its
//! least upper bound, and `under` is the order itself.
//! Source: Kleene, "Introduction to Metamathematics" (1952), section 64; Sagiv, Reps and Wilhelm,
//! "Parametric shape analysis via 3-valued logic" (2002), section 4.1.
#![tactic(auto)]

ghost use Rattle.std.specs.Prelude.{◌≡◌, ◌≢◌, IsTrue, MatchBool, ◌↔◌};
ghost use Rattle.std.proofs.Common.{rules};
ghost use Rattle.std.specs.Cmp.Rules.{comparing};
ghost use Rattle.tv_kleene.specs.Kleene.{smaller_of, larger_of, negation_of, join_of, are_same, LiesUnder};

/// A truth value: false, unknown or true.
///
/// The derived order is that of truth, `No < Half < Yes`.
#[derive(Clone, Copy, Eq, PartialOrd, Ord, Hash, Debug)]
pub enum K3 {
    /// False.
    No,
    /// Unknown: true or false.
    Half,
    /// True.
    Yes,
}

impl PartialEq for K3 {
    ghost eq = { are_same };

    ghost laws = { Prim.search (comparing, rules) };

    fn eq(&self, other: &K3) -> bool
        ensures computes { result ≡ are_same self.now other.now }
        ensures same { MatchBool result (self.now ≡ other.now) (self.now ≢ other.now) }
    {
        match (self, other) {
            (K3::No, K3::No) | (K3::Half, K3::Half) | (K3::Yes, K3::Yes) => true,
            _ => false,
        }
    }
}

impl K3 {
    /// The conjunction: the smaller of the two values in the order of truth.
    pub fn and(self, other: K3) -> K3
        ensures { result ≡ smaller_of self other }
    {
        match (self, other) {
            (K3::No, _) | (_, K3::No) => K3::No,
            (K3::Yes, K3::Yes) => K3::Yes,
            _ => K3::Half,
        }
    }

    /// The disjunction: the larger of the two values in the order of truth.
    pub fn or(self, other: K3) -> K3
        ensures { result ≡ larger_of self other }
    {
        match (self, other) {
            (K3::Yes, _) | (_, K3::Yes) => K3::Yes,
            (K3::No, K3::No) => K3::No,
            _ => K3::Half,
        }
    }

    /// The negation: swaps `No` and `Yes`, and keeps `Half`.
    pub fn not(self) -> K3
        ensures { result ≡ negation_of self }
    {
        match self {
            K3::No => K3::Yes,
            K3::Half => K3::Half,
            K3::Yes => K3::No,
        }
    }

    /// The least value that both values lie under: the common value where they are equal, else
    /// `Half`.
    #[tactic(auto, using(crate::proofs::Lattice::join_least))]
    pub fn join(self, other: K3) -> K3
        ensures value { result ≡ join_of self other }
        ensures above { LiesUnder self result × LiesUnder other result }
        ensures least { (k : K3) → LiesUnder self k → LiesUnder other k → LiesUnder result k }
    {
        if self == other { self } else { K3::Half }
    }

    /// Whether the value lies under the other in the order of information: they are equal, or the
    /// other is `Half`.
    pub fn under(self, other: K3) -> bool
        ensures { IsTrue result ↔ LiesUnder self other }
    {
        self == other || other == K3::Half
    }
}
