//! Sets of variables.

ghost use Rattle.std.specs.Prelude.{ℕ, ◌≡◌, ◌≢◌, ◌<◌, true, false, get_or, slice_set, replicate, IsTrue};
ghost use Rattle.tv_model.specs.Form.{form_of, vars_of, IsFree};
ghost use Rattle.tv_quantifiers.specs.Sets.{IsOutside};

use tv_model::{Formula, Terms, Var};

/// A set of the 32 variables of formulas.
#[derive(Clone, Copy, Debug)]
pub struct Variables {
    flags: [bool; 32],
}

impl Variables {
    /// The empty set.
    #[inline(always)]
    pub fn none() -> Variables
        ensures { result.flags ≡ replicate 32 false }
    {
        Variables { flags: [false; 32] }
    }

    /// The set with this variable too.
    #[inline(always)]
    pub fn with(mut self, v: Var) -> Variables
        requires { v.0 < 32 }
        ensures flags { result.flags ≡ slice_set self.flags v.0 true }
        ensures outside { (w : ℕ) → IsOutside result w → (w ≢ v.0) × IsOutside self w }
    {
        self.flags[v.0 as usize] = true;
        self
    }

    /// Whether the variable is in the set.
    #[inline(always)]
    pub(crate) fn has(&self, v: Var) -> bool
        ensures { result ≡ get_or self.now.flags v.0 false }
    {
        if v.0 < 32 {
            self.flags[v.0 as usize]
        } else {
            false
        }
    }
}

/// Whether the formula is a literal without a variable of the set: true only where none of its free variables
/// is in the set.
#[inline(always)]
pub fn is_literal_without(f: &Formula, set: &Variables) -> bool
    ensures { IsTrue result → (v : ℕ) → IsFree v (form_of f.now) → IsOutside set.now v }
{
    match f {
        Formula::Not(g) => is_leaf_without(g, set),
        _ => is_leaf_without(f, set),
    }
}

#[inline(always)]
fn is_leaf_without(f: &Formula, set: &Variables) -> bool
    ensures { IsTrue result → (v : ℕ) → IsFree v (form_of f.now) → IsOutside set.now v }
{
    match f {
        Formula::Atom(_, Terms::Zero) => true,
        Formula::Atom(_, Terms::One(x)) => !set.has(*x),
        Formula::Atom(_, Terms::Two(x, y)) => !set.has(*x) && !set.has(*y),
        Formula::IsNew(x) => !set.has(*x),
        Formula::Same(x, y) => !set.has(*x) && !set.has(*y),
        _ => false,
    }
}
