//! Runs of quantifiers one in the other, gone through without recursion: a text may have thousands of them.

ghost use Rattle.std.specs.Prelude.{ℕ, ◌≡◌, ◌≤◌, ◌<◌, ◌+◌, ◌⊎◌, IfSome, IsSome, IsNone, List};
ghost use Rattle.std.specs.List.{range_with_len};
ghost use Rattle.tv_kleene.specs.declared.K3.TheVariants.{Yes, No};
ghost use Rattle.tv_kleene.specs.Kleene.{larger_of};
ghost use Rattle.tv_model.specs.Form.{Form, form_of, height};
ghost use Rattle.tv_model.specs.Truth.{Assignment};
ghost use Rattle.tv_embedding_laws.specs.LogicalStructure.{LogicalStructure};
ghost use Rattle.tv_eval_laws.specs.Value.{value};
ghost use Rattle.tv_quantifiers.specs.Quantified.{quantified, turned};
ghost use Rattle.tv_quantifiers.specs.Runs.{IsOpened, AreFresh, AreWithin, under_run, placed, owed, turns};
ghost use Rattle.tv_quantifiers.specs.Runs.{left};
ghost use Rattle.arrayvec.specs.ArrayVec.{array_vec_len};

use crate::Quantifier;
use arrayvec::ArrayVec;
use tv_kleene::K3;
use tv_model::{Formula, Var, free};

/// From how many quantifiers on a run is long.
const LONG: usize = 4;

/// A quantifier of a run.
#[derive(Clone, Copy, Debug)]
pub struct Level {
    pub quantifier: Quantifier,
    pub var: Var,
    /// The individual that the variable stands for.
    pub at: u32,
    /// The greatest value for the individuals before it, the values negated for "for all".
    pub found: K3,
}

impl Default for Level {
    fn default() -> Level {
        Level::new(Quantifier::Exists, Var(0))
    }
}

impl Level {
    fn new(quantifier: Quantifier, var: Var) -> Level
        ensures { (result.quantifier ≡ quantifier) × (result.var ≡ var) × (result.at ≡ 0)
            × (result.found ≡ No) }
    {
        Level {
            quantifier,
            var,
            at: 0,
            found: K3::No,
        }
    }

    /// Takes the value for the individual at hand, and goes on to the next one; the value of the quantifier
    /// where it is known by then, and then the first individual is at hand again.
    fn take(&mut self, k: K3, size: u32) -> Option<K3>
        requires { self.old.at < size }
        ensures same { (self.new.quantifier ≡ self.old.quantifier) × (self.new.var ≡ self.old.var) }
        ensures next { IsNone result → (self.new.at ≡ self.old.at + 1) × (self.new.at < size)
            × (self.new.found ≡ larger_of self.old.found (turned self.old.quantifier k)) }
        ensures fresh { IsSome result → (self.new.at ≡ 0) × (self.new.found ≡ No) }
        ensures done { IfSome result (λ all.
            (all ≡ turned self.old.quantifier (larger_of self.old.found (turned self.old.quantifier k)))
            × ((larger_of self.old.found (turned self.old.quantifier k) ≡ Yes) ⊎ (size ≤ self.old.at + 1))) }
    {
        let found = self.found.or(self.quantifier.turned(k));
        if found != K3::Yes && self.at + 1 < size {
            self.at += 1;
            self.found = found;
            return None;
        }
        self.at = 0;
        self.found = K3::No;
        Some(self.quantifier.turned(found))
    }
}

/// Quantifiers of a run, the outermost first.
pub type Levels = ArrayVec<Level, 32>;

/// Whether many quantifiers stand one in the other at the head of the formula.
pub fn begins_long_run(f: &Formula) -> bool {
    let mut body = f;
    for _ in 0..LONG {
        match body {
            Formula::Exists(_, g) | Formula::Forall(_, g) => body = g,
            _ => return false,
        }
    }
    true
}

/// The run of the quantifier over `v` and of those at the head of `f`, and what stands under them. One whose
/// variable isn't free under it is passed over.
pub fn opened(quantifier: Quantifier, v: Var, f: &Formula) -> (Levels, &Formula)
    ensures run { IsOpened (quantified quantifier v.0 (form_of f.now)) result.0.items (form_of result.1.now) }
    ensures part { height (form_of result.1.now) ≤ height (form_of f.now) }
{
    let mut levels = Levels::new();
    let mut part = f;
    push_free(&mut levels, quantifier, v, part);
    while !levels.is_full() {
        match part {
            Formula::Exists(w, g) => {
                push_free(&mut levels, Quantifier::Exists, *w, g);
                part = g;
            }
            Formula::Forall(w, g) => {
                push_free(&mut levels, Quantifier::Forall, *w, g);
                part = g;
            }
            _ => break,
        }
    }
    (levels, part)
}

fn push_free(levels: &mut Levels, quantifier: Quantifier, v: Var, f: &Formula)
    requires room { array_vec_len levels.old < 32 }
    ensures { (whole : Form) → IsOpened whole levels.old.items (quantified quantifier v.0 (form_of f.now))
        → IsOpened whole levels.new.items (form_of f.now) }
{
    if free(f, v) {
        levels.push(Level::new(quantifier, v));
    }
}

/// Takes the value of the formula under the run for the individuals at hand, and goes on to the next ones;
/// the value of the whole where it is known by then.
pub fn advance(levels: &mut [Level], k: K3, size: u32) -> Option<K3>
    requires { AreWithin size levels.old }
    ensures done { IfSome result (λ whole. (s : LogicalStructure) (a : Assignment) (f : Form)
        → owed s size a levels.old f k ≡ whole) }
    ensures fresh { IsSome result → AreFresh levels.new }
    ensures next { IsNone result → (s : LogicalStructure) (a : Assignment) (f : Form)
        → s.individuals ≡ range_with_len 0 size → owed s size a levels.old f k
        ≡ owed s size a levels.new f (value s (placed a levels.new) f) }
    ensures fewer { IsNone result → left size levels.new < left size levels.old }
    ensures same { (f : Form) → under_run levels.new f ≡ under_run levels.old f }
    ensures turns { turns size levels.new ≡ turns size levels.old }
    ensures within { AreWithin size levels.new }
{
    match levels.split_first_mut() {
        None => Some(k),
        Some((level, inner)) => {
            let found = advance(inner, k, size)?;
            level.take(found, size)
        }
    }
}
