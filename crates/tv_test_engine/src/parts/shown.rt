//! Small structures as texts.

ghost use Rattle.std.specs.Prelude.{◌≡◌, ◌<◌, ◌≤◌, [], ◌∷◌, map, IfOk, None};
ghost use Rattle.tv_structure_form.specs.StructureForm.{arities_of};

use std::alloc::{AllocError, Global};
use tv_kleene::K3;
use tv_model::{Items, Kind, NO_PROPS, Pred, PredId, Vocab};
use tv_struct::{Structure, Tuple};

/// A core predicate.
pub fn core(alloc: Global, arity: u8, abs: bool) -> Pred
    ensures { result.arity ≡ arity }
{
    Pred {
        name: Items::new(alloc),
        arity,
        kind: Kind::Core,
        abs,
        props: NO_PROPS,
    }
}

/// The predicates `b()`, `x(v)`, `y(v)`, `z(v)` and `n(v, w)`; `z` tells no individuals apart.
pub fn vocabulary(alloc: Global) -> Result<Vocab, AllocError>
    ensures { IfOk result (λ v. map (λ pred. pred.arity) v.preds ≡ 0 ∷ 1 ∷ 1 ∷ 1 ∷ 2 ∷ []) }
{
    let mut preds = Items::new(alloc);
    preds.push(core(alloc, 0, true))?;
    preds.push(core(alloc, 1, true))?;
    preds.push(core(alloc, 1, true))?;
    preds.push(core(alloc, 1, false))?;
    preds.push(core(alloc, 2, true))?;
    Ok(Vocab { preds })
}

/// The structure over these predicates that is `No` everywhere.
pub fn blank(alloc: Global, size: u32) -> Result<Structure, AllocError>
    requires { size ≤ 256 }
    ensures over { IfOk result (λ s. arities_of s ≡ 0 ∷ 1 ∷ 1 ∷ 1 ∷ 2 ∷ []) }
    ensures size { IfOk result (λ s. s.size ≡ size) }
    ensures fresh { IfOk result (λ s. s.fresh ≡ None) }
{
    let vocab = vocabulary(alloc)?;
    Structure::new(alloc, &vocab, size)
}

fn set_nullary(s: &mut Structure, k: K3)
    requires over { arities_of s.old ≡ 0 ∷ 1 ∷ 1 ∷ 1 ∷ 2 ∷ [] }
    ensures over { arities_of s.new ≡ 0 ∷ 1 ∷ 1 ∷ 1 ∷ 2 ∷ [] }
    ensures size { s.new.size ≡ s.old.size }
    ensures fresh { s.new.fresh ≡ s.old.fresh }
{
    s.set(PredId(0), Tuple::Zero, k);
}

/// Puts values at `x(u)`, `y(u)` and `z(u)`.
pub fn set_unary(s: &mut Structure, u: u32, x: K3, y: K3, z: K3)
    requires over { arities_of s.old ≡ 0 ∷ 1 ∷ 1 ∷ 1 ∷ 2 ∷ [] }
    requires individual { u < s.old.size }
    ensures over { arities_of s.new ≡ 0 ∷ 1 ∷ 1 ∷ 1 ∷ 2 ∷ [] }
    ensures size { s.new.size ≡ s.old.size }
    ensures fresh { s.new.fresh ≡ s.old.fresh }
{
    s.set(PredId(1), Tuple::One(u), x);
    s.set(PredId(2), Tuple::One(u), y);
    s.set(PredId(3), Tuple::One(u), z);
}

/// Puts `k` at `n(u, w)`.
pub fn set_edge(s: &mut Structure, u: u32, w: u32, k: K3)
    requires over { arities_of s.old ≡ 0 ∷ 1 ∷ 1 ∷ 1 ∷ 2 ∷ [] }
    requires source { u < s.old.size }
    requires target { w < s.old.size }
    ensures over { arities_of s.new ≡ 0 ∷ 1 ∷ 1 ∷ 1 ∷ 2 ∷ [] }
    ensures size { s.new.size ≡ s.old.size }
    ensures fresh { s.new.fresh ≡ s.old.fresh }
{
    s.set(PredId(4), Tuple::Two(u, w), k);
}

/// The value that the word shows at a place: `1`, `?` for unknown, or anything else for false.
fn value_in(word: &[u8], place: usize) -> K3 {
    match word.get(place) {
        Some(b'1') => K3::Yes,
        Some(b'?') => K3::Half,
        _ => K3::No,
    }
}

/// Makes an individual as the word shows it: `s` for a summary, or `-`, then its values of `x`, `y` and
/// `z`, and then those of `n` to each individual in turn.
fn put_word(s: &mut Structure, u: u32, word: &[u8])
    requires over { arities_of s.old ≡ 0 ∷ 1 ∷ 1 ∷ 1 ∷ 2 ∷ [] }
    requires individual { u < s.old.size }
    requires fresh { s.old.fresh ≡ None }
    ensures over { arities_of s.new ≡ 0 ∷ 1 ∷ 1 ∷ 1 ∷ 2 ∷ [] }
    ensures size { s.new.size ≡ s.old.size }
    ensures fresh { s.new.fresh ≡ None }
{
    s.set_summary(u, word.first() == Some(&b's'));
    let (x, y, z) = (value_in(word, 1), value_in(word, 2), value_in(word, 3));
    set_unary(s, u, x, y, z);
    for w in 0..s.size() {
        set_edge(s, u, w, value_in(word, w as usize + 4));
    }
}

/// How many individuals the text shows, each behind a blank: at most six.
fn size_shown(text: &[u8]) -> u32
    ensures { result ≤ 6 }
{
    let blanks = text.iter().filter(|byte| **byte == b' ').count();
    blanks.min(6) as u32
}

/// The structure that the text shows: the value of `b`, and a word for each individual.
pub fn shown(alloc: Global, text: &str) -> Result<Structure, AllocError>
    ensures { IfOk result (λ s. arities_of s ≡ 0 ∷ 1 ∷ 1 ∷ 1 ∷ 2 ∷ []) }
{
    let mut rest = text.as_bytes();
    let size = size_shown(rest);
    let mut s = blank(alloc, size)?;
    set_nullary(&mut s, value_in(rest, 0));
    rest = rest.get(2..).unwrap_or(&[]);
    for u in 0..size {
        put_word(&mut s, u, rest);
        rest = rest.get(size as usize + 5..).unwrap_or(&[]);
    }
    Ok(s)
}
