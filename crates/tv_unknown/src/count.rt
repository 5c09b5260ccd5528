//! At how many tuples a predicate is unknown.

ghost use Rattle.std.specs.Prelude.{◌≡◌, ◌<◌, ◌≤◌, ◌*◌, [], ◌∷◌, length};
ghost use Rattle.tv_structure_form.specs.Halves.{half_of};
ghost use Rattle.tv_structure_form.specs.StructureForm.{arities_of, table_of, value_at};
ghost use Rattle.tv_structure_form.specs.TableForm.{HasEntry};
ghost use Rattle.tv_struct.specs.StructureRows.{HasArity};
ghost use Rattle.tv_struct.specs.TupleForm.{tuple_of};
ghost use Rattle.tv_unknown.specs.Unknown.{unknown_count, unknown_from};

use tv_kleene::K3;
use tv_model::PredId;
use tv_struct::{Structure, Table, Tuple};

/// 1 where the value at the tuple is unknown.
fn count_at(s: &Structure, p: PredId, t: Tuple) -> u32
    requires { HasEntry (table_of s.now) p.0 (tuple_of t) }
    ensures count { result ≡ half_of (value_at s.now p.0 (tuple_of t)) }
    ensures most { result ≤ 1 }
{
    match s.get(p, t) {
        K3::Half => 1,
        K3::No | K3::Yes => 0,
    }
}

/// At how many individuals the unary predicate is unknown.
fn count_unary(s: &Structure, p: PredId) -> u32
    requires { HasArity s.now p.0 1 }
    ensures { result ≡ unknown_from s.now p.0 [] 1 }
{
    let mut count = 0;
    for u in 0..s.size() {
        count += count_at(s, p, Tuple::One(u));
    }
    count
}

/// At how many pairs with this first member the binary predicate is unknown.
fn count_second(s: &Structure, p: PredId, u: u32) -> u32
    requires arity { HasArity s.now p.0 2 }
    requires individual { u < s.now.size }
    ensures count { result ≡ unknown_from s.now p.0 (u ∷ []) 1 }
    ensures most { result ≤ s.now.size }
{
    let mut count = 0;
    for w in 0..s.size() {
        count += count_at(s, p, Tuple::Two(u, w));
    }
    count
}

/// At how many pairs the binary predicate is unknown.
fn count_pairs(s: &Structure, p: PredId) -> u32
    requires { HasArity s.now p.0 2 }
    ensures { result ≡ unknown_from s.now p.0 [] 2 }
{
    let mut count = 0;
    for u in 0..s.size() {
        count += count_second(s, p, u);
    }
    count
}

/// At how many tuples the predicate is unknown in the structure.
pub fn unknown_count(s: &Structure, p: PredId) -> u32
    requires { p.0 < length (arities_of s.now) }
    ensures { result ≡ unknown_count s.now p.0 }
{
    match s.arity(p) {
        0 => count_at(s, p, Tuple::Zero),
        1 => count_unary(s, p),
        _ => count_pairs(s, p),
    }
}
