//! Rows of blur.

ghost use Rattle.std.specs.Prelude.{◌≡◌, ◌<◌, ◌≤◌, [], ◌∷◌, map, IfOk, None};
ghost use Rattle.tv_structure_form.specs.StructureForm.{arities_of};

use super::shown::{blank, core, shown, vocabulary};
use std::alloc::{AllocError, Global};
use std::cmp::Ordering;
use std::test::Fail;
use tv_blur::blur;
use tv_kleene::K3;
use tv_model::{Items, PredId, Vocab};
use tv_struct::{Structure, Tuple};

/// Structures and their blurs. What stays as it is: nullary values, no individual, one individual.
const KEPT: &str = "1; 1
?; ?
0 -1001; 0 -1001
0 s100?; 0 s100?";

/// Two of one name: no edge, one edge of four, all edges; a summary among them.
const MERGED: &str = "0 -10000 -10000; 0 s1000
0 -10001 -10000; 0 s100?
1 -10011 -10011; 1 s1001
0 -10000 s10000; 0 s1000
? -10000 -10000; ? s1000";

/// Unknown is a name of its own, between false and true; the first predicate decides before the second.
const ORDERED: &str = "0 -10001 -?0000; 0 -?0000 -10010
0 -100000 -?00000 -000000; 0 -000000 -?00000 -100000
0 -010000 -100000 -000000; 0 -000000 -010000 -100000";

/// `z` tells no individuals apart, and its values are joined: two, three.
const JOINED: &str = "0 -10000 -10100; 0 s10?0
0 -000000 -001000 -00?000; 0 s00?0";

/// The head of a list, and its other cells.
const LIST: &str = "0 -1000100 -0000010 -0000001 -0000000; 0 s000?0 -100?0";

fn is_blurred_to(alloc: Global, s: &Structure, text: &str) -> Result<bool, AllocError>
    requires { arities_of s.now ≡ 0 ∷ 1 ∷ 1 ∷ 1 ∷ 2 ∷ [] }
{
    let blurred = blur(alloc, &vocabulary(alloc)?, s)?;
    Ok(blurred.compare(&shown(alloc, text)?) == Ordering::Equal && blurred.fresh().is_none())
}

/// Whether a row's structure is blurred to what the row tells.
fn is_met(alloc: Global, row: &str) -> Result<bool, Fail> {
    let (text, blurred) = row.split_once("; ").ok_or("no row")?;
    Ok(is_blurred_to(alloc, &shown(alloc, text)?, blurred)?)
}

#[test]
fn individuals_of_equal_name_are_one(rt: HostRuntime) -> Result<(), Fail> {
    for rows in [KEPT, MERGED, ORDERED, JOINED, LIST] {
        for row in rows.lines() {
            assert!(rt; is_met(rt.alloc(), row)?, "{row}");
        }
    }
    Ok(())
}

/// The blur of individuals that are all alike.
fn many_are_blurred_to(alloc: Global, text: &str) -> Result<bool, AllocError> {
    is_blurred_to(alloc, &blank(alloc, 256)?, text)
}

#[test]
fn many_individuals_of_one_name_are_one(rt: HostRuntime) -> Result<(), Fail> {
    assert!(rt; many_are_blurred_to(rt.alloc(), "0 s0000")?);
    Ok(())
}

/// Six unary predicates.
fn digits(alloc: Global) -> Result<Vocab, AllocError>
    ensures { IfOk result (λ v. map (λ pred. pred.arity) v.preds ≡ 1 ∷ 1 ∷ 1 ∷ 1 ∷ 1 ∷ 1 ∷ []) }
{
    let mut preds = Items::new(alloc);
    preds.push(core(alloc, 1, true))?;
    preds.push(core(alloc, 1, true))?;
    preds.push(core(alloc, 1, true))?;
    preds.push(core(alloc, 1, true))?;
    preds.push(core(alloc, 1, true))?;
    preds.push(core(alloc, 1, true))?;
    Ok(Vocab { preds })
}

fn digit(n: u32) -> K3 {
    match n % 3 {
        0 => K3::No,
        1 => K3::Half,
        _ => K3::Yes,
    }
}

/// Gives the individual the digits of `n` in base three, the last predicate the last one.
fn put_number(s: &mut Structure, u: u32, n: u32)
    requires over { arities_of s.old ≡ 1 ∷ 1 ∷ 1 ∷ 1 ∷ 1 ∷ 1 ∷ [] }
    requires individual { u < s.old.size }
    ensures over { arities_of s.new ≡ 1 ∷ 1 ∷ 1 ∷ 1 ∷ 1 ∷ 1 ∷ [] }
    ensures size { s.new.size ≡ s.old.size }
{
    s.set(PredId(0), Tuple::One(u), digit(n / 243));
    s.set(PredId(1), Tuple::One(u), digit(n / 81));
    s.set(PredId(2), Tuple::One(u), digit(n / 27));
    s.set(PredId(3), Tuple::One(u), digit(n / 9));
    s.set(PredId(4), Tuple::One(u), digit(n / 3));
    s.set(PredId(5), Tuple::One(u), digit(n));
}

/// The structure of 256 individuals that have the digits of 0 to 255, from the last one or from the first.
fn numbered(alloc: Global, vocab: &Vocab, is_falling: bool) -> Result<Structure, AllocError>
    requires { map (λ pred. pred.arity) vocab.now.preds ≡ 1 ∷ 1 ∷ 1 ∷ 1 ∷ 1 ∷ 1 ∷ [] }
    ensures { IfOk result (λ s. arities_of s ≡ 1 ∷ 1 ∷ 1 ∷ 1 ∷ 1 ∷ 1 ∷ []) }
{
    let mut s = Structure::new(alloc, vocab, 256)?;
    for u in 0..256 {
        put_number(&mut s, u, if is_falling { 255 - u } else { u });
    }
    Ok(s)
}

/// How the blur of a numbered structure compares with the rising one.
fn blurred(alloc: Global, is_falling: bool) -> Result<Ordering, AllocError> {
    let vocab = digits(alloc)?;
    let s = blur(alloc, &vocab, &numbered(alloc, &vocab, is_falling)?)?;
    Ok(s.compare(&numbered(alloc, &vocab, false)?))
}

#[test]
fn names_of_many_individuals_ascend(rt: HostRuntime) -> Result<(), Fail> {
    assert!(rt; blurred(rt.alloc(), false)? == Ordering::Equal);
    assert!(rt; blurred(rt.alloc(), true)? == Ordering::Equal);
    Ok(())
}
