//! Each implementation of a table against a plain finite map.

ghost use Rattle.std.specs.Prelude.{◌≡◌, ◌<◌, ◌≤◌, [], ◌∷◌, map, All, IfOk, IfSome};
ghost use Rattle.tv_structure_form.specs.TableForm.{arities_in};

use super::nested::Nested;
use std::alloc::{AllocError, Global};
use std::collections::BTreeMap;
use std::test::Fail;
use tv_kleene::K3;
use tv_model::{Items, Kind, NO_PROPS, Pred, PredId, Preds, Vocab};
use tv_struct::{Structure, Table, Tuple};

/// The values other than `No`, by predicate and members of the tuple, 0 where it has none.
type Entries = BTreeMap<(u32, u32, u32), K3>;

fn core(alloc: Global, arity: u8) -> Pred
    ensures { result.arity ≡ arity }
{
    Pred {
        name: Items::new(alloc),
        arity,
        kind: Kind::Core,
        abs: true,
        props: NO_PROPS,
    }
}

/// A predicate of each arity, in ascending order.
fn preds_of_each_arity(alloc: Global) -> Result<Preds, AllocError>
    ensures { IfOk result (λ preds. map (λ pred. pred.arity) preds ≡ 0 ∷ 1 ∷ 2 ∷ []) }
{
    let mut preds = Items::new(alloc);
    preds.push(core(alloc, 0))?;
    preds.push(core(alloc, 1))?;
    preds.push(core(alloc, 2))?;
    Ok(preds)
}

fn value_at(entries: &Entries, pred: u32, u: u32, w: u32) -> K3 {
    entries.get(&(pred, u, w)).copied().unwrap_or(K3::No)
}

/// Whether the entries at the tuples that begin with `u` are the map's.
fn agrees_at<T: Table>(table: &T, entries: &Entries, u: u32) -> bool
    requires over { arities_in (T.table table.now).planes ≡ 0 ∷ 1 ∷ 2 ∷ [] }
    requires individual { u < (T.table table.now).size }
{
    let mut agrees = table.get(PredId(1), Tuple::One(u)) == value_at(entries, 1, u, 0);
    for w in 0..table.size() {
        agrees &= table.get(PredId(2), Tuple::Two(u, w)) == value_at(entries, 2, u, w);
    }
    agrees
}

/// Whether every entry is the map's.
fn agrees<T: Table>(table: &T, entries: &Entries) -> bool
    requires over { arities_in (T.table table.now).planes ≡ 0 ∷ 1 ∷ 2 ∷ [] }
{
    let mut agrees = table.get(PredId(0), Tuple::Zero) == value_at(entries, 0, 0, 0);
    for u in 0..table.size() {
        agrees &= agrees_at(table, entries, u);
    }
    agrees
}

/// The first, the second, the middle or the last individual, where there is one.
fn corner(size: u32, number: u32) -> Option<u32>
    ensures { IfSome result (λ u. u < size) }
{
    let u = match number % 4 {
        0 => 0,
        1 => 1,
        2 => size / 2,
        _ => size.saturating_sub(1),
    };
    if u < size { Some(u) } else { None }
}

/// Writes an entry of each predicate, in the table and in the map.
fn write<T: Table>(table: &mut T, entries: &mut Entries, step: u32) -> Result<(), AllocError>
    requires over { arities_in (T.table table.old).planes ≡ 0 ∷ 1 ∷ 2 ∷ [] }
    requires step { step < 32 }
    ensures over { arities_in (T.table table.new).planes ≡ 0 ∷ 1 ∷ 2 ∷ [] }
{
    let k = match (step + step / 4) % 3 {
        0 => K3::Half,
        1 => K3::Yes,
        _ => K3::No,
    };
    table.set(PredId(0), Tuple::Zero, k);
    entries.insert((0, 0, 0), k)?;
    let size = table.size();
    if let Some(u) = corner(size, step / 4) {
        table.set(PredId(1), Tuple::One(u), k.not());
        entries.insert((1, u, 0), k.not())?;
        if let Some(w) = corner(size, step) {
            table.set(PredId(2), Tuple::Two(u, w), k);
            entries.insert((2, u, w), k)?;
        }
    }
    Ok(())
}

/// Whether the table has the map's entries at first, after a write at each pair of corners, and after
/// another value is written at each.
fn follows_a_map<T: Table>(alloc: Global, table: &mut T) -> Result<bool, AllocError>
    requires over { arities_in (T.table table.old).planes ≡ 0 ∷ 1 ∷ 2 ∷ [] }
{
    let mut entries = BTreeMap::new(alloc);
    let mut follows = agrees(table, &entries);
    for step in 0..32 {
        write(table, &mut entries, step)?;
        if step % 16 == 15 {
            follows &= agrees(table, &entries);
        }
    }
    Ok(follows)
}

fn vocab_of_each_arity(alloc: Global) -> Result<Vocab, AllocError>
    ensures arities { IfOk result (λ vocab. map (λ pred. pred.arity) vocab.preds ≡ 0 ∷ 1 ∷ 2 ∷ []) }
    ensures each { IfOk result (λ vocab. All (λ pred. pred.arity ≤ 2) vocab.preds) }
{
    Ok(Vocab {
        preds: preds_of_each_arity(alloc)?,
    })
}

/// Whether a structure of that size follows a map.
fn structure_follows(alloc: Global, size: u32) -> Result<bool, AllocError>
    requires { size ≤ 256 }
{
    let vocab = vocab_of_each_arity(alloc)?;
    let mut structure = Structure::new(alloc, &vocab, size)?;
    follows_a_map(alloc, &mut structure)
}

/// Whether nested vectors of that size follow a map.
#[tactic(auto, using(tv_structure_form::proofs::StructureLaws::arities_of_no))]
fn nested_follows(alloc: Global, size: u32) -> Result<bool, AllocError>
    requires { size ≤ 256 }
{
    let vocab = vocab_of_each_arity(alloc)?;
    let mut nested = Nested::of_no(alloc, vocab.preds.as_slice(), size)?;
    follows_a_map(alloc, &mut nested)
}

#[test]
fn tables_are_finite_maps(rt: HostRuntime) -> Result<(), Fail> {
    for size in [0, 1, 2, 255, 256] {
        assert!(rt; structure_follows(rt.alloc(), size)?, "structure of {size}");
        assert!(rt;
            nested_follows(rt.alloc(), size)?,
            "nested vectors of {size}"
        );
    }
    Ok(())
}
