//! Skeletons: what a structure's key says, as a structure.

ghost use Rattle.std.specs.Prelude.{◌≡◌, ◌<◌, ◌+◌, ℕ, List, IfOk, length};
ghost use Rattle.tv_kleene.specs.declared.K3.TheVariants.{No};
ghost use Rattle.tv_blur.specs.Classes.{ChangesOnly};
ghost use Rattle.tv_structure_form.specs.StructureForm.{arities_of, value_at};
ghost use Rattle.tv_struct.specs.StructureRows.{HasArity};
ghost use Rattle.tv_join.specs.Keyed.{AreFlags, HasCopied, IsSkeleton};
ghost use Rattle.tv_join.specs.Pairwise.{HaveOneShape};

use std::alloc::{AllocError, Global};
use tv_model::PredId;
use tv_struct::{Structure, Tuple, is_nowhere};

/// The structure with the individuals of `s` and its values of the predicates whose flag is true; elsewhere
/// it has `No`, and no summary. Equal ones, and only these, come of structures with the same individuals and
/// the same values there.
pub fn skeleton(alloc: Global, counted: &[bool], s: &Structure) -> Result<Structure, AllocError>
    requires { AreFlags counted.now s.now }
    ensures { IfOk result (IsSkeleton counted.now s.now) }
{
    let size = s.size();
    let mut bare = Structure::of_no(alloc, s, size)?;
    let count = s.pred_count();
    for p in 0..count {
        copy_next(&mut bare, s, counted, p);
    }
    let _ = bare.size();
    Ok(bare)
}

/// Puts the values of the next predicate into `t` where it counts.
fn copy_next(t: &mut Structure, s: &Structure, counted: &[bool], p: u32)
    requires flags { AreFlags counted.now s.now }
    requires pred { p < length (arities_of s.now) }
    requires copied { HasCopied counted.now s.now p t.old }
    ensures { HasCopied counted.now s.now (p + 1) t.new }
{
    if counted[p as usize] {
        copy_values(t, s, PredId(p));
    }
}

/// Puts the values of the predicate in `s` into `t`, where it is `No` everywhere.
fn copy_values(t: &mut Structure, s: &Structure, p: PredId)
    requires like { HaveOneShape t.old s.now }
    requires pred { p.0 < length (arities_of s.now) }
    requires small { ¬ HasArity s.now p.0 2 }
    requires blank { (tuple : List ℕ) → value_at t.old p.0 tuple ≡ No }
    ensures changes { ChangesOnly p.0 t.old t.new }
    ensures values { (tuple : List ℕ) → value_at s.now p.0 tuple ≡ value_at t.new p.0 tuple }
{
    match s.arity(p) {
        0 => copy_value(t, s, p),
        _ => copy_row(t, s, p),
    }
}

fn copy_value(t: &mut Structure, s: &Structure, p: PredId)
    requires like { HaveOneShape t.old s.now }
    requires arity { HasArity s.now p.0 0 }
    ensures changes { ChangesOnly p.0 t.old t.new }
    ensures values { (tuple : List ℕ) → value_at s.now p.0 tuple ≡ value_at t.new p.0 tuple }
{
    let _ = t.size();
    let _ = s.size();
    t.set(p, Tuple::Zero, s.get(p, Tuple::Zero));
}

/// Copies the values of a unary predicate. Nothing has to be put where it is `No` everywhere, as most are in
/// a program of many variables.
fn copy_row(t: &mut Structure, s: &Structure, p: PredId)
    requires like { HaveOneShape t.old s.now }
    requires arity { HasArity s.now p.0 1 }
    requires blank { (tuple : List ℕ) → value_at t.old p.0 tuple ≡ No }
    ensures changes { ChangesOnly p.0 t.old t.new }
    ensures values { (tuple : List ℕ) → value_at s.now p.0 tuple ≡ value_at t.new p.0 tuple }
{
    let _ = s.size();
    if is_nowhere(s, p) {
        return;
    }
    let row = s.unary_row(p);
    t.set_unary_row(p, &row);
}
