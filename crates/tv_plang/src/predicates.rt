//! The predicates of a compiled program: its variables, its fields, and what variables reach along fields.

ghost use Rattle.std.specs.Prelude.{◌≡◌, ◌<◌, ◌≤◌, ◌+◌, [], ◌∷◌, ◌++◌, length, map, codes, IfOk, OnOk};
ghost use Rattle.std.specs.List.{flat_map};
ghost use Rattle.tv_model.specs.Form.{form_of, FAtom, FAnd, FOr, FSame, FExists, FClosure};
ghost use Rattle.tv_model.specs.Program.{pred_of};
ghost use Rattle.tv_source.specs.Copies.{source_of};
ghost use Rattle.tv_plang_laws.specs.Compiled.{compiled_preds, field_pred, leads_on, name_in, numbers_below};
ghost use Rattle.tv_plang_laws.specs.Compiled.{points, reach_pred, reach_preds, variable_pred};
ghost use Rattle.tv_plang.specs.Limits.{HasFewNames};

use crate::formulas::{both, either, one_place, some, two_places};
use std::alloc::{AllocError, Global};
use tv_model::{Bytes, Formula, Items, Kind, NO_PROPS, Names, Pred, Props, Terms, Var};
use tv_source::Source;

/// The name at the place, or no bytes where there is none.
pub fn name_at(names: &Names, place: u32) -> &[u8]
    ensures { result.now ≡ name_in names.now place }
{
    match names.as_slice().get(place as usize) {
        Some(name) => name.as_slice(),
        None => &[],
    }
}

fn variable_predicate(alloc: Global, name: &Bytes) -> Result<Pred, AllocError>
    ensures { IfOk result (λ d. pred_of d ≡ variable_pred name.now) }
{
    Ok(Pred {
        name: Items::from_vec(Vec::from_slice(alloc, name.as_slice())?),
        arity: 1,
        kind: Kind::Core,
        abs: true,
        props: Props {
            unique: true,
            ..NO_PROPS
        },
    })
}

fn field_predicate(alloc: Global, name: &Bytes) -> Result<Pred, AllocError>
    ensures { IfOk result (λ d. pred_of d ≡ field_pred name.now) }
{
    Ok(Pred {
        name: Items::from_vec(Vec::from_slice(alloc, name.as_slice())?),
        arity: 2,
        kind: Kind::Core,
        abs: true,
        props: Props {
            function: true,
            ..NO_PROPS
        },
    })
}

/// `r[f,x]`
fn reach_text(alloc: Global, field: &[u8], variable: &[u8]) -> Result<Bytes, AllocError>
    ensures { IfOk result
        (λ text. text ≡ codes "r[" ++ (field.now ++ (codes "," ++ (variable.now ++ codes "]")))) }
{
    let mut text = Vec::new(alloc);
    text.extend_from_slice(b"r[")?;
    text.extend_from_slice(field)?;
    text.extend_from_slice(b",")?;
    text.extend_from_slice(variable)?;
    text.extend_from_slice(b"]")?;
    Ok(Items::from_vec(text))
}

/// `f*(v, w)`, where `f` is the predicate's number, with the variables 2 and 3 inside.
fn reached(alloc: Global, f: u32, v: u8, w: u8) -> Result<Formula, AllocError>
    ensures { IfOk result (λ g. form_of g ≡ FOr (FSame v w) (FClosure v w 2 3 (FAtom f (2 ∷ 3 ∷ [])))) }
{
    let body = Box::new(alloc, two_places(f, 2, 3))?;
    let closure = Formula::Closure {
        from: Var(v),
        to: Var(w),
        left: Var(2),
        right: Var(3),
        body,
    };
    either(alloc, Formula::Same(Var(v), Var(w)), closure)
}

/// `r[f,x](v) = E(v_1) x(v_1) & f*(v_1, v)`
fn reach_predicate(alloc: Global, source: &Source, f: u32, x: u32) -> Result<Pred, AllocError>
    requires few { HasFewNames (source_of source.now) }
    requires field { f < length (source_of source.now).fields }
    ensures { IfOk result (λ d. pred_of d ≡ reach_pred (source_of source.now) f x) }
{
    let number = source.variables.len() as u32 + f;
    let along = reached(alloc, number, 1, 0)?;
    let body = some(alloc, 1, both(alloc, one_place(x, 1), along)?)?;
    Ok(Pred {
        name: reach_text(
            alloc,
            name_at(&source.fields, f),
            name_at(&source.variables, x),
        )?,
        arity: 1,
        kind: Kind::Defined {
            vars: Terms::One(Var(0)),
            body,
        },
        abs: true,
        props: NO_PROPS,
    })
}

fn put_variables(alloc: Global, names: &[Bytes], out: &mut Vec<Pred>) -> Result<(), AllocError>
    ensures { OnOk result
        (map pred_of out.new.items ≡ map pred_of out.old.items ++ map variable_pred names.now) }
{
    for name in names {
        out.push(variable_predicate(alloc, name)?)?;
    }
    Ok(())
}

fn put_fields(alloc: Global, names: &[Bytes], out: &mut Vec<Pred>) -> Result<(), AllocError>
    ensures { OnOk result
        (map pred_of out.new.items ≡ map pred_of out.old.items ++ map field_pred names.now) }
{
    for name in names {
        out.push(field_predicate(alloc, name)?)?;
    }
    Ok(())
}

/// What each variable reaches along the field.
fn put_reached(
    alloc: Global,
    source: &Source,
    f: u32,
    out: &mut Vec<Pred>,
) -> Result<(), AllocError>
    requires few { HasFewNames (source_of source.now) }
    requires field { f < length (source_of source.now).fields }
    ensures { OnOk result (map pred_of out.new.items ≡ map pred_of out.old.items ++ map
        (reach_pred (source_of source.now) f) (numbers_below (length (source_of source.now).variables))) }
{
    for x in 0..source.variables.len() as u32 {
        out.push(reach_predicate(alloc, source, f, x)?)?;
    }
    Ok(())
}

fn put_all_reached(alloc: Global, source: &Source, out: &mut Vec<Pred>) -> Result<(), AllocError>
    requires few { HasFewNames (source_of source.now) }
    ensures { OnOk result
        (map pred_of out.new.items ≡ map pred_of out.old.items ++ reach_preds (source_of source.now)) }
{
    for f in 0..source.fields.len() as u32 {
        put_reached(alloc, source, f, out)?;
    }
    Ok(())
}

/// The predicates of the compiled program, in order.
pub fn predicates(alloc: Global, source: &Source) -> Result<Vec<Pred>, AllocError>
    requires few { HasFewNames (source_of source.now) }
    ensures { IfOk result (λ preds. map pred_of preds.items ≡ compiled_preds (source_of source.now)) }
{
    let mut out = Vec::new(alloc);
    put_variables(alloc, source.variables.as_slice(), &mut out)?;
    put_fields(alloc, source.fields.as_slice(), &mut out)?;
    put_all_reached(alloc, source, &mut out)?;
    Ok(out)
}
