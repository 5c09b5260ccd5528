//! The updates of an action.

ghost use Rattle.std.specs.Prelude.{ℕ, ◌≡◌, ◌==◌, [], Bool, Option, Some, None, map, length, slice_get};
ghost use Rattle.std.specs.List.{list_any};
ghost use Rattle.tv_tree.specs.Copies.{form_of as tree_of, single_of, update_of as nest_of, name_of};
ghost use Rattle.tv_model.specs.Form.{form_of, vars_of};
ghost use Rattle.tv_model.specs.Program.{pred_of, change_of, update_of, picks_of, kind_of, is_core_kind};
ghost use Rattle.tv_model.specs.Program.{is_core_pred};
ghost use Rattle.tv_names.specs.Refusal.{GivesOrRefuses, one_by_one};
ghost use Rattle.tv_names.specs.Symbols.{KnownForm};
ghost use Rattle.tv_names.specs.Copies.{symbols_of, place_form, naming_of};
ghost use Rattle.tv_vocab.specs.Copies.{picking_of};
ghost use Rattle.tv_vocab.specs.Actions.{is_half, is_updated, change, updating};
ghost use Rattle.tv_vocab.specs.Actions.{update_of_pred, update, with_update};

use crate::actions::Picking;
use crate::vocabulary::twice;
use std::alloc::Global;
use tv_model::{Change, Formula, Kind, Pred, PredId, Terms, Update, Var};
use tv_names::{
    Known, KnownSymbol, Naming, Others, Place, ResolveError, Symbols, is_reserved, resolve_formula,
};
use tv_tree::name_text;
use tv_tree::trees::{FormulaTree, Name, Spelling, UpdateTree};

/// What all updates of an action share.
#[derive(Clone, Copy)]
pub struct Updating<'a> {
    pub symbols: &'a Symbols,
    pub preds: &'a [Pred],
    pub fresh: bool,
}

fn is_half(f: &FormulaTree) -> bool
    ensures { result ≡ is_half (tree_of f.now) }
{
    matches!(f, FormulaTree::Half)
}

fn is_core(kind: &Kind) -> bool
    ensures { result ≡ is_core_kind (kind_of kind.now) }
{
    matches!(kind, Kind::Core)
}

fn is_core_pred(preds: &[Pred], pred: u32) -> bool
    ensures { result ≡ is_core_pred (slice_get (map pred_of preds.now) pred) }
{
    let pred = pred as usize;
    pred < preds.len() && is_core(&preds[pred].kind)
}

fn updates_pred(done: &[Update], pred: u32) -> bool
    ensures { result ≡ list_any (λ update. update.pred.0 == pred) done.now }
{
    done.iter().any(|update| update.pred.0 == pred)
}

#[tactic(auto, using(crate::proofs::Texts::updated_over))]
fn is_updated(done: &[Update], pred: u32) -> bool
    ensures { result ≡ is_updated (map update_of done.now) pred }
{
    updates_pred(done, pred)
}

// `1/2` as the whole formula leaves a core predicate free.
fn change<'a>(
    alloc: Global,
    place: &Place<'_>,
    core: bool,
    f: &'a FormulaTree,
    naming: &mut Naming<'a>,
) -> Result<Change, ResolveError>
    ensures { GivesOrRefuses change_of result
        (change (place_form place.now) core (tree_of f.now) (naming_of naming.old)) }
{
    if is_half(f) && core {
        return Ok(Change::Free);
    }
    Ok(Change::To(resolve_formula(alloc, place, f, naming)?))
}

fn update_place<'a>(at: Updating<'a>, vars: &Terms, picks: &[Var]) -> Place<'a>
    ensures { place_form result
        ≡ updating (symbols_of at.entry.symbols.now) at.entry.fresh (vars_of vars.now) (picks_of picks.now) }
{
    Place {
        symbols: at.symbols,
        with_new: at.fresh,
        known: Known::of(vars).with_all(picks),
        others: Others::Never,
    }
}

#[tactic(auto, unfolding(crate::specs::Actions::update_of_pred))]
fn update_of_pred<'a>(
    alloc: Global,
    at: Updating<'_>,
    picking: &Picking<'a>,
    done: &[Update],
    known: KnownSymbol,
    params: &'a [Spelling],
    body: &'a FormulaTree,
) -> Result<Update, ResolveError>
    ensures { GivesOrRefuses update_of result (update_of_pred (symbols_of at.entry.symbols.now)
        (map pred_of at.entry.preds.now) at.entry.fresh (picking_of picking.now) (map update_of done.now)
        (record { pred = known.pred; arity = known.arity }) params.now (tree_of body.now)) }
{
    if params.len() != known.arity as usize {
        return Err(ResolveError::ArityWrong);
    }
    if twice(params) {
        return Err(ResolveError::NameTwice);
    }
    if is_updated(done, known.pred) {
        return Err(ResolveError::UpdateTwice);
    }
    let mut naming = picking.picked;
    let vars = naming.declare_all(params)?;
    let place = update_place(at, &vars, picking.picks.as_slice());
    let core = is_core_pred(at.preds, known.pred);
    let change = change(alloc, &place, core, body, &mut naming)?;
    Ok(Update {
        pred: PredId(known.pred),
        vars,
        change,
    })
}

#[tactic(auto, unfolding(crate::specs::Actions::update))]
fn update<'a>(
    alloc: Global,
    at: Updating<'_>,
    picking: &Picking<'a>,
    done: &[Update],
    name: &Name,
    params: &'a [Spelling],
    body: &'a FormulaTree,
) -> Result<Update, ResolveError>
    ensures { GivesOrRefuses update_of result
        (update (symbols_of at.entry.symbols.now) (map pred_of at.entry.preds.now) at.entry.fresh
        (picking_of picking.now) (map update_of done.now) (single_of name.now params.now body.now)) }
{
    let text = name_text(alloc, name)?;
    if is_reserved(&text) {
        return Err(ResolveError::Reserved);
    }
    match at.symbols.find(&text) {
        None => Err(ResolveError::NameUnknown),
        Some(known) => update_of_pred(alloc, at, picking, done, known, params, body),
    }
}

fn put_update<'a>(
    alloc: Global,
    at: Updating<'_>,
    picking: &Picking<'a>,
    done: &mut Vec<Update>,
    item: &'a UpdateTree,
) -> Result<(), ResolveError>
    ensures { GivesOrRefuses (λ _. map update_of done.new.items) result
        (with_update (symbols_of at.entry.symbols.now) (map pred_of at.entry.preds.now) at.entry.fresh
        (picking_of picking.now) (map update_of done.old.items) (nest_of item.now)) }
{
    match item {
        UpdateTree::Single { name, params, body } => {
            let update = update(
                alloc,
                at,
                picking,
                done.as_slice(),
                name,
                params.as_slice(),
                body,
            )?;
            done.push(update)?;
            Ok(())
        }
        UpdateTree::Foreach { .. } => Ok(()),
    }
}

/// The updates of a flat block, in their order.
pub fn updates<'a>(
    alloc: Global,
    at: Updating<'_>,
    picking: &Picking<'a>,
    block: &'a [UpdateTree],
) -> Result<Vec<Update>, ResolveError>
    ensures { GivesOrRefuses (λ updates. map update_of updates.items) result
        (one_by_one (with_update (symbols_of at.entry.symbols.now) (map pred_of at.entry.preds.now)
        at.entry.fresh (picking_of picking.now)) [] (map nest_of block.now)) }
{
    let mut done = Vec::new(alloc);
    for item in block {
        put_update(alloc, at, picking, &mut done, item)?;
    }
    Ok(done)
}
