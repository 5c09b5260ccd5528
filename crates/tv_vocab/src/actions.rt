//! Actions: focus, precondition, messages, retain formula, updates, in this order.

ghost use Rattle.std.specs.Prelude.{ℕ, ◌≡◌, ◌++◌, [], Bool, Option, Some, None, map, OnOk, IfOk};
ghost use Rattle.std.specs.Option.{option_map};
ghost use Rattle.std.specs.List.{flat_map};
ghost use Rattle.tv_tree.specs.Copies.{form_of as tree_of, part_of, piece_of};
ghost use Rattle.tv_model.specs.Form.{form_of};
ghost use Rattle.tv_model.specs.Program.{pred_of, message_of, retain_of, action_of};
ghost use Rattle.tv_names.specs.Refusal.{GivesOrRefuses, one_by_one, each};
ghost use Rattle.tv_names.specs.Copies.{symbols_of, place_form, naming_of};
ghost use Rattle.tv_names.specs.Naming.{no_names};
ghost use Rattle.tv_flat.specs.FlatForm.{parts_of};
ghost use Rattle.tv_vocab.specs.Copies.{picking_of};
ghost use Rattle.tv_vocab.specs.Vocabulary.{over};
ghost use Rattle.tv_vocab.specs.Actions.{with_formula, resolved_all, focused, picking, precondition};
ghost use Rattle.tv_vocab.specs.Actions.{piece_text, message, with_part, messages, further_number, retaining};
ghost use Rattle.tv_vocab.specs.Actions.{retain, action};

use crate::parts::{adds_new, block_in, focus_in, pre_in, retain_in};
use crate::rules::anywhere;
use crate::updates::{Updating, updates};
use std::alloc::{AllocError, Global};
use tv_flat::FlatAction;
use tv_model::{Action, Formula, Items, Message, Pred, Retain, Var};
use tv_names::{
    Known, Naming, Others, Place, ResolveError, Slot, Symbols, picks_in, resolve_formula,
};
use tv_tree::trees::{FormulaTree, Part, Piece};

/// The precondition, the variables that a step picks, and the numbering with which the retain
/// formula and the updates begin.
#[derive(Drop)]
pub struct Picking<'a> {
    pub pre: Option<Formula>,
    pub picks: Vec<Var>,
    pub picked: Naming<'a>,
}

fn put_formula<'a>(
    alloc: Global,
    place: &Place<'_>,
    done: &mut Vec<Formula>,
    naming: &mut Naming<'a>,
    f: &'a FormulaTree,
) -> Result<(), ResolveError>
    ensures { GivesOrRefuses (λ _. (map form_of done.new.items, naming_of naming.new)) result
        (with_formula (place_form place.now) (map form_of done.old.items, naming_of naming.old)
        (tree_of f.now)) }
{
    let formula = resolve_formula(alloc, place, f, naming)?;
    done.push(formula)?;
    Ok(())
}

fn focus(
    alloc: Global,
    symbols: &Symbols,
    formulas: &[FormulaTree],
) -> Result<Vec<Formula>, ResolveError>
    ensures { GivesOrRefuses (λ done. map form_of done.items) result
        (focused (symbols_of symbols.now) (map tree_of formulas.now)) }
{
    let place = anywhere(symbols);
    let mut naming = Naming::new();
    let mut done = Vec::new(alloc);
    for formula in formulas {
        put_formula(alloc, &place, &mut done, &mut naming, formula)?;
    }
    Ok(done)
}

fn picking_of_form<'a>(
    alloc: Global,
    symbols: &Symbols,
    f: &'a FormulaTree,
) -> Result<Picking<'a>, ResolveError>
    ensures { GivesOrRefuses picking_of result
        (precondition (symbols_of symbols.now) (Some (tree_of f.now))) }
{
    let place = anywhere(symbols);
    let mut naming = Naming::new();
    let pre = resolve_formula(alloc, &place, f, &mut naming)?;
    let picks = picks_in(alloc, &pre)?;
    naming.keep_picks(Known::nothing().with_all(picks.as_slice()));
    Ok(Picking {
        pre: Some(pre),
        picks,
        picked: naming,
    })
}

fn precondition<'a>(
    alloc: Global,
    symbols: &Symbols,
    f: Option<&'a FormulaTree>,
) -> Result<Picking<'a>, ResolveError>
    ensures { GivesOrRefuses picking_of result
        (precondition (symbols_of symbols.now) (option_map (λ g. tree_of g.now) f.entry)) }
{
    match f {
        Some(f) => picking_of_form(alloc, symbols, f),
        None => Ok(Picking {
            pre: None,
            picks: Vec::new(alloc),
            picked: Naming::new(),
        }),
    }
}

fn push_piece(text: &mut Vec<u8>, piece: &Piece) -> Result<(), AllocError>
    ensures { OnOk result (text.new.items ≡ text.old.items ++ piece_text (piece_of piece.now)) }
{
    match piece {
        Piece::Text(words) | Piece::Named(words) => text.extend_from_slice(&words.0),
    }
}

#[tactic(auto, using(crate::proofs::Texts::pieces_step, crate::proofs::Texts::pieces_done))]
fn joined(alloc: Global, pieces: &[Piece]) -> Result<Vec<u8>, AllocError>
    ensures { IfOk result (λ text. text.items ≡ flat_map piece_text (map piece_of pieces.now)) }
{
    let mut text = Vec::new(alloc);
    for piece in pieces {
        push_piece(&mut text, piece)?;
    }
    Ok(text)
}

#[tactic(auto, unfolding(crate::specs::Actions::message))]
fn message(
    alloc: Global,
    symbols: &Symbols,
    cond: &FormulaTree,
    pieces: &[Piece],
) -> Result<Message, ResolveError>
    ensures { GivesOrRefuses message_of result
        (message (symbols_of symbols.now) (tree_of cond.now) (map piece_of pieces.now)) }
{
    let place = over_none(symbols);
    let mut naming = Naming::new();
    let cond = resolve_formula(alloc, &place, cond, &mut naming)?;
    let text = joined(alloc, pieces)?;
    Ok(Message {
        cond,
        text: Items::from_vec(text),
    })
}

// Where no variables may be free.
fn over_none(symbols: &Symbols) -> Place<'_>
    ensures { place_form result ≡ over (symbols_of symbols.now) [] }
{
    Place {
        symbols,
        with_new: false,
        known: Known::nothing(),
        others: Others::Never,
    }
}

fn put_message(
    alloc: Global,
    symbols: &Symbols,
    done: &mut Vec<Message>,
    part: &Part,
) -> Result<(), ResolveError>
    ensures { GivesOrRefuses (λ _. map message_of done.new.items) result
        (with_part (symbols_of symbols.now) (map message_of done.old.items) (part_of part.now)) }
{
    if let Part::Message { cond, text } = part {
        let message = message(alloc, symbols, cond, text.as_slice())?;
        done.push(message)?;
    }
    Ok(())
}

fn messages(alloc: Global, symbols: &Symbols, parts: &[Part]) -> Result<Vec<Message>, ResolveError>
    ensures { GivesOrRefuses (λ done. map message_of done.items) result
        (messages (symbols_of symbols.now) (map part_of parts.now)) }
{
    let mut done = Vec::new(alloc);
    for part in parts {
        put_message(alloc, symbols, &mut done, part)?;
    }
    Ok(done)
}

fn further_number(naming: &mut Naming<'_>) -> Result<Var, ResolveError>
    ensures { GivesOrRefuses (λ v. v.0) result
        (further_number (naming_of naming.old).further (naming_of naming.old)) }
{
    match naming.further() {
        Some(v) => Ok(Var(v)),
        None => Ok(Var(naming.fill(Slot::Nameless)?)),
    }
}

fn retain_by<'a>(
    alloc: Global,
    symbols: &Symbols,
    fresh: bool,
    picking: &Picking<'a>,
    f: &'a FormulaTree,
) -> Result<Retain, ResolveError>
    ensures { GivesOrRefuses (λ r. retain_of (Some r)) result
        (retain (symbols_of symbols.now) fresh (picking_of picking.now) (Some (tree_of f.now))) }
{
    let place = Place {
        symbols,
        with_new: fresh,
        known: Known::nothing().with_all(picking.picks.as_slice()),
        others: Others::Once,
    };
    let mut naming = picking.picked;
    let keep = resolve_formula(alloc, &place, f, &mut naming)?;
    let var = further_number(&mut naming)?;
    Ok(Retain { var, keep })
}

fn retain<'a>(
    alloc: Global,
    symbols: &Symbols,
    fresh: bool,
    picking: &Picking<'a>,
    f: Option<&'a FormulaTree>,
) -> Result<Option<Retain>, ResolveError>
    ensures { GivesOrRefuses retain_of result (retain (symbols_of symbols.now) fresh (picking_of picking.now)
        (option_map (λ g. tree_of g.now) f.entry)) }
{
    match f {
        None => Ok(None),
        Some(f) => Ok(Some(retain_by(alloc, symbols, fresh, picking, f)?)),
    }
}

/// A flat action.
#[tactic(auto, unfolding(crate::specs::Actions::action))]
pub fn action(
    alloc: Global,
    symbols: &Symbols,
    preds: &[Pred],
    parts: &[Part],
) -> Result<Action, ResolveError>
    ensures { GivesOrRefuses action_of result
        (action (symbols_of symbols.now) (map pred_of preds.now) (map part_of parts.now)) }
{
    let focus = focus(alloc, symbols, focus_in(parts))?;
    let picking = precondition(alloc, symbols, pre_in(parts))?;
    let messages = messages(alloc, symbols, parts)?;
    let fresh = adds_new(parts);
    let retain = retain(alloc, symbols, fresh, &picking, retain_in(parts))?;
    let at = Updating {
        symbols,
        preds,
        fresh,
    };
    let updates = updates(alloc, at, &picking, block_in(parts))?;
    let Picking {
        pre,
        picks,
        picked: _,
    } = picking;
    Ok(Action {
        pre,
        picks: Items::from_vec(picks),
        focus: Items::from_vec(focus),
        messages: Items::from_vec(messages),
        fresh,
        retain,
        updates: Items::from_vec(updates),
    })
}

/// The actions, in their order.
pub fn actions(
    alloc: Global,
    symbols: &Symbols,
    preds: &[Pred],
    flat: &[FlatAction],
) -> Result<Vec<Action>, ResolveError>
    ensures { GivesOrRefuses (λ done. map action_of done.items) result
        (each (action (symbols_of symbols.now) (map pred_of preds.now)) (map parts_of flat.now)) }
{
    let mut done = Vec::new(alloc);
    for item in flat {
        done.push(action(alloc, symbols, preds, item.parts.as_slice())?)?;
    }
    Ok(done)
}
