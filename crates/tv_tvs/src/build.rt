//! Trees to structures.

ghost use Rattle.std.specs.Prelude.{◌≡◌, ◌<◌, ◌≤◌, ◌==◌, ℕ, List, None, map, length, All, IfOk, IfSome};
ghost use Rattle.std.specs.Prelude.{unwrap_or};
ghost use Rattle.std.specs.List.{list_all};
ghost use Rattle.std.specs.Option.{option_map};
ghost use Rattle.tv_kleene.specs.declared.K3.TheVariants.{Yes};
ghost use Rattle.tv_structure_form.specs.StructureForm.{StructureForm, arities_of};
ghost use Rattle.tv_structure_form.specs.TableForm.{AreIndividuals};
ghost use Rattle.tv_struct.specs.TupleForm.{tuple_of};
ghost use Rattle.tv_tree.specs.Steps.{or_refused};
ghost use Rattle.tv_tree.specs.Names.{names_of, number_of};
ghost use Rattle.tv_tvs.specs.Meaning.{Answers, Summaries, subject_of, subject_arity, item_arity};
ghost use Rattle.tv_tvs.specs.Meaning.{fits, tuple_of_item, value_put, item_put, items_put, fitting_put};
ghost use Rattle.tv_tvs.specs.Meaning.{entry_put, entries_put, struct_meant, structs_meant};
ghost use Rattle.tv_tvs.specs.Views.{text_arity, item_tree, item_trees, content_tree, entry_tree};
ghost use Rattle.tv_tvs.specs.Views.{entry_trees, struct_tree, struct_trees};
ghost use Rattle.tv_tvs.specs.Targets.{subject_form, Has, HasPlace, IsRead, KeepsFrame};

use crate::error::TvsError;
use crate::names::{NameSet, individual_names, name_text, number_of};
use crate::syntax::{ContentText, EntryText, ItemText, StructText};
use std::alloc::Global;
use tv_kleene::K3;
use tv_lex::text;
use tv_model::{Items, Pred, PredId, Vocab};
use tv_phrases::is_spelled;
use tv_struct::{Structure, Structures, Tuple};

/// What an entry speaks of.
#[derive(Clone, Copy, Debug)]
pub(crate) enum Target {
    /// Which individuals are summaries.
    Marks,
    /// The values of a predicate of that arity.
    Values(PredId, u8),
}

fn target_of(preds: &[Pred], names: &NameSet<'_>, name: &[u8]) -> Option<Target>
    requires names { names_of names.now.keys ≡ map (λ pred. pred.name) preds.now }
    requires count { length preds.now ≤ 512 }
    ensures subject { option_map subject_form result ≡ subject_of preds.now name.now }
    ensures known { IfSome result (λ t. (s : StructureForm)
        → arities_of s ≡ map (λ pred. pred.arity) preds.now → Has (subject_form t) s) }
{
    if is_spelled(name, b"sm") {
        return Some(Target::Marks);
    }
    match number_of(names, name) {
        None => None,
        Some(p) => Some(Target::Values(PredId(p as u32), preds[p].arity)),
    }
}

fn arity(target: Target) -> u8
    ensures { result ≡ subject_arity (subject_form target) }
{
    match target {
        Target::Marks => 1,
        Target::Values(_, arity) => arity,
    }
}

fn item_arity(item: &ItemText) -> u8
    ensures { result ≡ text_arity item.now }
{
    match item.second {
        None => 1,
        Some(_) => 2,
    }
}

fn each_has(items: &[ItemText], arity: u8) -> bool
    ensures { result ≡ list_all (λ item. text_arity item == arity) items.now }
{
    for item in items {
        if item_arity(item) != arity {
            return false;
        }
    }
    true
}

fn fits(arity: u8, content: &ContentText) -> bool
    ensures { (bytes : List ℕ) → result ≡ fits arity (content_tree bytes content.now) }
{
    match content {
        ContentText::OneValue(_) => arity == 0,
        ContentText::Listed(items) => arity != 0 && each_has(items.as_slice(), arity),
    }
}

fn number(individuals: &NameSet<'_>, word: &[u8]) -> Result<u32, TvsError>
    requires { length individuals.now.keys ≤ 256 }
    ensures number { Answers (λ (u : ℕ). u) result
        (or_refused (number_of (names_of individuals.now.keys) word.now) TvsError.IndividualUnknown) }
    ensures within { IfOk result (λ u. u < length individuals.now.keys) }
{
    match number_of(individuals, word) {
        None => Err(TvsError::IndividualUnknown),
        Some(u) => Ok(u as u32),
    }
}

/// The individuals of an item, by number.
fn tuple(individuals: &NameSet<'_>, bytes: &[u8], item: &ItemText) -> Result<Tuple, TvsError>
    requires { length individuals.now.keys ≤ 256 }
    ensures tuple { Answers tuple_of result
        (tuple_of_item (names_of individuals.now.keys) (item_tree bytes.now item.now)) }
    ensures within { IfOk result (λ t. AreIndividuals (length individuals.now.keys) (tuple_of t)) }
    ensures arity { IfOk result (λ t. length (tuple_of t) ≡ item_arity (item_tree bytes.now item.now)) }
{
    let first = number(individuals, text(bytes, &item.first))?;
    match item.second {
        None => Ok(Tuple::One(first)),
        Some(word) => {
            let second = number(individuals, text(bytes, &word))?;
            Ok(Tuple::Two(first, second))
        }
    }
}

fn put_mark(s: &mut Structure, tuple: Tuple, value: K3) -> Result<(), TvsError>
    requires { HasPlace Summaries s.old (tuple_of tuple) }
    ensures put { Answers (λ _. s.new) result (value_put Summaries s.old (tuple_of tuple) value) }
    ensures keeps { KeepsFrame s.old s.new }
{
    let u = match tuple {
        Tuple::Zero => 0,
        Tuple::One(u) | Tuple::Two(u, _) => u,
    };
    match value {
        K3::No => s.set_summary(u, false),
        K3::Half => s.set_summary(u, true),
        K3::Yes => return Err(TvsError::BadSm),
    }
    Ok(())
}

fn put_value(s: &mut Structure, target: Target, tuple: Tuple, value: K3) -> Result<(), TvsError>
    requires { HasPlace (subject_form target) s.old (tuple_of tuple) }
    ensures put { Answers (λ _. s.new) result (value_put (subject_form target) s.old (tuple_of tuple) value) }
    ensures keeps { KeepsFrame s.old s.new }
{
    match target {
        Target::Marks => put_mark(s, tuple, value),
        Target::Values(p, _) => {
            s.set(p, tuple, value);
            Ok(())
        }
    }
}

fn written_or_one(value: Option<K3>) -> K3
    ensures { result ≡ unwrap_or value Yes }
{
    value.unwrap_or(K3::Yes)
}

fn put_item(
    s: &mut Structure,
    individuals: &NameSet<'_>,
    bytes: &[u8],
    target: Target,
    item: &ItemText,
) -> Result<(), TvsError>
    requires size { s.old.size ≡ length individuals.now.keys }
    requires few { length individuals.now.keys ≤ 256 }
    requires unmarked { s.old.fresh ≡ None }
    requires has { Has (subject_form target) s.old }
    requires fits { item_arity (item_tree bytes.now item.now) ≡ subject_arity (subject_form target) }
    ensures put { Answers (λ _. s.new) result (item_put (names_of individuals.now.keys)
        (subject_form target) s.old (item_tree bytes.now item.now)) }
    ensures keeps { KeepsFrame s.old s.new }
{
    let tuple = tuple(individuals, bytes, item)?;
    put_value(s, target, tuple, written_or_one(item.value))
}

fn put_items(
    s: &mut Structure,
    individuals: &NameSet<'_>,
    bytes: &[u8],
    target: Target,
    items: &[ItemText],
) -> Result<(), TvsError>
    requires size { s.old.size ≡ length individuals.now.keys }
    requires few { length individuals.now.keys ≤ 256 }
    requires unmarked { s.old.fresh ≡ None }
    requires has { Has (subject_form target) s.old }
    requires fits { All
        (λ item. item_arity (item_tree bytes.now item) ≡ subject_arity (subject_form target)) items.now }
    ensures put { Answers (λ _. s.new) result (items_put (names_of individuals.now.keys)
        (subject_form target) s.old (item_trees bytes.now items.now)) }
    ensures keeps { KeepsFrame s.old s.new }
{
    for item in items {
        put_item(s, individuals, bytes, target, item)?;
    }
    Ok(())
}

fn put_content(
    s: &mut Structure,
    individuals: &NameSet<'_>,
    bytes: &[u8],
    target: Target,
    content: &ContentText,
) -> Result<(), TvsError>
    requires size { s.old.size ≡ length individuals.now.keys }
    requires few { length individuals.now.keys ≤ 256 }
    requires unmarked { s.old.fresh ≡ None }
    requires has { Has (subject_form target) s.old }
    ensures put { Answers (λ _. s.new) result (fitting_put (names_of individuals.now.keys)
        (subject_form target) s.old (content_tree bytes.now content.now)) }
    ensures keeps { KeepsFrame s.old s.new }
{
    if !fits(arity(target), content) {
        return Err(TvsError::ArityWrong);
    }
    match content {
        ContentText::OneValue(value) => put_value(s, target, Tuple::Zero, *value),
        ContentText::Listed(items) => put_items(s, individuals, bytes, target, items.as_slice()),
    }
}

fn put_entry(
    alloc: Global,
    s: &mut Structure,
    preds: &[Pred],
    names: &NameSet<'_>,
    individuals: &NameSet<'_>,
    bytes: &[u8],
    entry: &EntryText,
) -> Result<(), TvsError>
    requires names { names_of names.now.keys ≡ map (λ pred. pred.name) preds.now }
    requires count { length preds.now ≤ 512 }
    requires over { arities_of s.old ≡ map (λ pred. pred.arity) preds.now }
    requires size { s.old.size ≡ length individuals.now.keys }
    requires few { length individuals.now.keys ≤ 256 }
    requires unmarked { s.old.fresh ≡ None }
    ensures put { Answers (λ _. s.new) result
        (entry_put preds.now (names_of individuals.now.keys) s.old (entry_tree bytes.now entry.now)) }
    ensures keeps { KeepsFrame s.old s.new }
{
    let name = name_text(alloc, bytes, &entry.name)?;
    match target_of(preds, names, name.as_slice()) {
        None => Err(TvsError::NameUnknown),
        Some(target) => put_content(s, individuals, bytes, target, &entry.content),
    }
}

fn put_entries(
    alloc: Global,
    s: &mut Structure,
    preds: &[Pred],
    names: &NameSet<'_>,
    individuals: &NameSet<'_>,
    bytes: &[u8],
    entries: &[EntryText],
) -> Result<(), TvsError>
    requires names { names_of names.now.keys ≡ map (λ pred. pred.name) preds.now }
    requires count { length preds.now ≤ 512 }
    requires over { arities_of s.old ≡ map (λ pred. pred.arity) preds.now }
    requires size { s.old.size ≡ length individuals.now.keys }
    requires few { length individuals.now.keys ≤ 256 }
    requires unmarked { s.old.fresh ≡ None }
    ensures put { Answers (λ _. s.new) result
        (entries_put preds.now (names_of individuals.now.keys) s.old (entry_trees bytes.now entries.now)) }
    ensures keeps { KeepsFrame s.old s.new }
{
    for entry in entries {
        put_entry(alloc, s, preds, names, individuals, bytes, entry)?;
    }
    Ok(())
}

/// The structure of a tree, over predicates with these names.
pub(crate) fn structure(
    alloc: Global,
    vocab: &Vocab,
    names: &NameSet<'_>,
    bytes: &[u8],
    tree: &StructText,
) -> Result<Structure, TvsError>
    requires names { names_of names.now.keys ≡ map (λ pred. pred.name) vocab.now.preds }
    requires count { length vocab.now.preds ≤ 512 }
    requires arities { All (λ pred. pred.arity ≤ 2) vocab.now.preds }
    ensures meant { Answers (λ s. s) result (struct_meant vocab.now.preds (struct_tree bytes.now tree.now)) }
    ensures over { IfOk result (IsRead vocab.now) }
{
    if tree.individuals.len() > 256 {
        return Err(TvsError::TooManyIndividuals);
    }
    let individuals = individual_names(alloc, bytes, tree.individuals.as_slice())?;
    let mut s = Structure::new(alloc, vocab, tree.individuals.len() as u32)?;
    put_entries(
        alloc,
        &mut s,
        vocab.preds.as_slice(),
        names,
        &individuals,
        bytes,
        tree.entries.as_slice(),
    )?;
    Ok(s)
}

/// The structures of trees.
pub(crate) fn structures(
    alloc: Global,
    vocab: &Vocab,
    names: &NameSet<'_>,
    bytes: &[u8],
    trees: &[StructText],
) -> Result<Structures, TvsError>
    requires names { names_of names.now.keys ≡ map (λ pred. pred.name) vocab.now.preds }
    requires count { length vocab.now.preds ≤ 512 }
    requires arities { All (λ pred. pred.arity ≤ 2) vocab.now.preds }
    ensures meant { Answers (λ (ss : List StructureForm). ss) result
        (structs_meant vocab.now.preds (struct_trees bytes.now trees.now)) }
    ensures over { IfOk result (λ ss. All (IsRead vocab.now) ss) }
{
    let mut list = Vec::new(alloc);
    for tree in trees {
        list.push(structure(alloc, vocab, names, bytes, tree)?)?;
    }
    Ok(Items::from_vec(list))
}
