//! Predicates and their definitions.

ghost use Rattle.std.specs.Prelude.{ℕ, ◌≡◌, ◌<◌, [], map, length, Option, Some, None, IfOk};
ghost use Rattle.std.specs.List.{list_all};
ghost use Rattle.tv_tree.specs.Copies.{pred_of as decl_of, form_of as tree_of, pred_of_body};
ghost use Rattle.tv_model.specs.Program.{pred_of, kind_of};
ghost use Rattle.tv_names.specs.Refusal.{GivesOrRefuses, one_by_one, each};
ghost use Rattle.tv_names.specs.Symbols.{symbol_of};
ghost use Rattle.tv_names.specs.Copies.{symbols_of};
ghost use Rattle.tv_vocab.specs.Vocabulary.{twice, fits, with_prop, props_of, abs_after, abs_of, abs_at};
ghost use Rattle.tv_vocab.specs.Vocabulary.{with_symbol, symbol_checked, symbols, definition, kind, arity_of};
ghost use Rattle.tv_vocab.specs.Vocabulary.{predicate, vocabulary};
ghost use Rattle.tv_vocab.specs.Views.{declared_of};

use crate::cycles::has_cycle;
use std::alloc::Global;
use tv_model::{Items, Kind, NO_PROPS, Pred, Props};
use tv_names::{Known, Naming, Others, Place, ResolveError, Symbols, is_reserved, resolve_formula};
use tv_tree::{FormulaTree, PredDecl, PropWord, Spelling, is_among, name_text};

fn fits(arity: usize, word: PropWord) -> bool
    ensures { result ≡ fits arity word }
{
    match word {
        PropWord::Unique => arity == 1,
        PropWord::Function
        | PropWord::Invfunction
        | PropWord::Transitive
        | PropWord::Reflexive
        | PropWord::Symmetric => arity == 2,
        PropWord::Abs | PropWord::Nonabs | PropWord::Boxed | PropWord::Pointer => true,
    }
}

fn all_fit(arity: usize, words: &[PropWord]) -> bool
    ensures { result ≡ list_all (fits arity) words.now }
{
    words.iter().all(|word| fits(arity, *word))
}

fn with_prop(props: Props, word: PropWord) -> Props
    ensures { result ≡ with_prop props word }
{
    let mut more = props;
    match word {
        PropWord::Unique => more.unique = true,
        PropWord::Function => more.function = true,
        PropWord::Invfunction => more.invfunction = true,
        PropWord::Transitive => more.transitive = true,
        PropWord::Reflexive => more.reflexive = true,
        PropWord::Symmetric => more.symmetric = true,
        PropWord::Abs | PropWord::Nonabs | PropWord::Boxed | PropWord::Pointer => {}
    }
    more
}

fn props_of(words: &[PropWord]) -> Props
    ensures { result ≡ props_of words.now }
{
    let mut props = NO_PROPS;
    for word in words {
        props = with_prop(props, *word);
    }
    props
}

fn abs_after(on: bool, word: PropWord) -> bool
    ensures { result ≡ abs_after on word }
{
    match word {
        PropWord::Abs => true,
        PropWord::Nonabs => false,
        _ => on,
    }
}

// Of `abs` and `nonabs` the last counts.
fn abs_of(words: &[PropWord]) -> bool
    ensures { result ≡ abs_of words.now }
{
    let mut on = true;
    for word in words {
        on = abs_after(on, *word);
    }
    on
}

// Only a predicate of one variable can be kept out of abstraction.
fn abs_at(arity: u8, words: &[PropWord]) -> bool
    ensures { result ≡ abs_at arity words.now }
{
    if arity == 1 { abs_of(words) } else { true }
}

/// Whether a name stands twice among these.
pub fn twice(names: &[Spelling]) -> bool
    ensures { result ≡ twice names.now }
{
    match names.split_first() {
        None => false,
        Some((first, others)) => is_among(others, &first.0) || twice(others),
    }
}

// The arity of a predicate that may be declared behind these under this name.
#[tactic(auto, unfolding(crate::specs::Vocabulary::symbol_checked))]
fn checked_arity(seen: &Symbols, name: &[u8], decl: &PredDecl) -> Result<u8, ResolveError>
    ensures checked { GivesOrRefuses (λ arity. arity) result
        (symbol_checked (symbols_of seen.now) name.now (decl_of decl.now)) }
    ensures new { IfOk result (λ _. symbol_of name.now (symbols_of seen.now) ≡ None) }
    ensures room { IfOk result (λ _. length (symbols_of seen.now) < 512) }
{
    if is_reserved(name) {
        return Err(ResolveError::Reserved);
    }
    if seen.find(name).is_some() {
        return Err(ResolveError::NameTwice);
    }
    let params = decl.params.as_slice();
    if params.len() > 2 {
        return Err(ResolveError::ArityTooLarge);
    }
    if twice(params) {
        return Err(ResolveError::NameTwice);
    }
    if !all_fit(params.len(), decl.props.as_slice()) {
        return Err(ResolveError::ArityWrong);
    }
    if seen.len() >= 512 {
        return Err(ResolveError::TooMany);
    }
    Ok(params.len() as u8)
}

#[tactic(auto, unfolding(crate::specs::Vocabulary::with_symbol))]
fn declare_symbol(alloc: Global, seen: &mut Symbols, decl: &PredDecl) -> Result<(), ResolveError>
    ensures { GivesOrRefuses (λ _. symbols_of seen.new) result
        (with_symbol (symbols_of seen.old) (decl_of decl.now)) }
{
    let name = name_text(alloc, &decl.name)?;
    let arity = checked_arity(seen, &name, decl)?;
    seen.declare(name, arity)?;
    Ok(())
}

// The predicates, numbered in the order of their declarations.
fn symbols(alloc: Global, decls: &[PredDecl]) -> Result<Symbols, ResolveError>
    ensures { GivesOrRefuses symbols_of result (symbols (map decl_of decls.now)) }
{
    let mut seen = Symbols::new(alloc);
    for decl in decls {
        declare_symbol(alloc, &mut seen, decl)?;
    }
    Ok(seen)
}

#[tactic(auto, unfolding(crate::specs::Vocabulary::definition))]
fn definition(
    alloc: Global,
    symbols: &Symbols,
    params: &[Spelling],
    body: &FormulaTree,
) -> Result<Kind, ResolveError>
    ensures { GivesOrRefuses kind_of result
        (definition (symbols_of symbols.now) params.now (tree_of body.now)) }
{
    let mut naming = Naming::new();
    let vars = naming.declare_all(params)?;
    let place = Place {
        symbols,
        with_new: false,
        known: Known::of(&vars),
        others: Others::Never,
    };
    let body = resolve_formula(alloc, &place, body, &mut naming)?;
    Ok(Kind::Defined { vars, body })
}

fn kind(
    alloc: Global,
    symbols: &Symbols,
    params: &[Spelling],
    body: &Option<FormulaTree>,
) -> Result<Kind, ResolveError>
    ensures { GivesOrRefuses kind_of result
        (kind (symbols_of symbols.now) params.now (pred_of_body body.now)) }
{
    match body {
        None => Ok(Kind::Core),
        Some(body) => definition(alloc, symbols, params, body),
    }
}

// The number of a predicate's variables.
fn arity_of(params: &[Spelling]) -> u8
    ensures { result ≡ arity_of params.now }
{
    match params {
        [] => 0,
        [_] => 1,
        _ => 2,
    }
}

#[tactic(auto, unfolding(crate::specs::Vocabulary::predicate))]
fn predicate(alloc: Global, symbols: &Symbols, decl: &PredDecl) -> Result<Pred, ResolveError>
    ensures { GivesOrRefuses pred_of result (predicate (symbols_of symbols.now) (decl_of decl.now)) }
{
    let params = decl.params.as_slice();
    let kind = kind(alloc, symbols, params, &decl.body)?;
    let name = name_text(alloc, &decl.name)?;
    let arity = arity_of(params);
    Ok(Pred {
        name: Items::from_vec(name),
        arity,
        kind,
        abs: abs_at(arity, decl.props.as_slice()),
        props: props_of(decl.props.as_slice()),
    })
}

// The predicates with their definitions.
fn predicates(
    alloc: Global,
    symbols: &Symbols,
    decls: &[PredDecl],
) -> Result<Vec<Pred>, ResolveError>
    ensures { GivesOrRefuses (λ preds. map pred_of preds.items) result
        (each (predicate (symbols_of symbols.now)) (map decl_of decls.now)) }
{
    let mut preds = Vec::new(alloc);
    for decl in decls {
        preds.push(predicate(alloc, symbols, decl)?)?;
    }
    Ok(preds)
}

/// The predicates that are declared: their numbers, and what they are.
#[derive(Drop)]
pub struct Declared {
    pub symbols: Symbols,
    pub preds: Vec<Pred>,
}

/// The predicates with their definitions, where no definition rests on itself.
#[tactic(auto, unfolding(crate::specs::Vocabulary::vocabulary))]
pub fn vocabulary(alloc: Global, decls: &[PredDecl]) -> Result<Declared, ResolveError>
    ensures { GivesOrRefuses declared_of result (vocabulary (map decl_of decls.now)) }
{
    let symbols = symbols(alloc, decls)?;
    let preds = predicates(alloc, &symbols, decls)?;
    if has_cycle(alloc, &preds)? {
        return Err(ResolveError::DefinitionCycle);
    }
    Ok(Declared { symbols, preds })
}
