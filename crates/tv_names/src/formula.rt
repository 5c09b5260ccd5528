//! Resolution of one formula, in reading order.

ghost use Rattle.std.specs.Prelude.{ℕ, ◌≡◌, ◌≤◌, Bool, Option, Some, None, map, length, get_or, take, drop};
ghost use Rattle.std.specs.Prelude.{IfOk};
ghost use Rattle.tv_tree.specs.Copies.{name_of, form_of as tree_of};
ghost use Rattle.tv_tree.specs.Forms.{FSame, FImp, FTc, FAtom, FStar, FPlus};
ghost use Rattle.tv_model.specs.Form.{Form, form_of, vars_of, FExists, FForall};
ghost use Rattle.tv_names.specs.declared.place.Others.TheVariants.{Once};
ghost use Rattle.tv_names.specs.Refusal.{GivesOrRefuses};
ghost use Rattle.tv_names.specs.Quantifiers.{quantifier_of};
ghost use Rattle.tv_names.specs.Binding.{quantified_in_turn};
ghost use Rattle.tv_tree.specs.Names.{name_text};
ghost use Rattle.tv_names.specs.Naming.{number_of};
ghost use Rattle.tv_names.specs.Copies.{naming_of, place_form};
ghost use Rattle.tv_names.specs.Resolving.{is_known_at, is_the_further, other_variable, occurrence};
ghost use Rattle.tv_names.specs.Resolving.{two_occurrences, terms, pred_at, new_atom, pred_atom, atom};
ghost use Rattle.tv_names.specs.Resolving.{closable, star, star_of, closure_of, under, quantified, two_bound};
ghost use Rattle.tv_names.specs.Resolving.{resolved};

use crate::binding::{Quantifier, bind_all};
use crate::naming::Naming;
use crate::place::{Others, Place};
use crate::refusal::ResolveError;
use crate::symbols::{is_new_word, is_sm};
use std::alloc::{AllocError, Global};
use tv_model::{Formula, PredId, Terms, Var};
use tv_tree::{FormulaTree, Name, Spelling, is_among, name_text};

fn is_known(place: &Place<'_>, number: Option<u8>) -> bool
    ensures { result ≡ is_known_at (place_form place.now).known number }
{
    match number {
        None => false,
        Some(n) => place.known.has(n),
    }
}

fn is_the_further(further: Option<u8>, number: Option<u8>) -> bool
    ensures { result ≡ is_the_further further number }
{
    match (further, number) {
        (None, _) => true,
        (Some(_), None) => false,
        (Some(m), Some(n)) => m == n,
    }
}

fn further_variable<'a>(naming: &mut Naming<'a>, name: &'a [u8]) -> Result<u8, ResolveError>
    ensures { GivesOrRefuses (λ n. (n, naming_of naming.new)) result
        (other_variable Once name.now (naming_of naming.old)) }
{
    if !is_the_further(naming.further(), naming.number_of(name)) {
        return Err(ResolveError::VariableUnbound);
    }
    let n = naming.sight(name)?;
    naming.note(n);
    Ok(n)
}

fn other_variable<'a>(
    others: Others,
    naming: &mut Naming<'a>,
    name: &'a [u8],
) -> Result<u8, ResolveError>
    ensures { GivesOrRefuses (λ n. (n, naming_of naming.new)) result
        (other_variable others name.now (naming_of naming.old)) }
{
    match others {
        Others::Any => naming.sight(name),
        Others::Never => Err(ResolveError::VariableUnbound),
        Others::Once => further_variable(naming, name),
    }
}

#[tactic(auto, unfolding(crate::specs::Resolving::occurrence))]
fn occurrence<'a>(
    place: &Place<'_>,
    name: &'a [u8],
    naming: &mut Naming<'a>,
) -> Result<u8, ResolveError>
    ensures { GivesOrRefuses (λ n. (n, naming_of naming.new)) result
        (occurrence (place_form place.now) name.now (naming_of naming.old)) }
{
    if is_known(place, naming.number_of(name)) {
        naming.sight(name)
    } else {
        other_variable(place.others, naming, name)
    }
}

#[tactic(auto, unfolding(crate::specs::Resolving::two_occurrences))]
fn two_occurrences<'a>(
    place: &Place<'_>,
    v: &'a Spelling,
    w: &'a Spelling,
    naming: &mut Naming<'a>,
) -> Result<(u8, u8), ResolveError>
    ensures { GivesOrRefuses (λ n. (n, naming_of naming.new)) result
        (two_occurrences (place_form place.now) v.now w.now (naming_of naming.old)) }
{
    let a = occurrence(place, &v.0, naming)?;
    let b = occurrence(place, &w.0, naming)?;
    Ok((a, b))
}

fn terms_at<'a>(
    place: &Place<'_>,
    arguments: &'a [Spelling],
    naming: &mut Naming<'a>,
) -> Result<Terms, ResolveError>
    ensures { GivesOrRefuses (λ ts. (vars_of ts, naming_of naming.new)) result
        (terms (place_form place.now) arguments.now (naming_of naming.old)) }
{
    match arguments {
        [] => Ok(Terms::Zero),
        [v] => Ok(Terms::One(Var(occurrence(place, &v.0, naming)?))),
        [v, w] => {
            let (a, b) = two_occurrences(place, v, w, naming)?;
            Ok(Terms::Two(Var(a), Var(b)))
        }
        _ => Err(ResolveError::ArityWrong),
    }
}

#[tactic(auto, unfolding(crate::specs::Resolving::pred_at))]
fn pred_at(place: &Place<'_>, name: &[u8], arguments: usize) -> Result<PredId, ResolveError>
    ensures { GivesOrRefuses (λ p. p.0) result (pred_at (place_form place.now) name.now arguments) }
{
    match place.symbols.find(name) {
        None => Err(ResolveError::NameUnknown),
        Some(known) => {
            if known.arity as usize == arguments {
                Ok(PredId(known.pred))
            } else {
                Err(ResolveError::ArityWrong)
            }
        }
    }
}

fn new_atom<'a>(
    place: &Place<'_>,
    arguments: &'a [Spelling],
    naming: &mut Naming<'a>,
) -> Result<Formula, ResolveError>
    ensures { GivesOrRefuses (λ f. (form_of f, naming_of naming.new)) result
        (new_atom (place_form place.now) arguments.now (naming_of naming.old)) }
{
    match arguments {
        [v] => Ok(Formula::IsNew(Var(occurrence(place, &v.0, naming)?))),
        _ => Err(ResolveError::ArityWrong),
    }
}

#[tactic(auto, unfolding(crate::specs::Resolving::pred_atom))]
fn pred_atom<'a>(
    place: &Place<'_>,
    name: &[u8],
    arguments: &'a [Spelling],
    naming: &mut Naming<'a>,
) -> Result<Formula, ResolveError>
    ensures { GivesOrRefuses (λ f. (form_of f, naming_of naming.new)) result
        (pred_atom (place_form place.now) name.now arguments.now (naming_of naming.old)) }
{
    let pred = pred_at(place, name, arguments.len())?;
    let terms = terms_at(place, arguments, naming)?;
    Ok(Formula::Atom(pred, terms))
}

#[tactic(auto, unfolding(crate::specs::Resolving::atom))]
fn atom<'a>(
    place: &Place<'_>,
    name: &[u8],
    arguments: &'a [Spelling],
    naming: &mut Naming<'a>,
) -> Result<Formula, ResolveError>
    ensures { GivesOrRefuses (λ f. (form_of f, naming_of naming.new)) result
        (atom (place_form place.now) name.now arguments.now (naming_of naming.old)) }
{
    if is_sm(name) {
        return Err(ResolveError::Reserved);
    }
    if is_new_word(name) && place.with_new {
        new_atom(place, arguments, naming)
    } else {
        pred_atom(place, name, arguments, naming)
    }
}

#[tactic(auto, unfolding(crate::specs::Resolving::closable))]
fn closable(place: &Place<'_>, name: &[u8]) -> Result<PredId, ResolveError>
    ensures { GivesOrRefuses (λ p. p.0) result (closable (place_form place.now) name.now) }
{
    if is_sm(name) {
        return Err(ResolveError::Reserved);
    }
    if is_new_word(name) && place.with_new {
        return Err(ResolveError::ArityWrong);
    }
    pred_at(place, name, 2)
}

fn closure_of(
    alloc: Global,
    pred: PredId,
    ends: (u8, u8),
    own: (u8, u8),
) -> Result<Formula, AllocError>
    ensures { IfOk result (λ f. form_of f ≡ closure_of pred.0 ends own) }
{
    let edge = Formula::Atom(pred, Terms::Two(Var(own.0), Var(own.1)));
    Ok(Formula::Closure {
        from: Var(ends.0),
        to: Var(ends.1),
        left: Var(own.0),
        right: Var(own.1),
        body: Box::new(alloc, edge)?,
    })
}

fn star_of(
    alloc: Global,
    reflexive: bool,
    pred: PredId,
    ends: (u8, u8),
    own: (u8, u8),
) -> Result<Formula, AllocError>
    ensures { IfOk result (λ f. form_of f ≡ star_of reflexive pred.0 ends own) }
{
    let closure = closure_of(alloc, pred, ends, own)?;
    if !reflexive {
        return Ok(closure);
    }
    let same = Formula::Same(Var(ends.0), Var(ends.1));
    Ok(Formula::Or(Box::new(alloc, same)?, Box::new(alloc, closure)?))
}

/// One of the two spellings of a closure of a predicate.
#[derive(Clone, Copy)]
struct StarTree<'a> {
    reflexive: bool,
    name: &'a Name,
    from: &'a Spelling,
    to: &'a Spelling,
}

#[tactic(auto, unfolding(crate::specs::Resolving::star))]
fn star_at<'a>(
    alloc: Global,
    place: &Place<'_>,
    written: StarTree<'a>,
    naming: &mut Naming<'a>,
) -> Result<Formula, ResolveError>
    ensures { GivesOrRefuses (λ f. (form_of f, naming_of naming.new)) result
        (star (place_form place.now) written.entry.reflexive (name_text (name_of written.entry.name.now))
        written.entry.from.now written.entry.to.now (naming_of naming.old)) }
{
    let name = name_text(alloc, written.name)?;
    let pred = closable(place, &name)?;
    let ends = two_occurrences(place, written.from, written.to, naming)?;
    let own = naming.own_pair()?;
    Ok(star_of(alloc, written.reflexive, pred, ends, own)?)
}

#[tactic(auto, unfolding(crate::specs::Resolving::resolved))]
fn star<'a>(
    alloc: Global,
    place: &Place<'_>,
    name: &'a Name,
    v: &'a Spelling,
    w: &'a Spelling,
    naming: &mut Naming<'a>,
) -> Result<Formula, ResolveError>
    ensures { GivesOrRefuses (λ f. (form_of f, naming_of naming.new)) result
        (resolved (place_form place.now) (FStar (name_of name.now) v.now w.now) (naming_of naming.old)) }
{
    let written = StarTree {
        reflexive: true,
        name,
        from: v,
        to: w,
    };
    star_at(alloc, place, written, naming)
}

#[tactic(auto, unfolding(crate::specs::Resolving::resolved))]
fn plus<'a>(
    alloc: Global,
    place: &Place<'_>,
    name: &'a Name,
    v: &'a Spelling,
    w: &'a Spelling,
    naming: &mut Naming<'a>,
) -> Result<Formula, ResolveError>
    ensures { GivesOrRefuses (λ f. (form_of f, naming_of naming.new)) result
        (resolved (place_form place.now) (FPlus (name_of name.now) v.now w.now) (naming_of naming.old)) }
{
    let written = StarTree {
        reflexive: false,
        name,
        from: v,
        to: w,
    };
    star_at(alloc, place, written, naming)
}

#[tactic(auto, unfolding(crate::specs::Resolving::resolved))]
fn named_atom<'a>(
    alloc: Global,
    place: &Place<'_>,
    name: &Name,
    arguments: &'a [Spelling],
    naming: &mut Naming<'a>,
) -> Result<Formula, ResolveError>
    ensures { GivesOrRefuses (λ f. (form_of f, naming_of naming.new)) result
        (resolved (place_form place.now) (FAtom (name_of name.now) arguments.now) (naming_of naming.old)) }
{
    let name = name_text(alloc, name)?;
    atom(place, &name, arguments, naming)
}

#[tactic(auto, unfolding(crate::specs::Resolving::resolved))]
fn same<'a>(
    place: &Place<'_>,
    v: &'a Spelling,
    w: &'a Spelling,
    naming: &mut Naming<'a>,
) -> Result<Formula, ResolveError>
    ensures { GivesOrRefuses (λ f. (form_of f, naming_of naming.new)) result
        (resolved (place_form place.now) (FSame v.now w.now) (naming_of naming.old)) }
{
    let (a, b) = two_occurrences(place, v, w, naming)?;
    Ok(Formula::Same(Var(a), Var(b)))
}

#[tactic(auto, unfolding(crate::specs::Resolving::two_bound))]
fn two_bound<'a>(
    left: &'a Spelling,
    right: &'a Spelling,
    naming: &mut Naming<'a>,
) -> Result<(u8, u8), ResolveError>
    ensures { GivesOrRefuses (λ n. (n, naming_of naming.new)) result
        (two_bound left.now right.now (naming_of naming.old)) }
{
    let a = naming.sight(&left.0)?;
    if left.0.as_slice() == right.0.as_slice() {
        return Err(ResolveError::NameTwice);
    }
    let b = naming.sight(&right.0)?;
    Ok((a, b))
}

#[cycle(resolve)]
fn boxed<'a>(
    alloc: Global,
    place: &Place<'_>,
    f: &'a FormulaTree,
    naming: &mut Naming<'a>,
) -> Result<Box<Formula>, ResolveError>
    ensures { GivesOrRefuses (λ g. (form_of g.value, naming_of naming.new)) result
        (resolved (place_form place.now) (tree_of f.now) (naming_of naming.old)) }
{
    Ok(Box::new(alloc, resolve_formula(alloc, place, f, naming)?)?)
}

// The body under quantifiers of the names.
#[cycle(resolve)]
fn quantified<'a>(
    alloc: Global,
    place: &Place<'_>,
    quantifier: Quantifier,
    names: &'a [Spelling],
    body: &'a FormulaTree,
    naming: &mut Naming<'a>,
) -> Result<Formula, ResolveError>
    ensures { GivesOrRefuses (λ f. (form_of f, naming_of naming.new)) result
        (quantified_in_turn (quantifier_of quantifier) (λ inner t. resolved inner (tree_of body.now) t)
        (place_form place.now) names.now (naming_of naming.old)) }
{
    let bound = bind_all(alloc, place, names, naming)?;
    let f = resolve_formula(alloc, &bound.place, body, naming)?;
    Ok(quantifier.over_all(alloc, bound.vars, f)?)
}

#[cycle(resolve)]
#[tactic(auto, unfolding(crate::specs::Resolving::resolved))]
fn implication<'a>(
    alloc: Global,
    place: &Place<'_>,
    f: &'a FormulaTree,
    g: &'a FormulaTree,
    naming: &mut Naming<'a>,
) -> Result<Formula, ResolveError>
    ensures { GivesOrRefuses (λ h. (form_of h, naming_of naming.new)) result
        (resolved (place_form place.now) (FImp (tree_of f.now) (tree_of g.now)) (naming_of naming.old)) }
{
    let left = Formula::Not(boxed(alloc, place, f, naming)?);
    let right = boxed(alloc, place, g, naming)?;
    Ok(Formula::Or(Box::new(alloc, left)?, right))
}

/// The ends and the own variables of a closure.
#[derive(Clone, Copy)]
struct ClosureTree<'a> {
    from: &'a Spelling,
    to: &'a Spelling,
    left: &'a Spelling,
    right: &'a Spelling,
}

#[cycle(resolve)]
#[tactic(auto, unfolding(crate::specs::Resolving::resolved))]
fn closure<'a>(
    alloc: Global,
    place: &Place<'_>,
    written: ClosureTree<'a>,
    body: &'a FormulaTree,
    naming: &mut Naming<'a>,
) -> Result<Formula, ResolveError>
    ensures { GivesOrRefuses (λ h. (form_of h, naming_of naming.new)) result (resolved (place_form place.now)
        (FTc written.entry.from.now written.entry.to.now written.entry.left.now written.entry.right.now
        (tree_of body.now)) (naming_of naming.old)) }
{
    let (from, to) = two_occurrences(place, written.from, written.to, naming)?;
    let (left, right) = two_bound(written.left, written.right, naming)?;
    let inner = place.under(left).under(right);
    Ok(Formula::Closure {
        from: Var(from),
        to: Var(to),
        left: Var(left),
        right: Var(right),
        body: boxed(alloc, &inner, body, naming)?,
    })
}

/// The formula that a tree stands for at this place, or the first refusal in reading order. After a
/// refusal the numbers are any.
#[cycle(resolve)]
#[tactic(auto, unfolding(crate::specs::Resolving::resolved))]
pub fn resolve_formula<'a>(
    alloc: Global,
    place: &Place<'_>,
    f: &'a FormulaTree,
    naming: &mut Naming<'a>,
) -> Result<Formula, ResolveError>
    ensures { GivesOrRefuses (λ g. (form_of g, naming_of naming.new)) result
        (resolved (place_form place.now) (tree_of f.now) (naming_of naming.old)) }
{
    match f {
        FormulaTree::Zero => Ok(Formula::Zero),
        FormulaTree::One => Ok(Formula::One),
        FormulaTree::Half => Err(ResolveError::HalfLiteral),
        FormulaTree::Same(v, w) => same(place, v, w, naming),
        FormulaTree::Differ(v, w) => {
            let inner = same(place, v, w, naming)?;
            Ok(Formula::Not(Box::new(alloc, inner)?))
        }
        FormulaTree::Atom(name, arguments) => named_atom(
            alloc,
            place,
            name,
            arguments.as_slice(),
            naming,
        ),
        FormulaTree::Star(name, from, to) => star(alloc, place, name, from, to, naming),
        FormulaTree::Plus(name, from, to) => plus(alloc, place, name, from, to, naming),
        FormulaTree::Paren(g) => resolve_formula(alloc, place, g, naming),
        FormulaTree::Not(g) => Ok(Formula::Not(boxed(alloc, place, g, naming)?)),
        FormulaTree::And(g, h) => {
            let left = boxed(alloc, place, g, naming)?;
            Ok(Formula::And(left, boxed(alloc, place, h, naming)?))
        }
        FormulaTree::Or(g, h) => {
            let left = boxed(alloc, place, g, naming)?;
            Ok(Formula::Or(left, boxed(alloc, place, h, naming)?))
        }
        FormulaTree::Imp(g, h) => implication(alloc, place, g, h, naming),
        FormulaTree::Iff(g, h) => {
            let left = boxed(alloc, place, g, naming)?;
            Ok(Formula::Iff(left, boxed(alloc, place, h, naming)?))
        }
        FormulaTree::Cond(c, g, h) => {
            let test = boxed(alloc, place, c, naming)?;
            let yes = boxed(alloc, place, g, naming)?;
            Ok(Formula::Cond(test, yes, boxed(alloc, place, h, naming)?))
        }
        FormulaTree::Exists(names, g) => quantified(
            alloc,
            place,
            Quantifier::Exists,
            names.as_slice(),
            g,
            naming,
        ),
        FormulaTree::Forall(names, g) => quantified(
            alloc,
            place,
            Quantifier::Forall,
            names.as_slice(),
            g,
            naming,
        ),
        FormulaTree::Tc {
            from,
            to,
            left,
            right,
            body,
        } => closure(
            alloc,
            place,
            ClosureTree {
                from,
                to,
                left,
                right,
            },
            body,
            naming,
        ),
    }
}
