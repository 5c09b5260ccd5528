//! Actions of compiled programs: what a statement does, and the two ways of a test.

ghost use Rattle.std.specs.Prelude.{◌≡◌, ◌<◌, ◌≤◌, ◌+◌, [], ◌∷◌, ◌++◌, length, map, Some, codes, IfOk};
ghost use Rattle.tv_model.specs.Form.{form_of, FAtom, FIsNew, FNot, FZero, FAnd, FOr, FExists};
ghost use Rattle.tv_model.specs.Program.{action_of, message_of, update_of};
ghost use Rattle.tv_model.specs.Rules.{signed_form};
ghost use Rattle.tv_source.specs.Copies.{assign_of, source_of, test_of};
ghost use Rattle.tv_source.specs.Forms.{ANull, ANew, ACopy, ALoad, AStore, AClear, TNull, TSame};
ghost use Rattle.tv_source.specs.Valid.{IsAssignOf};
ghost use Rattle.tv_plang_laws.specs.Compiled.{assign_action, dereferences, field_number, kept_elsewhere};
ghost use Rattle.tv_plang_laws.specs.Compiled.{name_in, no_action, points, points_somewhere, sets_field};
ghost use Rattle.tv_plang_laws.specs.Compiled.{sets_variable, test_action};
ghost use Rattle.tv_plang_laws.specs.Memories.{agrees};
ghost use Rattle.tv_plang.specs.Limits.{HasFewNames, IsFieldOfFew};

use crate::formulas::{alike, both, either, every, negation, one_place, some, two_places};
use crate::predicates::name_at;
use std::alloc::{AllocError, Global};
use tv_model::{
    Action, Change, Formula, Formulas, Items, Message, Messages, PredId, Terms, Update, Updates,
    Var,
};
use tv_source::{Assign, FieldId, Source, Test, VarId};

/// The action that does nothing.
fn nothing(alloc: Global) -> Action
    ensures { action_of result ≡ no_action }
{
    Action {
        pre: None,
        picks: Items::new(alloc),
        focus: Items::new(alloc),
        messages: Items::new(alloc),
        fresh: false,
        retain: None,
        updates: Items::new(alloc),
    }
}

/// `E(v) x(v)`
fn somewhere(alloc: Global, x: VarId) -> Result<Formula, AllocError>
    ensures { IfOk result (λ f. form_of f ≡ points_somewhere x.0) }
{
    some(alloc, 0, one_place(x.0, 0))
}

fn variable_set(alloc: Global, x: VarId, f: Formula) -> Result<Updates, AllocError>
    ensures { IfOk result (λ us. map update_of us ≡ sets_variable x.0 (form_of f)) }
{
    let mut updates = Items::new(alloc);
    updates.push(Update {
        pred: PredId(x.0),
        vars: Terms::One(Var(0)),
        change: Change::To(f),
    })?;
    Ok(updates)
}

fn field_set(alloc: Global, source: &Source, f: FieldId, g: Formula) -> Result<Updates, AllocError>
    requires field { IsFieldOfFew (source_of source.now) f.0 }
    ensures { IfOk result (λ us. map update_of us ≡ sets_field (source_of source.now) f.0 (form_of g)) }
{
    let mut updates = Items::new(alloc);
    updates.push(Update {
        pred: PredId(field_predicate_number(source, f)),
        vars: Terms::Two(Var(0), Var(1)),
        change: Change::To(g),
    })?;
    Ok(updates)
}

fn field_predicate_number(source: &Source, f: FieldId) -> u32
    requires field { IsFieldOfFew (source_of source.now) f.0 }
    ensures { result ≡ field_number (source_of source.now) f.0 }
{
    source.variables.len() as u32 + f.0
}

fn one_focus(alloc: Global, x: VarId) -> Result<Formulas, AllocError>
    ensures { IfOk result (λ fs. map form_of fs ≡ points x.0 0 ∷ []) }
{
    let mut focus = Items::new(alloc);
    focus.push(one_place(x.0, 0))?;
    Ok(focus)
}

fn two_focus(alloc: Global, x: VarId, y: VarId) -> Result<Formulas, AllocError>
    ensures { IfOk result (λ fs. map form_of fs ≡ points x.0 0 ∷ points y.0 0 ∷ []) }
{
    let mut focus = Items::new(alloc);
    focus.push(one_place(x.0, 0))?;
    focus.push(one_place(y.0, 0))?;
    Ok(focus)
}

/// The message where the variable is null.
fn null_message(alloc: Global, source: &Source, z: VarId) -> Result<Messages, AllocError>
    ensures { IfOk result (λ ms. map message_of ms ≡ (dereferences (source_of source.now) z.0).messages) }
{
    let cond = negation(alloc, somewhere(alloc, z)?)?;
    let mut text = Vec::new(alloc);
    text.extend_from_slice(b"null dereference of ")?;
    text.extend_from_slice(name_at(&source.variables, z.0))?;
    let mut messages = Items::new(alloc);
    messages.push(Message {
        cond,
        text: Items::from_vec(text),
    })?;
    Ok(messages)
}

/// An action that does nothing where the variable is null, and tells so.
fn dereferencing(alloc: Global, source: &Source, z: VarId) -> Result<Action, AllocError>
    ensures { IfOk result (λ a. action_of a ≡ dereferences (source_of source.now) z.0) }
{
    let mut action = nothing(alloc);
    action.pre = Some(somewhere(alloc, z)?);
    action.messages = null_message(alloc, source, z)?;
    Ok(action)
}

/// `x = null`
fn to_null(alloc: Global, source: &Source, x: VarId) -> Result<Action, AllocError>
    ensures { IfOk result (λ a. action_of a ≡ assign_action (source_of source.now) (ANull x.0)) }
{
    let mut action = nothing(alloc);
    action.updates = variable_set(alloc, x, Formula::Zero)?;
    Ok(action)
}

/// `x = new`
fn to_new(alloc: Global, source: &Source, x: VarId) -> Result<Action, AllocError>
    ensures { IfOk result (λ a. action_of a ≡ assign_action (source_of source.now) (ANew x.0)) }
{
    let mut action = nothing(alloc);
    action.fresh = true;
    action.updates = variable_set(alloc, x, Formula::IsNew(Var(0)))?;
    Ok(action)
}

/// `x = y`
fn to_variable(alloc: Global, source: &Source, x: VarId, y: VarId) -> Result<Action, AllocError>
    ensures { IfOk result (λ a. action_of a ≡ assign_action (source_of source.now) (ACopy x.0 y.0)) }
{
    let mut action = nothing(alloc);
    action.focus = one_focus(alloc, y)?;
    action.updates = variable_set(alloc, x, one_place(y.0, 0))?;
    Ok(action)
}

/// `x = y->f`
fn to_field(
    alloc: Global,
    source: &Source,
    x: VarId,
    y: VarId,
    f: FieldId,
) -> Result<Action, AllocError>
    requires field { IsFieldOfFew (source_of source.now) f.0 }
    ensures { IfOk result (λ a. action_of a ≡ assign_action (source_of source.now) (ALoad x.0 y.0 f.0)) }
{
    let number = field_predicate_number(source, f);
    let target = some(
        alloc,
        0,
        both(alloc, one_place(y.0, 0), two_places(number, 0, 1))?,
    )?;
    let loaded = some(
        alloc,
        1,
        both(alloc, one_place(y.0, 1), two_places(number, 1, 0))?,
    )?;
    let mut action = dereferencing(alloc, source, y)?;
    let mut focus = Items::new(alloc);
    focus.push(target)?;
    action.focus = focus;
    action.updates = variable_set(alloc, x, loaded)?;
    Ok(action)
}

/// `!x(v_1) & f(v_1, v_2)`
fn elsewhere(alloc: Global, source: &Source, x: VarId, f: FieldId) -> Result<Formula, AllocError>
    requires field { IsFieldOfFew (source_of source.now) f.0 }
    ensures { IfOk result (λ g. form_of g ≡ kept_elsewhere (source_of source.now) x.0 f.0) }
{
    let number = field_predicate_number(source, f);
    both(
        alloc,
        negation(alloc, one_place(x.0, 0))?,
        two_places(number, 0, 1),
    )
}

/// `x->f = y`
fn store(
    alloc: Global,
    source: &Source,
    x: VarId,
    f: FieldId,
    y: VarId,
) -> Result<Action, AllocError>
    requires field { IsFieldOfFew (source_of source.now) f.0 }
    ensures { IfOk result (λ a. action_of a ≡ assign_action (source_of source.now) (AStore x.0 f.0 y.0)) }
{
    let linked = both(alloc, one_place(x.0, 0), one_place(y.0, 1))?;
    let stored = either(alloc, linked, elsewhere(alloc, source, x, f)?)?;
    let mut action = dereferencing(alloc, source, x)?;
    action.focus = two_focus(alloc, x, y)?;
    action.updates = field_set(alloc, source, f, stored)?;
    Ok(action)
}

/// `x->f = null`
fn clear(alloc: Global, source: &Source, x: VarId, f: FieldId) -> Result<Action, AllocError>
    requires field { IsFieldOfFew (source_of source.now) f.0 }
    ensures { IfOk result (λ a. action_of a ≡ assign_action (source_of source.now) (AClear x.0 f.0)) }
{
    let mut action = dereferencing(alloc, source, x)?;
    action.focus = one_focus(alloc, x)?;
    action.updates = field_set(alloc, source, f, elsewhere(alloc, source, x, f)?)?;
    Ok(action)
}

/// What the statement does.
pub fn action_of_assign(
    alloc: Global,
    source: &Source,
    assign: Assign,
) -> Result<Action, AllocError>
    requires few { HasFewNames (source_of source.now) }
    requires declared { IsAssignOf (source_of source.now) (assign_of assign) }
    ensures { IfOk result (λ a. action_of a ≡ assign_action (source_of source.now) (assign_of assign)) }
{
    match assign {
        Assign::Null(x) => to_null(alloc, source, x),
        Assign::New(x) => to_new(alloc, source, x),
        Assign::Copy(x, y) => to_variable(alloc, source, x, y),
        Assign::Load(x, y, f) => to_field(alloc, source, x, y, f),
        Assign::Store(x, f, y) => store(alloc, source, x, f, y),
        Assign::Clear(x, f) => clear(alloc, source, x, f),
    }
}

/// The formula where the flag is true, else its negation.
fn signed(alloc: Global, flag: bool, f: Formula) -> Result<Formula, AllocError>
    ensures { IfOk result (λ g. form_of g ≡ signed_form flag (form_of f)) }
{
    if flag { Ok(f) } else { negation(alloc, f) }
}

fn agreeing(equal: bool, way: bool) -> bool
    ensures { result ≡ agrees equal way }
{
    if equal { way } else { !way }
}

/// `x == null`, or `x != null` where `equal` is false
fn null_test(alloc: Global, way: bool, equal: bool, x: VarId) -> Result<Action, AllocError>
    ensures { IfOk result (λ a. action_of a ≡ test_action way (TNull equal x.0)) }
{
    let null = negation(alloc, somewhere(alloc, x)?)?;
    let mut action = nothing(alloc);
    action.pre = Some(signed(alloc, agreeing(equal, way), null)?);
    action.focus = one_focus(alloc, x)?;
    Ok(action)
}

/// `x == y`, or `x != y` where `equal` is false
fn same_test(
    alloc: Global,
    way: bool,
    equal: bool,
    x: VarId,
    y: VarId,
) -> Result<Action, AllocError>
    ensures { IfOk result (λ a. action_of a ≡ test_action way (TSame equal x.0 y.0)) }
{
    let alike_at = alike(alloc, one_place(x.0, 0), one_place(y.0, 0))?;
    let same = every(alloc, 0, alike_at)?;
    let mut action = nothing(alloc);
    action.pre = Some(signed(alloc, agreeing(equal, way), same)?);
    action.focus = two_focus(alloc, x, y)?;
    Ok(action)
}

/// One way of the test.
pub fn action_of_test(alloc: Global, way: bool, test: Test) -> Result<Action, AllocError>
    ensures { IfOk result (λ a. action_of a ≡ test_action way (test_of test)) }
{
    match test {
        Test::Any => Ok(nothing(alloc)),
        Test::Null(equal, x) => null_test(alloc, way, equal, x),
        Test::Same(equal, x, y) => same_test(alloc, way, equal, x, y),
    }
}
