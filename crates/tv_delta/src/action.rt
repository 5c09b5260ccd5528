//! Copies of the parts of an action.

ghost use Rattle.std.specs.Prelude.{◌≡◌, map, IfOk};
ghost use Rattle.tv_model.specs.Form.{form_of};
ghost use Rattle.tv_model.specs.Program.{pre_of, retain_of, message_of, change_of, update_of};

use std::alloc::{AllocError, Global};
use tv_model::{Change, Formula, Formulas, Message, Messages, Retain, Update, copy, copy_bytes};

/// A copy of the formulas.
#[tactic(auto, using(crate::proofs::Copies::copied_more))]
pub fn copy_formulas(alloc: Global, formulas: &Formulas) -> Result<Formulas, AllocError>
    ensures { IfOk result (λ x. map form_of x ≡ map form_of formulas.now) }
{
    let formulas = formulas.as_slice();
    let mut out = Vec::with_capacity(alloc, formulas.len())?;
    for f in formulas {
        out.push(copy(alloc, f)?)?;
    }
    Ok(Formulas::from_vec(out))
}

/// A copy of the precondition.
pub fn copy_pre(alloc: Global, pre: &Option<Formula>) -> Result<Option<Formula>, AllocError>
    ensures { IfOk result (λ x. pre_of x ≡ pre_of pre.now) }
{
    match pre {
        None => Ok(None),
        Some(f) => Ok(Some(copy(alloc, f)?)),
    }
}

/// A copy of what the step keeps.
pub fn copy_retain(alloc: Global, retain: &Option<Retain>) -> Result<Option<Retain>, AllocError>
    ensures { IfOk result (λ x. retain_of x ≡ retain_of retain.now) }
{
    match retain {
        None => Ok(None),
        Some(r) => {
            let keep = copy(alloc, &r.keep)?;
            Ok(Some(Retain { var: r.var, keep }))
        }
    }
}

fn copy_message(alloc: Global, message: &Message) -> Result<Message, AllocError>
    ensures { IfOk result (λ x. message_of x ≡ message_of message.now) }
{
    let cond = copy(alloc, &message.cond)?;
    let text = copy_bytes(alloc, &message.text)?;
    Ok(Message { cond, text })
}

/// A copy of the messages.
#[tactic(auto, using(crate::proofs::Copies::copied_more))]
pub fn copy_messages(alloc: Global, messages: &Messages) -> Result<Messages, AllocError>
    ensures { IfOk result (λ x. map message_of x ≡ map message_of messages.now) }
{
    let messages = messages.as_slice();
    let mut out = Vec::with_capacity(alloc, messages.len())?;
    for message in messages {
        out.push(copy_message(alloc, message)?)?;
    }
    Ok(Messages::from_vec(out))
}

fn copy_change(alloc: Global, change: &Change) -> Result<Change, AllocError>
    ensures { IfOk result (λ x. change_of x ≡ change_of change.now) }
{
    match change {
        Change::Free => Ok(Change::Free),
        Change::To(f) => Ok(Change::To(copy(alloc, f)?)),
    }
}

/// A copy of the update.
pub fn copy_update(alloc: Global, update: &Update) -> Result<Update, AllocError>
    ensures { IfOk result (λ x. update_of x ≡ update_of update.now) }
{
    let change = copy_change(alloc, &update.change)?;
    Ok(Update {
        pred: update.pred,
        vars: update.vars,
        change,
    })
}
