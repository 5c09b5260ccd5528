//! Copies of the parts of programs that aren't formulas.

ghost use Rattle.std.specs.Prelude.{◌≡◌, IfOk};
ghost use Rattle.tv_model.specs.Program.{kind_of, pred_of, rule_of};

use crate::{Bytes, Kind, Pred, Rule, copy};
use std::alloc::{AllocError, Global};

/// A copy of the bytes.
pub fn copy_bytes(alloc: Global, bytes: &Bytes) -> Result<Bytes, AllocError>
    ensures { IfOk result (λ x. x ≡ bytes.now) }
{
    Ok(Bytes::from_vec(Vec::from_slice(alloc, bytes.as_slice())?))
}

fn copy_kind(alloc: Global, kind: &Kind) -> Result<Kind, AllocError>
    ensures { IfOk result (λ x. kind_of x ≡ kind_of kind.now) }
{
    match kind {
        Kind::Core => Ok(Kind::Core),
        Kind::Defined { vars, body } => {
            let body = copy(alloc, body)?;
            Ok(Kind::Defined { vars: *vars, body })
        }
    }
}

/// A copy of the predicate, with what is declared of it.
pub fn copy_pred(alloc: Global, pred: &Pred) -> Result<Pred, AllocError>
    ensures { IfOk result (λ x. pred_of x ≡ pred_of pred.now) }
{
    let name = copy_bytes(alloc, &pred.name)?;
    let kind = copy_kind(alloc, &pred.kind)?;
    Ok(Pred {
        name,
        arity: pred.arity,
        kind,
        abs: pred.abs,
        props: pred.props,
    })
}

/// A copy of the rule.
pub fn copy_rule(alloc: Global, rule: &Rule) -> Result<Rule, AllocError>
    ensures { IfOk result (λ x. rule_of x ≡ rule_of rule.now) }
{
    let body = copy(alloc, &rule.body)?;
    Ok(Rule {
        body,
        head: rule.head,
    })
}
