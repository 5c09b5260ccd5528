//! The closed rules of declarations, each alone.

ghost use Rattle.std.specs.Prelude.{◌≡◌, IfOk, length};
ghost use Rattle.tv_model.specs.Program.{program_of};
ghost use Rattle.tv_model.specs.Valid.{IsValid};
ghost use Rattle.tv_rules.specs.EntryForms.{rules_of};
ghost use Rattle.tv_losses_unmet.specs.Alone.{alone};
ghost use Rattle.tv_losses_unmet.specs.Kept.{AreClosedAlone, of_pred, of_rule};
ghost use Rattle.tv_losses_unmet.specs.Unmet.{closed_alone};

use crate::alone::{alone, exchange_rule};
use crate::claim::Claim;
use std::alloc::{AllocError, Global};
use tv_model::{PredId, Program};
use tv_rules::{Closed, close_rules};

/// The closed rules of the claim, which `made` makes alone.
fn closed_of(
    alloc: Global,
    program: &Program,
    claim: Claim,
    made: &Program,
) -> Result<Closed, AllocError>
    requires valid { IsValid (program_of program.now) }
    requires made { program_of made.now ≡ alone claim (program_of program.now) }
    ensures { IfOk result (λ closed. rules_of closed ≡ closed_alone (program_of program.now) claim) }
{
    close_rules(alloc, made)
}

/// Those of what is declared of each predicate, in order.
pub(crate) fn closed_preds(alloc: Global, program: &Program) -> Result<Vec<Closed>, AllocError>
    requires { IsValid (program_of program.now) }
    ensures count { IfOk result (λ lists. length lists.items ≡ length program.now.vocab.preds) }
    ensures are { IfOk result
        (λ lists. AreClosedAlone (program_of program.now) of_pred lists.items) }
{
    let mut lists = Vec::new(alloc);
    for number in 0..program.vocab.preds.len() {
        let claim = Claim::Predicate(PredId(number as u32));
        let made = alone(alloc, program, claim)?;
        lists.push(closed_of(alloc, program, claim, &made)?)?;
    }
    Ok(lists)
}

/// Those of each rule, in order.
pub(crate) fn closed_rules(alloc: Global, program: &Program) -> Result<Vec<Closed>, AllocError>
    requires { IsValid (program_of program.now) }
    ensures count { IfOk result (λ lists. length lists.items ≡ length program.now.rules) }
    ensures are { IfOk result
        (λ lists. AreClosedAlone (program_of program.now) of_rule lists.items) }
{
    let mut lists = Vec::new(alloc);
    let mut made = alone(alloc, program, Claim::Rule(0))?;
    for number in 0..program.rules.len() {
        exchange_rule(alloc, program, &mut made, number)?;
        lists.push(closed_of(alloc, program, Claim::Rule(number), &made)?)?;
    }
    Ok(lists)
}
