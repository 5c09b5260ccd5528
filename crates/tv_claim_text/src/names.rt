//! Claims by the predicate of which they are declared, or by the number of a rule.

ghost use Rattle.std.specs.Prelude.{◌≡◌, ◌++◌, ◌+◌, IfOk, OnOk, codes, slice_get};
ghost use Rattle.tv_claim_text.specs.Claims.{claim_written, declaration_written, name_of_pred};
ghost use Rattle.tv_file_lines.specs.Numbered.{numbered};
ghost use Rattle.tv_model.specs.Program.{program_of};
ghost use Rattle.tv_model.specs.Valid.{IsValid};

use itoa::Buffer;
use std::alloc::{AllocError, Global};
use std::marker::Model;
use tv_losses_unmet::Claim;
use tv_model::{PredId, Program};
use tv_replay_judge::property_rules;

/// A program, and how many rules its properties stand for. A contract sees the program.
#[derive(Drop)]
pub struct ClaimNames<'a> {
    program: &'a Program,
    properties: usize,
}

impl<'a> Model for ClaimNames<'a> {
    ghost use Rattle.std.specs.Prelude.{◌≡◌, length};
    ghost use Rattle.tv_model.specs.Program.{program_of};
    ghost use Rattle.tv_model.specs.declared.program.Program.{Program};
    ghost use Rattle.tv_replay_laws.specs.JudgedRules.{rules_of_properties};

    ghost Value = { Program };

    ghost use Rattle.tv_model.specs.contracts.formula.Formula as formula;
    ghost use Rattle.std.specs.Coded.{codes};

    ghost coded = { Prim.hlevel (codes, formula.the_row.coded) };

    ghost view = { λ n. n.program.now };

    ghost invariant = { λ n. n.properties ≡ length (rules_of_properties 0 (program_of n.program.now).preds) };
}

/// Appends the name of the predicate.
fn append_pred(out: &mut Vec<u8>, program: &Program, p: PredId) -> Result<(), AllocError>
    ensures { OnOk result (out.new.items
        ≡ out.old.items ++ name_of_pred (slice_get (program_of program.now).preds p.0)) }
{
    match program.vocab.preds.as_slice().get(p.0 as usize) {
        None => Ok(()),
        Some(pred) => out.extend_from_slice(pred.name.as_slice()),
    }
}

/// Appends that it is what is declared of the predicate.
fn append_declaration(out: &mut Vec<u8>, program: &Program, p: PredId) -> Result<(), AllocError>
    ensures { OnOk result
        (out.new.items ≡ out.old.items ++ declaration_written (program_of program.now) p.0) }
{
    out.extend_from_slice(b"the declaration of ")?;
    append_pred(out, program, p)
}

/// Appends a declared rule, by its number behind so many rules of properties.
fn append_rule(out: &mut Vec<u8>, properties: usize, declared: usize) -> Result<(), AllocError>
    ensures { OnOk result
        (out.new.items ≡ out.old.items ++ numbered (codes "rule ") (properties + declared)) }
{
    let mut digits = Buffer::new();
    out.extend_from_slice(b"rule ")?;
    out.extend_from_slice(
        digits
            .format(properties as u128 + declared as u128)
            .as_bytes(),
    )
}

impl<'a> ClaimNames<'a> {
    /// The names of the program's declarations.
    ///
    /// # Errors
    /// Lack of memory.
    pub fn new(alloc: Global, program: &'a Program) -> Result<ClaimNames<'a>, AllocError>
        requires { IsValid (program_of program.now) }
        ensures { IfOk result (λ names. names ≡ program.now) }
    {
        let rules = property_rules(alloc, program.vocab.preds.as_slice())?;
        Ok(ClaimNames {
            program,
            properties: rules.len(),
        })
    }

    /// The program.
    pub fn program(&self) -> &'a Program
        ensures { result.now ≡ self.now }
    {
        self.program
    }

    /// Appends the claim: `the declaration of NAME`, or `rule NUMBER` with the number that `replay` tells, so
    /// that the rules of properties come first; `declarations together` where there is none.
    ///
    /// # Errors
    /// Lack of memory.
    pub fn append(&self, out: &mut Vec<u8>, claim: Option<Claim>) -> Result<(), AllocError>
        ensures { OnOk result
            (out.new.items ≡ out.old.items ++ claim_written (program_of self.now) claim) }
    {
        match claim {
            None => out.extend_from_slice(b"declarations together"),
            Some(Claim::Rule(number)) => append_rule(out, self.properties, number),
            Some(Claim::Predicate(p)) => append_declaration(out, self.program, p),
        }
    }
}
