//! A program's text, stage by stage.

ghost use Rattle.std.specs.Prelude.{◌≤◌, length, IfOk, IfErr};
ghost use Rattle.tv_tree.specs.Copies.{program_of as tree_of};
ghost use Rattle.tv_tree.specs.Spelled.{IsSpelled};
ghost use Rattle.tv_flat.specs.FlatForm.{flat_of, IsFlat};
ghost use Rattle.tv_model.specs.Program.{program_of};
ghost use Rattle.tv_model.specs.Valid.{IsValid};
ghost use Rattle.tv_front.specs.Meaning.{HasTree, HasFlatForm, Means, IsProgramCause, StopsInText};

use crate::fault::ProgramFault;
use std::alloc::Global;
use tv_expand::expand;
use tv_flat::Flat;
use tv_lex::lex;
use tv_model::Program;
use tv_parse::parse_program;
use tv_tree::Tree;
use tv_vocab::{flat_forms_are_resolvable, resolve};

/// The tree of a text.
#[tactic(auto, using(crate::proofs::Stages::lexing_refused, crate::proofs::Stages::parsing_refused, crate::proofs::Stages::tree_read, crate::proofs::Stages::parsing_stopped))]
fn tree<'t>(alloc: Global, bytes: &'t [u8]) -> Result<Tree<'t>, ProgramFault>
    requires { length bytes.now ≤ 67108864 }
    ensures tree { IfOk result (λ t. HasTree bytes.now (tree_of t)) }
    ensures spelled { IfOk result (λ t. IsSpelled (tree_of t)) }
    ensures cause { IfErr result (IsProgramCause bytes.now) }
    ensures place { IfErr result (StopsInText bytes.now) }
{
    let tokens = lex(alloc, bytes)?;
    Ok(parse_program(alloc, bytes, &tokens)?)
}

/// The flat form of a text.
#[tactic(auto, using(crate::proofs::Stages::expansion_refused, crate::proofs::Stages::flat_form_given))]
pub fn flat_form<'t>(alloc: Global, bytes: &'t [u8]) -> Result<Flat<'t>, ProgramFault>
    requires { length bytes.now ≤ 67108864 }
    ensures flat_form { IfOk result (λ f. HasFlatForm bytes.now (flat_of f)) }
    ensures flat { IfOk result (λ f. IsFlat (flat_of f)) }
    ensures cause { IfErr result (IsProgramCause bytes.now) }
    ensures place { IfErr result (StopsInText bytes.now) }
{
    let tree = tree(alloc, bytes)?;
    Ok(expand(alloc, &tree)?)
}

/// The program that a text means, which is valid. The text has its includes put in already, and at most
/// 67,108,864 bytes.
///
/// # Errors
/// The first stage that refuses the text says why: its bytes make no tokens; over 200 constructs are open at
/// one place; its tokens are no program; its tree has no flat form; its flat form has no meaning. Each of
/// these comes exactly where it stands; only lack of memory may come anywhere. The place of a syntax fault is
/// that of the start of one of the tokens, or of the end of the text.
#[tactic(auto, using(crate::proofs::Stages::resolution_refused, crate::proofs::Stages::program_given))]
pub fn read_program(alloc: Global, bytes: &[u8]) -> Result<Program, ProgramFault>
    requires { length bytes.now ≤ 67108864 }
    ensures means { IfOk result (λ p. Means bytes.now (program_of p)) }
    ensures valid { IfOk result (λ p. IsValid (program_of p)) }
    ensures cause { IfErr result (IsProgramCause bytes.now) }
    ensures place { IfErr result (StopsInText bytes.now) }
{
    flat_forms_are_resolvable();
    let flat = flat_form(alloc, bytes)?;
    Ok(resolve(alloc, &flat)?)
}
