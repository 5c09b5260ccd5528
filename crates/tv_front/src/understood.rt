//! A program's text with its tokens, its tree, and the program that it means.

ghost use Rattle.std.specs.Prelude.{◌≤◌, length, IfOk, IfErr};
ghost use Rattle.tv_model.specs.Program.{program_of};
ghost use Rattle.tv_model.specs.Valid.{IsValid};
ghost use Rattle.tv_front.specs.Meaning.{IsProgramCause, StopsInText};
ghost use Rattle.tv_front.specs.Trees.{IsUnderstood};

use crate::fault::ProgramFault;
use std::alloc::Global;
use tv_expand::expand;
use tv_lex::{Tokens, lex};
use tv_model::Program;
use tv_parse::parse_program;
use tv_tree::Tree;
use tv_vocab::{flat_forms_are_resolvable, resolve};

/// The tokens and the tree of a text, and the program that it means.
#[derive(Drop)]
pub struct Understood<'t> {
    pub tokens: Tokens,
    pub tree: Tree<'t>,
    pub program: Program,
}

/// The tokens, the tree and the program of a text, as `read_program` goes through them; the program is valid.
///
/// # Errors
/// Those of `read_program`.
#[tactic(auto, using(crate::proofs::Stages::lexing_refused, crate::proofs::Stages::parsing_refused, crate::proofs::Stages::tree_read, crate::proofs::Stages::parsing_stopped, crate::proofs::Stages::expansion_refused))]
pub fn understand<'t>(alloc: Global, bytes: &'t [u8]) -> Result<Understood<'t>, ProgramFault>
    requires { length bytes.now ≤ 67108864 }
    ensures means { IfOk result (IsUnderstood bytes.now) }
    ensures valid { IfOk result (λ read. IsValid (program_of read.program)) }
    ensures cause { IfErr result (IsProgramCause bytes.now) }
    ensures place { IfErr result (StopsInText bytes.now) }
{
    flat_forms_are_resolvable();
    let tokens = lex(alloc, bytes)?;
    let tree = parse_program(alloc, bytes, &tokens)?;
    let flat = expand(alloc, &tree)?;
    let program = resolve(alloc, &flat)?;
    Ok(Understood {
        tokens,
        tree,
        program,
    })
}
