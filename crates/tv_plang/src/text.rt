//! A text to its program.

ghost use Rattle.std.specs.Prelude.{◌≡◌, ◌≤◌, length, Ok, IfOk, IfErr};
ghost use Rattle.tv_lex.specs.Places.{StopsAtToken};
ghost use Rattle.tv_lex.specs.Bytes.{longest_text};
ghost use Rattle.tv_lex.specs.Pieces.{Reads};
ghost use Rattle.tv_lex.specs.Token.{spec_tokens};
ghost use Rattle.tv_model.specs.Program.{program_of};
ghost use Rattle.tv_model.specs.Valid.{IsValid};
ghost use Rattle.tv_plang.specs.Meaning.{DoesAsSource, IsSourceCause, MeansProgram, source_place};

use crate::error::SourceError;
use std::alloc::Global;
use tv_lex::Tokens;
use tv_model::Program;
use tv_source_names::read_source;

/// The program that a text of the pointer language is compiled to. `tokens` are those of `bytes`.
///
/// Each variable is a unary predicate and each field a binary one; for each field `f` and variable `x` a
/// defined predicate `r[f,x]` tells what `x` reaches along `f`. Node `Sk` stands before statement k, and
/// `Exit` behind the last. Whatever the text does, by the language's own meaning, is a run of the program.
///
/// # Errors
/// `TooDeep` where over 200 parentheses and braces are open at one place. Else `Syntax` where the tokens
/// aren't of the grammar. Else, at the first name in the order of the text that may not stand there,
/// `Reserved`, `NameTwice` or `NameUnknown`. Else `TooMany` where there would be over 512 predicates, 4,096
/// nodes or 16,384 edges. `Memory` where memory ran out.
#[tactic(auto, using(crate::proofs::Stages::reading_refused, crate::proofs::Stages::reading_stopped, crate::proofs::Stages::compiling_refused, crate::proofs::Stages::program_meant, crate::proofs::Stages::does_as_source))]
pub fn compile(alloc: Global, bytes: &[u8], tokens: &Tokens) -> Result<Program, SourceError>
    requires size { length bytes.now ≤ longest_text }
    requires read { Reads bytes.now (Ok tokens.now.list.items) }
    ensures meant { IfOk result
        (λ p. MeansProgram (spec_tokens bytes.now tokens.now.list.items) (program_of p)) }
    ensures valid { IfOk result (λ p. IsValid (program_of p)) }
    ensures does { IfOk result
        (λ p. DoesAsSource (spec_tokens bytes.now tokens.now.list.items) (program_of p)) }
    ensures fault { IfErr result (IsSourceCause (spec_tokens bytes.now tokens.now.list.items)) }
    ensures place { IfErr result (StopsAtToken source_place bytes.now tokens.now.list.items) }
{
    tv_source_names::one_meaning();
    let source = read_source(alloc, bytes, tokens)?;
    Ok(crate::whole::compile(alloc, &source)?)
}
