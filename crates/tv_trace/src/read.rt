//! Texts of traces to traces.

ghost use Rattle.std.specs.Prelude.{◌≡◌, ◌≤◌, All, IfOk, IfErr, IfSome, length, nat_lt};
ghost use Rattle.tv_lex.specs.Places.{StopsAtToken};
ghost use Rattle.tv_lex.specs.Pieces.{AreInOrder};
ghost use Rattle.tv_lex.specs.Token.{spec_tokens};
ghost use Rattle.tv_model.specs.Program.{program_of};
ghost use Rattle.tv_model.specs.Valid.{IsValid};
ghost use Rattle.tv_phrases.specs.Reading.{GivesReading, Told};
ghost use Rattle.tv_tvs.specs.Targets.{IsRead};
ghost use Rattle.tv_phrases.specs.Refused.{IsUnread, form_place};
ghost use Rattle.tv_trace.specs.Meaning.{IsTraceOn, IsMoveOn, MeansTrace, IsNoTrace};
ghost use Rattle.tv_trace.specs.Reading.{structure_meant, values_meant, move_meant, moves_meant};
ghost use Rattle.tv_trace.specs.Views.{values_mark, step_mark, step_marks};

use crate::syntax::{StepText, trace};
use crate::trace::{Move, Moves, Trace};
use std::alloc::Global;
use tv_lex::{Token, Tokens, stop_place};
use tv_model::{Items, Program};
use tv_phrases::{FormError, PhraseError};
use tv_struct::Structure;
use tv_tvs::StructureReader;

/// The structure that begins the tokens. One that is refused is told of by the tokens of its step.
#[tactic(auto, unfolding(crate::specs::Reading::structure_meant))]
fn structure<'a>(
    alloc: Global,
    reader: &StructureReader<'_>,
    bytes: &[u8],
    tokens: &[Token],
    step: &'a [Token],
) -> Result<Structure, PhraseError<'a>>
    ensures value { GivesReading (λ s. s) result
        (structure_meant reader.now (spec_tokens bytes.now tokens.now)) }
    ensures kept { IfOk result (IsRead reader.now) }
{
    match reader.take_structure(alloc, bytes, tokens) {
        Ok((found, _)) => Ok(found),
        Err(PhraseError::Memory) => Err(PhraseError::Memory),
        Err(PhraseError::Unexpected(_)) => Err(PhraseError::Unexpected(step)),
    }
}

/// The structure of a step, if it has one.
#[tactic(auto, unfolding(crate::specs::Reading::values_meant))]
fn values<'a>(
    alloc: Global,
    reader: &StructureReader<'_>,
    bytes: &[u8],
    tokens: Option<&[Token]>,
    step: &'a [Token],
) -> Result<Option<Structure>, PhraseError<'a>>
    ensures value { GivesReading (λ v. v) result
        (values_meant reader.now (values_mark bytes.now tokens.entry)) }
    ensures kept { IfOk result (λ v. IfSome v (IsRead reader.now)) }
{
    match tokens {
        None => Ok(None),
        Some(tokens) => {
            let found = structure(alloc, reader, bytes, tokens, step)?;
            Ok(Some(found))
        }
    }
}

/// Whether the program has an edge of that number.
fn is_edge(program: &Program, edge: u32) -> bool
    ensures { result ≡ nat_lt edge (length program.now.edges) }
{
    (edge as usize) < program.edges.len()
}

/// The move of a step: its edge is the program's, and its structure is read.
#[tactic(auto, unfolding(crate::specs::Reading::move_meant))]
fn one_move<'a>(
    alloc: Global,
    program: &Program,
    reader: &StructureReader<'_>,
    bytes: &[u8],
    step: StepText<'a>,
) -> Result<Move, PhraseError<'a>>
    ensures value { GivesReading (λ m. m) result
        (move_meant program.now reader.now (step_mark bytes.now step.entry)) }
    ensures kept { IfOk result (IsMoveOn program.now reader.now) }
{
    let StepText {
        here,
        edge,
        picks,
        values: tokens,
    } = step;
    if !is_edge(program, edge) {
        return Err(PhraseError::Unexpected(here));
    }
    let values = values(alloc, reader, bytes, tokens, here)?;
    Ok(Move {
        edge,
        picks,
        values,
    })
}

/// The moves of the steps, in order.
fn moves<'a>(
    alloc: Global,
    program: &Program,
    reader: &StructureReader<'_>,
    bytes: &[u8],
    steps: Vec<StepText<'a>>,
) -> Result<Moves, PhraseError<'a>>
    ensures value { GivesReading (λ ms. ms) result
        (moves_meant program.now reader.now (step_marks bytes.now steps.entry.items)) }
    ensures kept { IfOk result (All (IsMoveOn program.now reader.now)) }
{
    let mut moves = Items::new(alloc);
    for step in steps {
        let found = one_move(alloc, program, reader, bytes, step)?;
        moves.push(found)?;
    }
    Ok(moves)
}

/// The trace that the tokens mean: their grammar first, then the steps in order.
fn trace_of<'a>(
    alloc: Global,
    program: &Program,
    bytes: &[u8],
    tokens: &'a [Token],
) -> Result<Trace, PhraseError<'a>>
    requires valid { IsValid (program_of program.now) }
    ensures meant { IfOk result (MeansTrace program.now (spec_tokens bytes.now tokens.now)) }
    ensures kept { IfOk result (IsTraceOn program.now) }
    ensures fault { IfErr result (λ e. Told e (IsNoTrace program.now (spec_tokens bytes.now tokens.now))) }
{
    let steps = trace(alloc, bytes, tokens)?;
    let reader = StructureReader::new(alloc, &program.vocab)?;
    let moves = moves(alloc, program, &reader, bytes, steps)?;
    Ok(Trace { moves })
}

/// The trace that a text on the program means. `tokens` are those of `bytes`. The grammar of the whole
/// text is read first, then its steps in order. No individual of a structure is marked as fresh.
///
/// # Errors
/// `Form` where the tokens are no trace on the program, with the place of the start of a token or of
/// the end of the text; `Memory` where there was none for the trace.
pub fn read_trace(
    alloc: Global,
    program: &Program,
    bytes: &[u8],
    tokens: &Tokens,
) -> Result<Trace, FormError>
    requires valid { IsValid (program_of program.now) }
    requires size { length bytes.now ≤ 67108864 }
    requires order { AreInOrder 0 tokens.now.list.items (length bytes.now) }
    ensures meant { IfOk result (MeansTrace program.now (spec_tokens bytes.now tokens.now.list.items)) }
    ensures kept { IfOk result (IsTraceOn program.now) }
    ensures fault { IfErr result
        (IsUnread (IsNoTrace program.now (spec_tokens bytes.now tokens.now.list.items))) }
    ensures place { IfErr result (StopsAtToken form_place bytes.now tokens.now.list.items) }
{
    let list = tokens.list.as_slice();
    match trace_of(alloc, program, bytes, list) {
        Ok(found) => Ok(found),
        Err(PhraseError::Unexpected(rest)) => {
            Err(FormError::Form(stop_place(bytes, list, rest)))
        }
        Err(PhraseError::Memory) => Err(FormError::Memory),
    }
}
