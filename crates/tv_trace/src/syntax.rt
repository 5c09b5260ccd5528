//! Tokens to steps whose structures aren't read yet.

ghost use Rattle.std.specs.Prelude.{◌≡◌, codes};
ghost use Rattle.tv_lex.specs.Token.{spec_tokens};
ghost use Rattle.tv_phrases.specs.Reading.{GivesReading};
ghost use Rattle.tv_phrases.specs.Repeated.{begins_with};
ghost use Rattle.tv_trace.specs.Reading.{StepMark, closed_numbers_at, picks_at, passed_at, values_at};
ghost use Rattle.tv_trace.specs.Reading.{step_at, trace_at};
ghost use Rattle.tv_trace.specs.Views.{values_mark, step_mark, step_marks};

use std::alloc::Global;
use tv_lex::Token;
use tv_model::Items;
use tv_phrases::{
    Part, PhraseError, Read, after, all_parts, begins_with, expect, number, optional_numbers,
};
use tv_struct::Numbers;
use tv_tvs::skip_structure;

/// A step, the tokens that it begins with, and those from its structure on, if it has one.
#[derive(Debug, Drop)]
pub(crate) struct StepText<'a> {
    pub here: &'a [Token],
    pub edge: u32,
    pub picks: Numbers,
    pub values: Option<&'a [Token]>,
}

/// Numbers and `)`.
#[tactic(auto, unfolding(crate::specs::Reading::closed_numbers_at))]
fn closed_numbers<'a>(alloc: Global, bytes: &[u8], tokens: &'a [Token]) -> Read<'a, Numbers>
    ensures { GivesReading (λ x. (x.0, spec_tokens bytes.now x.1.now)) result
        (closed_numbers_at (spec_tokens bytes.now tokens.now)) }
{
    let (numbers, end) = optional_numbers(alloc, bytes, tokens)?;
    let rest = expect(bytes, end, b")")?;
    Ok((Items::from_vec(numbers), rest))
}

/// Numbers in parentheses, or nothing.
#[tactic(auto, unfolding(crate::specs::Reading::picks_at))]
fn picks<'a>(alloc: Global, bytes: &[u8], tokens: &'a [Token]) -> Read<'a, Numbers>
    ensures { GivesReading (λ x. (x.0, spec_tokens bytes.now x.1.now)) result
        (picks_at (spec_tokens bytes.now tokens.now)) }
{
    match after(bytes, tokens, b"(") {
        None => Ok((Items::new(alloc), tokens)),
        Some(inside) => closed_numbers(alloc, bytes, inside),
    }
}

/// A structure that is passed over.
#[tactic(auto, unfolding(crate::specs::Reading::passed_at))]
fn passed<'a>(alloc: Global, bytes: &[u8], tokens: &'a [Token]) -> Read<'a, Option<&'a [Token]>>
    ensures { GivesReading (λ x. (values_mark bytes.now x.0, spec_tokens bytes.now x.1.now)) result
        (passed_at (spec_tokens bytes.now tokens.now)) }
{
    let rest = skip_structure(alloc, bytes, tokens)?;
    Ok((Some(tokens), rest))
}

/// `free` and a structure, or nothing.
#[tactic(auto, unfolding(crate::specs::Reading::values_at))]
fn values<'a>(alloc: Global, bytes: &[u8], tokens: &'a [Token]) -> Read<'a, Option<&'a [Token]>>
    ensures { GivesReading (λ x. (values_mark bytes.now x.0, spec_tokens bytes.now x.1.now)) result
        (values_at (spec_tokens bytes.now tokens.now)) }
{
    match after(bytes, tokens, b"free") {
        None => Ok((None, tokens)),
        Some(inside) => passed(alloc, bytes, inside),
    }
}

#[tactic(auto, unfolding(crate::specs::Reading::step_at))]
fn step<'a>(alloc: Global, bytes: &[u8], tokens: &'a [Token]) -> Read<'a, StepText<'a>>
    ensures { GivesReading (λ x. (step_mark bytes.now x.0, spec_tokens bytes.now x.1.now)) result
        (step_at (spec_tokens bytes.now tokens.now)) }
{
    let inside = expect(bytes, tokens, b"step")?;
    let (edge, next) = number(bytes, inside)?;
    let (picks, behind) = picks(alloc, bytes, next)?;
    let (values, rest) = values(alloc, bytes, behind)?;
    let found = StepText {
        here: tokens,
        edge,
        picks,
        values,
    };
    Ok((found, rest))
}

impl<'a> Part<'a> for StepText<'a> {
    ghost Tree = { StepMark };

    ghost starts = { begins_with (codes "step") };

    ghost part_at = { step_at };

    ghost tree = { step_mark };

    fn begins(bytes: &[u8], tokens: &[Token]) -> bool
        ensures { result ≡ begins_with (codes "step") (spec_tokens bytes.now tokens.now) }
    {
        begins_with(bytes, tokens, b"step")
    }

    fn read(alloc: Global, bytes: &[u8], tokens: &'a [Token]) -> Read<'a, StepText<'a>> {
        step(alloc, bytes, tokens)
    }
}

/// The steps of all the tokens.
#[tactic(auto, unfolding(crate::specs::Reading::trace_at))]
pub(crate) fn trace<'a>(
    alloc: Global,
    bytes: &[u8],
    tokens: &'a [Token],
) -> Result<Vec<StepText<'a>>, PhraseError<'a>>
    ensures { GivesReading (λ x. step_marks bytes.now x.items) result
        (trace_at (spec_tokens bytes.now tokens.now)) }
{
    let (list, rest) = all_parts::<StepText<'a>>(alloc, bytes, tokens)?;
    if rest.is_empty() {
        Ok(list)
    } else {
        Err(PhraseError::Unexpected(rest))
    }
}
