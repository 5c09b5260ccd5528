//! Actions, read off the front of tokens: their parts in a loop.

ghost use Rattle.std.specs.Prelude.{◌≡◌, ◌+◌, [], ◌∷◌, length, map, codes};
ghost use Rattle.tv_lex.specs.Token.{spec_tokens};
ghost use Rattle.tv_phrases.specs.Reading.{GivesReading};
ghost use Rattle.tv_tree.specs.Copies.{form_of, piece_of, part_of, action_of};
ghost use Rattle.tv_tree.specs.Forms.{PPre, PRetain};
ghost use Rattle.tv_parse.specs.Kinds.{kind_of, same_kind, has_kind, may_follow};
ghost use Rattle.tv_parse.specs.Reading.{piece_reading, pieces_reading, formulas_reading, caption_part};
ghost use Rattle.tv_parse.specs.Reading.{focus_part, formula_part, message_part, block_part, part_behind};
ghost use Rattle.tv_parse.specs.Reading.{parts, action_reading};
ghost use Rattle.tv_phrases.specs.Repeated.{behind, separated};
ghost use Rattle.tv_formula.specs.Reading.{formula_reading};

use crate::kinds::{PartKind, begins_formula, expect_behind, part_kind};
use crate::updates::{end_in_formula, updates};
use std::alloc::Global;
use tv_formula::{formula, spelling, spellings};
use tv_lex::{Token, text};
use tv_phrases::{
    PhraseError, Read, after, begins_string, below, expect, identifier, params, string, unquoted,
};
use tv_tree::trees::{ActionTree, FormulaTrees, Part, Parts, Piece, Pieces, Spelling};

#[tactic(auto, unfolding(crate::specs::Reading::piece_reading))]
fn piece<'a>(alloc: Global, bytes: &[u8], tokens: &'a [Token]) -> Read<'a, Piece>
    ensures { GivesReading (λ x. (piece_of x.0, spec_tokens bytes.now x.1.now)) result
        (piece_reading (spec_tokens bytes.now tokens.now)) }
{
    if begins_string(bytes, tokens) {
        let (token, rest) = string(bytes, tokens)?;
        let inside = unquoted(text(bytes, &token)).to_vec(alloc)?;
        return Ok((Piece::Text(Spelling(inside)), rest));
    }
    let (word, rest) = identifier(bytes, tokens)?;
    Ok((Piece::Named(spelling(alloc, bytes, &word)?), rest))
}

// Pieces with `+` between them.
#[tactic(auto, using(tv_phrases::proofs::Repeats::joined_start, tv_phrases::proofs::Repeats::no_joined, tv_phrases::proofs::Repeats::joined_end, tv_phrases::proofs::Repeats::joined_break, tv_phrases::proofs::Repeats::many_out))]
fn pieces<'a>(alloc: Global, bytes: &[u8], tokens: &'a [Token]) -> Read<'a, Pieces>
    ensures { GivesReading (λ x. (map piece_of x.0, spec_tokens bytes.now x.1.now)) result
        (pieces_reading (spec_tokens bytes.now tokens.now)) }
{
    let (first, mut rest) = piece(alloc, bytes, tokens)?;
    let mut left = rest.len() + 1;
    let mut list = Vec::new(alloc);
    list.push(first)?;
    'pieces: loop {
        left = below(left, rest)?;
        let Some(next) = after(bytes, rest, b"+") else {
            return Ok((Pieces::from_vec(list), rest));
        };
        let (further, behind) = piece(alloc, bytes, next)?;
        list.push(further)?;
        rest = behind;
    }
}

// Formulas with `,` between them.
#[tactic(auto, using(tv_phrases::proofs::Repeats::joined_start, tv_phrases::proofs::Repeats::no_joined, tv_phrases::proofs::Repeats::joined_end, tv_phrases::proofs::Repeats::joined_break, tv_phrases::proofs::Repeats::many_out))]
fn some_formulas<'a>(alloc: Global, bytes: &[u8], tokens: &'a [Token]) -> Read<'a, FormulaTrees>
    ensures { GivesReading (λ x. (map form_of x.0, spec_tokens bytes.now x.1.now)) result
        (separated (codes ",") formula_reading (spec_tokens bytes.now tokens.now)) }
{
    let (first, mut rest) = formula(alloc, bytes, tokens)?;
    let mut left = rest.len() + 1;
    let mut list = Vec::new(alloc);
    list.push(first)?;
    'formulas: loop {
        left = below(left, rest)?;
        let Some(next) = after(bytes, rest, b",") else {
            return Ok((FormulaTrees::from_vec(list), rest));
        };
        let (further, behind) = formula(alloc, bytes, next)?;
        list.push(further)?;
        rest = behind;
    }
}

#[tactic(auto, unfolding(crate::specs::Reading::formulas_reading))]
fn formulas<'a>(alloc: Global, bytes: &[u8], tokens: &'a [Token]) -> Read<'a, FormulaTrees>
    ensures { GivesReading (λ x. (map form_of x.0, spec_tokens bytes.now x.1.now)) result
        (formulas_reading (spec_tokens bytes.now tokens.now)) }
{
    if begins_formula(bytes, tokens) {
        some_formulas(alloc, bytes, tokens)
    } else {
        Ok((FormulaTrees::new(alloc), tokens))
    }
}

#[tactic(auto, unfolding(crate::specs::Reading::caption_part))]
fn caption<'a>(alloc: Global, bytes: &[u8], tokens: &'a [Token]) -> Read<'a, Part>
    ensures { GivesReading (λ x. (part_of x.0, spec_tokens bytes.now x.1.now)) result
        (caption_part (spec_tokens bytes.now tokens.now)) }
{
    let (text, rest) = pieces(alloc, bytes, tokens)?;
    Ok((Part::Caption(text), rest))
}

#[tactic(auto, unfolding(crate::specs::Reading::focus_part))]
fn focus<'a>(alloc: Global, bytes: &[u8], tokens: &'a [Token]) -> Read<'a, Part>
    ensures { GivesReading (λ x. (part_of x.0, spec_tokens bytes.now x.1.now)) result
        (focus_part (spec_tokens bytes.now tokens.now)) }
{
    let inside = expect(bytes, tokens, b"{")?;
    let (list, end) = formulas(alloc, bytes, inside)?;
    let rest = expect_behind(bytes, end, b"}", list.len() > 0)?;
    Ok((Part::Focus(list), rest))
}

#[tactic(auto, unfolding(crate::specs::Reading::formula_part))]
fn precondition<'a>(alloc: Global, bytes: &[u8], tokens: &'a [Token]) -> Read<'a, Part>
    ensures { GivesReading (λ x. (part_of x.0, spec_tokens bytes.now x.1.now)) result
        (formula_part PPre (spec_tokens bytes.now tokens.now)) }
{
    let (test, rest) = formula(alloc, bytes, tokens)?;
    Ok((Part::Pre(test), rest))
}

#[tactic(auto, unfolding(crate::specs::Reading::formula_part))]
fn retain<'a>(alloc: Global, bytes: &[u8], tokens: &'a [Token]) -> Read<'a, Part>
    ensures { GivesReading (λ x. (part_of x.0, spec_tokens bytes.now x.1.now)) result
        (formula_part PRetain (spec_tokens bytes.now tokens.now)) }
{
    let (keep, rest) = formula(alloc, bytes, tokens)?;
    Ok((Part::Retain(keep), rest))
}

#[tactic(auto, unfolding(crate::specs::Reading::message_part))]
fn message<'a>(alloc: Global, bytes: &[u8], tokens: &'a [Token]) -> Read<'a, Part>
    ensures { GivesReading (λ x. (part_of x.0, spec_tokens bytes.now x.1.now)) result
        (message_part (spec_tokens bytes.now tokens.now)) }
{
    let (cond, end) = formula(alloc, bytes, tokens)?;
    let behind = expect(bytes, end, b"->")?;
    string(bytes, behind)?;
    let (text, rest) = pieces(alloc, bytes, behind)?;
    Ok((Part::Message { cond, text }, rest))
}

#[tactic(auto, using(tv_tree::proofs::Unfolds::updates_of_items), unfolding(crate::specs::Reading::block_part))]
fn block<'a>(alloc: Global, bytes: &[u8], tokens: &'a [Token]) -> Read<'a, Part>
    ensures { GivesReading (λ x. (part_of x.0, spec_tokens bytes.now x.1.now)) result
        (block_part (spec_tokens bytes.now tokens.now)) }
{
    let (list, end) = updates(alloc, bytes, tokens)?;
    let rest = expect_behind(bytes, end, b"}", end_in_formula(&list))?;
    Ok((Part::Block(list), rest))
}

// A part from behind its first token.
fn part_behind<'a>(
    alloc: Global,
    bytes: &[u8],
    kind: PartKind,
    tokens: &'a [Token],
) -> Read<'a, Part>
    ensures { GivesReading (λ x. (part_of x.0, spec_tokens bytes.now x.1.now)) result
        (part_behind kind (spec_tokens bytes.now tokens.now)) }
{
    match kind {
        PartKind::Caption => caption(alloc, bytes, tokens),
        PartKind::Focus => focus(alloc, bytes, tokens),
        PartKind::Pre => precondition(alloc, bytes, tokens),
        PartKind::Message => message(alloc, bytes, tokens),
        PartKind::New => Ok((Part::New, tokens)),
        PartKind::Retain => retain(alloc, bytes, tokens),
        PartKind::Block => block(alloc, bytes, tokens),
    }
}

fn kind_of(part: &Part) -> PartKind
    ensures { result ≡ kind_of (part_of part.now) }
{
    match part {
        Part::Caption(_) => PartKind::Caption,
        Part::Focus(_) => PartKind::Focus,
        Part::Pre(_) => PartKind::Pre,
        Part::Message { .. } => PartKind::Message,
        Part::New => PartKind::New,
        Part::Retain(_) => PartKind::Retain,
        Part::Block(_) => PartKind::Block,
    }
}

fn same_kind(kind: PartKind, other: PartKind) -> bool
    ensures { result ≡ same_kind kind other }
{
    match kind {
        PartKind::Caption => matches!(other, PartKind::Caption),
        PartKind::Focus => matches!(other, PartKind::Focus),
        PartKind::Pre => matches!(other, PartKind::Pre),
        PartKind::Message => matches!(other, PartKind::Message),
        PartKind::New => matches!(other, PartKind::New),
        PartKind::Retain => matches!(other, PartKind::Retain),
        PartKind::Block => matches!(other, PartKind::Block),
    }
}

#[tactic(auto, using(crate::proofs::Lists::kind_step, crate::proofs::Lists::kind_found, crate::proofs::Lists::kind_none))]
fn has_kind(parts: &[Part], kind: PartKind) -> bool
    ensures { result ≡ has_kind kind (map part_of parts.now) }
{
    for part in parts {
        if same_kind(kind, kind_of(part)) {
            return true;
        }
    }
    false
}

// Messages stand any number of times, and the other parts once. At most six parts are no messages, so few
// walks go along the parts.
fn may_follow(before: &[Part], kind: PartKind) -> bool
    ensures { result ≡ may_follow (map part_of before.now) kind }
{
    same_kind(PartKind::Message, kind) || !has_kind(before, kind)
}

#[tactic(auto, using(crate::proofs::Lists::parts_end, crate::proofs::Lists::parts_again, crate::proofs::Lists::parts_break, crate::proofs::Lists::parts_out))]
fn parts<'a>(alloc: Global, bytes: &[u8], tokens: &'a [Token]) -> Read<'a, Parts>
    ensures { GivesReading (λ x. (map part_of x.0, spec_tokens bytes.now x.1.now)) result
        (parts (length (spec_tokens bytes.now tokens.now) + 1) [] (spec_tokens bytes.now tokens.now)) }
{
    let mut list = Vec::new(alloc);
    let mut left = tokens.len() + 1;
    let mut rest = tokens;
    'parts: loop {
        left = below(left, rest)?;
        let Some((kind, next)) = part_kind(bytes, rest) else {
            return Ok((Parts::from_vec(list), rest));
        };
        if !may_follow(&list, kind) {
            return Err(PhraseError::Unexpected(rest));
        }
        let (part, behind) = part_behind(alloc, bytes, kind, next)?;
        list.push(part)?;
        rest = behind;
    }
}

// Whether the last of the parts ends in a formula.
fn last_is_formula(parts: &Parts) -> bool {
    matches!(
        parts.as_slice().last(),
        Some(Part::Pre(_) | Part::Retain(_))
    )
}

/// An action, and the tokens behind it.
#[tactic(auto, unfolding(crate::specs::Reading::action_reading))]
pub fn action<'a>(alloc: Global, bytes: &[u8], tokens: &'a [Token]) -> Read<'a, ActionTree>
    ensures { GivesReading (λ x. (action_of x.0, spec_tokens bytes.now x.1.now)) result
        (action_reading (spec_tokens bytes.now tokens.now)) }
{
    let next = expect(bytes, tokens, b"%action")?;
    let (word, behind) = identifier(bytes, next)?;
    let (words, head) = params(alloc, bytes, behind)?;
    let inside = expect(bytes, head, b"{")?;
    let (parts, end) = parts(alloc, bytes, inside)?;
    let rest = expect_behind(bytes, end, b"}", last_is_formula(&parts))?;
    let name = spelling(alloc, bytes, &word)?;
    let params = spellings(alloc, bytes, &words)?;
    Ok((
        ActionTree {
            name,
            params,
            parts,
        },
        rest,
    ))
}
