//! Texts of structures to structures.

ghost use Rattle.std.specs.Prelude.{◌≡◌, ◌≤◌, All, IfOk, IfErr, Result, Ok, None, drop, length, ◌<◌, ◌-◌};
ghost use Rattle.std.specs.Result.{result_ok};
ghost use Rattle.tv_lex.specs.Pieces.{AreInOrder};
ghost use Rattle.tv_lex.specs.Places.{IsTokenPlace, StopsAtToken};
ghost use Rattle.tv_lex.specs.Token.{spec_tokens};
ghost use Rattle.tv_model.specs.declared.program.Vocab.{Vocab};
ghost use Rattle.tv_phrases.specs.Reading.{GivesReading};
ghost use Rattle.tv_structure_form.specs.StructureForm.{StructureForm, IsOver, IsStructure};
ghost use Rattle.tv_tvs.specs.Meaning.{IsVocabulary, MeansStructs, MeansStruct, IsStructuresCause};
ghost use Rattle.tv_tvs.specs.Meaning.{IsCauseOfOne, Refused, Answers, structures_place};
ghost use Rattle.tv_tvs.specs.Reading.{struct_end, structure_at};
ghost use Rattle.tv_tvs.specs.Targets.{IsRead};
ghost use Rattle.tv_tvs.specs.declared.error.TvsError.{TvsError};

use crate::error::TvsError;
use crate::names::{NameSet, predicate_names};
use crate::{build, syntax};
use std::alloc::{AllocError, Global};
use std::marker::Model;
use tv_lex::{Place, Token, Tokens, place};
use tv_model::Vocab;
use tv_phrases::PhraseError;
use tv_struct::{Structure, Structures};

/// A structure that was read off the front of tokens.
#[derive(Debug, Drop)]
pub struct OneRead {
    pub found: Structure,
    /// The number of the token behind it.
    pub next: u32,
}

/// Where the reading of these tokens stopped: `rest` are the last of them, which it left. It is the place of
/// the first of these, or of the end of the text where none is left.
#[tactic(auto, using(crate::proofs::Stops::start_place, tv_lex::proofs::PlaceLemmas::end_place))]
fn stop_of(bytes: &[u8], tokens: &[Token], rest: &[Token]) -> Place
    requires { length bytes.now ≤ 67108864 }
    ensures { IsTokenPlace bytes.now tokens.now result }
{
    let read = tokens.len().saturating_sub(rest.len());
    match tokens.get(read) {
        Some(token) => place(bytes, bytes.len().min(token.start as usize)),
        None => place(bytes, bytes.len()),
    }
}

fn refusal(bytes: &[u8], tokens: &[Token], fault: PhraseError<'_>) -> TvsError
    requires { length bytes.now ≤ 67108864 }
    ensures refused { Refused fault.entry result }
    ensures place { StopsAtToken structures_place bytes.now tokens.now result }
{
    match fault {
        PhraseError::Unexpected(rest) => TvsError::Syntax(stop_of(bytes, tokens, rest)),
        PhraseError::Memory => TvsError::Memory,
    }
}

/// The tokens from a number on.
fn behind(tokens: &[Token], at: u32) -> &[Token]
    ensures { result.now ≡ drop at tokens.now }
{
    &tokens[tokens.len().min(at as usize)..]
}

/// How many tokens stand before these last ones.
fn count_before(tokens: &[Token], rest: &[Token]) -> u32
    requires end { length rest.now ≤ length tokens.now }
    requires size { length tokens.now ≤ 67108864 }
    ensures { result ≡ length tokens.now - length rest.now }
{
    (tokens.len() - rest.len()) as u32
}

/// The tokens behind the structure that begins these. What it means isn't looked at.
#[tactic(auto, unfolding(crate::specs::Reading::struct_end))]
pub fn skip_structure<'t>(
    alloc: Global,
    bytes: &[u8],
    tokens: &'t [Token],
) -> Result<&'t [Token], PhraseError<'t>>
    ensures { GivesReading (λ rest. spec_tokens bytes.now rest.now) result
        (struct_end (spec_tokens bytes.now tokens.now)) }
{
    let (_, rest) = syntax::structure(alloc, bytes, tokens)?;
    Ok(rest)
}

/// A structure that its text means, or else the tokens where it stands.
fn or_unexpected<'t>(
    found: Result<Structure, TvsError>,
    tokens: &'t [Token],
) -> Result<Structure, PhraseError<'t>>
    ensures meant { (meaning : Result StructureForm TvsError) → Answers (λ s. s) found meaning
        → GivesReading (λ s. s) result (result_ok meaning) }
    ensures over { (vocab : Vocab) → IfOk found (IsRead vocab) → IfOk result (IsRead vocab) }
{
    match found {
        Ok(s) => Ok(s),
        Err(TvsError::Memory) => Err(PhraseError::Memory),
        Err(_) => Err(PhraseError::Unexpected(tokens)),
    }
}

/// A reader of structures over one vocabulary, whose names it has looked up once.
#[derive(Drop)]
pub struct StructureReader<'a> {
    vocab: &'a Vocab,
    names: NameSet<'a>,
}

impl<'a> Model for StructureReader<'a> {
    ghost use Rattle.std.specs.Prelude.{◌≡◌, map};
    ghost use Rattle.std.specs.Coded.{codes};
    ghost use Rattle.tv_model.specs.contracts.formula.Formula as formula;
    ghost use Rattle.tv_model.specs.declared.program.Vocab.{Vocab};
    ghost use Rattle.tv_tvs.specs.Meaning.{IsVocabulary};
    ghost use Rattle.tv_tree.specs.Names.{names_of};

    ghost Value = { Vocab };

    ghost coded = { Prim.hlevel (codes, formula.the_row.coded) };

    ghost view = { λ r. r.vocab.now };

    ghost invariant = { λ r. IsVocabulary r.vocab.now
        × (names_of r.names.keys ≡ map (λ pred. pred.name) r.vocab.now.preds) };
}

impl<'a> StructureReader<'a> {
    /// The reader over the vocabulary. A contract sees it as the vocabulary.
    pub fn new(alloc: Global, vocab: &'a Vocab) -> Result<Self, AllocError>
        requires { IsVocabulary vocab.now }
        ensures { IfOk result (λ reader. reader ≡ vocab.now) }
    {
        let names = predicate_names(alloc, vocab.preds.as_slice())?;
        Ok(StructureReader { vocab, names })
    }

    /// The structures of all the tokens of a text of at most 67,108,864 bytes, over the vocabulary.
    /// An item without a value has the value 1, a tuple that isn't listed has 0, and of several values
    /// for one tuple the last counts. Individuals are numbered in the order in which they are listed. No
    /// individual is marked as fresh.
    fn read_tvs(&self, alloc: Global, bytes: &[u8], tokens: &Tokens) -> Result<Structures, TvsError>
        requires size { length bytes.now ≤ 67108864 }
        ensures meant { IfOk result
            (λ ss. MeansStructs self.now (spec_tokens bytes.now tokens.now.list.items) (Ok ss)) }
        ensures over { IfOk result (All (λ s. IsOver self.now s × (s.fresh ≡ None))) }
        ensures kept { IfOk result (All IsStructure) }
        ensures fault { IfErr result
            (IsStructuresCause self.now (spec_tokens bytes.now tokens.now.list.items)) }
        ensures place { IfErr result (StopsAtToken structures_place bytes.now tokens.now.list.items) }
    {
        match syntax::structures(alloc, bytes, tokens.list.as_slice()) {
            Err(fault) => Err(refusal(bytes, tokens.list.as_slice(), fault)),
            Ok(trees) => build::structures(alloc, self.vocab, &self.names, bytes, trees.as_slice()),
        }
    }

    /// The structure that begins the tokens, read as `read_tvs` reads each, and the tokens behind it. Where
    /// one begins them but means none, they are what is refused.
    #[tactic(auto, unfolding(crate::specs::Reading::structure_at))]
    pub fn take_structure<'t>(
        &self,
        alloc: Global,
        bytes: &[u8],
        tokens: &'t [Token],
    ) -> Result<(Structure, &'t [Token]), PhraseError<'t>>
        ensures value { GivesReading (λ x. (x.0, spec_tokens bytes.now x.1.now)) result
            (structure_at self.now (spec_tokens bytes.now tokens.now)) }
        ensures over { IfOk result (λ x. IsOver self.now x.0 × (x.0.fresh ≡ None)) }
        ensures kept { IfOk result (λ x. IsStructure x.0) }
    {
        let (tree, rest) = syntax::structure(alloc, bytes, tokens)?;
        let found = build::structure(alloc, self.vocab, &self.names, bytes, &tree);
        let s = or_unexpected(found, tokens)?;
        Ok((s, rest))
    }

    /// The structure that begins at the token `at`, read as `read_tvs` reads each, and the number of the
    /// token behind it. Whatever stands there isn't looked at. Where `at` is past the tokens, nothing
    /// begins there.
    fn read_one(
        &self,
        alloc: Global,
        bytes: &[u8],
        tokens: &Tokens,
        at: u32,
    ) -> Result<OneRead, TvsError>
        requires size { length bytes.now ≤ 67108864 }
        requires order { AreInOrder 0 tokens.now.list.items (length bytes.now) }
        ensures meant { IfOk result
            (λ one. MeansStruct self.now (drop at (spec_tokens bytes.now tokens.now.list.items))
            (drop one.next (spec_tokens bytes.now tokens.now.list.items)) (Ok one.found)) }
        ensures next { IfOk result (λ one. (at < one.next) × (one.next ≤ length tokens.now.list.items)) }
        ensures over { IfOk result (λ one. IsOver self.now one.found × (one.found.fresh ≡ None)) }
        ensures kept { IfOk result (λ one. IsStructure one.found) }
        ensures fault { IfErr result
            (IsCauseOfOne self.now (drop at (spec_tokens bytes.now tokens.now.list.items))) }
        ensures place { IfErr result (StopsAtToken structures_place bytes.now tokens.now.list.items) }
    {
        let list = tokens.list.as_slice();
        let here = behind(list, at);
        match syntax::structure(alloc, bytes, here) {
            Err(fault) => Err(refusal(bytes, list, fault)),
            Ok((tree, rest)) => {
                let found = build::structure(alloc, self.vocab, &self.names, bytes, &tree)?;
                let next = count_before(list, rest);
                Ok(OneRead { found, next })
            }
        }
    }
}

/// The structures of all the tokens of a text, as a `StructureReader` over the vocabulary reads them.
pub fn read_tvs(
    alloc: Global,
    vocab: &Vocab,
    bytes: &[u8],
    tokens: &Tokens,
) -> Result<Structures, TvsError>
    requires vocabulary { IsVocabulary vocab.now }
    requires size { length bytes.now ≤ 67108864 }
    ensures meant { IfOk result
        (λ ss. MeansStructs vocab.now (spec_tokens bytes.now tokens.now.list.items) (Ok ss)) }
    ensures over { IfOk result (All (λ s. IsOver vocab.now s × (s.fresh ≡ None))) }
    ensures kept { IfOk result (All IsStructure) }
    ensures fault { IfErr result (IsStructuresCause vocab.now (spec_tokens bytes.now tokens.now.list.items)) }
    ensures place { IfErr result (StopsAtToken structures_place bytes.now tokens.now.list.items) }
{
    StructureReader::new(alloc, vocab)?.read_tvs(alloc, bytes, tokens)
}

/// The structure that begins at the token `at`, as a `StructureReader` over the vocabulary reads it. A caller
/// that reads more than one makes a `StructureReader` once.
pub fn read_one(
    alloc: Global,
    vocab: &Vocab,
    bytes: &[u8],
    tokens: &Tokens,
    at: u32,
) -> Result<OneRead, TvsError>
    requires vocabulary { IsVocabulary vocab.now }
    requires size { length bytes.now ≤ 67108864 }
    requires order { AreInOrder 0 tokens.now.list.items (length bytes.now) }
    ensures meant { IfOk result
        (λ one. MeansStruct vocab.now (drop at (spec_tokens bytes.now tokens.now.list.items))
        (drop one.next (spec_tokens bytes.now tokens.now.list.items)) (Ok one.found)) }
    ensures next { IfOk result (λ one. (at < one.next) × (one.next ≤ length tokens.now.list.items)) }
    ensures over { IfOk result (λ one. IsOver vocab.now one.found × (one.found.fresh ≡ None)) }
    ensures kept { IfOk result (λ one. IsStructure one.found) }
    ensures fault { IfErr result
        (IsCauseOfOne vocab.now (drop at (spec_tokens bytes.now tokens.now.list.items))) }
    ensures place { IfErr result (StopsAtToken structures_place bytes.now tokens.now.list.items) }
{
    StructureReader::new(alloc, vocab)?.read_one(alloc, bytes, tokens, at)
}
