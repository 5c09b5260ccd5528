//! The text of structures with what it lacks put in.

ghost use Rattle.std.specs.Prelude.{ℕ, ◌≡◌, ◌≤◌, ◌++◌, List, slice_get, Ok, None, All, OnOk, IfOk, IfErr};
ghost use Rattle.std.specs.Prelude.{length, map};
ghost use Rattle.std.specs.Prelude.{take, drop};
ghost use Rattle.tv_lex.specs.Bytes.{longest_text};
ghost use Rattle.tv_lex.specs.Token.{spec_tokens};
ghost use Rattle.tv_model.specs.Program.{program_of, pred_of};
ghost use Rattle.tv_model.specs.Valid.{IsValid};
ghost use Rattle.tv_structure_form.specs.StructureForm.{IsOver};
ghost use Rattle.tv_tvs.specs.Meaning.{MeansStructs};
ghost use Rattle.tv_complete_text.specs.Named.{named_form};
ghost use Rattle.tv_complete_text.specs.Lines.{put_lines};
ghost use Rattle.tv_complete_text.specs.Text.{start_of, front_of, place_in_rest, woven, AreCompleted};
ghost use Rattle.tv_complete_text.specs.Text.{IsCompletion};
ghost use Rattle.tv_complete_text.specs.Text.{IsCompletedText, IsCauseOfNone};

use crate::error::CompletionError;
use crate::lines::{Completed, lines_place};
use crate::named::{NamedText, named_structures};
use crate::read_again::is_read_as;
use std::alloc::{AllocError, Global};
use tv_complete::complete;
use tv_lex::{MAX_TEXT, Token, Tokens};
use tv_model::{Items, Program};
use tv_struct::{Structure, Structures};
use tv_tvs::valid_programs_fit;

/// The structures, each completed.
fn all_completed(
    alloc: Global,
    program: &Program,
    named: &[NamedText],
    given: &[Structure],
) -> Result<Structures, AllocError>
    requires valid { IsValid (program_of program.now) }
    requires over { All (λ s. IsOver program.now.vocab s × (s.fresh ≡ None)) given.now }
    requires count { length named.now ≡ length given.now }
    ensures completes { IfOk result (λ ts. (bytes : List ℕ)
        → AreCompleted (program_of program.now) (map (named_form bytes) named.now) given.now ts) }
    ensures over { IfOk result (All (λ t. IsOver program.now.vocab t × (t.fresh ≡ None))) }
    ensures count { IfOk result (λ ts. length ts ≡ length given.now) }
{
    let mut list = Vec::new(alloc);
    for k in 0..given.len() {
        list.push(complete(alloc, program, &named[k].names, &given[k])?)?;
    }
    Ok(Items::from_vec(list))
}

fn start_at(tokens: &[Token], place: usize) -> usize
    ensures { result ≡ start_of (slice_get tokens.now place) }
{
    match tokens.get(place) {
        Some(token) => token.start as usize,
        None => 0,
    }
}

/// What stands in front of the closing brace of a structure, of which so many tokens stand behind it.
#[tactic(auto, using(std::proofs::lemmas::List::take_min))]
fn front_of<'a>(bytes: &'a [u8], tokens: &[Token], behind: usize) -> &'a [u8]
    ensures { result.now ≡ front_of bytes.now tokens.now behind }
{
    let place = tokens.len().saturating_sub(behind).saturating_sub(1);
    &bytes[..start_at(tokens, place).min(bytes.len())]
}

/// A text of structures over the vocabulary of a program.
#[derive(Clone, Copy)]
struct Source<'a> {
    alloc: Global,
    program: &'a Program,
    bytes: &'a [u8],
    tokens: &'a [Token],
}

impl<'a> Source<'a> {
    /// How much of the rest of the text stands in front of what is put in behind `front`.
    fn place_in(&self, rest: &[u8], front: &[u8]) -> usize
        requires { length rest.now ≤ length self.now.bytes.now }
        ensures { result ≡ place_in_rest self.now.bytes.now rest.now front.now }
    {
        lines_place(front).saturating_sub(self.bytes.len() - rest.len())
    }

    /// Puts the text up to the place for a structure's lines, and these. The rest of the text is left.
    fn put_next<'t>(
        &self,
        out: &mut Vec<u8>,
        rest: &'t [u8],
        named: &NamedText,
        t: &Structure,
    ) -> Result<&'t [u8], AllocError>
        requires valid { IsValid (program_of self.now.program.now) }
        requires over { IsOver self.now.program.now.vocab t.now }
        requires rest { length rest.now ≤ length self.now.bytes.now }
        ensures text { OnOk result (out.new.items ≡ out.old.items
            ++ (take (place_in_rest self.now.bytes.now rest.now
            (front_of self.now.bytes.now self.now.tokens.now named.now.behind)) rest.now
            ++ put_lines (program_of self.now.program.now).preds
            (front_of self.now.bytes.now self.now.tokens.now named.now.behind)
            (named_form self.now.bytes.now named.now) t.now)) }
        ensures rest { IfOk result (λ left. left.now ≡ drop (place_in_rest self.now.bytes.now rest.now
            (front_of self.now.bytes.now self.now.tokens.now named.now.behind)) rest.now) }
    {
        let front = front_of(self.bytes, self.tokens, named.behind);
        let at = self.place_in(rest, front).min(rest.len());
        let completed = Completed {
            alloc: self.alloc,
            bytes: self.bytes,
            named,
            t,
        };
        valid_programs_fit();
        let lines = completed.put_lines(front, self.program.vocab.preds.as_slice())?;
        out.extend_from_slice(&rest[..at])?;
        out.extend_from_slice(&lines)?;
        Ok(&rest[at..])
    }

    /// The text, with the lines of the completed structures put in.
    fn woven(&self, named: &[NamedText], completed: &[Structure]) -> Result<Vec<u8>, AllocError>
        requires valid { IsValid (program_of self.now.program.now) }
        requires over { All (λ t. IsOver self.now.program.now.vocab t × (t.fresh ≡ None)) completed.now }
        requires count { length named.now ≡ length completed.now }
        ensures { IfOk result (λ text. text.items ≡ woven (program_of self.now.program.now).preds
            self.now.bytes.now self.now.tokens.now self.now.bytes.now
            (map (named_form self.now.bytes.now) named.now) completed.now) }
    {
        let mut out = Vec::new(self.alloc);
        let mut rest = self.bytes;
        for k in 0..completed.len() {
            rest = self.put_next(&mut out, rest, &named[k], &completed[k])?;
        }
        out.extend_from_slice(rest)?;
        Ok(out)
    }
}

/// Completed structures, and the text with what it lacks put in.
#[derive(Drop)]
struct Finished {
    structures: Structures,
    text: Vec<u8>,
}

fn completion(
    alloc: Global,
    program: &Program,
    bytes: &[u8],
    tokens: &[Token],
    given: &[Structure],
) -> Result<Finished, AllocError>
    requires valid { IsValid (program_of program.now) }
    requires means { MeansStructs program.now.vocab (spec_tokens bytes.now tokens.now) (Ok given.now) }
    requires over { All (λ s. IsOver program.now.vocab s × (s.fresh ≡ None)) given.now }
    ensures is { IfOk result (λ x. IsCompletion program.now bytes.now tokens.now given.now
        x.structures x.text.items) }
    ensures unmarked { IfOk result (λ x. All (λ t. t.fresh ≡ None) x.structures) }
{
    let named = named_structures(alloc, bytes, tokens)?;
    let structures = all_completed(alloc, program, &named, given)?;
    let source = Source {
        alloc,
        program,
        bytes,
        tokens,
    };
    let text = source.woven(&named, structures.as_slice())?;
    Ok(Finished { structures, text })
}

/// The text of structures with what it lacks put in: in front of the brace that closes a structure a line for
/// each defined predicate that the structure doesn't name and that isn't 0 everywhere, with the values of its
/// definition. Everything else stays as it is. The text is read again, and it is given only where it means
/// the completed structures.
///
/// # Errors
/// `TooLong` where the text has more bytes than a file may have that is read as structures; `Differs` where
/// it doesn't mean the completed structures; `Memory` where memory ran out.
#[tactic(auto, using(crate::proofs::Weaving::given_text, crate::proofs::Weaving::too_long, crate::proofs::Weaving::differs))]
pub fn completed_text(
    alloc: Global,
    program: &Program,
    bytes: &[u8],
    tokens: &Tokens,
    given: &Structures,
) -> Result<Vec<u8>, CompletionError>
    requires valid { IsValid (program_of program.now) }
    requires means { MeansStructs program.now.vocab (spec_tokens bytes.now tokens.now.list.items)
        (Ok given.now) }
    requires over { All (λ s. IsOver program.now.vocab s × (s.fresh ≡ None)) given.now }
    ensures text { IfOk result (λ text. IsCompletedText program.now bytes.now tokens.now.list.items
        given.now text.items) }
    ensures cause { IfErr result
        (IsCauseOfNone program.now bytes.now tokens.now.list.items given.now) }
{
    valid_programs_fit();
    let Finished { structures, text } = completion(
        alloc,
        program,
        bytes,
        tokens.list.as_slice(),
        given.as_slice(),
    )?;
    if text.len() > MAX_TEXT {
        return Err(CompletionError::TooLong);
    }
    if is_read_as(alloc, &program.vocab, &text, &structures)? {
        Ok(text)
    } else {
        Err(CompletionError::Differs)
    }
}
