//! Whether a text means given structures.

ghost use Rattle.std.specs.Prelude.{◌≡◌, ◌↔◌, ◌≤◌, All, IsTrue, None, Ok, IfOk, IfErr, length};
ghost use Rattle.tv_lex.specs.Bytes.{longest_text};
ghost use Rattle.tv_lex.specs.Token.{spec_tokens};
ghost use Rattle.tv_tvs.specs.Meaning.{IsVocabulary, MeansStructs};
ghost use Rattle.tv_complete_text.specs.Text.{ReadsAsStructures, unlexed_answer};
ghost use Rattle.tv_complete_text.specs.declared.error.CompletionError.TheVariants.{Memory};

use crate::error::CompletionError;
use std::alloc::Global;
use tv_lex::{LexError, Tokens, lex, one_reading};
use tv_model::Vocab;
use tv_struct::Structures;
use tv_tvs::{TvsError, one_reading as one_structure_reading, read_tvs};

/// A text that is cut into no tokens means no structures.
fn unlexed(error: LexError) -> Result<bool, CompletionError>
    ensures { result ≡ unlexed_answer error }
{
    match error {
        LexError::Memory => Err(CompletionError::Memory),
        _ => Ok(false),
    }
}

/// Whether the tokens of a text mean the structures.
fn are_tokens_of(
    alloc: Global,
    vocab: &Vocab,
    text: &[u8],
    tokens: &Tokens,
    structures: &Structures,
) -> Result<bool, CompletionError>
    requires vocabulary { IsVocabulary vocab.now }
    requires size { length text.now ≤ longest_text }
    requires unmarked { All (λ s. s.fresh ≡ None) structures.now }
    ensures value { IfOk result (λ yes. IsTrue yes
        ↔ MeansStructs vocab.now (spec_tokens text.now tokens.now.list.items) (Ok structures.now)) }
    ensures fault { IfErr result (λ e. e ≡ Memory) }
{
    one_structure_reading();
    match read_tvs(alloc, vocab, text, tokens) {
        Ok(read) => Ok(read == *structures),
        Err(TvsError::Memory) => Err(CompletionError::Memory),
        Err(_) => Ok(false),
    }
}

/// Whether the text means the structures.
pub fn is_read_as(
    alloc: Global,
    vocab: &Vocab,
    text: &[u8],
    structures: &Structures,
) -> Result<bool, CompletionError>
    requires vocabulary { IsVocabulary vocab.now }
    requires size { length text.now ≤ longest_text }
    requires unmarked { All (λ s. s.fresh ≡ None) structures.now }
    ensures value { IfOk result (λ yes. IsTrue yes ↔ ReadsAsStructures vocab.now text.now structures.now) }
    ensures fault { IfErr result (λ e. e ≡ Memory) }
{
    one_reading();
    match lex(alloc, text) {
        Ok(tokens) => are_tokens_of(alloc, vocab, text, &tokens, structures),
        Err(error) => unlexed(error),
    }
}
