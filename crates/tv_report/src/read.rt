//! Texts of reports to analyses.

ghost use Rattle.std.specs.Prelude.{◌≡◌, ◌≤◌, All, IfOk, IfErr, length, None};
ghost use Rattle.tv_lex.specs.Places.{StopsAtToken};
ghost use Rattle.tv_lex.specs.Pieces.{AreInOrder};
ghost use Rattle.tv_lex.specs.Token.{spec_tokens};
ghost use Rattle.tv_listing.specs.Listed.{IsListing};
ghost use Rattle.tv_model.specs.Program.{program_of};
ghost use Rattle.tv_model.specs.Valid.{IsValid};
ghost use Rattle.tv_phrases.specs.Reading.{Told};
ghost use Rattle.tv_phrases.specs.Refused.{IsUnread, form_place};
ghost use Rattle.tv_report.specs.Meaning.{MeansReport, IsNoReport};

use crate::lines::{map_list, message_list};
use crate::nodes::listing;
use crate::syntax::report;
use std::alloc::Global;
use tv_lex::{Token, Tokens, stop_place};
use tv_listing::Analysis;
use tv_model::Program;
use tv_phrases::{FormError, PhraseError};

/// The analysis that the tokens mean: their grammar first, then nodes, messages and maps in order.
fn analysis<'a>(
    alloc: Global,
    program: &Program,
    bytes: &[u8],
    tokens: &'a [Token],
) -> Result<Analysis, PhraseError<'a>>
    requires valid { IsValid (program_of program.now) }
    ensures meant { IfOk result (MeansReport program.now (spec_tokens bytes.now tokens.now)) }
    ensures kept { IfOk result (λ a. IsListing program.now a.listing) }
    ensures unmarked { IfOk result (λ a. All (All (λ s. s.fresh ≡ None)) a.listing) }
    ensures fault { IfErr result (λ e. Told e (IsNoReport program.now (spec_tokens bytes.now tokens.now))) }
{
    let report = report(alloc, bytes, tokens)?;
    let listing = listing(alloc, program, bytes, report.nodes)?;
    let messages = message_list(alloc, program, report.messages)?;
    let maps = map_list(alloc, program, &listing, report.maps)?;
    Ok(Analysis {
        listing,
        messages,
        maps,
    })
}

/// The analysis that a report on the program means, of either version of the format. `tokens` are those
/// of `bytes`. The grammar of the whole text is read first, then its nodes, messages and maps in order.
/// A node that isn't named has no structures, and the texts of messages aren't compared with the
/// program's. No individual is marked as fresh.
///
/// # Errors
/// `Form` where the tokens are no report on the program, with the place of the start of a token or
/// of the end of the text; `Memory` where there was none for the analysis.
pub fn read_report(
    alloc: Global,
    program: &Program,
    bytes: &[u8],
    tokens: &Tokens,
) -> Result<Analysis, FormError>
    requires valid { IsValid (program_of program.now) }
    requires size { length bytes.now ≤ 67108864 }
    requires order { AreInOrder 0 tokens.now.list.items (length bytes.now) }
    ensures meant { IfOk result (MeansReport program.now (spec_tokens bytes.now tokens.now.list.items)) }
    ensures kept { IfOk result (λ a. IsListing program.now a.listing) }
    ensures unmarked { IfOk result (λ a. All (All (λ s. s.fresh ≡ None)) a.listing) }
    ensures fault { IfErr result
        (IsUnread (IsNoReport program.now (spec_tokens bytes.now tokens.now.list.items))) }
    ensures place { IfErr result (StopsAtToken form_place bytes.now tokens.now.list.items) }
{
    let list = tokens.list.as_slice();
    match analysis(alloc, program, bytes, list) {
        Ok(found) => Ok(found),
        Err(PhraseError::Unexpected(rest)) => {
            Err(FormError::Form(stop_place(bytes, list, rest)))
        }
        Err(PhraseError::Memory) => Err(FormError::Memory),
    }
}
