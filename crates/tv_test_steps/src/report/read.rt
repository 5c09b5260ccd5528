//! Reports as texts, and what is read of them.

ghost use Rattle.tv_model.specs.Program.{program_of};
ghost use Rattle.tv_model.specs.Valid.{IsValid};

use std::alloc::Global;
use std::test::Fail;
use tv_lex::{LexError, lex};
use tv_model::Program;
use tv_phrases::FormError;
use tv_report::{read_report, write_report};

/// What is read of a report: its own report again, or the place where it is none.
pub fn answer(alloc: Global, program: &Program, text: &[u8]) -> Result<Vec<u8>, Fail>
    requires { IsValid (program_of program.now) }
{
    if text.len() > 10_000 {
        return Err(Fail::new("too long"));
    }
    let tokens = match lex(alloc, text) {
        Ok(tokens) => tokens,
        Err(LexError::Memory) => return Err(Fail::new("no memory")),
        Err(_) => return Ok(Vec::from_slice(alloc, b"no tokens")?),
    };
    match read_report(alloc, program, text, &tokens) {
        Ok(analysis) => Ok(write_report(alloc, program, &analysis)?),
        Err(FormError::Form(place)) => {
            let found = format!(in alloc; "{}:{}", place.line, place.column)?;
            Ok(found.into_bytes())
        }
        Err(FormError::Memory) => Err(Fail::new("no memory")),
    }
}
