//! Traces as texts, and what is read of them.

ghost use Rattle.tv_model.specs.Program.{program_of};
ghost use Rattle.tv_model.specs.Valid.{IsValid};

use std::alloc::Global;
use std::test::Fail;
use tv_lex::{LexError, lex};
use tv_model::Program;
use tv_phrases::FormError;
use tv_struct::Table;
use tv_trace::{Move, read_trace};

/// The edge of a move and the individuals that it picks.
fn numbers(alloc: Global, one: &Move, out: &mut Vec<u8>) -> Result<(), Fail> {
    let edge = format!(in alloc; "step {}", one.edge)?;
    out.extend_from_slice(edge.as_str().as_bytes())?;
    for pick in one.picks.as_slice() {
        let pick = format!(in alloc; " {}", pick)?;
        out.extend_from_slice(pick.as_str().as_bytes())?;
    }
    if let Some(values) = &one.values {
        let size = format!(in alloc; " free {}", values.size())?;
        out.extend_from_slice(size.as_str().as_bytes())?;
    }
    out.push(b'\n')?;
    Ok(())
}

/// What is read of a trace: each move in a line, its structure by its size; or the place where it is none.
pub fn answer(alloc: Global, program: &Program, text: &[u8]) -> Result<Vec<u8>, Fail>
    requires { IsValid (program_of program.now) }
{
    if text.len() > 10_000 {
        return Err(Fail::new("too long"));
    }
    let tokens = match lex(alloc, text) {
        Ok(tokens) => tokens,
        Err(LexError::Memory) => return Err(Fail::new("no memory")),
        Err(_) => return Ok(Vec::from_slice(alloc, b"no tokens")?),
    };
    match read_trace(alloc, program, text, &tokens) {
        Ok(trace) => {
            let mut out = Vec::new(alloc);
            for one in trace.moves.as_slice() {
                numbers(alloc, one, &mut out)?;
            }
            Ok(out)
        }
        Err(FormError::Form(place)) => {
            let found = format!(in alloc; "{}:{}", place.line, place.column)?;
            Ok(found.into_bytes())
        }
        Err(FormError::Memory) => Err(Fail::new("no memory")),
    }
}
