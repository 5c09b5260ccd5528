//! Programs and structures from their texts.

ghost use Rattle.std.specs.Prelude.{◌≡◌, ◌<◌, ◌^◌, All, IfOk, None, length};
ghost use Rattle.tv_model.specs.Program.{program_of};
ghost use Rattle.tv_model.specs.Valid.{IsValid};
ghost use Rattle.tv_structure_form.specs.StructureForm.{IsOver};

use std::alloc::Global;
use std::test::Fail;
use tv_front::read_program;
use tv_lex::lex;
use tv_model::Program;
use tv_struct::{Structure, Structures};
use tv_tvs::{read_one, read_tvs, valid_programs_fit};

/// Predicates of each arity, and some whose names have arguments.
pub const PREDICATES: &str = "%p b() %p x(v) %p n(v, w) %p m(v, w) %p t[n](v, w) %p r[n,x](v)";

/// The program of a text.
pub fn whole_program(alloc: Global, text: &str) -> Result<Program, Fail>
    ensures { IfOk result (λ p. IsValid (program_of p)) }
{
    let bytes = text.as_bytes();
    if bytes.len() > 1_000_000 {
        return Err(Fail::new("too long"));
    }
    match read_program(alloc, bytes) {
        Ok(program) => Ok(program),
        Err(_) => Err(Fail::new("no program")),
    }
}

/// The program of these declarations, with one action of these parts on its one edge.
pub fn program(alloc: Global, declared: &str, parts: &str) -> Result<Program, Fail>
    ensures { IfOk result (λ p. IsValid (program_of p)) }
{
    let text = format!(in alloc; "{declared} %% %action Act() {{ {parts} }} %% L Act() L")?;
    whole_program(alloc, text.as_str())
}

/// The structure that begins a text.
pub fn structure(alloc: Global, program: &Program, text: &str) -> Result<Structure, Fail>
    requires { IsValid (program_of program.now) }
    ensures over { IfOk result (IsOver program.now.vocab) }
    ensures fresh { IfOk result (λ s. s.fresh ≡ None) }
{
    valid_programs_fit();
    let bytes = text.as_bytes();
    if bytes.len() > 100_000 {
        return Err(Fail::new("too long"));
    }
    match lex(alloc, bytes) {
        Err(_) => Err(Fail::new("no tokens")),
        Ok(tokens) => match read_one(alloc, &program.vocab, bytes, &tokens, 0) {
            Ok(one) => Ok(one.found),
            Err(_) => Err(Fail::new("no structure")),
        },
    }
}

/// The structures that are all of a text.
pub fn structures(alloc: Global, program: &Program, text: &str) -> Result<Structures, Fail>
    requires { IsValid (program_of program.now) }
    ensures over { IfOk result (All (IsOver program.now.vocab)) }
    ensures few { IfOk result (λ found. length found < 2 ^ 32) }
{
    valid_programs_fit();
    let bytes = text.as_bytes();
    if bytes.len() > 100_000 {
        return Err(Fail::new("too long"));
    }
    match lex(alloc, bytes) {
        Err(_) => Err(Fail::new("no tokens")),
        Ok(tokens) => match read_tvs(alloc, &program.vocab, bytes, &tokens) {
            Ok(found) if found.len() < 10_000 => Ok(found),
            _ => Err(Fail::new("no structures")),
        },
    }
}
