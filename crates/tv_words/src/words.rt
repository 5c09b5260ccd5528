//! The words after the program's name.

ghost use Rattle.std.specs.Prelude.{◌↔◌, IfOk, IfSome, IfNone, IsTrue, false, codes};
ghost use Rattle.tv_model.specs.declared.program.Mode.TheVariants.{Given};
ghost use Rattle.tv_words.specs.Setup.{line_in, IsSaid, NoneSaid};
ghost use Rattle.tv_words.specs.Words.{words_of, HasFlags, Spells, SpellsNothing, SaidOf};

use crate::line::{Line, command_line, read_line, told_line};
use crate::values::{
    GREATEST_DEMO, five, has_values, max_of, mode_of, number_up_to, one, stands, three, two,
    updating,
};
use std::alloc::{AllocError, Global};
use tv_model::Mode;

/// What the words ask for. Files are told by their names, as the words give them.
#[derive(Debug, Drop)]
pub enum Command {
    /// Lists the structures that a program reaches from initial structures, at most `max` of them; with
    /// `delta` the differenced program is taken, and the mode is `Given`.
    Analyze {
        program: String,
        initial: String,
        max: u64,
        mode: Mode,
        delta: bool,
    },
    /// Judges a report on a program and initial structures; `maps` asks for the report with its maps; `delta`
    /// is as for `Analyze`.
    Check {
        program: String,
        initial: String,
        report: String,
        mode: Mode,
        maps: bool,
        delta: bool,
    },
    /// Analyzes a program that is made up for this number.
    Demo {
        number: u64,
    },
    /// Lists structures that cover what a program reaches from initial structures, one for each node, set of
    /// individuals and nullary values, at most `max` of them.
    Join {
        program: String,
        initial: String,
        max: u64,
        mode: Mode,
    },
    /// Steps the heap of `start` along the edges of `trace`, and judges it by a report.
    Replay {
        program: String,
        initial: String,
        start: String,
        trace: String,
        report: String,
    },
    /// Lists the structures that a program of the pointer language reaches from initial structures, at most
    /// `max` of them.
    Source {
        source: String,
        initial: String,
        max: u64,
    },
}

/// Whether no option without a value stands.
pub fn has_no_flags(line: &Line<'_, '_>) -> bool
    ensures { IsTrue result ↔ HasFlags (line_in line.now) Given false false }
{
    line.recompute == 0 && line.delta == 0 && line.maps == 0
}

/// The command of the name `analyze` that the line says.
fn analyze(alloc: Global, line: &Line<'_, '_>) -> Result<Option<Command>, AllocError>
    ensures some { IfOk result
        (λ found. IfSome found (SaidOf (IsSaid (codes "analyze") (line_in line.now)))) }
    ensures none { IfOk result (λ found. IfNone found (NoneSaid (codes "analyze") (line_in line.now))) }
{
    let Some((program, initial)) = two(line.operands) else {
        return Ok(None);
    };
    let Some((mode, delta)) = updating(line.recompute, line.delta) else {
        return Ok(None);
    };
    let Some(max) = max_of(line.max) else {
        return Ok(None);
    };
    if line.maps != 0 {
        return Ok(None);
    }
    Ok(Some(Command::Analyze {
        program: String::from_str(alloc, program)?,
        initial: String::from_str(alloc, initial)?,
        max,
        mode,
        delta,
    }))
}

/// The command of the name `check` that the line says.
fn check(alloc: Global, line: &Line<'_, '_>) -> Result<Option<Command>, AllocError>
    ensures some { IfOk result (λ found. IfSome found (SaidOf (IsSaid (codes "check") (line_in line.now)))) }
    ensures none { IfOk result (λ found. IfNone found (NoneSaid (codes "check") (line_in line.now))) }
{
    let Some((program, initial, report)) = three(line.operands) else {
        return Ok(None);
    };
    let Some((mode, delta)) = updating(line.recompute, line.delta) else {
        return Ok(None);
    };
    let Some(maps) = stands(line.maps) else {
        return Ok(None);
    };
    if has_values(line.max) {
        return Ok(None);
    }
    Ok(Some(Command::Check {
        program: String::from_str(alloc, program)?,
        initial: String::from_str(alloc, initial)?,
        report: String::from_str(alloc, report)?,
        mode,
        maps,
        delta,
    }))
}

/// The command of the name `demo` that the line says.
fn demo(line: &Line<'_, '_>) -> Option<Command>
    ensures some { IfSome result (SaidOf (IsSaid (codes "demo") (line_in line.now))) }
    ensures none { IfNone result (NoneSaid (codes "demo") (line_in line.now)) }
{
    let Some(word) = one(line.operands) else {
        return None;
    };
    let Some(number) = number_up_to(word, GREATEST_DEMO) else {
        return None;
    };
    if has_no_flags(line) && !has_values(line.max) {
        Some(Command::Demo { number })
    } else {
        None
    }
}

/// The command of the name `join` that the line says.
fn join(alloc: Global, line: &Line<'_, '_>) -> Result<Option<Command>, AllocError>
    ensures some { IfOk result (λ found. IfSome found (SaidOf (IsSaid (codes "join") (line_in line.now)))) }
    ensures none { IfOk result (λ found. IfNone found (NoneSaid (codes "join") (line_in line.now))) }
{
    let Some((program, initial)) = two(line.operands) else {
        return Ok(None);
    };
    let Some(mode) = mode_of(line.recompute) else {
        return Ok(None);
    };
    let Some(max) = max_of(line.max) else {
        return Ok(None);
    };
    if line.delta != 0 || line.maps != 0 {
        return Ok(None);
    }
    Ok(Some(Command::Join {
        program: String::from_str(alloc, program)?,
        initial: String::from_str(alloc, initial)?,
        max,
        mode,
    }))
}

/// The command of the name `replay` that the line says.
fn replay(alloc: Global, line: &Line<'_, '_>) -> Result<Option<Command>, AllocError>
    ensures some { IfOk result (λ found. IfSome found (SaidOf (IsSaid (codes "replay") (line_in line.now)))) }
    ensures none { IfOk result (λ found. IfNone found (NoneSaid (codes "replay") (line_in line.now))) }
{
    let Some((program, initial, start, trace, report)) = five(line.operands) else {
        return Ok(None);
    };
    if !has_no_flags(line) || has_values(line.max) {
        return Ok(None);
    }
    Ok(Some(Command::Replay {
        program: String::from_str(alloc, program)?,
        initial: String::from_str(alloc, initial)?,
        start: String::from_str(alloc, start)?,
        trace: String::from_str(alloc, trace)?,
        report: String::from_str(alloc, report)?,
    }))
}

/// The command of the name `source` that the line says.
fn source(alloc: Global, line: &Line<'_, '_>) -> Result<Option<Command>, AllocError>
    ensures some { IfOk result (λ found. IfSome found (SaidOf (IsSaid (codes "source") (line_in line.now)))) }
    ensures none { IfOk result (λ found. IfNone found (NoneSaid (codes "source") (line_in line.now))) }
{
    let Some((source, initial)) = two(line.operands) else {
        return Ok(None);
    };
    let Some(max) = max_of(line.max) else {
        return Ok(None);
    };
    if !has_no_flags(line) {
        return Ok(None);
    }
    Ok(Some(Command::Source {
        source: String::from_str(alloc, source)?,
        initial: String::from_str(alloc, initial)?,
        max,
    }))
}

/// The command of that name that the line says.
fn said(alloc: Global, name: &str, line: &Line<'_, '_>) -> Result<Option<Command>, AllocError>
    ensures some { IfOk result (λ found. IfSome found (SaidOf (IsSaid name.now (line_in line.now)))) }
    ensures none { IfOk result (λ found. IfNone found (NoneSaid name.now (line_in line.now))) }
{
    match name {
        "analyze" => analyze(alloc, line),
        "check" => check(alloc, line),
        "demo" => Ok(demo(line)),
        "join" => join(alloc, line),
        "replay" => replay(alloc, line),
        "source" => source(alloc, line),
        _ => Ok(None),
    }
}

/// The command that the words spell, and none exactly where they spell none.
///
/// # Errors
/// `AllocError` where memory ran out.
pub fn read_words(alloc: Global, words: &[String]) -> Result<Option<Command>, AllocError>
    ensures some { IfOk result (λ found. IfSome found (SaidOf (Spells (words_of words.now)))) }
    ensures none { IfOk result (λ found. IfNone found (SpellsNothing (words_of words.now))) }
{
    let Some((name, behind)) = words.split_first() else {
        return Ok(None);
    };
    let Some(matches) = read_line(command_line(alloc)?, behind)? else {
        return Ok(None);
    };
    said(alloc, name.as_str(), &told_line(&matches))
}
