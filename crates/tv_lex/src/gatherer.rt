//! A text with its includes put in.
ghost use Rattle.std.specs.Prelude.{◌≡◌, ℕ, ◌+◌, ◌≤◌, ◌∷◌, [], ◌++◌, List, Option, false, vec_len};
ghost use Rattle.std.specs.Prelude.{IfOk, IfErr, OnOk};
ghost use Rattle.tv_outside.specs.Told.{Held};
ghost use Rattle.tv_lex.specs.Include.{include_name as name_in};
ghost use Rattle.tv_lex.specs.Gather.{longest_gathered, deepest_include, UnlessFilesFail, Give, Gathers};
ghost use Rattle.tv_lex.specs.Gather.{BeginsUpTo, GatherCause, Puts, PutCause, GivesBytes};
ghost use Rattle.tv_lex.specs.Gather.{BytesCause};
ghost use Rattle.tv_lex.specs.Gather.{come_to, file_events, included, below, one_line, opens, gather_error};
ghost use Rattle.tv_lex.specs.Parts.{HasParts, IsLineBefore, IsMadeOf, IsOpen, PutsTraced};
ghost use Rattle.tv_lex.specs.Traced.{ArePut, Traced, traced_below, traced_file, traced_include, traced_line};
ghost use Rattle.tv_lex.specs.declared.gatherer.GatherError.TheVariants.{Memory};

use crate::include::{include_name, includes, inner_name, is_open_after, line_len};
use std::alloc::{AllocError, Global};
use thiserror::Error;
use tv_outside::{Files, ReadError, read_all};

/// The greatest number of bytes of a file and of a gathered text.
pub const MAX_TEXT: usize = 4_194_304;

/// How many includes deep a file may be.
pub const MAX_DEPTH: u32 = 16;

/// Why a text wasn't gathered.
#[derive(Clone, Copy, Debug, PartialEq, Eq, Error)]
pub enum GatherError {
    /// A call of the files failed.
    #[error("a call of the files failed")]
    Failed,
    /// A file, or the gathered text, has more than 4,194,304 bytes.
    #[error("the text is too long")]
    TooLong,
    /// A file ends inside a block comment.
    #[error("a block comment doesn't end in its file")]
    Unended,
    /// A line that begins with `#` is no `#include "NAME"`.
    #[error("a line that begins with # is no include line")]
    IncludeForm,
    /// A file is included from a file that is 16 includes deep.
    #[error("files include one another too deep")]
    IncludeDepth,
    /// Lack of memory.
    #[error("out of memory")]
    Memory,
}

impl From<ReadError> for GatherError {
    ghost from_gives = { λ r e. e ≡ gather_error r };

    fn from(error: ReadError) -> GatherError {
        match error {
            ReadError::Failed => GatherError::Failed,
            ReadError::TooLong => GatherError::TooLong,
            ReadError::Memory => GatherError::Memory,
        }
    }
}

impl From<AllocError> for GatherError {
    ghost from_gives = { λ _ e. e ≡ Memory };

    fn from(_error: AllocError) -> GatherError {
        GatherError::Memory
    }
}

/// Lines of a gathered text that stand so, one after the other, in one file.
#[derive(Debug, Drop)]
pub struct Part {
    /// The name of the file.
    pub name: String,
    /// The number of the line in the file with which the part begins, counted from 1.
    pub line: u32,
    /// The place of the part's first byte in the text, counted from 0.
    pub start: u32,
    /// The place behind its last byte.
    pub end: u32,
}

/// A text with its includes put in, and the parts of which it is made.
#[derive(Debug, Drop)]
pub struct Gathered {
    pub bytes: Vec<u8>,
    pub parts: Vec<Part>,
}

/// Where the reading of a file stands, in front of a line.
#[derive(Clone, Copy, Debug, PartialEq, Eq)]
struct Reading {
    /// Whether the line begins inside a block comment.
    inside: bool,
    /// The number of the line.
    number: u32,
    /// The place in the text from which on it has lines of the file that are in no part yet.
    start: u32,
    /// The number of the first of these, or of the line.
    first: u32,
}

#[tactic(auto, using(crate::proofs::Gathering::gives_bytes, crate::proofs::Gathering::gives_too_long))]
fn put_bytes(out: &mut Vec<u8>, bytes: &[u8]) -> Result<(), GatherError>
    ensures fits { OnOk result (vec_len out.new ≤ longest_gathered) }
    ensures value { OnOk result (out.new.items ≡ out.old.items ++ bytes.now) }
    ensures put { OnOk result (GivesBytes out.old.items bytes.now (Ok out.new.items)) }
    ensures cause { IfErr result (λ e. BytesCause e out.old.items bytes.now) }
{
    if bytes.len() > MAX_TEXT || out.len() > MAX_TEXT - bytes.len() {
        return Err(GatherError::TooLong);
    }
    out.extend_from_slice(bytes)?;
    Ok(())
}

/// The reading in front of the line of this number, where all of the text is in parts.
fn reading_at(number: u32, out: &Gathered) -> Reading
    requires { vec_len out.now.bytes ≤ longest_gathered }
    ensures { result
        ≡ record { inside = false; number = number; start = vec_len out.now.bytes; first = number } }
{
    Reading {
        inside: false,
        number,
        start: out.bytes.len() as u32,
        first: number,
    }
}

/// Makes a part of the lines that are in none yet.
fn close_part(
    alloc: Global,
    name: &str,
    reading: Reading,
    out: &mut Gathered,
) -> Result<(), AllocError>
    requires { vec_len out.old.bytes ≤ longest_gathered }
    ensures bytes { out.new.bytes ≡ out.old.bytes }
    ensures parts { OnOk result ((rest : List ℕ) (traced : List Traced)
        → IsOpen name.now rest traced out.old reading → IsMadeOf traced out.new) }
{
    let end = out.bytes.len() as u32;
    if reading.start < end {
        let name = String::from_str(alloc, name)?;
        out.parts.push(Part {
            name,
            line: reading.first,
            start: reading.start,
            end,
        })?;
    }
    Ok(())
}

#[cycle(gathering)]
fn put_include<F: Files>(
    alloc: Global,
    files: &mut F,
    name: &str,
    line: &[u8],
    left: u32,
    out: &mut Gathered,
) -> Result<(), GatherError>
    requires { vec_len out.old.bytes ≤ longest_gathered }
    ensures fits { OnOk result (vec_len out.new.bytes ≤ longest_gathered) }
    ensures count { F.faults files.old ≤ F.faults files.new }
    ensures holds { F.holds files.new ≡ F.holds files.old }
    ensures begins { BeginsUpTo result (F.holds files.old)
        (λ held. come_to out.old.bytes.items (included (below held left) name.now line.now))
        (F.begins files.old) (F.begins files.new) }
    ensures put { OnOk result (Puts (F.holds files.old)
        (λ held. included (below held left) name.now line.now) out.old.bytes.items
        (Ok out.new.bytes.items)) }
    ensures parts { OnOk result (PutsTraced (F.holds files.old)
        (λ held. traced_include (traced_below held left) name.now line.now) out.old out.new) }
    ensures cause { IfErr result (λ e. PutCause e (F.holds files.old)
        (λ held. included (below held left) name.now line.now) out.old.bytes.items (F.steady files.old)
        (F.faults files.old) (F.faults files.new)) }
    ensures steady { F.steady files.old
        → UnlessFilesFail result (F.steady files.new × (F.faults files.new ≡ F.faults files.old)) }
{
    let Some(written) = include_name(line) else {
        return Err(GatherError::IncludeForm);
    };
    if left == 0 {
        return Err(GatherError::IncludeDepth);
    }
    let inner = inner_name(alloc, name, written)?;
    put_file(alloc, files, inner.as_str(), left - 1, out)?;
    put_bytes(&mut out.bytes, b"\n")
}

/// Puts a line behind the text, or what it includes. Gives the reading in front of the next line.
#[cycle(gathering)]
fn put_line<F: Files>(
    alloc: Global,
    files: &mut F,
    name: &str,
    reading: Reading,
    line: &[u8],
    left: u32,
    out: &mut Gathered,
) -> Result<Reading, GatherError>
    requires size { vec_len out.old.bytes ≤ longest_gathered }
    requires number { reading.number ≤ longest_gathered }
    ensures fits { OnOk result (vec_len out.new.bytes ≤ longest_gathered) }
    ensures count { F.faults files.old ≤ F.faults files.new }
    ensures holds { F.holds files.new ≡ F.holds files.old }
    ensures next { IfOk result (λ next. next.inside ≡ opens reading.inside line.now) }
    ensures number { IfOk result (λ next. next.number ≡ reading.number + 1) }
    ensures begins { BeginsUpTo result (F.holds files.old) (λ held. come_to out.old.bytes.items
        (one_line (included (below held left) name.now) reading.inside line.now))
        (F.begins files.old) (F.begins files.new) }
    ensures put { OnOk result (Puts (F.holds files.old)
        (λ held. one_line (included (below held left) name.now) reading.inside line.now)
        out.old.bytes.items (Ok out.new.bytes.items)) }
    ensures parts { IfOk result (λ next. (behind : List ℕ) (traced : List Traced)
        → IsLineBefore behind line.now → IsOpen name.now (line.now ++ behind) traced out.old reading
        → (more : List Traced) × ArePut (F.holds files.old)
        (λ held. traced_line (traced_include (traced_below held left) name.now) name.now reading.inside
        reading.number line.now) more × IsOpen name.now behind (traced ++ more) out.new next) }
    ensures cause { IfErr result (λ e. PutCause e (F.holds files.old)
        (λ held. one_line (included (below held left) name.now) reading.inside line.now)
        out.old.bytes.items (F.steady files.old) (F.faults files.old) (F.faults files.new)) }
    ensures steady { F.steady files.old
        → UnlessFilesFail result (F.steady files.new × (F.faults files.new ≡ F.faults files.old)) }
{
    if includes(reading.inside, line) {
        close_part(alloc, name, reading, out)?;
        put_include(alloc, files, name, line, left, out)?;
        return Ok(reading_at(reading.number + 1, out));
    }
    put_bytes(&mut out.bytes, line)?;
    Ok(Reading {
        inside: is_open_after(reading.inside, line),
        number: reading.number + 1,
        ..reading
    })
}

/// Puts what a file gives behind the text.
#[cycle(gathering)]
fn put_file<F: Files>(
    alloc: Global,
    files: &mut F,
    name: &str,
    left: u32,
    out: &mut Gathered,
) -> Result<(), GatherError>
    requires { vec_len out.old.bytes ≤ longest_gathered }
    ensures fits { OnOk result (vec_len out.new.bytes ≤ longest_gathered) }
    ensures count { F.faults files.old ≤ F.faults files.new }
    ensures holds { F.holds files.new ≡ F.holds files.old }
    ensures begins { BeginsUpTo result (F.holds files.old)
        (λ held. come_to out.old.bytes.items (file_events held left name.now))
        (F.begins files.old) (F.begins files.new) }
    ensures put { OnOk result (Puts (F.holds files.old) (λ held. file_events held left name.now)
        out.old.bytes.items (Ok out.new.bytes.items)) }
    ensures parts { OnOk result (PutsTraced (F.holds files.old)
        (λ held. traced_file held left name.now) out.old out.new) }
    ensures cause { IfErr result (λ e. PutCause e (F.holds files.old) (λ held. file_events held left name.now)
        out.old.bytes.items (F.steady files.old) (F.faults files.old) (F.faults files.new)) }
    ensures steady { F.steady files.old
        → UnlessFilesFail result (F.steady files.new × (F.faults files.new ≡ F.faults files.old)) }
{
    let content = read_all(alloc, files, name, MAX_TEXT)?;
    let mut rest = content.as_slice();
    let mut reading = reading_at(1, out);
    while !rest.is_empty() {
        let (line, behind) = rest.split_at(line_len(rest));
        reading = put_line(alloc, files, name, reading, line, left, out)?;
        rest = behind;
    }
    if reading.inside {
        return Err(GatherError::Unended);
    }
    close_part(alloc, name, reading, out)?;
    Ok(())
}

/// Gives the text of the file that `name` names, with its includes put in.
///
/// A line whose first byte other than a space or a tab is `#`, and that doesn't begin inside a block comment,
/// is an include line. The text of the file that it names and a line feed stand in its place. Each file is
/// begun once for each place that includes it and that is come to before a refusal. The text has at most
/// 4,194,304 bytes, whatever the files tell. Its parts tell of each byte from which line of which file it is;
/// all else in it is the line feed behind what an include line gives.
///
/// # Errors
/// `Failed` comes only where a call of `files` failed, and on steady files only where they don't hold this
/// name, or that of an included file which is come to before any other refusal. The others come at the first
/// place, in reading order, at which they stand. At any answer but `Failed` steady files are steady, with the
/// same count of faults.
pub fn gather<F: Files>(alloc: Global, files: &mut F, name: &str) -> Result<Gathered, GatherError>
    ensures count { F.faults files.old ≤ F.faults files.new }
    ensures holds { F.holds files.new ≡ F.holds files.old }
    ensures begins { BeginsUpTo result (F.holds files.old)
        (λ held. come_to [] (file_events held deepest_include name.now))
        (F.begins files.old) (F.begins files.new) }
    ensures text { IfOk result (λ g. Gathers (F.holds files.old) name.now (Ok g.bytes.items)) }
    ensures parts { IfOk result (HasParts (F.holds files.old) name.now) }
    ensures cause { IfErr result (λ e. GatherCause e (F.holds files.old) name.now (F.steady files.old)
        (F.faults files.old) (F.faults files.new)) }
    ensures size { IfOk result (λ g. vec_len g.bytes ≤ longest_gathered) }
    ensures steady { F.steady files.old
        → UnlessFilesFail result (F.steady files.new × (F.faults files.new ≡ F.faults files.old)) }
{
    let mut gathered = Gathered {
        bytes: Vec::new(alloc),
        parts: Vec::new(alloc),
    };
    put_file(alloc, files, name, MAX_DEPTH, &mut gathered)?;
    Ok(gathered)
}
