//! Reports of texts, and verdicts told in words.

ghost use Rattle.std.specs.Prelude.{◌≤◌, IfOk, length};
ghost use Rattle.tv_listing.specs.Listed.{IsListing};
ghost use Rattle.tv_model.specs.Program.{program_of};
ghost use Rattle.tv_model.specs.Valid.{IsValid};

use std::alloc::Global;
use std::test::Fail;
use tv_judge::{Verdict, first_unmet, judge};
use tv_lex::lex;
use tv_listing::{Analysis, Item, MapLine, Rejection};
use tv_model::{Mode, Program};
use tv_report::read_report;
use tv_struct::StageError;
use tv_test_reader::{structures, whole_program};

/// The analysis of a report.
pub fn analysis(alloc: Global, program: &Program, text: &str) -> Result<Analysis, Fail>
    requires { IsValid (program_of program.now) }
    ensures { IfOk result (λ a. IsListing program.now a.listing) }
{
    let bytes = text.as_bytes();
    if bytes.len() > 10_000 {
        return Err(Fail::new("too long"));
    }
    let Ok(tokens) = lex(alloc, bytes) else {
        return Err(Fail::new("no tokens"));
    };
    match read_report(alloc, program, bytes, &tokens) {
        Ok(analysis) => Ok(analysis),
        Err(_) => Err(Fail::new("no report")),
    }
}

fn line_told(alloc: Global, line: &MapLine) -> Result<String, Fail> {
    let target = line.target;
    let mut told = match line.item {
        Item::Initial(number) => format!(in alloc; "; initial {number} to {target}")?,
        Item::Result {
            edge,
            structure,
            result,
        } => format!(in alloc; "; edge {edge} {structure} {result} to {target}")?,
    };
    for image in line.map.as_slice() {
        let image = *image;
        let image = format!(in alloc; " {image}")?;
        told.push_str(image.as_str())?;
    }
    Ok(told)
}

fn rejection_told(alloc: Global, rejection: Rejection) -> Result<String, Fail> {
    Ok(match rejection {
        Rejection::Initial(number) => format!(in alloc; "initial {number}")?,
        Rejection::Result {
            edge,
            structure,
            result,
        } => format!(in alloc; "edge {edge} structure {structure} result {result}")?,
        Rejection::Message { edge, number } => format!(in alloc; "message {edge} {number}")?,
    })
}

/// A verdict: the maps of an accepted report, or what is rejected, or which budget is met.
pub fn told(alloc: Global, verdict: &Result<Verdict, StageError>) -> Result<String, Fail> {
    match verdict {
        Ok(Verdict::Accepted(maps)) => {
            let mut told = format!(in alloc; "accepted")?;
            for line in maps.as_slice() {
                let line = line_told(alloc, line)?;
                told.push_str(line.as_str())?;
            }
            Ok(told)
        }
        Ok(Verdict::Rejected(rejection)) => rejection_told(alloc, *rejection),
        Err(StageError::Splits) => Ok(format!(in alloc; "splits")?),
        Err(StageError::Individuals) => Ok(format!(in alloc; "individuals")?),
        Err(StageError::Memory) => Err(Fail::new("no memory")),
    }
}

/// Whether the first demand that isn't met is what the verdict says.
fn is_same(
    verdict: &Result<Verdict, StageError>,
    unmet: Result<Option<Rejection>, StageError>,
) -> bool {
    match (verdict, unmet) {
        (Ok(Verdict::Accepted(_)), Ok(None)) => true,
        (Ok(Verdict::Rejected(told)), Ok(Some(first))) => *told == first,
        (Err(told), Err(fault)) => *told == fault,
        _ => false,
    }
}

/// The verdict on a report, in words.
pub fn verdict(alloc: Global, program: &str, initial: &str, report: &str) -> Result<String, Fail> {
    let program = whole_program(alloc, program)?;
    let initial = structures(alloc, &program, initial)?;
    let analysis = analysis(alloc, &program, report)?;
    let verdict = judge(alloc, &program, &initial, &analysis, Mode::Given);
    let unmet = first_unmet(alloc, &program, &initial, &analysis, Mode::Given);
    if !is_same(&verdict, unmet) {
        return Err(Fail::new("another demand is the first that isn't met"));
    }
    told(alloc, &verdict)
}
