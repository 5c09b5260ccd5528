//! Where the columns of drawn rows come from.

ghost use Rattle.std.specs.Prelude.{◌≡◌, ℕ, ◌+◌, ◌%◌, ◌<◌, ◌≤◌, length, slice_index, IfOk};
ghost use Rattle.tv_row.specs.Drawing.{DrawingForm, IsDrawing, IsRunOfColumns};

use std::alloc::{AllocError, Global};
use std::marker::Model;

/// Consecutive columns whose values come from consecutive columns of another row, within one word of each.
#[derive(Clone, Copy, Debug)]
pub struct Run {
    pub to: u32,
    pub from: u32,
    pub count: u32,
}

/// Where the columns of a drawn row come from: an origin for each, among the columns of the row that it is
/// drawn from. Columns that go on together are drawn together. Which these are is found once, for all rows
/// that are drawn so.
#[derive(Debug, Drop)]
pub struct Drawing {
    origins: Vec<u32>,
    columns: u32,
    runs: Vec<Run>,
}

impl Model for Drawing {
    ghost use Rattle.tv_row.specs.Drawing.{DrawingForm, IsDrawing};

    ghost Value = { DrawingForm };

    ghost view = { λ d. record { origins = d.origins.items; columns = d.columns } };

    ghost invariant = { λ d. IsDrawing
        (record { origins = d.origins.items; columns = d.columns }) d.runs.items };
}

/// How many columns at most go on from `to`, which comes from `from`, within a word of each row and before
/// the ends.
fn room(to: u32, from: u32, columns: u32, size: u32) -> u32
    requires to { to < size }
    requires from { from < columns }
    ensures some { 0 < result }
    ensures to { (to % 64 + result ≤ 64) × (to + result ≤ size) }
    ensures from { (from % 64 + result ≤ 64) × (from + result ≤ columns) }
{
    let in_words = (64 - to % 64).min(64 - from % 64);
    in_words.min(size - to).min(columns - from)
}

/// The run of columns that begins at `to`.
fn run_from(origins: &[u32], to: usize, columns: u32) -> Run
    requires small { length origins.now ≤ 256 }
    requires to { to < length origins.now }
    requires origin { slice_index origins.now to < columns }
    ensures place { (result.to ≡ to) × (result.from ≡ slice_index origins.now to) }
    ensures fits { IsRunOfColumns columns (length origins.now) result }
    ensures origins { (i : ℕ) → i < result.count → slice_index origins.now (to + i) ≡ result.from + i }
{
    let from = origins[to];
    let most = room(to as u32, from, columns, origins.len() as u32);
    for i in 1..most {
        if origins[to + i as usize] != from + i {
            return Run {
                to: to as u32,
                from,
                count: i,
            };
        }
    }
    Run {
        to: to as u32,
        from,
        count: most,
    }
}

/// The runs of all columns whose origin isn't past the end.
fn runs_of(alloc: Global, origins: &[u32], columns: u32) -> Result<Vec<Run>, AllocError>
    requires { length origins.now ≤ 256 }
    ensures { IfOk result
        (λ runs. IsDrawing (record { origins = origins.now; columns = columns }) runs.items) }
{
    let mut runs = Vec::new(alloc);
    let mut at = 0;
    while at < origins.len() {
        if origins[at] < columns {
            let run = run_from(origins, at, columns);
            runs.push(run)?;
            at += run.count as usize;
        } else {
            at += 1;
        }
    }
    Ok(runs)
}

impl Drawing {
    /// One column for each of the origins, drawn from rows of that many columns; `No` for an origin past the
    /// end.
    pub fn new(alloc: Global, origins: Vec<u32>, columns: u32) -> Result<Drawing, AllocError>
        requires { length origins.items ≤ 256 }
        ensures { IfOk result (λ d. d ≡ record { origins = origins.items; columns = columns }) }
    {
        let runs = runs_of(alloc, &origins, columns)?;
        Ok(Drawing {
            origins,
            columns,
            runs,
        })
    }

    /// The origin of each column, at most 256.
    pub fn origins(&self) -> &[u32]
        ensures value { result.now ≡ self.now.origins }
        ensures small { length self.now.origins ≤ 256 }
    {
        self.origins.as_slice()
    }

    /// The runs of columns.
    pub(crate) fn runs(&self) -> &[Run]
        ensures { IsDrawing self.now result.now }
    {
        self.runs.as_slice()
    }
}
