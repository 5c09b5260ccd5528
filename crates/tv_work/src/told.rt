//! The greatest values of messages so far.

ghost use Rattle.std.specs.Prelude.{◌≡◌, ◌<◌, ◌≤◌, ◌+◌, ℕ, [], ◌++◌, length, replicate, slice_index_or, max};
ghost use Rattle.std.specs.Prelude.{IfOk, OnOk, OnErr};
ghost use Rattle.tv_kleene.specs.declared.K3.TheVariants.{No};
ghost use Rattle.tv_kleene.specs.Kleene.{larger_of};
ghost use Rattle.tv_work.specs.Told.{IsNoted, IsRaised, AreLines, AreLinesTo, line_of};

use std::alloc::{AllocError, Global};
use std::marker::Model;
use tv_kleene::K3;
use tv_listing::{MessageLine, MessageLines};
use tv_model::Items;
use tv_step::Values;

/// The greatest values so far of the messages of one edge, by number; behind the last they are `No`.
#[derive(Drop)]
struct GreatestValues {
    values: Vec<K3>,
}

impl Model for GreatestValues {
    ghost use Rattle.std.specs.Prelude.{List};
    ghost use Rattle.tv_kleene.specs.declared.K3.{K3};

    ghost Value = { List K3 };

    ghost view = { λ r. r.values.items };
}

impl GreatestValues {
    /// No values; takes no memory.
    fn new(alloc: Global) -> GreatestValues
        ensures { result ≡ [] }
    {
        GreatestValues {
            values: Vec::new(alloc),
        }
    }

    /// The values by number.
    fn as_slice(&self) -> &[K3]
        ensures { result.now ≡ self.now }
    {
        self.values.as_slice()
    }

    /// Notes the value of one message beside that before; those of all messages before it stand.
    fn raise(&mut self, number: usize, value: K3) -> Result<(), AllocError>
        requires { number ≤ length self.old }
        ensures raised { OnOk result (IsRaised number value self.old self.new) }
        ensures count { OnOk result (length self.new ≡ max (number + 1) (length self.old)) }
        ensures kept { OnErr result (self.new ≡ self.old) }
    {
        if number == self.values.len() {
            self.values.push(value)?;
            return Ok(());
        }
        self.values[number] = value.or(self.values[number]);
        Ok(())
    }

    /// Notes the values of all messages beside those before.
    fn note(&mut self, values: &[K3]) -> Result<(), AllocError>
        ensures noted { OnOk result ((n : ℕ) → slice_index_or self.new n No
            ≡ larger_of (slice_index_or values.now n No) (slice_index_or self.old n No)) }
        ensures most { length self.new ≤ max (length values.now) (length self.old) }
    {
        for (number, value) in values.iter().enumerate() {
            self.raise(number, *value)?;
        }
        Ok(())
    }
}

/// For each edge the greatest value so far of each message of its action, by number; where there is none, it
/// is `No`.
#[derive(Drop)]
pub struct Told {
    rows: Vec<GreatestValues>,
}

impl Model for Told {
    ghost use Rattle.std.specs.Prelude.{◌≤◌, List, All, length};
    ghost use Rattle.tv_kleene.specs.declared.K3.{K3};

    ghost Value = { List (List K3) };

    ghost view = { λ t. t.rows.items };

    ghost invariant = { λ t. All (λ (row : List K3). length row ≤ 65536) t.rows.items };
}

impl Told {
    /// Nothing of so many edges.
    pub fn new(alloc: Global, edges: usize) -> Result<Told, AllocError>
        ensures { IfOk result (λ told. told ≡ replicate edges []) }
    {
        Ok(Told {
            rows: no_rows(alloc, edges)?,
        })
    }

    /// Notes the values of the messages of an edge beside those before.
    pub fn note(&mut self, edge: u32, values: &Values) -> Result<(), AllocError>
        requires edge { edge < length self.old }
        requires few { length values.now ≤ 65536 }
        ensures noted { OnOk result (IsNoted edge values.now self.old self.new) }
        ensures count { OnOk result (length self.new ≡ length self.old) }
    {
        let row = &mut self.rows[edge as usize];
        row.note(values.as_slice())
    }

    /// A line for each value that isn't `No`, in order of edge and number.
    pub(crate) fn lines(&self, alloc: Global) -> Result<MessageLines, AllocError>
        requires { length self.now ≤ 16384 }
        ensures { IfOk result (AreLines self.now) }
    {
        let mut lines = Items::new(alloc);
        for edge in 0..self.rows.len() {
            self.push_lines(edge as u32, &mut lines)?;
        }
        Ok(lines)
    }

    /// Puts a line for each value of the edge that isn't `No` behind the lines of the edges before it.
    fn push_lines(&self, edge: u32, lines: &mut MessageLines) -> Result<(), AllocError>
        requires edge { edge < length self.now }
        requires before { AreLinesTo self.now edge 0 lines.old }
        ensures { OnOk result (AreLinesTo self.now (edge + 1) 0 lines.new) }
    {
        let row = self.rows[edge as usize].as_slice();
        for (number, value) in row.iter().enumerate() {
            push_line(edge, number as u32, *value, lines)?;
        }
        Ok(())
    }
}

/// So many empty rows.
fn no_rows(alloc: Global, count: usize) -> Result<Vec<GreatestValues>, AllocError>
    ensures { IfOk result (λ rows. rows.items ≡ replicate count []) }
{
    let mut rows = Vec::with_capacity(alloc, count)?;
    for _ in 0..count {
        rows.push(GreatestValues::new(alloc))?;
    }
    Ok(rows)
}

/// Puts a line for the value behind the others, unless it is `No`.
fn push_line(edge: u32, number: u32, value: K3, lines: &mut MessageLines) -> Result<(), AllocError>
    ensures { OnOk result (lines.new ≡ lines.old ++ line_of edge number value) }
{
    match value {
        K3::No => Ok(()),
        K3::Half | K3::Yes => lines.push(MessageLine {
            edge,
            number,
            value,
        }),
    }
}
