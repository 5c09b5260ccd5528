//! Flags of individuals, kept as a row of truth values none of which is certain.

ghost use Rattle.std.specs.Prelude.{◌≡◌, ◌<◌, ◌≤◌, false, length, map, replicate, if◌then◌else◌};
ghost use Rattle.std.specs.Prelude.{slice_index_or, slice_set, ◌+◌};
ghost use Rattle.std.specs.List.{range_with_len};
ghost use Rattle.std.specs.Cmp.Lexicographic.{slice_cmp};
ghost use Rattle.std.specs.Ordering.{bool_cmp};
ghost use Rattle.tv_kleene.specs.declared.K3.TheVariants.{No, Half};
ghost use Rattle.tv_struct.specs.StructureRows.{flag_value};
ghost use Rattle.tv_structure_form.specs.TableForm.{selected};

use std::cmp::Ordering;
use std::marker::Model;
use tv_kleene::K3;
use tv_row::{Drawing, HalfRow, Row};

/// A flag for each of up to 256 individuals: `Half` in the row where it is true, else `No`.
#[derive(Debug, Drop)]
pub struct Summaries {
    row: HalfRow,
}

impl Model for Summaries {
    ghost use Rattle.std.specs.Prelude.{List, Bool};
    ghost use Rattle.tv_struct.specs.StructureRows.{flags_of};

    ghost Value = { List Bool };

    ghost view = { λ f. flags_of f.row };

    ghost use Rattle.std.specs.Prelude.{◌≡◌, map};
    ghost use Rattle.tv_struct.specs.StructureRows.{flag_value};

    ghost invariant = { λ f. f.row ≡ map flag_value (flags_of f.row) };
}

/// `Half` for a true flag, else `No`.
fn value_of(on: bool) -> K3
    ensures { result ≡ flag_value on }
{
    if on { K3::Half } else { K3::No }
}

impl Summaries {
    /// `size` flags, all false.
    pub fn none(size: u32) -> Summaries
        requires { size ≤ 256 }
        ensures { result ≡ replicate size false }
    {
        Summaries {
            row: HalfRow::of(&Row::of(size, K3::No)),
        }
    }

    /// A copy: the flags that these are.
    pub fn copied(&self) -> Summaries
        ensures { result ≡ self.now }
    {
        Summaries {
            row: self.row.copied(),
        }
    }

    /// The flag of the individual `u`.
    pub fn get(&self, u: u32) -> bool
        requires { u < length self.now }
        ensures { result ≡ slice_index_or self.now u false }
    {
        self.row.as_row().get(u) != K3::No
    }

    /// Puts the flag of the individual `u`, and changes nothing else.
    pub fn put(&mut self, u: u32, on: bool)
        requires { u < length self.old }
        ensures { self.new ≡ slice_set self.old u on }
    {
        let mut row = self.row.as_row();
        row.set(u, value_of(on));
        self.row = HalfRow::of(&row);
    }

    /// The flags at the origins, in their order, and false for an origin past the end.
    pub fn drawn(&self, drawing: &Drawing) -> Summaries
        requires { drawing.now.columns ≡ length self.now }
        ensures { result ≡ selected false self.now drawing.now.origins }
    {
        Summaries {
            row: HalfRow::of(&self.row.as_row().drawn(drawing)),
        }
    }

    /// These flags, and one more behind them that is false.
    pub fn extended(&self) -> Summaries
        requires { length self.now < 256 }
        ensures { result ≡ selected false self.now (range_with_len 0 (length self.now + 1)) }
    {
        Summaries {
            row: self.row.extended(),
        }
    }

    /// Of each individual `Half` where its flag is true, else `No`.
    pub fn as_row(&self) -> Row
        ensures { result ≡ map flag_value self.now }
    {
        self.row.as_row()
    }

    /// Compares flag by flag, with false < true.
    pub fn compare(&self, other: &Summaries) -> Ordering
        requires { length self.now ≡ length other.now }
        ensures { result ≡ slice_cmp bool_cmp self.now other.now }
    {
        self.row.compare(&other.row)
    }
}
