//! The lines of files in which places of a gathered text stand.

ghost use Rattle.std.specs.Prelude.{◌≡◌, ◌+◌, ◌<◌, ◌≤◌, ◌++◌, List, Some, IfNone, IfSome, OnOk, find, length};
ghost use Rattle.std.specs.Prelude.{drop, slice_get};
ghost use Rattle.tv_lex.specs.Parts.{IsMadeOf};
ghost use Rattle.tv_lex.specs.Traced.{Added, Traced};
ghost use Rattle.tv_file_lines.specs.Counts.{IsPartAt};
ghost use Rattle.tv_file_lines.specs.FileLines.{StandsInFile, file_line_text, is_in};

use crate::count::Count;
use crate::numbered::append_numbered;
use std::alloc::AllocError;
use std::marker::Model;
use tv_lex::{Gathered, Part};

/// A line of a file.
#[derive(Clone, Copy, Debug)]
pub struct FileLine<'a> {
    /// The name of the file.
    pub name: &'a str,
    /// The number of the line, counted from 1.
    pub line: usize,
}

/// The lines of files that a gathered text is made of. It keeps how far it has counted: places that come in
/// ascending order take one walk over the text. A contract sees the gathered text.
#[derive(Drop)]
pub struct FileLines<'a> {
    gathered: &'a Gathered,
    part: usize,
    count: Count,
}

impl<'a> Model for FileLines<'a> {
    ghost use Rattle.tv_lex.specs.declared.gatherer.Gathered.{Gathered};
    ghost use Rattle.tv_file_lines.specs.Counts.{IsCountIn};

    ghost Value = { Gathered };

    ghost view = { λ l. l.gathered.now };

    ghost invariant = { λ l. IsCountIn l.gathered.now.bytes.items l.count };
}

fn is_in(place: usize, part: &Part) -> bool
    ensures { result ≡ is_in place part.now }
{
    part.start as usize <= place && place < part.end as usize
}

/// The number of the first part from this one on that has the place.
fn part_from(parts: &[Part], first: usize, place: usize) -> Option<usize>
    ensures found { IfSome result (IsPartAt parts.now place) }
    ensures none { IfNone result (find (is_in place) (drop first parts.now) ≡ None) }
{
    for number in first..parts.len() {
        if is_in(place, &parts[number]) {
            return Some(number);
        }
    }
    None
}

/// The same, and where there is none the first of all parts that has the place.
fn part_at(parts: &[Part], first: usize, place: usize) -> Option<usize>
    ensures found { IfSome result (IsPartAt parts.now place) }
    ensures none { IfNone result (find (is_in place) parts.now ≡ None) }
{
    match part_from(parts, first, place) {
        Some(number) => Some(number),
        None => part_from(parts, 0, place),
    }
}

impl<'a> FileLines<'a> {
    /// The lines of this text's files.
    pub fn of(gathered: &'a Gathered) -> FileLines<'a>
        ensures { result ≡ gathered.now }
    {
        FileLines {
            gathered,
            part: 0,
            count: Count::at(0),
        }
    }

    /// The line of a file in which the byte at a place of the text stands; none for a place behind the text,
    /// and for the line feed behind what an include line gives. Places are counted from 0.
    pub fn line_at(&mut self, place: usize) -> Option<FileLine<'a>>
        ensures same { self.new ≡ self.old }
        ensures found { IfSome result (λ l. (traced : List Traced) → IsMadeOf traced self.old
            → StandsInFile traced place l.name.now l.line) }
        ensures none { IfNone result ((traced : List Traced) → IsMadeOf traced self.old
            → place < length self.old.bytes.items → slice_get traced place ≡ Some Added) }
    {
        let gathered = self.gathered;
        let Some(number) = part_at(&gathered.parts, self.part, place) else {
            return None;
        };
        if place >= gathered.bytes.len() {
            return None;
        }
        let part = &gathered.parts[number];
        self.part = number;
        self.count = self.count.on(&gathered.bytes, part.start as usize, place);
        Some(FileLine {
            name: part.name.as_str(),
            line: part.line as usize + self.count.feeds,
        })
    }
}

/// Appends a line of a file as `NAME:LINE`.
///
/// # Errors
/// Lack of memory.
pub fn append_file_line(out: &mut Vec<u8>, at: &FileLine) -> Result<(), AllocError>
    ensures { OnOk result (out.new.items ≡ out.old.items ++ file_line_text at.now.name.now at.now.line) }
{
    out.extend_from_slice(at.name.as_bytes())?;
    append_numbered(out, b":", at.line)
}
