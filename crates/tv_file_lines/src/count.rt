//! Line feeds of a text, counted on from place to place.

ghost use Rattle.std.specs.Prelude.{◌≡◌, ℕ, ◌≤◌, List, length, slice_range};
ghost use Rattle.tv_lex.specs.Parts.{line_feeds};
ghost use Rattle.tv_file_lines.specs.Counts.{IsCountIn};

/// How many line feeds a text has from a place up to another.
#[derive(Clone, Copy, Debug)]
pub struct Count {
    pub start: usize,
    pub end: usize,
    pub feeds: usize,
}

impl Count {
    /// The count of no bytes, at this place.
    pub fn at(place: usize) -> Count
        ensures counts { (text : List ℕ) → place ≤ length text → IsCountIn text result }
        ensures start { result.start ≡ place }
        ensures end { result.end ≡ place }
    {
        Count {
            start: place,
            end: place,
            feeds: 0,
        }
    }

    /// This count where it begins there and doesn't go past the end; else one of no bytes.
    fn usable(self, start: usize, end: usize) -> Count
        requires { start ≤ end }
        ensures counts { (text : List ℕ) → IsCountIn text self → end ≤ length text → IsCountIn text result }
        ensures start { result.start ≡ start }
        ensures end { result.end ≤ end }
    {
        if self.start == start && self.end <= end {
            self
        } else {
            Count::at(start)
        }
    }

    /// The count from `start` up to `end`; where this one began there too, it goes on from its end.
    pub fn on(self, bytes: &[u8], start: usize, end: usize) -> Count
        requires counts { IsCountIn bytes.now self }
        requires order { start ≤ end }
        requires within { end ≤ length bytes.now }
        ensures counts { IsCountIn bytes.now result }
        ensures start { result.start ≡ start }
        ensures end { result.end ≡ end }
    {
        let begun = self.usable(start, end);
        let feeds = begun.feeds + line_feeds(bytes, begun.end, end);
        Count { start, end, feeds }
    }
}

fn line_feeds(bytes: &[u8], start: usize, end: usize) -> usize
    requires order { start ≤ end }
    requires within { end ≤ length bytes.now }
    ensures { result ≡ line_feeds (slice_range bytes.now start end) }
{
    bytes[start..end].iter().filter(|b| **b == b'\n').count()
}
