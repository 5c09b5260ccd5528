//! The text of a structure, put together in room that is kept for the next one.

ghost use Rattle.std.specs.Prelude.{ℕ, ◌≡◌, ◌++◌, ◌+◌, ◌^◌, ◌<◌, ◌≤◌, [], length, take, OnOk};
ghost use Rattle.tv_tvs.specs.Rows.{word_text};

use crate::individuals::Individuals;
use crate::row::{ROOM, place_word};
use crate::short::ShortText;
use std::alloc::{AllocError, Global};
use std::marker::Model;
use tv_row::Word;

/// How much room is made beyond what is wanted.
const MORE: usize = 4096;

/// A text that is put together from pieces. A contract sees the text.
#[derive(Debug, Drop)]
pub(crate) struct Draft {
    room: Vec<u8>,
    end: usize,
}

impl Model for Draft {
    ghost use Rattle.std.specs.Prelude.{ℕ, List, ◌≤◌, length, take};

    ghost Value = { List ℕ };

    ghost view = { λ d. take d.end d.room.items };

    ghost invariant = { λ d. d.end ≤ length d.room.items };
}

/// Makes room for that many bytes and more, and keeps those that are there.
fn widen(room: &mut Vec<u8>, wanted: usize) -> Result<(), AllocError>
    requires { length room.old.items ≤ wanted }
    ensures kept { (n : ℕ) → n ≤ length room.old.items → take n room.new.items ≡ take n room.old.items }
    ensures longer { length room.old.items ≤ length room.new.items }
    ensures long { OnOk result (wanted ≤ length room.new.items) }
{
    room.resize(wanted.saturating_add(MORE), 0)
}

/// Sees to it that there is room for `count` bytes behind the first `end`, which stay.
fn make_room(room: &mut Vec<u8>, end: usize, count: usize) -> Result<(), AllocError>
    requires end { end ≤ length room.old.items }
    requires count { count < 2 ^ 63 }
    ensures kept { take end room.new.items ≡ take end room.old.items }
    ensures longer { length room.old.items ≤ length room.new.items }
    ensures long { OnOk result (end + count ≤ length room.new.items) }
{
    if room.len() - end < count {
        widen(room, end + count)
    } else {
        Ok(())
    }
}

impl Draft {
    /// The empty text. It takes no memory.
    pub fn new(alloc: Global) -> Draft
        ensures { result ≡ [] }
    {
        Draft {
            room: Vec::new(alloc),
            end: 0,
        }
    }

    /// Begins anew with the empty text.
    pub fn clear(&mut self)
        ensures { self.new ≡ [] }
    {
        self.end = 0;
    }

    /// Puts a text behind the others.
    #[inline(always)]
    pub fn put(&mut self, text: &ShortText) -> Result<(), AllocError>
        ensures { OnOk result (self.new ≡ self.old ++ text.now) }
    {
        if self.room.len() - self.end < 8 {
            return self.put_beyond(text);
        }
        self.end = text.place(self.room.as_mut_slice(), self.end);
        Ok(())
    }

    /// Puts a text behind the others, in further room.
    fn put_beyond(&mut self, text: &ShortText) -> Result<(), AllocError>
        ensures { OnOk result (self.new ≡ self.old ++ text.now) }
    {
        make_room(&mut self.room, self.end, 8)?;
        self.end = text.place(self.room.as_mut_slice(), self.end);
        Ok(())
    }

    /// Puts bytes behind the others.
    #[inline(always)]
    pub fn put_bytes(&mut self, bytes: &[u8]) -> Result<(), AllocError>
        ensures { OnOk result (self.new ≡ self.old ++ bytes.now) }
    {
        if self.room.len() - self.end < bytes.len() {
            return self.put_bytes_beyond(bytes);
        }
        let end = self.end + bytes.len();
        self.room.as_mut_slice()[self.end..end].copy_from_slice(bytes);
        self.end = end;
        Ok(())
    }

    /// Puts bytes behind the others, in further room.
    fn put_bytes_beyond(&mut self, bytes: &[u8]) -> Result<(), AllocError>
        ensures { OnOk result (self.new ≡ self.old ++ bytes.now) }
    {
        make_room(&mut self.room, self.end, bytes.len())?;
        let end = self.end + bytes.len();
        self.room.as_mut_slice()[self.end..end].copy_from_slice(bytes);
        self.end = end;
        Ok(())
    }

    /// Puts down those of 64 individuals from `first` on whose values aren't `No`, each behind the prefix,
    /// with the value.
    pub fn put_word(
        &mut self,
        names: &Individuals,
        prefix: &ShortText,
        first: u32,
        values: Word,
    ) -> Result<(), AllocError>
        requires { first + 64 ≤ 256 }
        ensures { OnOk result (self.new ≡ self.old ++ word_text prefix.now first values) }
    {
        make_room(&mut self.room, self.end, ROOM)?;
        let room = &mut self.room.as_mut_slice()[self.end..];
        let count = place_word(room, names, prefix, first, values);
        self.end += count;
        Ok(())
    }

    /// How many bytes the text has.
    pub fn len(&self) -> usize
        ensures { result ≡ length self.now }
    {
        self.end
    }

    /// Keeps that many bytes of the text, and no more.
    pub fn cut(&mut self, len: usize)
        requires { len ≤ length self.old }
        ensures { self.new ≡ take len self.old }
    {
        self.end = len;
    }

    /// The text.
    pub fn as_slice(&self) -> &[u8]
        ensures { result.now ≡ self.now }
    {
        &self.room.as_slice()[..self.end]
    }
}
