//! Files in memory.
ghost use Rattle.std.specs.Prelude.{◌≡◌, ◌<◌, ◌≤◌, ◌+◌, ◌⊎◌, ◌↔◌, ◌++◌, min, map, length, take, drop, Option};
ghost use Rattle.std.specs.Prelude.{Some, None, [], IsErr, IfOk, OnOk, OnErr, Contains, IfSome, IfNone};
ghost use Rattle.std.specs.Prelude.{IsSome, IsTrue};
ghost use Rattle.std.specs.List.{zip, position_from};
ghost use Rattle.std.specs.Str.{bytes_eq};
ghost use Rattle.std.specs.String.{string_bytes};
ghost use Rattle.tv_outside.specs.Count.{count_max, counted};
ghost use Rattle.tv_outside.specs.Told.{content_of, AtEnd};

use crate::files::{Failed, Files};
use crate::plan::Plan;
use std::marker::Model;

/// A place in one of the files: the file's index, and how many of its bytes were given.
#[derive(Clone, Copy, Debug)]
pub struct Place {
    file: usize,
    at: usize,
}

/// Files in memory, which tell all their meanings.
///
/// They are steady exactly where no call is to fail and the count of faults can still rise.
#[derive(Debug, Drop)]
pub struct MemFiles {
    names: Vec<String>,
    contents: Vec<Vec<u8>>,
    step: usize,
    place: Option<Place>,
    given: u64,
    begins: u64,
    plan: Plan,
}

impl Model for MemFiles {
    ghost use Rattle.std.specs.Prelude.{◌≡◌, ◌≤◌, ◌<◌, map, length, IsNone};
    ghost use Rattle.std.specs.List.{zip};
    ghost use Rattle.std.specs.String.{string_bytes};
    ghost use Rattle.tv_outside.specs.Memory.{FilesState, left_of, IsWithin};

    ghost Value = { FilesState };

    ghost view = { λ f. record {
      held = zip (map string_bytes f.names.items) (map (λ c. c.items) f.contents.items);
      left = left_of (map (λ c. c.items) f.contents.items) f.place;
      given = f.given;
      begins = f.begins;
      step = f.step;
      fail = f.plan.fail.items;
      calls = f.plan.calls;
      faults = f.plan.faults;
    } };

    ghost invariant = { λ f.
        (1 ≤ f.step)
        × (length f.names.items ≡ length f.contents.items)
        × IsWithin (map (λ c. c.items) f.contents.items) f.place
        × (f.begins ≡ 0 → IsNone f.place) };
}

impl MemFiles {
    ghost use Rattle.std.specs.String.{string_bytes};

    /// Files of these names with these contents, in pairs. Of two pairs with one name the first counts.
    ///
    /// One call of `piece` gives at most `step` bytes. `fail` has the numbers, from 1 on, of the calls of
    /// `begin` and `piece` that are to fail.
    pub fn new(names: Vec<String>, bytes: Vec<Vec<u8>>, step: usize, fail: Vec<u64>) -> MemFiles
        requires pairs { length names.items ≡ length bytes.items }
        requires step { 1 ≤ step }
        ensures { result ≡ record {
          held = zip (map string_bytes names.items) (map (λ c. c.items) bytes.items);
          left = [];
          given = 0;
          begins = 0;
          step = step;
          fail = fail.items;
          calls = 0;
          faults = 0;
        } }
    {
        MemFiles {
            names,
            contents: bytes,
            step,
            place: None,
            given: 0,
            begins: 0,
            plan: Plan::new(fail),
        }
    }

    /// Makes the named file the current one, and says whether there is one.
    fn open(&mut self, name: &str) -> bool
        requires { 0 < self.old.begins }
        ensures found { IsTrue result ↔ IsSome (content_of self.old.held name.now) }
        ensures opened { IfSome (content_of self.old.held name.now)
            (λ bytes. self.new ≡ record self.old { left = bytes; given = 0 }) }
        ensures same { IfNone (content_of self.old.held name.now) (self.new ≡ self.old) }
    {
        let Some(file) = file_of(&self.names, name) else {
            return false;
        };
        self.place = Some(Place { file, at: 0 });
        self.given = 0;
        true
    }
}

impl Files for MemFiles {
    ghost holds = { λ f. Some f.held };

    ghost left = { λ f. Some f.left };

    ghost given = { λ f. f.given };

    ghost begins = { λ f. f.begins };

    ghost faults = { λ f. f.faults };

    ghost steady = { λ f. (f.fail ≡ []) × (f.faults < count_max) };

    ghost use Rattle.std.proofs.Common.{refl};

    ghost steady_below = { λ f steady. steady.1 };

    ghost steady_tells = { λ f steady. refl };

    fn begin(&mut self, name: &str) -> Result<(), Failed>
        ensures fails { IsErr result ↔ (Contains self.old.fail (counted self.old.calls 1)
            ⊎ (content_of self.old.held name.now ≡ None)) }
        ensures ok { OnOk result
            (IfSome (content_of self.old.held name.now) (λ bytes. self.new ≡ record self.old {
              left = bytes;
              given = 0;
              begins = counted self.old.begins 1;
              calls = counted self.old.calls 1;
            })) }
        ensures err { OnErr result (self.new ≡ record self.old {
          begins = counted self.old.begins 1;
          calls = counted self.old.calls 1;
          faults = counted self.old.faults 1;
        }) }
        ensures count { self.old.faults ≤ self.new.faults }
    {
        self.begins = self.begins.saturating_add(1);
        if self.plan.count_call() || !self.open(name) {
            self.plan.count_fault();
            return Err(Failed);
        }
        Ok(())
    }

    fn piece(&mut self, buf: &mut [u8]) -> Result<usize, Failed>
        ensures fails { IsErr result ↔ Contains self.old.fail (counted self.old.calls 1) }
        ensures number { IfOk result
            (λ n. n ≡ min (min (length self.old.left) self.old.step) (length buf.old)) }
        ensures bytes { IfOk result (λ n. buf.new ≡ take n self.old.left ++ drop n buf.old) }
        ensures ok { IfOk result (λ n. self.new ≡ record self.old {
          left = drop n self.old.left;
          given = counted self.old.given n;
          calls = counted self.old.calls 1;
        }) }
        ensures err { OnErr result (self.new ≡ record self.old {
          calls = counted self.old.calls 1;
          faults = counted self.old.faults 1;
        }) }
        ensures same { OnErr result (buf.new ≡ buf.old) }
        ensures count { self.old.faults ≤ self.new.faults }
        ensures end { IfOk result (λ n. 0 < length buf.old → n ≡ 0 → self.old.left ≡ []) }
        ensures unbegun { self.old.begins ≡ 0 → (self.old.left ≡ []) × IfOk result (λ n. n ≡ 0) }
    {
        if self.plan.count_call() {
            self.plan.count_fault();
            return Err(Failed);
        }
        let count = match self.place {
            None => 0,
            Some(place) => {
                let count = give(&self.contents[place.file][place.at..], self.step, buf);
                self.place = Some(Place {
                    file: place.file,
                    at: place.at + count,
                });
                count
            }
        };
        self.given = self.given.saturating_add(count as u64);
        Ok(count)
    }
}

/// The index of the first of these names that is this one.
fn file_of(names: &[String], name: &str) -> Option<usize>
    ensures { result ≡ position_from (λ other. bytes_eq (string_bytes other) name.now) 0 names.now }
{
    names.iter().position(|other| other.as_str() == name)
}

/// Copies as many bytes as there are, at most `step` and at most `buf` has, and gives their number.
fn give(bytes: &[u8], step: usize, buf: &mut [u8]) -> usize
    ensures number { result ≡ min (min (length bytes.now) step) (length buf.old) }
    ensures copied { buf.new ≡ take result bytes.now ++ drop result buf.old }
{
    let count = bytes.len().min(step).min(buf.len());
    buf[..count].copy_from_slice(&bytes[..count]);
    count
}
