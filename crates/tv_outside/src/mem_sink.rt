//! A sink in memory.
ghost use Rattle.std.specs.Prelude.{◌≡◌, ◌<◌, ◌≤◌, ◌⊎◌, ◌↔◌, ◌-◌, ◌++◌, min, length, take, Some, [], IsErr};
ghost use Rattle.std.specs.Prelude.{IfOk, OnErr, Contains};
ghost use Rattle.tv_outside.specs.Count.{counted};

use crate::files::Failed;
use crate::plan::Plan;
use crate::sink::Sink;
use std::alloc::{AllocError, Global};
use std::marker::Model;

/// A sink in memory, which tells all its meanings.
#[derive(Debug, Drop)]
pub struct MemSink {
    taken: Vec<u8>,
    room: usize,
    step: usize,
    plan: Plan,
    failures: u64,
    since: u64,
}

impl Model for MemSink {
    ghost use Rattle.std.specs.Prelude.{◌≡◌, ◌≤◌, ◌+◌};
    ghost use Rattle.std.specs.Vec.{vec_len, vec_capacity};
    ghost use Rattle.tv_outside.specs.Memory.{SinkState};

    ghost Value = { SinkState };

    ghost view = { λ s. record {
      taken = s.taken.items;
      room = s.room;
      step = s.step;
      fail = s.plan.fail.items;
      calls = s.plan.calls;
      faults = s.plan.faults;
      failures = s.failures;
      since = s.since;
    } };

    ghost invariant = { λ s. (1 ≤ s.step) × (vec_len s.taken + s.room ≤ vec_capacity s.taken) };
}

impl MemSink {
    /// A sink with room for `room` bytes, which it takes from memory here and nowhere else.
    ///
    /// One `put` takes at most `step` bytes. `fail` has the numbers, from 1 on, of the calls of `put` that
    /// are to fail.
    pub fn new(
        alloc: Global,
        step: usize,
        fail: Vec<u64>,
        room: usize,
    ) -> Result<MemSink, AllocError>
        requires { 1 ≤ step }
        ensures { IfOk result (λ sink. sink ≡ record {
          taken = [];
          room = room;
          step = step;
          fail = fail.items;
          calls = 0;
          faults = 0;
          failures = 0;
          since = 0;
        }) }
    {
        Ok(MemSink {
            taken: Vec::with_capacity(alloc, room)?,
            room,
            step,
            plan: Plan::new(fail),
            failures: 0,
            since: 0,
        })
    }

    /// The bytes taken so far.
    pub fn taken(&self) -> &[u8]
        ensures { result.now ≡ self.now.taken }
    {
        &self.taken
    }
}

impl Sink for MemSink {
    ghost taken = { λ s. Some s.taken };

    ghost faults = { λ s. s.faults };

    ghost failures = { λ s. s.failures };

    ghost since = { λ s. s.since };

    fn put(&mut self, bytes: &[u8]) -> Result<usize, Failed>
        ensures fails { IsErr result ↔ (Contains self.old.fail (counted self.old.calls 1)
            ⊎ ((0 < length bytes.now) × (self.old.room ≡ 0))) }
        ensures number { IfOk result (λ n. n ≡ min (min (length bytes.now) self.old.step) self.old.room) }
        ensures ok { IfOk result (λ n. self.new ≡ record self.old {
          taken = self.old.taken ++ take n bytes.now;
          room = self.old.room - n;
          calls = counted self.old.calls 1;
          since = counted self.old.since 1;
        }) }
        ensures err { OnErr result (self.new ≡ record self.old {
          calls = counted self.old.calls 1;
          faults = counted self.old.faults 1;
          failures = counted self.old.failures 1;
          since = 0;
        }) }
        ensures count { self.old.faults ≤ self.new.faults }
        ensures some { IfOk result (λ n. 0 < length bytes.now → 0 < n) }
    {
        let listed = self.plan.count_call();
        if listed || (self.room == 0 && !bytes.is_empty()) {
            self.plan.count_fault();
            self.failures = self.failures.saturating_add(1);
            self.since = 0;
            return Err(Failed);
        }
        let count = bytes.len().min(self.step).min(self.room);
        self.taken.extend_from_slice(&bytes[..count]).unwrap();
        self.room -= count;
        self.since = self.since.saturating_add(1);
        Ok(count)
    }
}
