//! Which calls of a version in memory fail.
ghost use Rattle.std.specs.Prelude.{◌≡◌, ◌+◌, ◌↔◌, IsTrue, Contains};
ghost use Rattle.tv_outside.specs.Count.{counted};

/// Counts calls from 1 on, and the faults among them. A count at its last value stays there.
#[derive(Debug, Drop)]
pub struct Plan {
    fail: Vec<u64>,
    calls: u64,
    faults: u64,
}

impl Plan {
    /// A plan by which the calls of these numbers fail.
    pub fn new(fail: Vec<u64>) -> Plan
        ensures fail { result.fail.items ≡ fail.items }
        ensures calls { result.calls ≡ 0 }
        ensures faults { result.faults ≡ 0 }
    {
        Plan {
            fail,
            calls: 0,
            faults: 0,
        }
    }

    /// Counts a call, and says whether its number is listed.
    pub fn count_call(&mut self) -> bool
        ensures listed { IsTrue result ↔ Contains self.old.fail.items (counted self.old.calls 1) }
        ensures call { self.new ≡ record self.old { calls = counted self.old.calls 1 } }
    {
        self.calls = self.calls.saturating_add(1);
        self.fail.contains(&self.calls)
    }

    /// Counts a fault.
    pub fn count_fault(&mut self)
        ensures { self.new ≡ record self.old { faults = counted self.old.faults 1 } }
    {
        self.faults = self.faults.saturating_add(1);
    }
}
