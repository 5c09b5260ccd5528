//! A place that takes bytes.
ghost use Rattle.std.specs.Prelude.{◌≡◌, ℕ, ◌<◌, ◌≤◌, List, length, take, Option, IfOk, OnOk, OnErr};
ghost use Rattle.tv_outside.specs.Count.{counted, Rose, FailedLast};
ghost use Rattle.tv_outside.specs.Told.{appended};

use crate::files::Failed;

/// A place that takes bytes, some at a time.
pub trait Sink {
    /// The bytes taken so far, where that is told.
    ghost taken: { Self → Option (List ℕ) };

    /// How many calls have failed.
    ghost faults: { Self → ℕ };

    /// How many calls of `put` have answered `Failed`. Unlike `faults`, it rises by exactly one for each of
    /// them.
    ghost failures: { Self → ℕ };

    /// How many calls of `put` have answered `Ok` since the last one that answered `Failed`.
    ghost since: { Self → ℕ };

    /// Takes a front of `bytes` and gives its length, which is at least 1 where `bytes` isn't empty. At
    /// `Failed` nothing was taken.
    fn put(&mut self, bytes: &[u8]) -> Result<usize, Failed>
        ensures count { faults self.old ≤ faults self.new }
        ensures failed { OnErr result (Rose (faults self.old) (faults self.new)) }
        ensures fits { IfOk result (λ n. n ≤ length bytes.now) }
        ensures some { IfOk result (λ n. 0 < length bytes.now → 0 < n) }
        ensures front { IfOk result (λ n. taken self.new ≡ appended (taken self.old) (take n bytes.now)) }
        ensures nothing { OnErr result (taken self.new ≡ taken self.old) }

        ensures no_failure { OnOk result (failures self.new ≡ failures self.old) }
        ensures since { OnOk result (since self.new ≡ counted (since self.old) 1) }
        ensures failed_last { OnErr result
            (FailedLast (failures self.old) (failures self.new) (since self.new)) };
}
