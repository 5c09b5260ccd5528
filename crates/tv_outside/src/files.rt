//! Files by name, read piece by piece.
ghost use Rattle.std.specs.Prelude.{◌≡◌, ℕ, ◌<◌, ◌≤◌, List, length, take, Option, IsOk, IsSome, IfOk, OnOk};
ghost use Rattle.std.specs.Prelude.{OnErr};
ghost use Rattle.tv_outside.specs.Count.{count_max, counted, Rose};
ghost use Rattle.tv_outside.specs.Told.{Held, HoldsName, BeginsAt, GaveFront, AtEnd};

use thiserror::Error;

/// A call of the outside failed. The object that failed counts it.
#[derive(Clone, Copy, Debug, PartialEq, Eq, Error)]
#[error("a call of the outside failed")]
pub struct Failed;

/// Files by name, of which one at a time is read from its first byte on.
pub trait Files {
    /// What each name holds, where that is told. No call changes it.
    ghost holds: { Self → Option Held };

    /// What is left of the file that was begun last, where that is told.
    ghost left: { Self → Option (List ℕ) };

    /// How many bytes `piece` has given since the last `begin` that answered `Ok`.
    ghost given: { Self → ℕ };

    /// How many times `begin` was called.
    ghost begins: { Self → ℕ };

    /// How many calls have failed.
    ghost faults: { Self → ℕ };

    /// The object tells what its names hold and fails at none of them.
    ghost steady: { Self → Type 0 };

    /// Makes the named file the current one, at its first byte. A name that doesn't exist is a failure.
    fn begin(&mut self, name: &str) -> Result<(), Failed>
        ensures count { faults self.old ≤ faults self.new }
        ensures failed { OnErr result (Rose (faults self.old) (faults self.new)) }
        ensures holds { holds self.new ≡ holds self.old }
        ensures begins { begins self.new ≡ counted (begins self.old) 1 }

        ensures begun { OnOk result (BeginsAt (holds self.old) name.now (left self.new)) }
        ensures none_given { OnOk result (given self.new ≡ 0) }
        ensures given { OnErr result (given self.new ≡ given self.old) }

        ensures steady { steady self.old → OnOk result (steady self.new) }
        ensures held { steady self.old → HoldsName (holds self.old) name.now
            → IsOk result × (faults self.new ≡ faults self.old) };

    /// Fills a front of `buf` with the next bytes of the current file and gives their number. For a `buf`
    /// that isn't empty, 0 means the end of the file. Before the first `begin` nothing is left.
    fn piece(&mut self, buf: &mut [u8]) -> Result<usize, Failed>
        ensures count { faults self.old ≤ faults self.new }
        ensures failed { OnErr result (Rose (faults self.old) (faults self.new)) }
        ensures holds { holds self.new ≡ holds self.old }
        ensures begins { begins self.new ≡ begins self.old }

        ensures fits { IfOk result (λ n. n ≤ length buf.old) }
        ensures bytes { IfOk result (λ n. GaveFront (left self.old) (left self.new) (take n buf.new)) }
        ensures end { IfOk result (λ n. 0 < length buf.old → n ≡ 0 → AtEnd (left self.old)) }
        ensures unbegun { begins self.old ≡ 0 → AtEnd (left self.old) × IfOk result (λ n. n ≡ 0) }
        ensures given { IfOk result (λ n. given self.new ≡ counted (given self.old) n) }
        ensures none_given { OnErr result (given self.new ≡ given self.old) }

        ensures steady { steady self.old → OnOk result (steady self.new) }
        ensures reads { steady self.old → IsOk result × (faults self.new ≡ faults self.old) };

    /// The count of a steady object can still rise.
    ghost steady_below: { (files : Self) → steady files → faults files < count_max };

    /// A steady object tells what its names hold.
    ghost steady_tells: { (files : Self) → steady files → IsSome (holds files) };
}
