//! Writers of the system, of whose content nothing is told.
ghost use Rattle.std.specs.Prelude.{◌≡◌, ℕ, ◌<◌, ◌≤◌, None, length, take, IfOk, OnOk, OnErr};
ghost use Rattle.std.specs.Io.KnownBytes.{Appends};
ghost use Rattle.tv_outside.specs.Count.{counted, Rose, FailedLast};
ghost use Rattle.tv_outside.specs.Told.{appended};
ghost use Rattle.tv_real.specs.Writing.{AppendsFront};

use std::io::Write;
use tv_outside::{Failed, Sink};

/// A sink over a writer, flushed at every `put`. It tells nothing of content, since a writer of the system
/// doesn't; what a writer takes that tells it is said of each call.
#[derive(Drop)]
pub struct RealSink<W> {
    writer: W,
    faults: u64,
    failures: u64,
    since: u64,
}

impl<W: Write> RealSink<W> {
    /// A sink over this writer.
    pub(crate) fn new(writer: W) -> RealSink<W>
        ensures faults { result.faults ≡ 0 }
        ensures failures { result.failures ≡ 0 }
        ensures since { result.since ≡ 0 }
    {
        RealSink {
            writer,
            faults: 0,
            failures: 0,
            since: 0,
        }
    }

    /// Counts an answer of `put`, which is the one given.
    fn answer(&mut self, given: Result<usize, Failed>) -> Result<usize, Failed>
        ensures same { result ≡ given }
        ensures faults { self.new.faults ≡ self.old.faults }
        ensures no_failure { OnOk given (self.new.failures ≡ self.old.failures) }
        ensures since { OnOk given (self.new.since ≡ counted self.old.since 1) }
        ensures failed_last { OnErr given (FailedLast self.old.failures self.new.failures self.new.since) }
        ensures writer { self.new.writer ≡ self.old.writer }
    {
        match given {
            Ok(_) => self.since = self.since.saturating_add(1),
            Err(_) => {
                self.failures = self.failures.saturating_add(1);
                self.since = 0;
            }
        }
        given
    }

    fn count_fault(&mut self)
        ensures count { self.old.faults ≤ self.new.faults }
        ensures rose { Rose self.old.faults self.new.faults }
        ensures failures { self.new.failures ≡ self.old.failures }
        ensures since { self.new.since ≡ self.old.since }
        ensures writer { self.new.writer ≡ self.old.writer }
    {
        self.faults = self.faults.saturating_add(1);
    }

    /// Gives the writer these bytes until a write fails or takes nothing, after a short write those that
    /// follow, and gives the number of those taken.
    fn write_front(&mut self, bytes: &[u8]) -> usize
        ensures front { result ≤ length bytes.now }
        ensures count { self.old.faults ≤ self.new.faults }
        ensures stopped { result < length bytes.now → Rose self.old.faults self.new.faults }
        ensures failures { self.new.failures ≡ self.old.failures }
        ensures since { self.new.since ≡ self.old.since }
        ensures taken { Appends (W.contents self.old.writer) (W.contents self.new.writer)
            (take result bytes.now) }
    {
        let mut taken = 0;
        while taken < bytes.len() {
            match self.writer.write(&bytes[taken..]) {
                Ok(count) if count > 0 => taken += count,
                _ => {
                    self.count_fault();
                    return taken;
                }
            }
        }
        taken
    }
}

impl<W: Write> Sink for RealSink<W> {
    ghost taken = { λ s. None };

    ghost faults = { λ s. s.faults };

    ghost failures = { λ s. s.failures };

    ghost since = { λ s. s.since };

    fn put(&mut self, bytes: &[u8]) -> Result<usize, Failed>
        ensures count { self.old.faults ≤ self.new.faults }
        ensures failed { OnErr result (Rose self.old.faults self.new.faults) }
        ensures fits { IfOk result (λ n. n ≤ length bytes.now) }
        ensures some { IfOk result (λ n. 0 < length bytes.now → 0 < n) }
        ensures front { IfOk result (λ n. None ≡ appended None (take n bytes.now)) }

        // What the writer takes is what is said to be taken.
        ensures taken { IfOk result (λ n. Appends (W.contents self.old.writer) (W.contents self.new.writer)
            (take n bytes.now)) }

        // Where it failed the writer took a front, once, of which no more is told.
        ensures part { OnErr result (AppendsFront (W.contents self.old.writer)
            (W.contents self.new.writer) bytes.now) }

        ensures no_failure { OnOk result (self.new.failures ≡ self.old.failures) }
        ensures since { OnOk result (self.new.since ≡ counted self.old.since 1) }
        ensures failed_last { OnErr result (FailedLast self.old.failures self.new.failures self.new.since) }
    {
        let taken = self.write_front(bytes);
        if self.writer.flush().is_err() {
            self.count_fault();
            return self.answer(Err(Failed));
        }
        if taken == 0 && !bytes.is_empty() {
            return self.answer(Err(Failed));
        }
        self.answer(Ok(taken))
    }
}
