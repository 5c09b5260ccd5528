//! Whole texts into a sink.
ghost use Rattle.std.specs.Prelude.{◌≡◌, ◌≤◌, OnOk, OnErr};
ghost use Rattle.std.specs.List.{flat_map};
ghost use Rattle.tv_outside.specs.Count.{Rose, FailedLast};
ghost use Rattle.tv_outside.specs.Told.{appended, TookFront};

use crate::files::Failed;
use crate::sink::Sink;

/// Gives all of `bytes` to the sink. It takes no memory.
///
/// # Errors
/// `Failed` comes only where a call of `sink` failed, and then a front of `bytes` was taken. It was the last
/// call: a sink that has failed is given nothing more.
pub fn write_all<S: Sink>(sink: &mut S, bytes: &[u8]) -> Result<(), Failed>
    ensures count { S.faults sink.old ≤ S.faults sink.new }
    ensures all { OnOk result (S.taken sink.new ≡ appended (S.taken sink.old) bytes.now) }
    ensures failed { OnErr result (Rose (S.faults sink.old) (S.faults sink.new)) }
    ensures front { OnErr result (TookFront (S.taken sink.old) (S.taken sink.new) bytes.now) }
    ensures no_failure { OnOk result (S.failures sink.new ≡ S.failures sink.old) }
    ensures failed_last { OnErr result
        (FailedLast (S.failures sink.old) (S.failures sink.new) (S.since sink.new)) }
{
    let mut rest = bytes;
    while !rest.is_empty() {
        let count = sink.put(rest)?;
        rest = &rest[count..];
    }
    Ok(())
}

/// Gives all of these parts to the sink, one after the other. It takes no memory.
///
/// # Errors
/// `Failed` comes only where a call of `sink` failed, and then a front of the joined parts was taken. It was
/// the last call: a sink that has failed is given nothing more.
pub fn write_parts<S: Sink>(sink: &mut S, parts: &[&[u8]]) -> Result<(), Failed>
    ensures count { S.faults sink.old ≤ S.faults sink.new }
    ensures all { OnOk result (S.taken sink.new
        ≡ appended (S.taken sink.old) (flat_map (λ part. part.now) parts.now)) }
    ensures failed { OnErr result (Rose (S.faults sink.old) (S.faults sink.new)) }
    ensures front { OnErr result (TookFront (S.taken sink.old) (S.taken sink.new)
        (flat_map (λ part. part.now) parts.now)) }
    ensures no_failure { OnOk result (S.failures sink.new ≡ S.failures sink.old) }
    ensures failed_last { OnErr result
        (FailedLast (S.failures sink.old) (S.failures sink.new) (S.since sink.new)) }
{
    for part in parts {
        write_all(sink, part)?;
    }
    Ok(())
}
