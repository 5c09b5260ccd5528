//! The arguments of a program, and its two streams.

ghost use Rattle.std.specs.Prelude.{◌≡◌, ◌⊎◌, drop, IfOk};
ghost use Rattle.std.specs.Vec.Iter.{into_iter_items};
ghost use Rattle.tv_outside.specs.Count.{Rose};
ghost use Rattle.tv_outside.specs.Told.{TookFront, appended};
ghost use Rattle.tv_status.specs.Delivery.{StopsAtFailure};
ghost use Rattle.tv_real.specs.Ended.{memory_text};
ghost use Rattle.tv_real.specs.Ended.{AreArguments};

use crate::real_sink::RealSink;
use std::alloc::{AllocError, Global};
use std::env::Args;
use std::io;
use std::io::{ErrorKind, Stderr, Stdout};
use tv_outside::Sink;
use tv_status::{Status, Teller, write_told};

/// The streams that a call gives its texts to.
#[derive(Drop)]
pub struct Streams<O, E> {
    /// Takes what was asked for.
    pub out: O,
    /// Takes why it isn't given.
    pub err: E,
}

/// Standard output and standard error, each of a type of its own.
pub fn standard(rt: &HostRuntime) -> Streams<RealSink<Stdout>, RealSink<Stderr>>
    ensures out { result.out.faults ≡ 0 }
    ensures err { result.err.faults ≡ 0 }
{
    Streams {
        out: RealSink::new(rt.stdout()),
        err: RealSink::new(rt.stderr()),
    }
}

/// The arguments in order, none where they can't be told as text.
///
/// # Errors
/// Lack of memory, also where it kept the arguments from being told.
pub fn arguments(alloc: Global, args: io::Result<Args>) -> Result<Vec<String>, AllocError>
    ensures { IfOk result (λ all. AreArguments args all.items) }
{
    match args {
        Ok(args) => collected(alloc, args),
        Err(error) if error.kind() == ErrorKind::OutOfMemory => Err(AllocError),
        Err(_) => Ok(Vec::new(alloc)),
    }
}

fn collected(alloc: Global, args: Args) -> Result<Vec<String>, AllocError>
    ensures { IfOk result (λ all. all.items ≡ into_iter_items args) }
{
    let mut all = Vec::new(alloc);
    for word in args {
        all.push(word)?;
    }
    Ok(all)
}

/// All but the first of the arguments, which is the program's name.
pub fn behind_the_name(all: &[String]) -> &[String]
    ensures { result.now ≡ drop 1 all.now }
{
    match all {
        [] => all,
        [_, words @ ..] => words,
    }
}

/// Tells that there is no memory, not even for the words.
pub fn without_memory<E: Sink>(err: &mut E, teller: Teller) -> Status
    ensures told { ((result ≡ Status.Memory)
        × (E.taken err.new ≡ appended (E.taken err.old) (memory_text teller)))
        ⊎ ((result ≡ Status.WriteFault) × Rose (E.faults err.old) (E.faults err.new)
        × TookFront (E.taken err.old) (E.taken err.new) (memory_text teller)) }
    ensures stops { StopsAtFailure (E.failures err.old) (E.failures err.new) (E.since err.new) }
{
    match write_told(err, teller, b"", Status::Memory) {
        Ok(()) => Status::Memory,
        Err(_) => Status::WriteFault,
    }
}
