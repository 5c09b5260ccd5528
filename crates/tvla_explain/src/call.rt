//! The call of the program: its words, its exit code, and the two streams.

ghost use Rattle.std.specs.Prelude.{◌≡◌};
ghost use Rattle.std.specs.Process.{exit_status};
ghost use Rattle.tv_outside.specs.Count.{Rose};
ghost use Rattle.tv_real.specs.Ended.{HasCodeOf, HasWords, StreamsStop};
ghost use Rattle.tv_explain.specs.Faults.{code_of};
ghost use Rattle.tv_explain_words.specs.Words.{SpellsNothing};
ghost use Rattle.tv_words.specs.Words.{words_of};
ghost use Rattle.tvla_explain.specs.Ended.{EndsSo};

use std::alloc::{AllocError, Global};
use std::env::Args;
use std::io;
use std::process::ExitCode;
use tv_explain::{Ending, explain};
use tv_outside::{Files, Sink};
use tv_real::{Streams, arguments, behind_the_name, without_memory};
use tv_status::Teller;

/// Does the program's job with its arguments, of which the first is its name, and gives the exit code.
/// Arguments that can't be told as text spell no command.
pub fn called<F: Files, O: Sink, E: Sink>(
    alloc: Global,
    args: io::Result<Args>,
    files: &mut F,
    streams: &mut Streams<O, E>,
) -> ExitCode
    ensures ended { HasCodeOf code_of (exit_status result) (EndsSo args (F.holds files.old)
        (Rose (F.faults files.old) (F.faults files.new)) (F.steady files.old)
        (Rose (O.faults streams.old.out) (O.faults streams.new.out))
        (Rose (E.faults streams.old.err) (E.faults streams.new.err))
        (F.begins files.old) (F.begins files.new)
        (O.taken streams.old.out) (O.taken streams.new.out)
        (E.taken streams.old.err) (E.taken streams.new.err)) }

    // A stream that has failed is given nothing more, and words that spell no command have nothing read.
    ensures stops { StreamsStop (O.failures streams.old.out) (O.failures streams.new.out)
        (O.since streams.new.out) (E.failures streams.old.err) (E.failures streams.new.err)
        (E.since streams.new.err) }
    ensures unread { HasWords args (λ words. SpellsNothing (words_of words)) → files.new ≡ files.old }
{
    ExitCode::from(ended(alloc, args, files, streams).code())
}

/// Does the program's job, and tells how it ended.
fn ended<F: Files, O: Sink, E: Sink>(
    alloc: Global,
    args: io::Result<Args>,
    files: &mut F,
    streams: &mut Streams<O, E>,
) -> Ending
    ensures ended { EndsSo args (F.holds files.old)
        (Rose (F.faults files.old) (F.faults files.new)) (F.steady files.old)
        (Rose (O.faults streams.old.out) (O.faults streams.new.out))
        (Rose (E.faults streams.old.err) (E.faults streams.new.err))
        (F.begins files.old) (F.begins files.new)
        (O.taken streams.old.out) (O.taken streams.new.out)
        (E.taken streams.old.err) (E.taken streams.new.err) result }
    ensures stops { StreamsStop (O.failures streams.old.out) (O.failures streams.new.out)
        (O.since streams.new.out) (E.failures streams.old.err) (E.failures streams.new.err)
        (E.since streams.new.err) }
    ensures unread { HasWords args (λ words. SpellsNothing (words_of words)) → files.new ≡ files.old }
{
    match arguments(alloc, args) {
        Ok(all) => explain(
            alloc,
            behind_the_name(&all),
            files,
            &mut streams.out,
            &mut streams.err,
        ),
        Err(AllocError) => Ending::As(without_memory(&mut streams.err, Teller::Explainer)),
    }
}
