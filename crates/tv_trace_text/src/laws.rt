//! Laws of written traces: functions that do nothing, and whose contracts are the laws.

ghost use Rattle.tv_trace_text.specs.Laws.{TracesAreReadAgain};

/// What is written of moves on a program is read as these moves again.
pub fn traces_are_read_again()
    ensures { TracesAreReadAgain }
{}
