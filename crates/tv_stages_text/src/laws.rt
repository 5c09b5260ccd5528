//! Laws about recorded steps. Each function does nothing of its own: its clause is what it shows.

ghost use Rattle.tv_stages_text.specs.Laws.{SlowStepsAreOver};

/// All structures that are recorded of a step of a structure over the program's predicates are over these.
pub fn slow_steps_are_over()
    ensures { SlowStepsAreOver }
{}
