//! Laws of what is recorded of an abstract step. Each function does nothing of its own: its clauses are what
//! it shows.

ghost use Rattle.tv_stages_laws.specs.Laws.{SlowStepsAreSteps, StagesEndInResults};

/// The results at the end of what is recorded of a step are those of the abstract step.
pub fn slow_steps_are_steps()
    ensures { SlowStepsAreSteps }
{}

/// The results of an abstract step are exactly the structures that the recorded stages end in, whatever was
/// recorded.
pub fn stages_end_in_results()
    ensures { StagesEndInResults }
{}
