//! A law of completed structures: a function that does nothing, and whose contract is the law.

ghost use Rattle.tv_complete.specs.Completion.{CompletionsAreOne};

/// A structure is completed in one way at most.
pub fn completions_are_one()
    ensures { CompletionsAreOne }
{}
