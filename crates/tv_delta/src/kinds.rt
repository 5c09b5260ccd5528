//! The three answers.

use tv_model::Update;

/// What is done with a defined predicate at an action.
#[derive(Debug, Drop)]
pub enum Difference {
    /// It stays as it is.
    Keep,
    /// Its definition is evaluated anew after the step.
    Evaluate,
    /// It is updated by a formula over the heap before the step.
    To(Update),
}
