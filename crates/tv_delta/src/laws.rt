//! A law of differencing: a function that does nothing, and whose contract is the law.

ghost use Rattle.tv_delta.specs.Laws.{DepthIsEnough};

/// The limit on definitions that are opened one inside the other, the number of predicates, decides
/// nothing: more depth changes no delta.
pub fn depth_is_enough()
    ensures { DepthIsEnough }
{}
