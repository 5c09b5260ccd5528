//! Laws of finite differencing: functions that do nothing, and whose contracts are the laws.

ghost use Rattle.tv_delta_laws.specs.Laws.{SimplifyingKeepsTruth, PuttingInKeepsTruth, UpdatesTellTheTruth};
ghost use Rattle.tv_delta_laws.specs.Laws.{KeptPredicatesStay, RunsAreDifferenced, DifferencedIsValid};

use tv_concrete::truth_is_decided;

/// A formula that is simplified as it is formed is true exactly where the plain one is.
pub fn simplifying_keeps_truth()
    ensures { SimplifyingKeepsTruth }
{
    truth_is_decided();
}

/// A formula with arguments put in is true exactly where the plain one is true of the arguments: no
/// bound variable captures one.
pub fn putting_in_keeps_truth()
    ensures { PuttingInKeepsTruth }
{}

/// For each step by the action from a concrete heap, the update that differencing forms is true of a
/// tuple of kept individuals in the middle heap exactly where the definition is true of it in the new
/// heap.
pub fn updates_tell_the_truth()
    ensures { UpdatesTellTheTruth }
{
    truth_is_decided();
}

/// A defined predicate that is kept holds of the same tuples before and after such a step.
pub fn kept_predicates_stay()
    ensures { KeptPredicatesStay }
{
    truth_is_decided();
}

/// Each run in which defined predicates are evaluated anew is a run of the differenced program in
/// which its updates are taken for their values.
pub fn runs_are_differenced()
    ensures { RunsAreDifferenced }
{
    truth_is_decided();
}

/// The differenced program of a valid program is valid.
pub fn differenced_is_valid()
    ensures { DifferencedIsValid }
{}
