//! Laws of judging in one pass, each the contract of a function that does nothing.

ghost use Rattle.ess_types_judging_laws.specs.Laws.{FailedIsFound};

/// The first judgement that a statement fails is the first that what is found of it fails.
pub fn failed_is_found()
    ensures { FailedIsFound }
{}
