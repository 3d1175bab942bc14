//! Laws over the months of runs. Each is the contract of a function that does nothing.
ghost use Rattle.month_fold.specs.Laws.{RunsHaveOneOutcome};

/// Two runs of one basin and series have one outcome, the sets of short rights included.
pub fn runs_have_one_outcome()
    ensures { RunsHaveOneOutcome }
{}
