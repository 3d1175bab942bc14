//! Laws over the figures of a run. Each is the contract of a function that does nothing.
ghost use Rattle.reports.specs.Laws.{FiguresAreBalanced, RunsHaveOneReport};

/// No water is made or lost.
pub fn figures_are_balanced()
    ensures { FiguresAreBalanced }
{}

/// Two runs of one basin and series have one report and one summary.
pub fn runs_have_one_report()
    ensures { RunsHaveOneReport }
{}
