//! Laws over the definitions. Each is the contract of a function that does nothing.
ghost use Rattle.plan_residual.specs.Laws.{TightMeansNoSlack, TightCutsHoldNoneReached, ClosedSetsLeaveTightCuts};
ghost use Rattle.plan_residual.specs.Laws.{NodesNotReachedAreTheReach};

/// A cut of a short right is tight exactly where it leaves no slack.
pub fn tight_means_no_slack()
    ensures { TightMeansNoSlack }
{}

/// A tight cut holds no node that is reached.
pub fn tight_cuts_hold_none_reached()
    ensures { TightCutsHoldNoneReached }
{}

/// What a closed set leaves is a tight cut, if it is a cut.
pub fn closed_sets_leave_tight_cuts()
    ensures { ClosedSetsLeaveTightCuts }
{}

/// The nodes that are not reached are the reach.
pub fn nodes_not_reached_are_the_reach()
    ensures { NodesNotReachedAreTheReach }
{}
