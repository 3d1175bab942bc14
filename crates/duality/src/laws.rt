//! Laws over the definitions. Each is the contract of a function that does nothing.
ghost use Rattle.duality.specs.Balance.{HistoriesAreBalanced, ReturnsAreCovered};
ghost use Rattle.duality.specs.Laws.{CutBounds, CutsMakeGreatest, CutsLetNobodyGetMore, TightCutLeavesNothing};
ghost use Rattle.duality.specs.Laws.{HistoriesLeaveNothing, CalledRightsGetNothing, CutsLetNothingOutsideHelp};
ghost use Rattle.duality.specs.Laws.{GreatestPlansDeliverSame, ReachIsUnique, HistoriesHaveOneOutcome};
ghost use Rattle.duality.specs.Laws.{TightMeansBound, TightStays};
ghost use Rattle.duality.specs.Laws.{NoFractionHelps, WholeUnitsAreGreatest, OnePartIsUnit};
ghost use Rattle.duality.specs.Alike.{JuniorsChangeNothing, GreatestPlansIgnoreJuniors};

/// A cut bounds what its right can be delivered.
pub fn cut_bounds()
    ensures { CutBounds }
{}

/// Tight cuts make a history's plans greatest.
pub fn cuts_make_greatest()
    ensures { CutsMakeGreatest }
{}

/// In a plan that serves a right's seniors at least as well, the right gets no more than it got.
pub fn cuts_let_nobody_get_more()
    ensures { CutsLetNobodyGetMore }
{}

/// In a tight cut juniors take nothing.
#[tactic(auto, using(crate::proofs::Greatest::tight_leaves_nothing))]
pub fn tight_cut_leaves_nothing()
    ensures { TightCutLeavesNothing }
{}

/// In the set that a history has of a right, juniors take nothing and no outlet lets water out.
pub fn histories_leave_nothing()
    ensures { HistoriesLeaveNothing }
{}

/// A right that answers to a caller gets nothing.
pub fn called_rights_get_nothing()
    ensures { CalledRightsGetNothing }
{}

/// No water outside the set that a history has of a right could give it more.
pub fn cuts_let_nothing_outside_help()
    ensures { CutsLetNothingOutsideHelp }
{}

/// Greatest plans deliver the same.
pub fn greatest_plans_deliver_same()
    ensures { GreatestPlansDeliverSame }
{}

/// A right has one reach at most.
#[tactic(auto, using(crate::proofs::Greatest::reach_unique))]
pub fn reach_is_unique()
    ensures { ReachIsUnique }
{}

/// No water is made or lost.
#[tactic(auto, using(crate::proofs::Balance::balanced))]
pub fn histories_are_balanced()
    ensures { HistoriesAreBalanced }
{}

/// Two histories of one basin and series have one outcome.
pub fn histories_have_one_outcome()
    ensures { HistoriesHaveOneOutcome }
{}

/// A cut is tight exactly where its bound is the delivery.
#[tactic(auto, using(crate::proofs::Greatest::tight_bound))]
pub fn tight_means_bound()
    ensures { TightMeansBound }
{}

/// Returns are at most what was delivered before.
#[tactic(auto, using(crate::proofs::Returns::covered))]
pub fn returns_are_covered()
    ensures { ReturnsAreCovered }
{}

/// A tight cut stays tight while only juniors change.
#[tactic(auto, using(crate::proofs::Stays::tight_stays))]
pub fn tight_stays()
    ensures { TightStays }
{}

/// No fraction of a unit could give a right more.
pub fn no_fraction_helps()
    ensures { NoFractionHelps }
{}

/// In parts of a unit, too, a history's plans are greatest.
pub fn whole_units_are_greatest()
    ensures { WholeUnitsAreGreatest }
{}

/// A plan in parts of one to a unit is a plan.
#[tactic(auto, using(crate::proofs::Parts::one_part_is_unit))]
pub fn one_part_is_unit()
    ensures { OnePartIsUnit }
{}

/// What a right gets in a month is the same whatever rights are junior to it.
pub fn juniors_change_nothing()
    ensures { JuniorsChangeNothing }
{}

/// By all greatest plans, too, a right gets the same whatever rights are junior to it.
pub fn greatest_plans_ignore_juniors()
    ensures { GreatestPlansIgnoreJuniors }
{}
