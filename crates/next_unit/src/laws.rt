//! Laws over the definitions. Each is the contract of a function that does nothing.
ghost use Rattle.next_unit.specs.Laws.{CoreIsLeastTightCut, NothingOutsideTightCutsHelps, SupplyInCoreHelps};
ghost use Rattle.next_unit.specs.Laws.{NoCarryPastTightCutsHelps, CarryIntoCoreHelps};
ghost use Rattle.next_unit.specs.Laws.{SupplyHelpsExactlyInCore, CarryHelpsExactlyIntoCore};
ghost use Rattle.next_unit.specs.Laws.{RightsHaveCores, SmallSupplyLeavesRoom};
ghost use Rattle.next_unit.specs.Laws.{HistoriesShowWhereSupplyHelps, HistoriesShowWhereCarryHelps};
ghost use Rattle.next_unit.specs.Laws.{NextIsFirstCore, FreeIsInNoCore, FirstCoreIsDecided};
ghost use Rattle.next_unit.specs.Laws.{NextUnitIsDecided, NextUnitGoesToOne, NextUnitGoesToNobody};
ghost use Rattle.next_unit.specs.Laws.{FirstChangedIsNext, CurtailedGetNothing, CurtailedAreCalled};
ghost use Rattle.next_unit.specs.Laws.{NextUnitShowsInHistories, ShortTakersHaveFirstCores};
ghost use Rattle.next_unit.specs.Laws.{ShortTakersAreCurtailedOrNext};

/// The core of a short right is the least tight cut.
#[tactic(auto, using(crate::proofs::Least::core_is_least_tight_cut))]
pub fn core_is_least_tight_cut()
    ensures { CoreIsLeastTightCut }
{}

/// One more unit of supply outside a tight cut does not help.
#[tactic(auto, using(crate::proofs::Least::nothing_outside_tight_cuts_helps))]
pub fn nothing_outside_tight_cuts_helps()
    ensures { NothingOutsideTightCutsHelps }
{}

/// One more unit of supply in the core helps.
pub fn supply_in_core_helps()
    ensures { SupplyInCoreHelps }
{}

/// One more unit of carry on a link that does not enter a tight cut does not help.
#[tactic(auto, using(crate::proofs::Exact::no_carry_past_tight_cuts_helps))]
pub fn no_carry_past_tight_cuts_helps()
    ensures { NoCarryPastTightCutsHelps }
{}

/// One more unit of carry on a link that leads from outside the reach into the core helps.
pub fn carry_into_core_helps()
    ensures { CarryIntoCoreHelps }
{}

/// One more unit of supply at a node helps exactly in the core.
pub fn supply_helps_exactly_in_core()
    ensures { SupplyHelpsExactlyInCore }
{}

/// One more unit of carry on a link helps exactly where it leads from outside the reach into the core.
pub fn carry_helps_exactly_into_core()
    ensures { CarryHelpsExactlyIntoCore }
{}

/// Each right has a core.
#[tactic(auto, using(crate::proofs::Exact::rights_have_cores))]
pub fn rights_have_cores()
    ensures { RightsHaveCores }
{}

/// Rivers and the link of a short instream right have room where the whole supply is small.
#[tactic(auto, using(crate::proofs::Room::small_supply_leaves_room))]
pub fn small_supply_leaves_room()
    ensures { SmallSupplyLeavesRoom }
{}

/// In a month of a history, one more unit of supply at a node helps exactly in the core.
pub fn histories_show_where_supply_helps()
    ensures { HistoriesShowWhereSupplyHelps }
{}

/// In a month of a history, one more unit of carry on a link helps exactly from outside the reach into the core.
pub fn histories_show_where_carry_helps()
    ensures { HistoriesShowWhereCarryHelps }
{}

/// In a month of a history, the right whose one more unit at a node would be is the most senior short right whose core
/// holds the node.
pub fn next_is_first_core()
    ensures { NextIsFirstCore }
{}

/// And it would help nobody where no core of a short right holds the node.
pub fn free_is_in_no_core()
    ensures { FreeIsInNoCore }
{}

/// No core of a short right holds a node, or there is a most senior short right whose core does.
pub fn first_core_is_decided()
    ensures { FirstCoreIsDecided }
{}

/// One more unit at a node would help nobody, or it is a right's.
pub fn next_unit_is_decided()
    ensures { NextUnitIsDecided }
{}

/// One more unit of supply at a node goes to the most senior right that it would help, and costs no senior.
pub fn next_unit_goes_to_one()
    ensures { NextUnitGoesToOne }
{}

/// Where it would help nobody, every right gets what it got.
pub fn next_unit_goes_to_nobody()
    ensures { NextUnitGoesToNobody }
{}

/// That right is exactly the most senior one to which a greatest plan with the unit delivers otherwise. Its juniors may
/// gain or lose.
pub fn first_changed_is_next()
    ensures { FirstChangedIsNext }
{}

/// In two histories, one more unit of supply in a month shows in the records.
pub fn next_unit_shows_in_histories()
    ensures { NextUnitShowsInHistories }
{}

/// A right that is curtailed for a senior got nothing.
pub fn curtailed_get_nothing()
    ensures { CurtailedGetNothing }
{}

/// The right for which another is curtailed calls it.
pub fn curtailed_are_called()
    ensures { CurtailedAreCalled }
{}

/// At the node of a short diversion or zone the first core is a senior's or its own.
#[tactic(auto, using(crate::proofs::Next::short_takers_have_first_cores))]
pub fn short_takers_have_first_cores()
    ensures { ShortTakersHaveFirstCores }
{}

/// A short diversion or zone is curtailed for a senior, or the next unit at its node is its own.
#[tactic(auto, using(crate::proofs::InHistories::short_takers_are_curtailed_or_next))]
pub fn short_takers_are_curtailed_or_next()
    ensures { ShortTakersAreCurtailedOrNext }
{}
