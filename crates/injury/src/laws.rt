//! Laws over the comparison of runs. Each is the contract of a function that does nothing.
ghost use Rattle.injury.specs.Laws.{CommonRightsHaveOneName, ComparisonsHaveOneText, InjuriesAreAllListed};
ghost use Rattle.injury.specs.Laws.{JuniorInjuresNobody, JuniorLeavesNoInjury};
ghost use Rattle.injury.specs.Laws.{ChangeInjuresJuniorsAlone, ChangeInjuresNoSenior};

/// The pairs of common rights are those of one name.
pub fn common_rights_have_one_name()
    ensures { CommonRightsHaveOneName }
{}

/// The list of injuries has each common right in each month in which it is delivered less in the second run, and no
/// other.
pub fn injuries_are_all_listed()
    ensures { InjuriesAreAllListed }
{}

/// Two runs of two basins have one comparison.
pub fn comparisons_have_one_text()
    ensures { ComparisonsHaveOneText }
{}

/// A most junior right injures nobody.
pub fn junior_injures_nobody()
    ensures { JuniorInjuresNobody }
{}

/// With one more right, and that a most junior one, no comparison has an injury.
pub fn junior_leaves_no_injury()
    ensures { JuniorLeavesNoInjury }
{}

/// A change of rights injures juniors alone, as long as the same was carried over.
pub fn change_injures_juniors_alone()
    ensures { ChangeInjuresJuniorsAlone }
{}

/// A change to which all zones and all rights with returns are senior injures no senior.
pub fn change_injures_no_senior()
    ensures { ChangeInjuresNoSenior }
{}
