//! Laws over lists of calls. Each is the contract of a function that does nothing.
ghost use Rattle.call_list.specs.Laws.{CurtailedExactly, FoundIsDetermined, ListIsDetermined};

/// A line says that a right is curtailed for a senior exactly where it is.
pub fn curtailed_exactly()
    ensures { CurtailedExactly }
{}

/// What is found in a month is determined by the basin and the series.
pub fn found_is_determined()
    ensures { FoundIsDetermined }
{}

/// The text of a list is determined by the basin and the series.
pub fn list_is_determined()
    ensures { ListIsDetermined }
{}
