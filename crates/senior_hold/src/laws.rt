//! Laws over the definitions. Each is the contract of a function that does nothing.
ghost use Rattle.senior_hold.specs.Laws.{WantsAreWithin, SolvedMonthsFollow};

/// The wants of a valid basin are within the limits that a month may be given.
pub fn wants_are_within()
    ensures { WantsAreWithin }
{}

/// What a solved month says of its record.
pub fn solved_months_follow()
    ensures { SolvedMonthsFollow }
{}
