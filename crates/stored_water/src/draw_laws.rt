//! Laws over draws. Each is the contract of a function that does nothing.
ghost use Rattle.stored_water.specs.DrawLaws.{ClosingIsTakes, CoursesAndStopsShowDraws, CoursesWithDrawsArePlans};
ghost use Rattle.stored_water.specs.DrawLaws.{DrawAtReservoirIsCap, DrawsAddUp, DrawsChangeNoTakes};
ghost use Rattle.stored_water.specs.DrawLaws.{DrawsHaveOneOutcome, DrawsLeaveFills, DrawsMoveWater};
ghost use Rattle.stored_water.specs.DrawLaws.{DrawsStayWithinCarried, DrawsStayWithinNumber, FirstStepIsCourse};
ghost use Rattle.stored_water.specs.DrawLaws.{GreatestDrawIsOne, GreatestStopIsOne, MonthsWithDrawsAreBalanced};
ghost use Rattle.stored_water.specs.DrawLaws.{NoFractionMoreIsDrawn, ShownDrawsAreDrawn, StopsLetNoMoreBeDrawn};
ghost use Rattle.stored_water.specs.DrawLaws.{StopsMakeDrawsGreatest, StopsUnite, ValidBasinsAreSited};
ghost use Rattle.stored_water.specs.DrawLaws.{DrawsComeFromCuts, MonthsHaveOneOutcome, WholeDrawsAreGreatest};

/// A stop lets no course draw more.
pub fn stops_let_no_more_be_drawn()
    ensures { StopsLetNoMoreBeDrawn }
{}

/// A draw that is its cap or has a stop is the greatest.
pub fn stops_make_draws_greatest()
    ensures { StopsMakeDrawsGreatest }
{}

/// No course in parts of a unit draws more.
pub fn no_fraction_more_is_drawn()
    ensures { NoFractionMoreIsDrawn }
{}

/// In parts of a unit, too, such a draw is the greatest.
pub fn whole_draws_are_greatest()
    ensures { WholeDrawsAreGreatest }
{}

/// The greatest draw is one number.
pub fn greatest_draw_is_one()
    ensures { GreatestDrawIsOne }
{}

/// A draw that is taken at the reservoir's own node is its cap.
pub fn draw_at_reservoir_is_cap()
    ensures { DrawAtReservoirIsCap }
{}

/// All nodes of two stops of a draw are a stop.
pub fn stops_unite()
    ensures { StopsUnite }
{}

/// The greatest stop is one set.
pub fn greatest_stop_is_one()
    ensures { GreatestStopIsOne }
{}

/// A draw moves its amount from the reservoir's node to its own.
pub fn draws_move_water()
    ensures { DrawsMoveWater }
{}

/// All draws so far move their amounts.
pub fn draws_add_up()
    ensures { DrawsAddUp }
{}

/// No account is drawn on for more than it carries.
pub fn draws_stay_within_carried()
    ensures { DrawsStayWithinCarried }
{}

/// What is filled stays until the next month.
pub fn draws_leave_fills()
    ensures { DrawsLeaveFills }
{}

/// No diversion gets more than its number.
pub fn draws_stay_within_number()
    ensures { DrawsStayWithinNumber }
{}

/// Draws that each have a course after those before them, and are their caps or have stops, are the greatest.
pub fn courses_and_stops_show_draws()
    ensures { CoursesAndStopsShowDraws }
{}

/// What a record shows are the month's draws.
pub fn shown_draws_are_drawn()
    ensures { ShownDrawsAreDrawn }
{}

/// The amounts of a month's draws are determined.
pub fn draws_have_one_outcome()
    ensures { DrawsHaveOneOutcome }
{}

/// So are they and the ledger together.
pub fn months_have_one_outcome()
    ensures { MonthsHaveOneOutcome }
{}

/// The first step's plan is a course before any draw.
pub fn first_step_is_course()
    ensures { FirstStepIsCourse }
{}

/// Draws change no takes of the first step.
pub fn draws_change_no_takes()
    ensures { DrawsChangeNoTakes }
{}

/// Where they are taken at their diversions' nodes, the course with all of them is a plan.
pub fn courses_with_draws_are_plans()
    ensures { CoursesWithDrawsArePlans }
{}

/// In a valid basin each draw is for a diversion and on an account, which is of a zone.
pub fn valid_basins_are_sited()
    ensures { ValidBasinsAreSited }
{}

/// No water is made or lost in a month with draws.
pub fn months_with_draws_are_balanced()
    ensures { MonthsWithDrawsAreBalanced }
{}

/// Draws come from within the cuts of those who draw.
pub fn draws_come_from_cuts()
    ensures { DrawsComeFromCuts }
{}

/// A reservoir closes with what its zones take after all draws.
pub fn closing_is_takes()
    ensures { ClosingIsTakes }
{}
