//! Laws over the definitions. Each is the contract of a function that does nothing.
ghost use Rattle.draw_course.specs.Alike.{CoursesAreAlike, StopsAreAlike, TakenAreAlike, DrawsAreAlike};
ghost use Rattle.draw_course.specs.Alike.{AnswersShowDraws, MonthsAreAlike, GreatestAreDrawn};
ghost use Rattle.draw_course.specs.Laws.{PlansBegin};

/// A plan of the water that is nobody's is a course before any draw.
pub fn plans_begin()
    ensures { PlansBegin }
{}

/// A course of the network is one of the basin's water.
pub fn courses_are_alike()
    ensures { CoursesAreAlike }
{}

/// A stop in the network is one of the basin's draw.
pub fn stops_are_alike()
    ensures { StopsAreAlike }
{}

/// What is taken after a draw is the same.
pub fn taken_are_alike()
    ensures { TakenAreAlike }
{}

/// A draw that is the greatest in the network is the greatest of the basin's.
pub fn draws_are_alike()
    ensures { DrawsAreAlike }
{}

/// What the network answers shows the draw.
pub fn answers_show_draws()
    ensures { AnswersShowDraws }
{}

/// What is taken with the first draws is the same.
pub fn months_are_alike()
    ensures { MonthsAreAlike }
{}

/// Where each draw is the greatest in its turn, the amounts are those of the basin's draws.
pub fn greatest_are_drawn()
    ensures { GreatestAreDrawn }
{}
