//! Laws that lead from a month's plan and draws to what the other laws ask. Each is the contract of a function that
//! does nothing.
ghost use Rattle.stored_water.specs.StepLaws.{DrawnAreCapped, PlansFillWithinWant, SuppliesAddCarried};

/// A plan fills no zone beyond its want.
pub fn plans_fill_within_want()
    ensures { PlansFillWithinWant }
{}

/// The supply of the first step and what accounts carry are the whole supply.
pub fn supplies_add_carried()
    ensures { SuppliesAddCarried }
{}

/// A month's draws are within their caps.
pub fn drawn_are_capped()
    ensures { DrawnAreCapped }
{}
