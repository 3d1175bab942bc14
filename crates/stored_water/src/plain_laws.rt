//! A law over basins in which nobody owns stored water. It is the contract of a function that does nothing.
ghost use Rattle.stored_water.specs.PlainLaws.{WithoutStoresNothingChanges};

/// A basin of format 1 or 2 is as it would be without accounts and draws.
pub fn without_stores_nothing_changes()
    ensures { WithoutStoresNothingChanges }
{}
