//! Laws over the definitions. Each is the contract of a function that does nothing.
ghost use Rattle.basin_gen.specs.Laws.{CountsAreOfPlaces};

/// As many entries are made, and as many draws before an entry, as there are nodes and turns that take them.
pub fn counts_are_of_places()
    ensures { CountsAreOfPlaces }
{}
