//! Laws over the definitions. Each is the contract of a function that does nothing.
ghost use Rattle.edit_script.specs.Laws.{MonthsHaveTheirIndex};

/// A month has an index exactly where the run has it.
pub fn months_have_their_index()
    ensures { MonthsHaveTheirIndex }
{}
