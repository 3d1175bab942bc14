//! Laws over area tables. Each is the contract of a function that does nothing.
ghost use Rattle.reservoirs.specs.Laws.{TablesHaveNoFault};

/// A list of points is an area table exactly where it has no fault. So [`crate::AreaTable::build`] answers a table, or
/// that memory ran out, exactly for the area tables, and for every other list its first fault.
pub fn tables_have_no_fault()
    ensures { TablesHaveNoFault }
{}
