//! Laws over what a file spells. Each is the contract of a function that does nothing.
ghost use Rattle.basin_file.specs.Laws.{FaultlessFilesAreValid, TablesSpellTheirBasins};

/// A file without a fault spells a valid basin.
pub fn faultless_files_are_valid()
    ensures { FaultlessFilesAreValid }
{}

/// The table of a valid basin spells it, in format 2.
pub fn tables_spell_their_basins()
    ensures { TablesSpellTheirBasins }
{}
