//! Why a file is refused.
use basin_tree::fault::BasinFault;
use basin_tree::tables::BasinTable;

/// Why bytes are no basin, by the first fault in them.
#[derive(Clone, Copy, Debug, PartialEq, Eq)]
pub enum BasinRefused {
    /// A fault at an entry of a table. The entry of the top table is 0; others count from 1 in their table, and one
    /// past the greatest `u32` is reported as that number.
    Refused {
        fault: BasinFault,
        table: BasinTable,
        entry: u32,
    },
    OutOfMemory,
}
