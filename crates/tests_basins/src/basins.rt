//! Basins of tests, as texts spell them.
ghost use Rattle.std.specs.Prelude.{IfOk};
ghost use Rattle.water_model.specs.Valid.{IsValidBasin};

use basin_file::read_basin;
use std::alloc::{AllocError, Global};
use water_model::types::Basin;

/// The basin that a text spells.
pub fn basin_of(alloc: Global, text: &str) -> Result<Basin, AllocError>
    ensures { IfOk result IsValidBasin }
{
    match read_basin(alloc, text.as_bytes()) {
        Ok(basin) => Ok(basin),
        Err(_) => Err(AllocError),
    }
}
