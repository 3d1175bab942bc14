//! The whole basin.
ghost use Rattle.std.specs.Prelude.{◌≡◌, ◌-◌, ◌*◌, ◌<◌, ◌≤◌, ◌++◌, IfOk, OnOk};
ghost use Rattle.water_model.specs.Valid.{IsValidBasin, IsSeriesOf};
ghost use Rattle.basin_gen.specs.Draws.{later};
ghost use Rattle.basin_gen.specs.Generator.{rivers_of, canals_of, diversions_of, instreams_of, returns_of, zones_of};
ghost use Rattle.basin_gen.specs.Generator.{draws_of_turns, count_of_turns, count_of_canals, generated};

use crate::draws::Draws;
use crate::network::{add_canals, nodes, rivers};
use crate::reservoirs::{add_zones, reservoirs};
use crate::turns::{Made, turns};
use std::alloc::{AllocError, Global};
use water_model::rows::Rows;
use water_model::types::{Basin, Link, ReturnRow, Right, Series};
use water_text::month::Month;

/// The rivers, then the canals.
fn links(alloc: Global, size: u32, draws: &mut Draws) -> Result<Vec<Link>, AllocError>
    requires some { 1 ≤ size }
    requires size { size ≤ 2000 }
    ensures value { IfOk result
        (λ made. made.items ≡ rivers_of size draws.old.state ++ canals_of size (later draws.old.state (size - 1))) }
    ensures after { OnOk result
        (draws.new.state ≡ later (later draws.old.state (size - 1)) (2 * count_of_canals size)) }
{
    let mut links = rivers(alloc, size, draws)?;
    add_canals(&mut links, size, draws)?;
    Ok(links)
}

/// Rights, in the order of their kinds, and return rows.
#[derive(Drop)]
struct Roll {
    rights: Vec<Right>,
    returns: Vec<ReturnRow>,
}

/// All rights and return rows.
fn rights(alloc: Global, size: u32, draws: &mut Draws) -> Result<Roll, AllocError>
    requires some { 2 ≤ size }
    requires size { size ≤ 2000 }
    ensures rights { IfOk result (λ made. made.rights.items ≡ diversions_of size draws.old.state
        ++ (instreams_of size draws.old.state
        ++ zones_of size (later draws.old.state (draws_of_turns (count_of_turns size))))) }
    ensures returns { IfOk result (λ made. made.returns.items ≡ returns_of size draws.old.state) }
{
    let Made {
        diversions,
        mut instreams,
        returns,
    } = turns(alloc, size, draws)?;
    let mut rights = diversions;
    rights.append(&mut instreams)?;
    add_zones(&mut rights, size, draws)?;
    Ok(Roll { rights, returns })
}

/// The basin alone.
#[tactic(auto, unfolding(crate::specs::Generator::generated))]
fn basin(alloc: Global, number: u32, size: u32) -> Result<Basin, AllocError>
    requires some { 2 ≤ size }
    requires size { size ≤ 2000 }
    ensures { IfOk result (λ made. made ≡ generated number size) }
{
    let mut draws = Draws::new(number);
    let nodes = nodes(alloc, size, &mut draws)?;
    let links = links(alloc, size, &mut draws)?;
    let reservoirs = reservoirs(alloc, size, &mut draws)?;
    let Roll { rights, returns } = rights(alloc, size, &mut draws)?;
    Ok(Basin {
        format: 1,
        unit: None,
        first: Month {
            year: 1950,
            month: 10,
        },
        months: 60,
        year_start: 10,
        nodes: Rows::from_vec(nodes),
        links: Rows::from_vec(links),
        reservoirs: Rows::from_vec(reservoirs),
        rights: Rows::from_vec(rights),
        returns: Rows::from_vec(returns),
        due: Rows::new(alloc),
        accounts: Rows::new(alloc),
        draws: Rows::new(alloc),
    })
}

/// The basin of a number with `size` nodes, 2 to 2,000, and its series, which is empty because no node is gauged. The
/// basin is valid, and one number and size always make the same one. Its run is 60 months from October 1950.
///
/// `AllocError` comes only where memory runs out, and then nothing is left.
#[tactic(auto, using(crate::proofs::Validity::generated_valid, crate::proofs::Validity::no_series))]
pub fn make(alloc: Global, number: u32, size: u32) -> Result<(Basin, Series), AllocError>
    requires some { 2 ≤ size }
    requires size { size ≤ 2000 }
    ensures basin { IfOk result (λ made. made.0 ≡ generated number size) }
    ensures valid { IfOk result (λ made. IsValidBasin made.0) }
    ensures series { IfOk result (λ made. IsSeriesOf made.0 made.1) }
{
    let basin = basin(alloc, number, size)?;
    let inflows = Series {
        gauged: Rows::new(alloc),
        amount: Rows::new(alloc),
        wanted: Rows::new(alloc),
        want: Rows::new(alloc),
    };
    Ok((basin, inflows))
}
