//! Reservoirs, each with two zones.
ghost use Rattle.std.specs.Prelude.{◌≡◌, ◌+◌, ◌*◌, ◌/◌, ◌<◌, ◌≤◌, ◌++◌, IfOk, OnOk};
ghost use Rattle.basin_gen.specs.Draws.{next, later};
ghost use Rattle.basin_gen.specs.Entries.{reservoir_at, lower_zone_at, upper_zone_at};
ghost use Rattle.basin_gen.specs.Generator.{reservoirs_of, zones_of, count_of_reservoirs};

use crate::draws::Draws;
use crate::names::zone_name;
use crate::rights::right;
use std::alloc::{AllocError, Global};
use water_model::rows::Rows;
use water_model::types::{AreaPoint, Reservoir, Right, RightKind};

/// The area table of each reservoir.
const AREA: [AreaPoint; 2] = [
    AreaPoint {
        storage: 0,
        area: 0,
    },
    AreaPoint {
        storage: 1000,
        area: 100,
    },
];

fn reservoir(alloc: Global, node: u32, draws: &mut Draws) -> Result<Reservoir, AllocError>
    ensures value { IfOk result (λ made. made ≡ reservoir_at node draws.old.state) }
    ensures after { OnOk result (draws.new.state ≡ next (next draws.old.state)) }
{
    let opening = draws.draw(500);
    let rate = draws.draw(200);
    Ok(Reservoir {
        node,
        opening,
        area: Rows::from_vec(Vec::from_array(alloc, AREA)?),
        rate: [rate; 12],
    })
}

/// All reservoirs, by their nodes.
#[tactic(auto, using(crate::proofs::DrawLaws::draws), unfolding(crate::specs::Generator::reservoirs_of))]
pub(crate) fn reservoirs(
    alloc: Global,
    size: u32,
    draws: &mut Draws,
) -> Result<Vec<Reservoir>, AllocError>
    requires size { size ≤ 2000 }
    ensures value { IfOk result (λ made. made.items ≡ reservoirs_of size draws.old.state) }
    ensures after { OnOk result (draws.new.state ≡ later draws.old.state (2 * count_of_reservoirs size)) }
{
    let mut reservoirs = Vec::new(alloc);
    for j in 0..(size + 18) / 40 {
        let reservoir = reservoir(alloc, 40 * j + 20, draws)?;
        reservoirs.push(reservoir)?;
    }
    Ok(reservoirs)
}

fn lower_zone(j: u32, draws: &mut Draws) -> Right
    requires bounded { j ≤ 2000 }
    ensures value { result ≡ lower_zone_at j draws.old.state }
    ensures after { draws.new.state ≡ next draws.old.state }
{
    let kind = RightKind::Zone {
        reservoir: j,
        level: 1,
    };
    right(
        zone_name(j, b'a'),
        kind,
        1880,
        10_000 + j,
        100 + draws.draw(200),
    )
}

fn upper_zone(j: u32, draws: &mut Draws) -> Right
    requires bounded { j ≤ 2000 }
    ensures value { result ≡ upper_zone_at j draws.old.state }
    ensures after { draws.new.state ≡ next draws.old.state }
{
    let kind = RightKind::Zone {
        reservoir: j,
        level: 2,
    };
    right(zone_name(j, b'b'), kind, 1940, 20_000 + j, draws.draw(400))
}

/// Appends both zones of each reservoir to the other rights.
#[tactic(auto, using(crate::proofs::DrawLaws::draws), unfolding(crate::specs::Generator::zones_of))]
pub(crate) fn add_zones(
    rights: &mut Vec<Right>,
    size: u32,
    draws: &mut Draws,
) -> Result<(), AllocError>
    requires size { size ≤ 2000 }
    ensures { OnOk result (rights.new.items ≡ rights.old.items ++ zones_of size draws.old.state) }
{
    for j in 0..(size + 18) / 40 {
        rights.push(lower_zone(j, draws))?;
        rights.push(upper_zone(j, draws))?;
    }
    Ok(())
}
