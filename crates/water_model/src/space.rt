//! The entries of a basin.
ghost use Rattle.std.specs.Prelude.{◌≡◌, ◌<◌, Some, slice_get};
ghost use Rattle.water_model.specs.Entries.{count_in, in_order, name_in};
ghost use Rattle.water_model.specs.Indices.{seniors_first};
ghost use Rattle.water_model.specs.Valid.{IsValidBasin};

use crate::types::Basin;
use water_text::name::Name;

/// The entries of a basin that are numbered together, each list from 0.
#[derive(Clone, Copy, Debug, PartialEq, Eq)]
pub enum Space {
    Nodes,
    Links,
    /// Reservoirs, each by the name of its node.
    Reservoirs,
    Rights,
}

/// How many entries a space has.
pub fn count_in(space: Space, basin: &Basin) -> u32
    requires { IsValidBasin basin.now }
    ensures { result ≡ count_in space basin.now }
{
    match space {
        Space::Nodes => basin.nodes.len() as u32,
        Space::Links => basin.links.len() as u32,
        Space::Reservoirs => basin.reservoirs.len() as u32,
        Space::Rights => basin.rights.len() as u32,
    }
}

/// The name of an entry: of a reservoir that of its node.
pub fn name_in(space: Space, basin: &Basin, entry: u32) -> &Name
    requires basin { IsValidBasin basin.now }
    requires entry { entry < count_in space basin.now }
    ensures { result.now ≡ name_in space basin.now entry }
{
    let at = entry as usize;
    match space {
        Space::Nodes => &basin.nodes[at].name,
        Space::Links => &basin.links[at].name,
        Space::Reservoirs => &basin.nodes[basin.reservoirs[at].node as usize].name,
        Space::Rights => &basin.rights[at].name,
    }
}

/// The entry at an index of the order in which lines come: rights seniors first, as in `order`, and all others as in
/// the basin.
pub fn entry_at(space: Space, basin: &Basin, order: &[u32], position: u32) -> u32
    requires order { order.now ≡ seniors_first basin.now }
    requires position { position < count_in space basin.now }
    ensures position { slice_get (in_order space basin.now) position ≡ Some result }
    ensures within { result < count_in space basin.now }
{
    match space {
        Space::Rights => order[position as usize],
        _ => position,
    }
}
