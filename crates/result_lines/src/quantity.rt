//! The quantities of a month's record.
ghost use Rattle.std.specs.Prelude.{◌≡◌, ◌<◌, ◌≤◌, length};
ghost use Rattle.water_model.specs.Entries.{count_in};
ghost use Rattle.result_lines.specs.Quantities.{AreReturnedTo, amount_word, has_line, space_of};
ghost use Rattle.water_model.specs.Valid.{IsValidBasin};

use water_model::space::Space;
use water_model::types::{Basin, MAX_NODES};

/// What one amount says of an entry. A month's record has a list of amounts for each quantity, and a result text has
/// lines for them. All are in units of 1,000 cubic metres.
#[derive(Clone, Copy, Debug, PartialEq, Eq)]
pub enum Quantity {
    /// What a reservoir holds when the month begins.
    Opening,
    /// What evaporates from a reservoir.
    Evaporated,
    /// What comes back to a node of what was delivered before.
    Returned,
    /// What a right has used of its volume.
    Used,
    /// What flows on a link.
    Flow,
    /// What leaves the basin at an outlet.
    Outflow,
    /// What a reservoir holds when the month ends.
    Closing,
}

impl Quantity {
    /// The entries that have an amount of it.
    pub fn space(self) -> Space
        ensures { result ≡ space_of self }
    {
        match self {
            Quantity::Opening | Quantity::Evaporated | Quantity::Closing => Space::Reservoirs,
            Quantity::Returned | Quantity::Outflow => Space::Nodes,
            Quantity::Flow => Space::Links,
            Quantity::Used => Space::Rights,
        }
    }

    /// The word that its lines begin with.
    pub fn word(self) -> &'static [u8]
        ensures word { result.now ≡ amount_word self }
        ensures short { length result.now ≤ 6 }
    {
        match self {
            Quantity::Opening => b"open",
            Quantity::Evaporated => b"evap",
            Quantity::Returned => b"return",
            Quantity::Used => b"used",
            Quantity::Flow => b"flow",
            Quantity::Outflow => b"out",
            Quantity::Closing => b"close",
        }
    }

    /// Whether a month has a line for an entry. `returned` has the nodes that return rows name, as of `returned_to`.
    pub fn has_line(self, basin: &Basin, returned: &[bool], entry: u32) -> bool
        requires basin { IsValidBasin basin.now }
        requires returned { AreReturnedTo basin.now returned.now }
        requires entry { entry < count_in (space_of self) basin.now }
        ensures { result ≡ has_line basin.now self entry }
    {
        let at = entry as usize;
        match self {
            Quantity::Returned => returned[at],
            Quantity::Used => basin.rights[at].volume.is_some(),
            Quantity::Outflow => basin.nodes[at].outlet,
            Quantity::Opening | Quantity::Evaporated | Quantity::Flow | Quantity::Closing => true,
        }
    }
}

/// For each node, whether some return row names it; after the nodes nothing is marked. It goes over the rows once, and
/// takes no memory.
pub fn returned_to(basin: &Basin) -> [bool; MAX_NODES]
    requires { IsValidBasin basin.now }
    ensures { AreReturnedTo basin.now result }
{
    let mut marks = [false; MAX_NODES];
    for row in basin.returns.as_slice() {
        marks[row.node as usize] = true;
    }
    marks
}
