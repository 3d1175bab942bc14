//! Names, and what they name.
ghost use Rattle.std.specs.Prelude.{◌≡◌, ◌<◌, true, length, IfOk, IfSome};
ghost use Rattle.water_model.specs.Entries.{count_in, name_in};
ghost use Rattle.water_model.specs.Valid.{IsValidBasin};
ghost use Rattle.water_model.specs.declared.space.Space.TheVariants.{Links, Reservoirs};
ghost use Rattle.basin_names.specs.Named.{named};
ghost use Rattle.result_reader.specs.NodeLines.{member_text};

use crate::node_lines::NodeLines;
use basin_names::{BothNames, SpaceNames};
use std::alloc::{AllocError, Global};
use water_model::space::{Space, count_in, name_in};
use water_model::types::Basin;

/// The names of a basin's entries, with the index of each in its space.
#[derive(Drop)]
pub struct Names<'b> {
    pub basin: &'b Basin,
    both: BothNames<'b>,
    links: SpaceNames<'b>,
    reservoirs: SpaceNames<'b>,
    lines: NodeLines<'b>,
    ghost of_both: { both.basin.now ≡ basin.now },
    ghost of_links: { (links.basin.now ≡ basin.now) × (links.space ≡ Links) },
    ghost of_reservoirs: { (reservoirs.basin.now ≡ basin.now) × (reservoirs.space ≡ Reservoirs) },
    ghost of_lines: { lines.basin.now ≡ basin.now },
}

impl<'b> Names<'b> {
    /// The names of this basin.
    pub fn of(alloc: Global, basin: &'b Basin) -> Result<Names<'b>, AllocError>
        requires { IsValidBasin basin.now }
        ensures { IfOk result (λ names. names.basin.now ≡ basin.now) }
    {
        let both = BothNames::of(alloc, basin)?;
        let links = SpaceNames::of(alloc, Space::Links, basin)?;
        let reservoirs = SpaceNames::of(alloc, Space::Reservoirs, basin)?;
        let lines = NodeLines::of(alloc, basin)?;
        Ok(Names {
            basin,
            both,
            links,
            reservoirs,
            lines,
        })
    }

    /// Whether the entry at an index, which may be any number, is there and has the name.
    pub fn has_name(&self, space: Space, at: u32, name: &[u8]) -> bool
        requires { IsValidBasin self.now.basin.now }
        ensures within { result ≡ true → at < count_in space self.now.basin.now }
        ensures same { result ≡ true → name.now ≡ name_in space self.now.basin.now at }
    {
        at < count_in(space, self.basin) && name_in(space, self.basin, at).bytes() == name
    }

    /// The `in` line of the node at an index, which may be any number, with its line feed, if there is one.
    pub fn member_line(&self, node: u32) -> Option<&[u8]>
        ensures within { IfSome result (λ line. node < length self.now.basin.now.nodes) }
        ensures line { IfSome result (λ line. line.now ≡ member_text self.now.basin.now node) }
    {
        self.lines.line(node)
    }

    /// The index of the entry that has the name, or `None` where none has it, by a look-up in the map.
    fn look_up(&self, space: Space, name: &[u8]) -> Option<u32>
        ensures { result ≡ named self.now.basin.now space name.now }
    {
        match space {
            Space::Nodes => self.both.node_named(name),
            Space::Links => self.links.named(name),
            Space::Reservoirs => self.reservoirs.named(name),
            Space::Rights => self.both.right_named(name),
        }
    }

    /// The index of the entry that has the name, or `None` where none has it. Where it is the entry at the likely
    /// index, which may be any number, the name isn't looked up.
    pub fn named(&self, space: Space, likely: u32, name: &[u8]) -> Option<u32>
        requires { IsValidBasin self.now.basin.now }
        ensures value { result ≡ named self.now.basin.now space name.now }
    {
        if self.has_name(space, likely, name) {
            Some(likely)
        } else {
            self.look_up(space, name)
        }
    }
}
