//! The nodes and the rights of a basin by their names.
ghost use Rattle.std.specs.Prelude.{◌≡◌, ◌<◌, length, IfOk, IfSome};
ghost use Rattle.water_model.specs.Valid.{IsValidBasin};
ghost use Rattle.water_model.specs.declared.space.Space.TheVariants.{Nodes, Rights};
ghost use Rattle.basin_names.specs.Named.{node_named, right_named};

use crate::SpaceNames;
use std::alloc::{AllocError, Global};
use water_model::space::Space;
use water_model::types::Basin;

/// The nodes and the rights of a basin by their names.
#[derive(Drop)]
pub struct BothNames<'b> {
    pub basin: &'b Basin,
    nodes: SpaceNames<'b>,
    rights: SpaceNames<'b>,
    ghost of_nodes: { (nodes.basin.now ≡ basin.now) × (nodes.space ≡ Nodes) },
    ghost of_rights: { (rights.basin.now ≡ basin.now) × (rights.space ≡ Rights) },
}

impl<'b> BothNames<'b> {
    /// The names of this basin. AllocError comes where memory is lacking.
    pub fn of(alloc: Global, basin: &'b Basin) -> Result<BothNames<'b>, AllocError>
        requires { IsValidBasin basin.now }
        ensures { IfOk result (λ names. names.basin.now ≡ basin.now) }
    {
        let nodes = SpaceNames::of(alloc, Space::Nodes, basin)?;
        let rights = SpaceNames::of(alloc, Space::Rights, basin)?;
        Ok(BothNames {
            basin,
            nodes,
            rights,
        })
    }

    /// The node that has the name, or `None` where none has it.
    pub fn node_named(&self, name: &[u8]) -> Option<u32>
        ensures value { result ≡ node_named self.now.basin.now name.now }
        ensures within { IfSome result (λ node. node < length self.now.basin.now.nodes) }
    {
        self.nodes.named(name)
    }

    /// The right that has the name, or `None` where none has it.
    pub fn right_named(&self, name: &[u8]) -> Option<u32>
        ensures value { result ≡ right_named self.now.basin.now name.now }
        ensures within { IfSome result (λ right. right < length self.now.basin.now.rights) }
    {
        self.rights.named(name)
    }
}
