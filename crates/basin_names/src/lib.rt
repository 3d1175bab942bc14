//! The entries of a basin by their names. A map of them costs the sum of the names once, and each look-up then the
//! length of the name that is sought.
#![tactic(auto)]

ghost use Rattle.std.specs.Prelude.{◌≡◌, ◌<◌, IfOk, IfSome};
ghost use Rattle.water_model.specs.Entries.{count_in};
ghost use Rattle.water_model.specs.Valid.{IsValidBasin};
ghost use Rattle.basin_names.specs.Named.{named};
ghost use Rattle.basin_names.specs.Indices.{KeepsNames};

mod both;

pub use both::BothNames;
use first_index::add_index;
use indexmap::IndexMap;
use std::alloc::{AllocError, Global};
use water_model::space::{Space, count_in, name_in};
use water_model::types::Basin;

/// The entries of one space of a basin by their names.
#[derive(Drop)]
pub struct SpaceNames<'b> {
    pub basin: &'b Basin,
    pub space: Space,
    indices: IndexMap<&'b [u8], u32>,
    ghost placed: { KeepsNames indices basin.now space },
}

impl<'b> SpaceNames<'b> {
    /// The names of the space in this basin. AllocError comes where memory is lacking.
    pub fn of(alloc: Global, space: Space, basin: &'b Basin) -> Result<SpaceNames<'b>, AllocError>
        requires { IsValidBasin basin.now }
        ensures basin { IfOk result (λ names. names.basin.now ≡ basin.now) }
        ensures space { IfOk result (λ names. names.space ≡ space) }
    {
        let mut indices = IndexMap::new(alloc);
        for at in 0..count_in(space, basin) {
            add_index(&mut indices, name_in(space, basin, at).bytes(), at)?;
        }
        Ok(SpaceNames {
            basin,
            space,
            indices,
        })
    }

    /// The entry that has the name, or `None` where none has it.
    pub fn named(&self, name: &[u8]) -> Option<u32>
        ensures value { result ≡ named self.now.basin.now self.now.space name.now }
        ensures within { IfSome result (λ at. at < count_in self.now.space self.now.basin.now) }
    {
        self.indices.get(&name).copied()
    }
}
