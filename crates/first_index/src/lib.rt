//! The first index of each text of a list, kept in a map.
#![tactic(auto)]

ghost use Rattle.std.specs.Prelude.{OnErr, OnOk};
ghost use Rattle.indexmap.specs.IndexMap.{IsUnchanged};
ghost use Rattle.first_index.specs.Indices.{AddsIndex};

use indexmap::IndexMap;
use std::alloc::AllocError;

/// Gives a text the index, unless it has one.
///
/// It takes memory. AllocError comes where memory is lacking: the map then is as it was.
pub fn add_index<'b, V: Drop>(
    indices: &mut IndexMap<&'b [u8], V>,
    text: &'b [u8],
    index: V,
) -> Result<(), AllocError>
    ensures added { OnOk result (AddsIndex indices.old indices.new text.entry.now index) }
    ensures same { OnErr result (IsUnchanged indices.old indices.new) }
{
    if !indices.contains_key(&text) {
        indices.insert(text, index)?;
    }
    Ok(())
}
