//! What lists and plans begin with.
ghost use Rattle.std.specs.Prelude.{◌≡◌, replicate, IfOk};
ghost use Rattle.water_model.specs.Blank.{blank_plan};

use crate::rows::Rows;
use crate::types::{Basin, Plan};
use std::alloc::{AllocError, Global};

/// A list of `count` zeros. AllocError comes where memory is lacking.
pub fn zeros(alloc: Global, count: usize) -> Result<Rows<u64>, AllocError>
    ensures { IfOk result (λ rows. rows ≡ replicate count 0) }
{
    Ok(Rows::from_vec(vec![in alloc; 0; count]?))
}

/// A plan of a basin in which nothing flows and nobody takes. AllocError comes where memory is lacking.
pub fn blank_plan(alloc: Global, basin: &Basin) -> Result<Plan, AllocError>
    ensures { IfOk result (λ plan. plan ≡ blank_plan basin.now) }
{
    let flow = zeros(alloc, basin.links.len())?;
    let take = zeros(alloc, basin.rights.len())?;
    let out = zeros(alloc, basin.nodes.len())?;
    Ok(Plan { flow, take, out })
}
