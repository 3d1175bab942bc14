//! Diversions, their return rows and instream rights, which are made in turns.
ghost use Rattle.std.specs.Prelude.{◌≡◌, ◌+◌, ◌*◌, ◌/◌, ◌%◌, ◌==◌, ◌<◌, ◌≤◌, ◌∷◌, [], ◌++◌, if◌then◌else◌, IfOk, OnOk};
ghost use Rattle.basin_gen.specs.Draws.{later};
ghost use Rattle.basin_gen.specs.Entries.{diversion_at, instream_at, return_at};
ghost use Rattle.basin_gen.specs.Generator.{diversions_of, instreams_of, returns_of, draws_of_turns, count_of_turns};

use crate::draws::Draws;
use crate::rights::{diversion, instream, return_row};
use std::alloc::{AllocError, Global};
use water_model::types::{ReturnRow, Right};

/// What turns make.
#[derive(Drop)]
pub(crate) struct Made {
    pub diversions: Vec<Right>,
    pub instreams: Vec<Right>,
    pub returns: Vec<ReturnRow>,
}

/// Makes the right of turn `k`.
fn add_right(made: &mut Made, size: u32, k: u32, draws: &mut Draws) -> Result<(), AllocError>
    requires size { 2 ≤ size }
    ensures diversions { OnOk result
        (made.new.diversions.items ≡ made.old.diversions.items ++ (if k % 4 == 3 then [] else diversion_at size k
        draws.old.state ∷ [])) }
    ensures instreams { OnOk result
        (made.new.instreams.items ≡ made.old.instreams.items ++ (if k % 4 == 3 then instream_at size k
        draws.old.state ∷ [] else [])) }
    ensures returns { OnOk result (made.new.returns.items ≡ made.old.returns.items) }
    ensures after { OnOk result (draws.new.state ≡ later draws.old.state 3) }
{
    if k % 4 == 3 {
        made.instreams.push(instream(size, k, draws))?;
    } else {
        made.diversions.push(diversion(size, k, draws))?;
    }
    Ok(())
}

/// Makes the return row of turn `k`, where it makes one.
#[tactic(auto, using(crate::proofs::DrawLaws::later_none))]
fn add_return(
    returns: &mut Vec<ReturnRow>,
    size: u32,
    k: u32,
    draws: &mut Draws,
) -> Result<(), AllocError>
    requires size { 2 ≤ size }
    ensures value { OnOk result
        (returns.new.items ≡ returns.old.items ++ (if k % 4 == 0 then return_at size (3 * (k / 4)) draws.old.state ∷ []
        else [])) }
    ensures after { OnOk result (draws.new.state ≡ later draws.old.state (if k % 4 == 0 then 3 else 0)) }
{
    if k % 4 == 0 {
        returns.push(return_row(size, 3 * (k / 4), draws))?;
    }
    Ok(())
}

/// All diversions, instream rights and return rows.
pub(crate) fn turns(alloc: Global, size: u32, draws: &mut Draws) -> Result<Made, AllocError>
    requires size { 2 ≤ size }
    ensures diversions { IfOk result (λ made. made.diversions.items ≡ diversions_of size draws.old.state) }
    ensures instreams { IfOk result (λ made. made.instreams.items ≡ instreams_of size draws.old.state) }
    ensures returns { IfOk result (λ made. made.returns.items ≡ returns_of size draws.old.state) }
    ensures after { OnOk result (draws.new.state ≡ later draws.old.state (draws_of_turns (count_of_turns size))) }
{
    let mut made = Made {
        diversions: Vec::new(alloc),
        instreams: Vec::new(alloc),
        returns: Vec::new(alloc),
    };
    for k in 0..size / 20 {
        add_right(&mut made, size, k, draws)?;
        add_return(&mut made.returns, size, k, draws)?;
    }
    Ok(made)
}
