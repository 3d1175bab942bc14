//! The command `compare`.
ghost use Rattle.std.specs.Prelude.{Some};
ghost use Rattle.basin_cli.specs.Command.{ServesFiles, compare, named};
ghost use Rattle.basin_cli.specs.Serving.{Serves};

use crate::command::Inputs;
use crate::comparing::compare_basins;
use crate::ending::Ending;
use crate::pairs::read_pair;
use month_fold::work::Work;
use std::alloc::Global;
use std::sync::ledger::Ledger;
use water_edge::{Shelf, Sink};

/// `compare`: solves the months of two basins with one series and puts who is delivered less in the second.
pub fn do_compare<S: Shelf, K: Sink, P: Ledger, M: Ledger>(
    alloc: Global,
    inputs: Inputs,
    second: &str,
    shelf: &mut S,
    out: &mut K,
    work: &mut Work<P, M>,
) -> Ending
    requires { ServesFiles (S.serves shelf.old) (Some (compare (named inputs) second.now)) }
    ensures { Serves S.Shelf K.Sink (Some (compare (named inputs.entry) second.now)) result shelf.old shelf.new out.old
        out.new work.old work.new }
{
    let pair = match read_pair(alloc, shelf, inputs, second) {
        Ok(pair) => pair,
        Err(ending) => return ending,
    };
    let ending = compare_basins(
        alloc,
        &pair.first.basin,
        &pair.second.basin,
        &pair.first.series,
        &pair.second.series,
        out,
        work,
    );
    drop(pair);
    ending
}
