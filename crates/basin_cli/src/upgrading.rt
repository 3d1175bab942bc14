//! Basin files in format 2.
ghost use Rattle.std.specs.Prelude.{Some};
ghost use Rattle.month_fold.specs.Works.{WorkDone};
ghost use Rattle.basin_cli.specs.Command.{ServesFiles, upgrade};
ghost use Rattle.basin_cli.specs.Serving.{Serves};

use crate::ending::Ending;
use crate::files::read_basin_file;
use crate::flushing::put_whole;
use basin_file::upgraded;
use std::alloc::Global;
use water_edge::{Shelf, Sink};

/// `upgrade`: puts the basin of a file as a file of format 2, by one `put`.
pub fn do_upgrade<S: Shelf, K: Sink>(
    alloc: Global,
    name: &str,
    shelf: &mut S,
    out: &mut K,
) -> Ending
    requires { ServesFiles (S.serves shelf.old) (Some (upgrade name.now)) }
    ensures { (done : WorkDone) → Serves S.Shelf K.Sink (Some (upgrade name.now)) result shelf.old shelf.new out.old
        out.new done done }
{
    let basin = match read_basin_file(alloc, shelf, name) {
        Ok(basin) => basin,
        Err(ending) => return ending,
    };
    let text = match upgraded(alloc, &basin) {
        Ok(text) => text,
        Err(_) => return Ending::OutOfMemory,
    };
    match put_whole(out, text.as_bytes()) {
        Ok(()) => Ending::Done,
        Err(_) => Ending::WriteFault,
    }
}
