//! The program: real files and streams under the top call.
#![tactic(auto)]

ghost use Rattle.std.specs.Prelude.{[], ◌≡◌, ◌<◌, IfOk, OnErr, drop, map, string_bytes};
ghost use Rattle.std.specs.Process.{exit_status};
ghost use Rattle.std.specs.Vec.Iter.{into_iter_items};
ghost use Rattle.water_edge.specs.Edge.{Rose};
ghost use Rattle.basin_cli.specs.Code.{code_of};
ghost use Rattle.basin_cli.specs.Command.{ServesFiles, command_of};
ghost use Rattle.basin_cli.specs.Ending.{line_of};
ghost use Rattle.basin_cli.specs.Outcome.{WritesErrLine};
ghost use Rattle.basin_cli.specs.Serving.{IsServed};
ghost use Rattle.basin_cli.specs.declared.ending.Ending.TheVariants as ending;
ghost use Rattle.basin_cli.specs.declared.status.Status.{Status};
ghost use Rattle.basin_cli.specs.declared.status.Status.TheVariants.{OutOfMemory};

use basin_cli::{Status, basin_main, without_words};
use month_fold::work::Work;
use std::alloc::{AllocError, Global};
use std::env::Args;
use std::io;
use std::io::Write;
use std::marker::Brand;
use std::process::ExitCode;
use std::rt::{Env, Files};
use std::sync::ledger::{Blank, Ledger};
use water_edge::{FileShelf, Shelf, Sink, StdSink};

/// The words after the first, which is the program's name.
fn after_first(alloc: Global, mut args: Args) -> Result<Vec<String>, AllocError>
    ensures { IfOk result (λ words. words.items ≡ drop 1 (into_iter_items args)) }
{
    let _ = args.next();
    let mut words = Vec::new(alloc);
    for word in args {
        words.push(word)?;
    }
    Ok(words)
}

/// The words after the program's name, of what std says of the command line. None of them where one is no text.
fn words(alloc: Global, args: io::Result<Args>) -> Result<Vec<String>, AllocError>
    ensures given { IfOk result (λ words. IfOk args (λ given. words.items ≡ drop 1 (into_iter_items given))) }
    ensures none { IfOk result (λ words. OnErr args (words.items ≡ [])) }
{
    match args {
        Ok(args) => after_first(alloc, args),
        Err(e) => {
            if e.kind() == io::ErrorKind::OutOfMemory {
                Err(AllocError)
            } else {
                Ok(Vec::new(alloc))
            }
        }
    }
}

/// What the process ends with, of a status.
fn exit(status: Status) -> ExitCode
    ensures { exit_status result ≡ code_of status }
{
    ExitCode::from(status.code())
}

/// Does what the words say. It promises of the status all that `basin_main` does.
fn served<S: Shelf, K: Sink, E: Sink, P: Ledger, M: Ledger>(
    alloc: Global,
    words: &[String],
    shelf: &mut S,
    out: &mut K,
    err: &mut E,
    work: &mut Work<P, M>,
) -> Status
    requires { ServesFiles (S.serves shelf.old) (command_of (map string_bytes words.now)) }
    ensures { IsServed S.Shelf K.Sink E.Sink (command_of (map string_bytes words.now)) result shelf.old shelf.new
        out.old out.new err.old err.new work.old work.new }
{
    basin_main(alloc, words, shelf, out, err, work)
}

/// Does what the words say, or without memory for them puts the line for that. The process ends with the status.
fn serve<S: Shelf, K: Sink, E: Sink, P: Ledger, M: Ledger>(
    alloc: Global,
    words: Result<Vec<String>, AllocError>,
    shelf: &mut S,
    out: &mut K,
    err: &mut E,
    work: &mut Work<P, M>,
) -> ExitCode
    requires { IfOk words (λ w. ServesFiles (S.serves shelf.old) (command_of (map string_bytes w.items))) }

    ensures code { (status : Status) × (exit_status result ≡ code_of status) }

    // With words: all that `basin_main` promises.
    ensures served { IfOk words (λ w. (status : Status) × (exit_status result ≡ code_of status)
        × IsServed S.Shelf K.Sink E.Sink (command_of (map string_bytes w.items)) status shelf.old shelf.new
        out.old out.new err.old err.new work.old work.new) }

    // Without: nothing is done but for the line on err.
    ensures status { OnErr words (exit_status result ≡ code_of OutOfMemory) }
    ensures line { OnErr words (WritesErrLine (E.output err.old) (E.output err.new) (E.faults err.old)
        (E.faults err.new) (line_of ending.OutOfMemory)) }
    ensures line_flushed { OnErr words ((Rose (E.faults err.old) (E.faults err.new) → ⊥) →
        (E.output err.new).flushed ≡ (E.output err.new).taken) }
    ensures shelf_stays { OnErr words (shelf.new ≡ shelf.old) }
    ensures out_stays { OnErr words (out.new ≡ out.old) }
    ensures idle { OnErr words (work.new ≡ work.old) }
{
    match words {
        Ok(words) => exit(served(alloc, &words, shelf, out, err, work)),
        Err(AllocError) => exit(without_words(err)),
    }
}

/// Serves the words of the command line on the system's files and these two streams, and counts from nothing.
fn run<P: Ledger, M: Ledger, R: Files + Env + AllocGlobal, W: Write + Drop, V: Write + Drop>(
    rt: &R,
    out: W,
    err: V,
    pushes: Blank,
    months: Blank,
) -> ExitCode
    requires pushes_name { pushes.name ≡ P.name }
    requires pushes_parts { pushes.parts ≡ P.parts }
    requires pushes_some { 0 < P.parts }
    requires months_name { months.name ≡ M.name }
    requires months_parts { months.parts ≡ M.parts }
    requires months_some { 0 < M.parts }
    ensures { (status : Status) × (exit_status result ≡ code_of status) }
{
    let mut work = Work::<P, M>::new(pushes, months);
    let mut shelf = FileShelf::new(rt);
    let mut out = StdSink::new(out);
    let mut err = StdSink::new(err);
    let words = words(rt.alloc(), std::env::args(rt));
    serve(rt.alloc(), words, &mut shelf, &mut out, &mut err, &mut work)
}

fn main(rt: HostRuntime) -> ExitCode {
    let pushes = Blank::new(1);
    let months = Blank::new(1);
    run::<Brand, Brand, HostRuntime, _, _>(&rt, rt.stdout(), rt.stderr(), pushes, months)
}
