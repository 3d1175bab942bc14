//! All that the program does.
ghost use Rattle.std.specs.Prelude.{◌≡◌, Some, map, option_map, string_bytes};
ghost use Rattle.water_edge.specs.Edge.{Rose};
ghost use Rattle.water_text.specs.Months.{IsMonth};
ghost use Rattle.month_fold.specs.Works.{WorkDone};
ghost use Rattle.edit_session.specs.Shown.{IsUntouchedOrFlushed};
ghost use Rattle.basin_cli.specs.Command.{ServesFiles, ServesSeries, check, command_of, edit, ensemble, named, run};
ghost use Rattle.basin_cli.specs.Command.{why};
ghost use Rattle.basin_cli.specs.Ending.{line_of};
ghost use Rattle.basin_cli.specs.Out.{IsUnread, KeepsShown};
ghost use Rattle.basin_cli.specs.Outcome.{Ends, IsQuiet, WritesErrLine, row};
ghost use Rattle.basin_cli.specs.Serving.{Serves};

use crate::actions::{RunText, ensemble_basin, put_run_text, trial_basin};
use crate::checking::{Question, check_file};
use crate::command::{Inputs, Words, command};
use crate::compare::do_compare;
use crate::editing::edit_basin;
use crate::ending::{Ending, File, print_ending};
use crate::explaining::{Account, explain_right};
use crate::files::{read_file, read_inputs, read_record};
use crate::status::Status;
use crate::upgrading::do_upgrade;
use month_fold::work::Work;
use std::alloc::Global;
use std::sync::ledger::Ledger;
use water_edge::{Shelf, Sink};
use water_text::month::Month;

/// `run`, `calls` and `report`: solves the months of a basin with its series and puts their result, the list of their
/// calls, or a report on them.
fn do_text<S: Shelf, K: Sink, P: Ledger, M: Ledger>(
    alloc: Global,
    text: RunText,
    inputs: Inputs,
    shelf: &mut S,
    out: &mut K,
    work: &mut Work<P, M>,
) -> Ending
    requires basin { S.serves shelf.old inputs.basin.now }
    requires series { ServesSeries (S.serves shelf.old) (option_map (λ n. n.now) inputs.series) }
    ensures { Serves S.Shelf K.Sink (Some (run text (named inputs.entry))) result shelf.old shelf.new
        out.old out.new work.old work.new }
{
    let files = match read_inputs(alloc, shelf, inputs) {
        Ok(files) => files,
        Err(ending) => return ending,
    };
    let ending = put_run_text(alloc, text, &files.basin, &files.series, out, work);
    drop(files);
    ending
}

/// `check` and `audit`: reads a result, in parts, and puts whether it is the text of a history of a basin with its
/// series, for an audit of one in which the set of each short right is its reach; or why not.
fn do_check<S: Shelf, K: Sink>(
    alloc: Global,
    question: Question,
    inputs: Inputs,
    result_name: &str,
    shelf: &mut S,
    out: &mut K,
) -> Ending
    requires { ServesFiles (S.serves shelf.old) (Some (check question (named inputs) result_name.now)) }
    ensures { (done : WorkDone) → Serves S.Shelf K.Sink (Some (check question (named inputs.entry) result_name.now))
        result shelf.old shelf.new out.old out.new done done }
{
    let files = match read_inputs(alloc, shelf, inputs) {
        Ok(files) => files,
        Err(ending) => return ending,
    };
    let ending = check_file(
        alloc,
        question,
        &files.basin,
        &files.series,
        shelf,
        result_name,
        out,
    );
    drop(files);
    ending
}

/// `why` and `where`: solves the months of a basin with its series up to one month, and puts why the right of this name
/// got no more in it, or where one more unit of water would help it.
fn do_why<S: Shelf, K: Sink, P: Ledger, M: Ledger>(
    alloc: Global,
    account: Account,
    inputs: Inputs,
    month: Month,
    right: &str,
    shelf: &mut S,
    out: &mut K,
    work: &mut Work<P, M>,
) -> Ending
    requires files { ServesFiles (S.serves shelf.old) (Some (why account (named inputs) month right.now)) }
    requires month { IsMonth month }
    ensures { Serves S.Shelf K.Sink (Some (why account (named inputs.entry) month right.now)) result shelf.old shelf.new
        out.old out.new work.old work.new }
{
    let files = match read_inputs(alloc, shelf, inputs) {
        Ok(files) => files,
        Err(ending) => return ending,
    };
    let ending = explain_right(
        alloc,
        account,
        &files.basin,
        &files.series,
        month,
        right.as_bytes(),
        out,
        work,
    );
    drop(files);
    ending
}

/// `ensemble`: solves the record of a basin's gauges once from each of its years, and puts how often each yearly
/// delivery came.
fn do_ensemble<S: Shelf, K: Sink, P: Ledger, M: Ledger>(
    alloc: Global,
    inputs: Inputs,
    shelf: &mut S,
    out: &mut K,
    work: &mut Work<P, M>,
) -> Ending
    requires { ServesFiles (S.serves shelf.old) (Some (ensemble (named inputs))) }
    ensures { Serves S.Shelf K.Sink (Some (ensemble (named inputs.entry))) result shelf.old shelf.new out.old out.new
        work.old work.new }
{
    let files = match read_record(alloc, shelf, inputs) {
        Ok(files) => files,
        Err(ending) => return ending,
    };
    let ending = ensemble_basin(alloc, &files.basin, &files.series, out, work);
    drop(files);
    ending
}

/// `edit`: changes numbers of a basin's series as a script says, and puts the months that it shows.
fn do_edit<S: Shelf, K: Sink, P: Ledger, M: Ledger>(
    alloc: Global,
    inputs: Inputs,
    script: &str,
    shelf: &mut S,
    out: &mut K,
    work: &mut Work<P, M>,
) -> Ending
    requires { ServesFiles (S.serves shelf.old) (Some (edit (named inputs) script.now)) }
    ensures { Serves S.Shelf K.Sink (Some (edit (named inputs.entry) script.now)) result shelf.old shelf.new out.old
        out.new work.old work.new }
{
    let files = match read_inputs(alloc, shelf, inputs) {
        Ok(files) => files,
        Err(ending) => return ending,
    };
    let text = match read_file(alloc, shelf, script, File::Script) {
        Ok(text) => text,
        Err(ending) => {
            drop(files);
            return ending;
        }
    };
    let ending = edit_basin(alloc, &files.basin, &files.series, &text, out, work);
    drop(files);
    ending
}

/// Does what the words say, and leaves err alone.
fn decide<S: Shelf, K: Sink, P: Ledger, M: Ledger>(
    alloc: Global,
    words: &[String],
    shelf: &mut S,
    out: &mut K,
    work: &mut Work<P, M>,
) -> Ending
    requires { ServesFiles (S.serves shelf.old) (command_of (map string_bytes words.now)) }
    ensures { Serves S.Shelf K.Sink (command_of (map string_bytes words.now)) result shelf.old shelf.new out.old out.new
        work.old work.new }
{
    match command(words) {
        None => Ending::Usage,
        Some(Words::Text(text, inputs)) => do_text(alloc, text, inputs, shelf, out, work),
        Some(Words::Ensemble(inputs)) => do_ensemble(alloc, inputs, shelf, out, work),
        Some(
            Words::Check {
                question,
                inputs,
                result,
            },
        ) => do_check(alloc, question, inputs, result, shelf, out),
        Some(Words::Edit { inputs, script }) => do_edit(alloc, inputs, script, shelf, out, work),
        Some(Words::Upgrade(basin)) => do_upgrade(alloc, basin, shelf, out),
        Some(Words::Trial { number, size }) => trial_basin(alloc, number, size, out, work),
        Some(Words::Compare { inputs, second }) => {
            do_compare(alloc, inputs, second, shelf, out, work)
        }
        Some(
            Words::Why {
                account,
                inputs,
                month,
                right,
            },
        ) => do_why(alloc, account, inputs, month, right, shelf, out, work),
    }
}

/// All that the program does. The words are those after the program's name, and `work` counts the months that are
/// solved, and the pushes of searches.
pub fn basin_main<S: Shelf, K: Sink, E: Sink, P: Ledger, M: Ledger>(
    alloc: Global,
    words: &[String],
    shelf: &mut S,
    out: &mut K,
    err: &mut E,
    work: &mut Work<P, M>,
) -> Status
    // No other name is read than that of a file of the command.
    requires { ServesFiles (S.serves shelf.old) (command_of (map string_bytes words.now)) }

    // The status is that of an ending that has its cause, and err got its line, or a prefix of it where err failed. An
    // ending at a file comes after that file was asked for, and before any later one was.
    ensures ends { Ends (command_of (map string_bytes words.now)) result (S.known shelf.old)
        (Rose (S.faults shelf.old) (S.faults shelf.new)) (Rose (K.faults out.old) (K.faults out.new))
        (S.asked shelf.old) (S.asked shelf.new)
        (E.output err.old) (E.output err.new) (E.faults err.old) (E.faults err.new) }
    // Where nothing is refused and nothing fails, the call is done; a result that is checked or audited is judged as
    // what it is, and a comparison answers no exactly where somebody is injured.
    ensures complete { (row (command_of (map string_bytes words.now))).completes result (S.known shelf.old)
        (Rose (S.faults shelf.old) (S.faults shelf.new)) (Rose (K.faults out.old) (K.faults out.new)) }

    // The text of records that keep the priority of rights, the list of their calls, a report on them, the answer to a
    // result, the comparison of two such lists of records, or the months that a script shows; or after a fault of out a
    // prefix of it. The months of a run, of a list of calls and of a script are written and flushed as they are solved.
    ensures writes { (row (command_of (map string_bytes words.now))).writes result (S.known shelf.old) (K.output out.old)
        (K.output out.new) work.old work.new }
    ensures out_stays { ((row (command_of (map string_bytes words.now))).may result → ⊥) → out.new ≡ out.old }
    ensures err_stays { IsQuiet result → err.new ≡ err.old }

    // Done and no come only where all that was put was flushed, and where memory ran out the months that a script
    // showed were; the line on err was flushed unless err failed.
    ensures flushed { IsQuiet result → (K.output out.new).flushed ≡ (K.output out.new).taken }
    ensures shown { KeepsShown (command_of (map string_bytes words.now)) result
        (IsUntouchedOrFlushed out.old out.new (K.output out.new)) }
    ensures err_flushed { (IsQuiet result → ⊥) → (Rose (E.faults err.old) (E.faults err.new) → ⊥) →
        (E.output err.new).flushed ≡ (E.output err.new).taken }

    // Want of memory says nothing of a result: it was not asked for.
    ensures unread { IsUnread (command_of (map string_bytes words.now)) result (S.asked shelf.old) (S.asked shelf.new) }

    // Where words, a file or a script are refused or not read, nothing is solved; of a run, a report, a trial and an
    // account want of memory comes before a month is solved, or not at all. Counted are no more months than these: of a
    // run and a list of calls those that were written, of an account those up to the month asked for, of a comparison
    // those of both runs, of an ensemble a run for each year, of a script as many as it costs, and of a check or an
    // audit none. Each has at most as many pushes as its bound allows.
    ensures idle { (row (command_of (map string_bytes words.now))).rests result → work.new ≡ work.old }
    ensures work { (row (command_of (map string_bytes words.now))).work (S.known shelf.old) work.old work.new }
{
    let ending = decide(alloc, words, shelf, out, work);
    if ending.has_line_on_err() {
        print_ending(&ending, err);
    }
    ending.status()
}

/// All that the program does where it has no memory for its words: err gets the line for that, or a prefix of it where
/// err fails.
pub fn without_words<E: Sink>(err: &mut E) -> Status
    ensures status { result ≡ Status.OutOfMemory }
    ensures writes { WritesErrLine (E.output err.old) (E.output err.new) (E.faults err.old) (E.faults err.new)
        (line_of Ending.OutOfMemory) }
    ensures err_flushed { (Rose (E.faults err.old) (E.faults err.new) → ⊥) →
        (E.output err.new).flushed ≡ (E.output err.new).taken }
{
    let ending = Ending::OutOfMemory;
    print_ending(&ending, err);
    ending.status()
}
