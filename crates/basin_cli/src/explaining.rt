//! Why a right got no more in a month: the account book of its reach, or where one more unit of water would help it and
//! the account of its core; or that it is met.
ghost use Rattle.std.specs.Prelude.{ℕ, List, [], ◌≡◌, ◌+◌, ◌<◌, ◌≤◌, length, IsErr, IfNone, IfSome, bytes_eq, position};
ghost use Rattle.water_text.specs.Months.{IsMonth};
ghost use Rattle.water_model.specs.Valid.{IsValidBasin, IsSeriesOf};
ghost use Rattle.rights_roll.specs.Rolls.{IsRollOf};
ghost use Rattle.water_model.specs.History.{HasReaches, IsShort};
ghost use Rattle.month_fold.specs.Runs.{HasMonths, RunStandsFor};
ghost use Rattle.month_fold.specs.Works.{Solves};
ghost use Rattle.result_text.specs.Range.{FitsText};
ghost use Rattle.water_edge.specs.Edge.{HasCause, Puts, Rose};
ghost use Rattle.basin_cli.specs.Actions.{AnswersAt, EndsAsking, IsAnswered};
ghost use Rattle.basin_cli.specs.Ending.{status_of};
ghost use Rattle.basin_cli.specs.Explained.{EndsExplaining, Explains, HasLast, HasMonth, HasRight, IsMonthAt};
ghost use Rattle.basin_cli.specs.Explained.{CanExplain, IsRightNamed, WorkUpTo, ExplainsShort, met_line};
ghost use Rattle.call_list.specs.Helpers.{IsHelpFinderOf};
ghost use Rattle.plan_residual.specs.Residual.{HasPlan};
ghost use Rattle.basin_cli.specs.Out.{IsRefusal, Leaves, MayWrite};
ghost use Rattle.basin_cli.specs.Outcome.{IsQuiet};
ghost use Rattle.basin_cli.specs.Serving.{Acts};
ghost use Rattle.basin_cli.specs.declared.ending.Ending.TheVariants.{OutOfMemory};

use crate::ending::Ending;
use call_list::{HelpFinder, put_helping};
use cut_book::put_book;
use cut_cert::calls::is_short;
use edit_script::ScriptFault;
use month_fold::run::Run;
use month_fold::work::Work;
use rights_roll::roll::Roll;
use std::alloc::Global;
use std::sync::ledger::Ledger;
use water_edge::{Sink, SinkFailed};
use water_model::calls::index_in_run;
use water_model::space::{Space, name_in};
use water_model::types::{Basin, MonthRecord, Series};
use water_text::line::Line;
use water_text::month::Month;
use water_text::name::Name;

/// The account that is asked for: that of a right's reach, or that of its core, with where one more unit of water would
/// help it.
#[derive(Clone, Copy, Debug, PartialEq, Eq)]
pub enum Account {
    Reach,
    Core,
}

/// The index of a month in the run, or `None` where the run hasn't it.
fn index_of(basin: &Basin, month: Month) -> Option<u32>
    requires basin { IsValidBasin basin.now }
    requires month { IsMonth month }
    ensures some { IfSome result (IsMonthAt basin.now month) }
    ensures none { IfNone result (HasMonth basin.now month → ⊥) }
{
    index_in_run(basin, month)
}

/// The index of the first right with this name.
fn place_named(basin: &Basin, name: &[u8]) -> Option<usize>
    ensures { result ≡ position (λ right. bytes_eq name.now right.name) basin.now.rights }
{
    basin
        .rights
        .as_slice()
        .iter()
        .position(|right| name == right.name.bytes())
}

/// The right with this name, or `None` where no right has it. The cost is linear in the rights.
fn right_named(basin: &Basin, name: &[u8]) -> Option<u32>
    requires { IsValidBasin basin.now }
    ensures some { IfSome result (IsRightNamed basin.now name.now) }
    ensures none { IfNone result (HasRight basin.now name.now → ⊥) }
{
    match place_named(basin, name) {
        Some(at) => Some(at as u32),
        None => None,
    }
}

/// Solves the months of a run up to the one of this index, whose record `month` then gives.
fn solve_up_to<P: Ledger, M: Ledger>(run: &mut Run, index: u32, work: &mut Work<P, M>)
    requires first { RunStandsFor run.old [] }
    requires within { index < run.old.basin.months }
    ensures basin { run.new.basin ≡ run.old.basin }
    ensures series { run.new.series ≡ run.old.series }
    ensures done { run.new.done ≡ index + 1 }
    ensures last { HasLast run.new }
    ensures work { Solves (index + 1) run.old.basin work.old work.new }
{
    for _month in 0..index {
        run.step(work);
    }
    run.step(work);
}

/// Makes the line of a right that is met.
#[tactic(auto, unfolding(crate::specs::Explained::met_line))]
fn put_met(line: &mut Line, month: Month, name: &Name)
    requires empty { line.old ≡ [] }
    requires month { IsMonth month }
    ensures { line.new ≡ met_line month name.now }
{
    line.word(b"met");
    line.add_month(month);
    line.add_name(name);
    line.word(b"\n");
}

/// Puts that a right is met, by one `put`. It takes no memory.
fn print_met<K: Sink>(sink: &mut K, month: Month, name: &Name) -> Result<(), SinkFailed>
    requires { IsMonth month }
    ensures text { Puts (K.output sink.old) (K.output sink.new) result (met_line month name.now) }
    ensures cause { HasCause (K.faults sink.old) (K.faults sink.new) (IsErr result) }
{
    let mut line = Line::new();
    put_met(&mut line, month, name);
    sink.put(line.bytes())
}

/// Puts the account of a short right of a month whose sets are the reaches. It takes no memory.
fn put_account<K: Sink>(
    sink: &mut K,
    account: Account,
    finder: &mut HelpFinder,
    basin: &Basin,
    roll: &Roll,
    month: &MonthRecord,
    right: u32,
) -> Result<(), SinkFailed>
    requires can { CanExplain basin.now finder.old roll.now month.now right }
    requires short { IsShort month.now right }
    ensures text { (text : List ℕ) × ExplainsShort account basin.now month.now right text ×
        Puts (K.output sink.old) (K.output sink.new) result text }
    ensures cause { HasCause (K.faults sink.old) (K.faults sink.new) (IsErr result) }
{
    match account {
        Account::Reach => put_book(sink, basin, roll, month, right),
        Account::Core => put_helping(sink, finder, basin, roll, month, right),
    }
}

/// Puts why a right got no more in a month whose sets are the reaches: its account, or that it is met. It takes no
/// memory.
fn put_answer<K: Sink>(
    sink: &mut K,
    account: Account,
    finder: &mut HelpFinder,
    basin: &Basin,
    roll: &Roll,
    month: &MonthRecord,
    right: u32,
) -> Result<(), SinkFailed>
    requires { CanExplain basin.now finder.old roll.now month.now right }
    ensures text { (text : List ℕ) × Explains account basin.now month.now right text ×
        Puts (K.output sink.old) (K.output sink.new) result text }
    ensures cause { HasCause (K.faults sink.old) (K.faults sink.new) (IsErr result) }
{
    if is_short(month, right) {
        put_account(sink, account, finder, basin, roll, month, right)
    } else {
        print_met(sink, month.month, name_in(Space::Rights, basin, right))
    }
}

/// How a call ends whose answer about a right is put.
fn ending_for(month: &MonthRecord, right: u32) -> Ending
    requires delivered { right < length month.now.delivered }
    requires want { right < length month.now.want }
    ensures ends { EndsExplaining month.now right result ⊥ }
    ensures idle { IsRefusal (status_of result) → ⊥ }
{
    if is_short(month, right) {
        Ending::Done
    } else {
        Ending::Met
    }
}

/// Puts why a right got no more in a month, and says how the call ends.
fn answer<K: Sink>(
    out: &mut K,
    account: Account,
    finder: &mut HelpFinder,
    basin: &Basin,
    roll: &Roll,
    month: &MonthRecord,
    right: u32,
) -> Ending
    requires { CanExplain basin.now finder.old roll.now month.now right }
    ensures ends { EndsExplaining month.now right result (Rose (K.faults out.old) (K.faults out.new)) }
    ensures leaves { (text : List ℕ) × Explains account basin.now month.now right text ×
        Leaves (status_of result) text (K.output out.old) (K.output out.new) }
    ensures idle { IsRefusal (status_of result) → ⊥ }
    ensures flushed { IsQuiet (status_of result) → (K.output out.new).flushed ≡ (K.output out.new).taken }
{
    match put_answer(out, account, finder, basin, roll, month, right) {
        Ok(()) => match out.flush() {
            Ok(()) => ending_for(month, right),
            Err(_) => Ending::WriteFault,
        },
        Err(_) => Ending::WriteFault,
    }
}

/// Solves the months of a basin up to the one with this index, and puts the answer about a right in it, by a finder of
/// the basin.
fn explain_by<K: Sink, P: Ledger, M: Ledger>(
    alloc: Global,
    account: Account,
    finder: &mut HelpFinder,
    basin: &Basin,
    series: &Series,
    index: u32,
    right: u32,
    out: &mut K,
    work: &mut Work<P, M>,
) -> Ending
    requires finder { IsHelpFinderOf basin.now finder.old }
    requires basin { IsValidBasin basin.now }
    requires series { IsSeriesOf basin.now series.now }
    requires index { index < basin.now.months }
    requires right { right < length basin.now.rights }
    ensures answers { MayWrite (status_of result) → AnswersAt account basin.now series.now index right result
        (Rose (K.faults out.old) (K.faults out.new)) (K.output out.old) (K.output out.new) }
    ensures memory { (MayWrite (status_of result) → ⊥) → result ≡ OutOfMemory }
    ensures out_stays { (MayWrite (status_of result) → ⊥) → out.new ≡ out.old }
    ensures idle { (MayWrite (status_of result) → ⊥) → work.new ≡ work.old }
    ensures work { Solves (index + 1) basin.now work.old work.new }
    ensures flushed { IsQuiet (status_of result) → (K.output out.new).flushed ≡ (K.output out.new).taken }
{
    let mut run = match Run::open(alloc, basin, series) {
        Ok(run) => run,
        Err(_) => return Ending::OutOfMemory,
    };
    solve_up_to(&mut run, index, work);
    let ending = answer(
        out,
        account,
        finder,
        run.basin(),
        run.roll(),
        run.month(),
        right,
    );
    drop(run);
    ending
}

/// Solves the months of a basin with its series up to the one of this index, and puts why a right got no more in it.
fn explain_at<K: Sink, P: Ledger, M: Ledger>(
    alloc: Global,
    account: Account,
    basin: &Basin,
    series: &Series,
    index: u32,
    right: u32,
    out: &mut K,
    work: &mut Work<P, M>,
) -> Ending
    requires basin { IsValidBasin basin.now }
    requires series { IsSeriesOf basin.now series.now }
    requires index { index < basin.now.months }
    requires right { right < length basin.now.rights }
    ensures answers { MayWrite (status_of result) → AnswersAt account basin.now series.now index right result
        (Rose (K.faults out.old) (K.faults out.new)) (K.output out.old) (K.output out.new) }
    ensures memory { (MayWrite (status_of result) → ⊥) → result ≡ OutOfMemory }
    ensures out_stays { (MayWrite (status_of result) → ⊥) → out.new ≡ out.old }
    ensures idle { (MayWrite (status_of result) → ⊥) → work.new ≡ work.old }
    ensures work { Solves (index + 1) basin.now work.old work.new }
    ensures flushed { IsQuiet (status_of result) → (K.output out.new).flushed ≡ (K.output out.new).taken }
{
    let mut finder = match HelpFinder::open(alloc, basin) {
        Ok(finder) => finder,
        Err(_) => return Ending::OutOfMemory,
    };
    let ending = explain_by(
        alloc,
        account,
        &mut finder,
        basin,
        series,
        index,
        right,
        out,
        work,
    );
    drop(finder);
    ending
}

/// Puts why the right of this name got no more in a month: where it is short, the account book of its reach, or where
/// one more unit would help it and the account of its core; and otherwise that it is met. Months are solved up to this
/// one and no further, and nothing is put before it is solved.
pub fn explain_right<K: Sink, P: Ledger, M: Ledger>(
    alloc: Global,
    account: Account,
    basin: &Basin,
    series: &Series,
    month: Month,
    name: &[u8],
    out: &mut K,
    work: &mut Work<P, M>,
) -> Ending
    requires basin { IsValidBasin basin.now }
    requires series { IsSeriesOf basin.now series.now }
    requires month { IsMonth month }
    ensures { Acts K.Sink (EndsAsking basin.now series.now month name.now)
        (λ status old new _ _. IsAnswered account basin.now series.now month name.now status old new)
        (WorkUpTo basin.now month) result out.old out.new work.old work.new }
{
    let Some(index) = index_of(basin, month) else {
        return Ending::ScriptRefused {
            fault: ScriptFault::OutsideRun,
            line: 0,
        };
    };
    let Some(right) = right_named(basin, name) else {
        return Ending::ScriptRefused {
            fault: ScriptFault::NoSuchName,
            line: 0,
        };
    };
    explain_at(alloc, account, basin, series, index, right, out, work)
}
