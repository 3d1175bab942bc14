//! A result checked against a basin and a series, over their bytes alone.
ghost use Rattle.std.specs.Prelude.{◌≡◌};
ghost use Rattle.basin_cli.specs.Found.{IsFound, RunsAreAccepted, RunsAreAudited, refusal};

use crate::actions::answer_of;
use crate::ending::Ending;
use crate::files::{accept_basin, accept_series};
use std::alloc::Global;

/// What the bytes of a basin file, a series and a result are found to be.
#[derive(Clone, Copy, Debug, PartialEq, Eq)]
pub enum Found {
    /// The result is the text of a history of the basin and the series.
    Accepted,
    /// It is the text of none.
    Refuted,
    /// The basin file is at fault.
    BasinRefused,
    /// The series is at fault, for this basin.
    SeriesRefused,
    /// Memory is lacking. This says nothing of the bytes.
    OutOfMemory,
}

/// What is found where the reading of a basin or a series ended this way.
fn refusal(ending: &Ending) -> Found
    ensures { result ≡ refusal ending.now }
{
    match ending {
        Ending::BasinRefused(_) => Found::BasinRefused,
        Ending::SeriesRefused(_) => Found::SeriesRefused,
        _ => Found::OutOfMemory,
    }
}

/// Checks the bytes of a result against those of a basin file and of a series: the whole meaning of a yes and of a no,
/// without files, statuses and limits. A yes or a no comes only where nothing is at fault in basin and series. The
/// command `check` answers the same of files within its limits, and names the line at fault. It takes memory, and
/// OutOfMemory comes only where that is lacking.
pub fn check_result(alloc: Global, basin: &[u8], series: &[u8], text: &[u8]) -> Found
    ensures { IsFound result basin.now series.now text.now }
{
    let basin = match accept_basin(alloc, basin) {
        Ok(basin) => basin,
        Err(ending) => return refusal(&ending),
    };
    let series = match accept_series(alloc, &basin, series) {
        Ok(series) => series,
        Err(ending) => return refusal(&ending),
    };
    match answer_of(alloc, &basin, &series, text) {
        Ok(Ok(_)) => Found::Accepted,
        Ok(Err(_)) => Found::Refuted,
        Err(_) => Found::OutOfMemory,
    }
}

/// The text of a run is accepted.
pub fn runs_are_accepted()
    ensures { RunsAreAccepted }
{}

/// The text of a run is audited.
pub fn runs_are_audited()
    ensures { RunsAreAudited }
{}
