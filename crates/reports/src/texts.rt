//! The texts of reports, one `put` for each line.
ghost use Rattle.std.specs.Prelude.{◌≡◌, ◌∷◌, [], List, ◌<◌, length, IsErr};
ghost use Rattle.rights_roll.specs.Rolls.{IsRollOf};
ghost use Rattle.water_edge.specs.Edge.{HasCause, Puts};
ghost use Rattle.water_model.specs.Valid.{IsValidBasin};
ghost use Rattle.water_model.specs.declared.space.Space.TheVariants.{Rights};
ghost use Rattle.water_model.specs.declared.types.Series.{Series};
ghost use Rattle.water_model.specs.declared.types.MonthRecord.{MonthRecord};
ghost use Rattle.reports.specs.Reports.{report_text, trial_text};
ghost use Rattle.reports.specs.Tallies.{AreBounded, IsTally, IsTrial};
ghost use Rattle.reports.specs.Texts.{AreRights, IsOfBasin, right_lines, rights_seen};

use crate::called::Trial;
use crate::entry::ReportLine;
use crate::figures::RightFigures;
use crate::tally::Tally;
use crate::totals::totals_of;
use result_text::listing::{Listing, put_line, put_lines, put_listing};
use rights_roll::roll::Roll;
use std::marker::Model;
use water_edge::{Sink, SinkFailed};
use water_model::rows::Rows;
use water_model::space::Space;
use water_model::types::Basin;

/// The figures of each right of a basin, indexed by right.
#[derive(Drop)]
struct RightRows<'b> {
    basin: &'b Basin,
    figures: &'b Rows<RightFigures>,
}

impl<'b> Model for RightRows<'b> {
    ghost use Rattle.reports.specs.Texts.{RightsSeen, AreRights, rights_seen};

    ghost Value = { RightsSeen };

    ghost view = { λ r. rights_seen r.basin.now r.figures.now };

    ghost invariant = { λ r. AreRights (rights_seen r.basin.now r.figures.now) };
}

impl<'b> RightRows<'b> {
    /// The line of a right.
    fn line_of(&self, right: u32) -> ReportLine
        requires { right < length self.now.basin.rights }
        ensures lines { result ∷ [] ≡ right_lines self.now.figures right }
        ensures named { IsOfBasin self.now.basin result }
    {
        ReportLine::Right {
            right,
            figures: self.figures[right as usize],
        }
    }
}

impl<'b> Listing for RightRows<'b> {
    type Part = ();

    type Said = ReportLine;

    ghost of_basin = { λ r. r.basin };

    ghost part_space = { λ part. Rights };

    ghost entry_lines = { λ r part right. right_lines r.figures right };

    fn space(&self, _part: ()) -> Space {
        Space::Rights
    }

    fn put_entry<K: Sink>(&self, sink: &mut K, _part: (), right: u32) -> Result<(), SinkFailed> {
        put_line(sink, self.basin, self.line_of(right))
    }
}

/// Puts the report of a tally: a line for each right, seniors first, and the balance.
///
/// `SinkFailed` comes only where the sink counted a fault; a prefix of the text was then put.
pub fn put_report<K: Sink>(
    sink: &mut K,
    basin: &Basin,
    roll: &Roll,
    tally: &Tally,
) -> Result<(), SinkFailed>
    requires roll { IsRollOf basin.now.rights roll.now }
    requires rights { AreRights (rights_seen basin.now tally.now.rights) }
    ensures text { (series : Series) (records : List MonthRecord) → IsTally basin.now series records tally.now →
        Puts (K.output sink.old) (K.output sink.new) result (report_text basin.now series records) }
    ensures cause { HasCause (K.faults sink.old) (K.faults sink.new) (IsErr result) }
{
    let rights = RightRows {
        basin,
        figures: &tally.rights,
    };
    let waters = tally.waters;
    let last = [
        ReportLine::Balance { waters },
        ReportLine::Rest { waters },
        ReportLine::Done,
    ];
    let first = [ReportLine::Report];
    put_listing(sink, &rights, basin, roll, &first, &[()], &last)
}

/// Puts the summary of a trial of a basin made from a number and a size: sums over all rights, and the balance.
///
/// `SinkFailed` comes only where the sink counted a fault; a prefix of the text was then put.
pub fn put_summary<K: Sink>(
    sink: &mut K,
    number: u32,
    size: u32,
    basin: &Basin,
    trial: &Trial,
) -> Result<(), SinkFailed>
    requires basin { IsValidBasin basin.now }
    requires bounded { AreBounded trial.now.tally.rights }
    ensures text { (series : Series) (records : List MonthRecord) → IsTrial basin.now series records trial.now →
        Puts (K.output sink.old) (K.output sink.new) result (trial_text number size basin.now series records) }
    ensures cause { HasCause (K.faults sink.old) (K.faults sink.new) (IsErr result) }
{
    let totals = totals_of(&trial.tally.rights);
    let waters = trial.tally.waters;
    let lines = [
        ReportLine::Trial { number, size },
        ReportLine::Size,
        ReportLine::Wanted {
            amount: totals.wanted,
        },
        ReportLine::Delivered {
            amount: totals.delivered,
        },
        ReportLine::Short {
            count: totals.short_months,
        },
        ReportLine::Called {
            count: trial.called,
        },
        ReportLine::Balance { waters },
        ReportLine::Rest { waters },
        ReportLine::Done,
    ];
    put_lines(sink, basin, &lines)
}
