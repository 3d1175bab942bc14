//! How a line is spelled.
ghost use Rattle.std.specs.Prelude.{◌≡◌, ◌+◌, ◌≤◌, ◌++◌, ◌∷◌, length, IfSome};
ghost use Rattle.water_text.specs.Months.{IsMonth};
ghost use Rattle.reports.specs.Reports.{month_or_dash};
ghost use Rattle.reports.specs.Texts.{IsOfBasin, whole_line};

use crate::entry::ReportLine;
use result_text::listing::Spelled;
use water_model::space::{Space, name_in};
use water_model::types::Basin;
use water_text::line::Line;
use water_text::month::Month;

/// Appends a month, or `-` for none, after a space.
#[tactic(auto, unfolding(crate::specs::Reports::month_or_dash))]
fn add_month_or_dash(line: &mut Line, month: Option<Month>)
    requires room { length line.old + 8 ≤ 128 }
    requires month { IfSome month IsMonth }
    ensures text { line.new ≡ line.old ++ 32 ∷ month_or_dash month }
    ensures room { length line.new ≤ length line.old + 8 }
{
    match month {
        Some(month) => line.add_month(month),
        None => line.word(b" -"),
    }
}

impl Spelled for ReportLine {
    ghost is_of_basin = { IsOfBasin };

    ghost bytes = { whole_line };

    #[tactic(auto, unfolding(crate::specs::Reports::row, crate::specs::Texts::whole_line))]
    fn spell(&self, line: &mut Line, basin: &Basin) {
        match *self {
            ReportLine::Report => {
                line.word(b"report");
                line.add_month(basin.first);
                line.add_number(u64::from(basin.months));
            }
            ReportLine::Right { right, figures } => {
                line.word(b"right");
                line.add_name(name_in(Space::Rights, basin, right));
                line.add_number(u64::from(figures.short_months));
                line.add_number(figures.wanted);
                line.add_number(figures.delivered);
                add_month_or_dash(line, figures.worst);
            }
            ReportLine::Trial { number, size } => {
                line.word(b"trial");
                line.add_number(u64::from(number));
                line.add_number(u64::from(size));
            }
            ReportLine::Size => {
                line.word(b"size");
                line.add_number(basin.nodes.len() as u64);
                line.add_number(basin.links.len() as u64);
                line.add_number(basin.rights.len() as u64);
                line.add_number(u64::from(basin.months));
            }
            ReportLine::Wanted { amount } => {
                line.word(b"wanted");
                line.add_number(amount);
            }
            ReportLine::Delivered { amount } => {
                line.word(b"delivered");
                line.add_number(amount);
            }
            ReportLine::Short { count } => {
                line.word(b"short");
                line.add_number(count);
            }
            ReportLine::Called { count } => {
                line.word(b"called");
                line.add_number(count);
            }
            ReportLine::Balance { waters } => {
                line.word(b"balance");
                line.add_number(waters.opening);
                line.add_number(waters.inflows);
                line.add_number(waters.returns);
                line.add_number(waters.closing);
                return;
            }
            ReportLine::Rest { waters } => {
                line.add_number(waters.evaporated);
                line.add_number(waters.diverted);
                line.add_number(waters.out);
            }
            ReportLine::Done => {
                line.word(b"done");
                line.add_number(u64::from(basin.months));
            }
        }
        line.word(b"\n");
    }
}
