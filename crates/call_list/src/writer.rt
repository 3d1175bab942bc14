//! The list of calls, one `put` for each line.
ghost use Rattle.std.specs.Prelude.{IsErr};
ghost use Rattle.water_edge.specs.Edge.{HasCause, Puts};
ghost use Rattle.water_model.specs.Valid.{IsValidBasin};
ghost use Rattle.call_list.specs.Lists.{head_bytes, month_bytes, space_of, tail_bytes};
ghost use Rattle.call_list.specs.MonthsCalls.{lines_of};

use crate::entry::Entry;
use crate::month::MonthCalls;
use crate::part::{PARTS, Part};
use result_text::listing::{Listing, put_line, put_listing, put_some};
use water_edge::{Sink, SinkFailed};
use water_model::space::Space;
use water_model::types::Basin;

impl<'b> Listing for MonthCalls<'b> {
    type Part = Part;

    type Said = Entry;

    ghost of_basin = { λ c. c.basin };

    ghost part_space = { space_of };

    ghost entry_lines = { lines_of };

    fn space(&self, part: Part) -> Space {
        match part {
            Part::Nexts => Space::Nodes,
            Part::Links => Space::Links,
            Part::Shorts | Part::Curtailed => Space::Rights,
        }
    }

    fn put_entry<K: Sink>(&self, sink: &mut K, part: Part, entry: u32) -> Result<(), SinkFailed> {
        put_some(sink, self.basin, self.line_at(part, entry))
    }
}

/// Puts the list of a month: each short right with what it got and wanted, seniors first; each node at which one more
/// unit of water would be a right's, with that right; each link where one more unit of carry would help a right, with
/// the most senior one; and each diversion or zone that is curtailed, seniors first, with the senior for whom it is.
///
/// Each line is one `put`. `SinkFailed` comes only where the sink counted a fault; a prefix of the list was then put.
/// The cost is linear in nodes, links and rights, and no memory is taken.
pub fn put_month<K: Sink>(sink: &mut K, calls: &MonthCalls) -> Result<(), SinkFailed>
    ensures text { Puts (K.output sink.old) (K.output sink.new) result
        (month_bytes calls.now.basin calls.now.month calls.now.found) }
    ensures cause { HasCause (K.faults sink.old) (K.faults sink.new) (IsErr result) }
{
    let month = calls.month.month;
    let first = [Entry::Month { month }];
    let last = [Entry::End];
    put_listing(sink, calls, calls.basin, calls.roll, &first, &PARTS, &last)
}

/// Puts the first line of a list.
pub fn put_head<K: Sink>(sink: &mut K, basin: &Basin) -> Result<(), SinkFailed>
    requires { IsValidBasin basin.now }
    ensures text { Puts (K.output sink.old) (K.output sink.new) result (head_bytes basin.now) }
    ensures cause { HasCause (K.faults sink.old) (K.faults sink.new) (IsErr result) }
{
    let entry = Entry::Calls {
        first: basin.first,
        months: basin.months,
    };
    put_line(sink, basin, entry)
}

/// Puts the last line of a list.
pub fn put_tail<K: Sink>(sink: &mut K, basin: &Basin) -> Result<(), SinkFailed>
    requires { IsValidBasin basin.now }
    ensures text { Puts (K.output sink.old) (K.output sink.new) result (tail_bytes basin.now) }
    ensures cause { HasCause (K.faults sink.old) (K.faults sink.new) (IsErr result) }
{
    let entry = Entry::Done {
        months: basin.months,
    };
    put_line(sink, basin, entry)
}
