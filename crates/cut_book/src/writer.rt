//! The account book, one `put` for each line.
ghost use Rattle.std.specs.Prelude.{IsErr};
ghost use Rattle.rights_roll.specs.Rolls.{IsRollOf};
ghost use Rattle.water_edge.specs.Edge.{HasCause, Puts};
ghost use Rattle.water_model.specs.Cuts.{IsTight};
ghost use Rattle.water_model.specs.Valid.{IsValidBasin};
ghost use Rattle.result_text.specs.Range.{FitsText};
ghost use Rattle.cut_cert.specs.Sets.{HasCut, cut_at};
ghost use Rattle.cut_book.specs.Book.{account_bytes, book_bytes, space_of};
ghost use Rattle.cut_book.specs.Shortages.{lines_of};

use crate::entry::BookLine;
use crate::part::{PARTS, Part};
use crate::shortage::Shortage;
use result_text::listing::{Listing, put_listing, put_some};
use rights_roll::roll::Roll;
use water_edge::{Sink, SinkFailed};
use water_model::cut_list::CutList;
use water_model::space::Space;
use water_model::types::{Basin, MonthRecord};

impl<'b> Listing for Shortage<'b> {
    type Part = Part;

    type Said = BookLine;

    ghost of_basin = { λ s. s.basin };

    ghost part_space = { space_of };

    ghost entry_lines = { lines_of };

    fn space(&self, part: Part) -> Space {
        match part {
            Part::Supplies => Space::Nodes,
            Part::Enters | Part::Keeps => Space::Links,
            Part::Takes => Space::Rights,
        }
    }

    fn put_entry<K: Sink>(&self, sink: &mut K, part: Part, entry: u32) -> Result<(), SinkFailed> {
        put_some(sink, self.basin, self.line_at(part, entry))
    }
}

/// Puts the account of a right whose set in these cuts is a tight cut of it: the lines of its book after the first.
/// That is each supply in the set, each link that enters it, what is kept on each link that leaves it and for whom,
/// each take of a senior in it, and their sum, which is what the right got. A line of amount 0 is left out.
///
/// Each line is one `put`. `SinkFailed` comes only where the sink counted a fault; a prefix of the account was then
/// put. The cost is linear in nodes, links and rights, and no memory is taken.
pub fn put_account<K: Sink>(
    sink: &mut K,
    basin: &Basin,
    roll: &Roll,
    month: &MonthRecord,
    cuts: &CutList,
    right: u32,
) -> Result<(), SinkFailed>
    requires basin { IsValidBasin basin.now }
    requires roll { IsRollOf basin.now.rights roll.now }
    requires month { FitsText basin.now month.now }
    requires cut { HasCut basin.now cuts.now right }
    requires tight { IsTight basin.now month.now.month month.now.supply month.now.delivered right
        (cut_at cuts.now right) }
    ensures text { Puts (K.output sink.old) (K.output sink.new) result
        (account_bytes basin.now month.now right (cut_at cuts.now right)) }
    ensures cause { HasCause (K.faults sink.old) (K.faults sink.new) (IsErr result) }
{
    let shortage = Shortage {
        basin,
        roll,
        month,
        cuts,
        right,
    };
    let sum = shortage.sum();
    put_listing(sink, &shortage, basin, roll, &[], &PARTS, &[sum])
}

/// Puts the account book of a right whose set in the record is a tight cut of it: what it got and wanted, each supply
/// in the set, each link that enters it, what is kept on each link that leaves it and for whom, each take of a senior
/// in it, and their sum, which is what the right got. A line of amount 0 is left out.
///
/// Each line is one `put`. `SinkFailed` comes only where the sink counted a fault; a prefix of the book was then put.
/// The cost is linear in nodes, links and rights, and no memory is taken.
pub fn put_book<K: Sink>(
    sink: &mut K,
    basin: &Basin,
    roll: &Roll,
    month: &MonthRecord,
    right: u32,
) -> Result<(), SinkFailed>
    requires basin { IsValidBasin basin.now }
    requires roll { IsRollOf basin.now.rights roll.now }
    requires month { FitsText basin.now month.now }
    requires cut { HasCut basin.now month.now.cuts right }
    requires tight { IsTight basin.now month.now.month month.now.supply month.now.delivered right
        (cut_at month.now.cuts right) }
    ensures text { Puts (K.output sink.old) (K.output sink.new) result
        (book_bytes basin.now month.now right (cut_at month.now.cuts right)) }
    ensures cause { HasCause (K.faults sink.old) (K.faults sink.new) (IsErr result) }
{
    let shortage = Shortage {
        basin,
        roll,
        month,
        cuts: &month.cuts,
        right,
    };
    let why = shortage.why();
    let sum = shortage.sum();
    put_listing(sink, &shortage, basin, roll, &[why], &PARTS, &[sum])
}
