//! The lines of a result text, one `put` for each.
ghost use Rattle.std.specs.Prelude.{◌≡◌, ◌*◌, ◌<◌, ◌≤◌, length, IsErr};
ghost use Rattle.std.specs.List.{flat_map};
ghost use Rattle.rights_roll.specs.Rolls.{IsRollOf};
ghost use Rattle.water_edge.specs.Edge.{HasCause, Puts};
ghost use Rattle.water_model.specs.History.{cut_of};
ghost use Rattle.result_lines.specs.Spelling.{whole_line};
ghost use Rattle.result_lines.specs.Text.{call_items, items_of_head, items_of_month, items_of_tail};
ghost use Rattle.water_model.specs.Valid.{IsValidBasin};
ghost use Rattle.result_text.specs.Members.{members_of};
ghost use Rattle.result_text.specs.Range.{FitsText};

use crate::listing::{put_line, put_lines, put_listing};
use crate::section::MonthLines;
use bit_words::next_marked_in_both;
use cut_cert::calls::callers_by_node;
use result_lines::item::{Item, SECTIONS};
use result_lines::quantity::returned_to;
use rights_roll::roll::Roll;
use water_edge::{Sink, SinkFailed};
use water_model::types::{Basin, MonthRecord};

/// Puts the `in` lines of the nodes that the words mark, in the order of the basin. Words in which no node is marked
/// cost one look.
fn put_members<K: Sink>(
    sink: &mut K,
    basin: &Basin,
    words: &[u64],
    nodes: u32,
) -> Result<(), SinkFailed>
    requires basin { IsValidBasin basin.now }
    requires nodes { nodes ≡ length basin.now.nodes }
    requires words { nodes ≤ 64 * length words.now }
    ensures text { Puts (K.output sink.old) (K.output sink.new) result
        (flat_map (whole_line basin.now) (members_of nodes words.now)) }
    ensures cause { HasCause (K.faults sink.old) (K.faults sink.new) (IsErr result) }
{
    let mut from = 0;
    // Each turn but the last puts one node, so there are turns enough.
    for _turn in 0..nodes {
        match next_marked_in_both(words, words, from, nodes) {
            Some(node) => {
                put_line(sink, basin, Item::Member { node })?;
                from = node + 1;
            }
            None => return Ok(()),
        }
    }
    Ok(())
}

/// Puts the `call` line of a right and the nodes of its set, if the right has one.
pub(crate) fn put_call<K: Sink>(
    sink: &mut K,
    basin: &Basin,
    month: &MonthRecord,
    right: u32,
) -> Result<(), SinkFailed>
    requires basin { IsValidBasin basin.now }
    requires month { FitsText basin.now month.now }
    requires right { right < length basin.now.rights }
    ensures text { Puts (K.output sink.old) (K.output sink.new) result
        (flat_map (whole_line basin.now) (call_items right (cut_of month.now right))) }
    ensures cause { HasCause (K.faults sink.old) (K.faults sink.new) (IsErr result) }
{
    let nodes = basin.nodes.len() as u32;
    match month.cuts.words(right) {
        Some(words) => {
            put_line(sink, basin, Item::Call { right })?;
            put_members(sink, basin, words, nodes)
        }
        None => Ok(()),
    }
}

/// Puts the lines of a month, from its `month` line to its `end` line: what the record holds, section by section, and
/// for each right that answers to a calling right a `called` line. Rights come seniors first, all other entries in the
/// order of the basin.
///
/// Return rows are gone over once, and so are the sets of short rights, for the callers.
///
/// Each line is one `put`. `SinkFailed` comes only where the sink counted a fault; a prefix of the lines was then put.
#[tactic(auto, unfolding(result_lines::specs::Text::month_lines))]
pub fn put_month<K: Sink>(
    sink: &mut K,
    basin: &Basin,
    roll: &Roll,
    month: &MonthRecord,
) -> Result<(), SinkFailed>
    requires basin { IsValidBasin basin.now }
    requires roll { IsRollOf basin.now.rights roll.now }
    requires month { FitsText basin.now month.now }
    ensures text { Puts (K.output sink.old) (K.output sink.new) result
        (flat_map (whole_line basin.now) (items_of_month basin.now month.now)) }
    ensures cause { HasCause (K.faults sink.old) (K.faults sink.new) (IsErr result) }
{
    let returned = returned_to(basin);
    let callers = callers_by_node(basin, roll, month);
    let lines = MonthLines {
        basin,
        month,
        returned: &returned,
        callers: &callers,
    };
    let first = Item::Month { month: month.month };
    put_listing(sink, &lines, basin, roll, &[first], &SECTIONS, &[Item::End])
}

/// Puts the head of a text: its title, and the run's first month and number of months.
///
/// Each line is one `put`. `SinkFailed` comes only where the sink counted a fault; a prefix of the lines was then put.
pub fn put_head<K: Sink>(sink: &mut K, basin: &Basin) -> Result<(), SinkFailed>
    requires { IsValidBasin basin.now }
    ensures text { Puts (K.output sink.old) (K.output sink.new) result
        (flat_map (whole_line basin.now) (items_of_head basin.now)) }
    ensures cause { HasCause (K.faults sink.old) (K.faults sink.new) (IsErr result) }
{
    let run = Item::Run {
        first: basin.first,
        months: basin.months,
    };
    put_lines(sink, basin, &[Item::Title, run])
}

/// Puts the tail of a text: one line with the run's number of months.
///
/// The line is one `put`. `SinkFailed` comes only where the sink counted a fault; a prefix of the line was then put.
pub fn put_tail<K: Sink>(sink: &mut K, basin: &Basin) -> Result<(), SinkFailed>
    requires { IsValidBasin basin.now }
    ensures text { Puts (K.output sink.old) (K.output sink.new) result
        (flat_map (whole_line basin.now) (items_of_tail basin.now)) }
    ensures cause { HasCause (K.faults sink.old) (K.faults sink.new) (IsErr result) }
{
    put_line(
        sink,
        basin,
        Item::Done {
            months: basin.months,
        },
    )
}
