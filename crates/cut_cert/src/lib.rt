//! The bound that a set of nodes puts on a right, and whether it shows why the right got no more.
//!
//! It needs no flow and no search: supplies, carries and what senior rights keep are all that it needs. (The max-flow
//! min-cut theorem with lower bounds, for one right at a time: Ahuja, Magnanti and Orlin, Network Flows.)
#![tactic(auto)]

ghost use Rattle.std.specs.Prelude.{◌≡◌, ◌<◌, max, if◌then◌else◌, length, slice_index, IsTrue, ◌↔◌};
ghost use Rattle.bit_words.specs.Marks.{words_for};
ghost use Rattle.water_text.specs.Months.{IsMonth};
ghost use Rattle.water_model.specs.Lookups.{has};
ghost use Rattle.water_model.specs.Basin.{is_on_link, instream_link, is_senior, taking_node};
ghost use Rattle.water_model.specs.Cuts.{enters, leaves, takes_within, kept_on, cut_bound, separates, IsTight};
ghost use Rattle.water_model.specs.Valid.{IsValidBasin};
ghost use Rattle.rights_roll.specs.Rolls.{IsRollOf};
ghost use Rattle.cut_cert.specs.Rows.{AreNodeRows};
ghost use Rattle.cut_cert.specs.Sets.{cut_at, marked_nodes, HasCut, AreAmounts};

mod bounding;
pub mod calls;
mod marked;
pub mod rows;

use crate::bounding::sides_of;
use crate::marked::words_of;
use crate::rows::NodeRows;
use rights_roll::priority::is_senior_to;
use rights_roll::roll::Roll;
use water_model::cut_list::CutList;
use water_model::types::{Basin, RightKind};
use water_text::month::Month;

/// Whether a right's set holds a node.
pub fn holds(cuts: &CutList, right: u32, node: u32) -> bool
    requires right { right < length cuts.now.sets }
    requires node { node < cuts.now.nodes }
    ensures { result ≡ has (cut_at cuts.now right) node }
{
    cuts.holds(right, node).unwrap_or(false)
}

/// Whether a link enters a right's set.
pub fn enters(basin: &Basin, cuts: &CutList, right: u32, link: u32) -> bool
    requires basin { IsValidBasin basin.now }
    requires cut { HasCut basin.now cuts.now right }
    requires link { link < length basin.now.links }
    ensures { result ≡ enters basin.now (cut_at cuts.now right) link }
{
    marked::enters(basin, words_of(cuts, right), link)
}

/// Whether a link leaves a right's set.
pub fn leaves(basin: &Basin, cuts: &CutList, right: u32, link: u32) -> bool
    requires basin { IsValidBasin basin.now }
    requires cut { HasCut basin.now cuts.now right }
    requires link { link < length basin.now.links }
    ensures { result ≡ leaves basin.now (cut_at cuts.now right) link }
{
    marked::leaves(basin, words_of(cuts, right), link)
}

/// Whether a right is an instream right on a link.
pub fn is_on_link(basin: &Basin, right: u32, link: u32) -> bool
    requires { right < length basin.now.rights }
    ensures { result ≡ is_on_link basin.now right link }
{
    match basin.rights[right as usize].kind {
        RightKind::Instream { link: own } => own == link,
        RightKind::Diversion { .. } => false,
        RightKind::Zone { .. } => false,
    }
}

/// Whether a right is a diversion or zone that takes within the set of another.
pub fn takes_within(basin: &Basin, cuts: &CutList, right: u32, taker: u32) -> bool
    requires basin { IsValidBasin basin.now }
    requires cut { HasCut basin.now cuts.now right }
    requires taker { taker < length basin.now.rights }
    ensures { result ≡ takes_within basin.now (cut_at cuts.now right) taker }
{
    marked::takes_within(basin, words_of(cuts, right), taker)
}

/// What is kept so far, or what one more right keeps if it is senior and keeps more.
fn kept_with(basin: &Basin, delivered: &[u64], right: u32, holder: u32, kept: u64) -> u64
    requires delivered { length delivered.now ≡ length basin.now.rights }
    requires right { right < length basin.now.rights }
    requires holder { holder < length basin.now.rights }
    ensures { result ≡ (if is_senior basin.now holder right then max kept (slice_index delivered.now holder)
        else kept) }
{
    if is_senior_to(basin, holder, right) {
        kept.max(delivered[holder as usize])
    } else {
        kept
    }
}

/// What is kept on a link for the instream rights that are senior to a right.
pub fn kept_on(basin: &Basin, roll: &Roll, delivered: &[u64], right: u32, link: u32) -> u64
    requires roll { IsRollOf basin.now.rights roll.now }
    requires delivered { length delivered.now ≡ length basin.now.rights }
    requires right { right < length basin.now.rights }
    ensures { result ≡ kept_on basin.now delivered.now right link }
{
    let mut kept = 0;
    let mut next = roll.first_on(link);
    while let Some(holder) = next {
        kept = kept_with(basin, delivered, right, holder, kept);
        next = roll.next_on(holder);
    }
    kept
}

/// The bound of a right's set, in units of 1,000 cubic metres: the supply in it and what the links that enter it can
/// bring in, less what the rights senior to this one keep on the links that leave it, other than its own, and by takes
/// in it. No plan that serves these seniors as well gives the right more, if the set is a cut of it.
///
/// The cost is linear in the nodes of the set and in the links and rights at them. No memory is taken.
pub fn bound(
    basin: &Basin,
    roll: &Roll,
    rows: &NodeRows,
    month: Month,
    supply: &[u64],
    delivered: &[u64],
    right: u32,
    cuts: &CutList,
) -> i64
    requires basin { IsValidBasin basin.now }
    requires roll { IsRollOf basin.now.rights roll.now }
    requires rows { AreNodeRows basin.now roll.now rows.now }
    requires month { IsMonth month }
    requires amounts { AreAmounts basin.now supply.now delivered.now }
    requires cut { HasCut basin.now cuts.now right }
    ensures value { result ≡ cut_bound basin.now month supply.now delivered.now right (cut_at cuts.now right) }
{
    let words = words_of(cuts, right);
    let sides = sides_of(basin, roll, rows, month, supply, delivered, right, words);
    sides.capacity as i64 - sides.kept as i64
}

/// Whether the nodes that the words mark are a cut of a right: they hold the node of a diversion or zone, and of an
/// instream right the tail of its link and not the head.
fn separates(basin: &Basin, right: u32, words: &[u64]) -> bool
    requires basin { IsValidBasin basin.now }
    requires right { right < length basin.now.rights }
    requires words { length words.now ≡ words_for (length basin.now.nodes) }
    ensures { result ≡ separates basin.now (taking_node basin.now right) (instream_link basin.now right)
        (marked_nodes basin.now words.now) }
{
    match basin.rights[right as usize].kind {
        RightKind::Instream { link } => marked::leaves(basin, words, link),
        RightKind::Diversion { .. } | RightKind::Zone { .. } => {
            marked::takes_within(basin, words, right)
        }
    }
}

/// Whether a right's set is a tight cut of it: a cut whose bound is what the right was delivered. Then it shows why the
/// right got no more.
pub fn tight(
    basin: &Basin,
    roll: &Roll,
    rows: &NodeRows,
    month: Month,
    supply: &[u64],
    delivered: &[u64],
    right: u32,
    cuts: &CutList,
) -> bool
    requires basin { IsValidBasin basin.now }
    requires roll { IsRollOf basin.now.rights roll.now }
    requires rows { AreNodeRows basin.now roll.now rows.now }
    requires month { IsMonth month }
    requires amounts { AreAmounts basin.now supply.now delivered.now }
    requires cut { HasCut basin.now cuts.now right }
    ensures value { IsTrue result ↔ IsTight basin.now month supply.now delivered.now right (cut_at cuts.now right) }
{
    separates(basin, right, words_of(cuts, right))
        && bound(basin, roll, rows, month, supply, delivered, right, cuts)
            == delivered[right as usize] as i64
}
