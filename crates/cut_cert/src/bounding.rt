//! The bound of a set, summed over the rows of its nodes.
ghost use Rattle.std.specs.Prelude.{◌≡◌, ℕ, ◌*◌, ◌<◌, ◌≤◌, ◌^◌, Option, length};
ghost use Rattle.bit_words.specs.Marks.{words_for};
ghost use Rattle.water_text.specs.Months.{IsMonth, days_of};
ghost use Rattle.water_model.specs.Plans.{carry_of, carry_of_kind};
ghost use Rattle.water_model.specs.Cuts.{cut_capacity, cut_kept};
ghost use Rattle.water_model.specs.Basin.{tail_of};
ghost use Rattle.water_model.specs.Valid.{IsValidBasin, IsValidCarry};
ghost use Rattle.rights_roll.specs.Rolls.{IsRollOf};
ghost use Rattle.cut_cert.specs.Sets.{marked_nodes, AreAmounts};
ghost use Rattle.cut_cert.specs.Rows.{AreNodeRows, BelongBy, IsSumOfRow, carry_in, kept_out, node_capacity, node_kept};
ghost use Rattle.cut_cert.specs.Rows.{senior_take, ArePriorities};

use crate::marked::is_in;
use crate::rows::NodeRows;
use crate::{is_on_link, kept_on};
use bit_words::next_marked_in_both;
use chains::Chains;
use rights_roll::roll::Roll;
use water_model::types::{Basin, Carry, RIVER_CARRY};
use water_text::month::Month;

/// What can come into a set, and what seniors keep in it and on the links that leave it, or the part of that at a node.
#[derive(Clone, Copy)]
pub struct Sides {
    pub capacity: u64,
    pub kept: u64,
}

/// What a link of this kind carries in a month of this many days.
fn carry_in_days(carry: &Carry, month: Month, days: u64) -> u64
    requires carry { IsValidCarry carry.now }
    requires month { IsMonth month }
    requires days { days ≡ days_of month }
    ensures { result ≡ carry_of_kind carry.now month }
{
    match carry {
        Carry::River => RIVER_CARRY,
        Carry::Canal { per_day, shut } => {
            if shut[month.month as usize - 1] {
                0
            } else {
                *per_day * days
            }
        }
    }
}

/// What a link brings in from outside the set.
fn carry_in(basin: &Basin, month: Month, days: u64, words: &[u64], link: u32, tail: u32) -> u64
    requires basin { IsValidBasin basin.now }
    requires month { IsMonth month }
    requires days { days ≡ days_of month }
    requires words { length words.now ≡ words_for (length basin.now.nodes) }
    requires link { link < length basin.now.links }
    requires tail { tail ≡ tail_of basin.now link }
    ensures { result ≡ carry_in basin.now month (marked_nodes basin.now words.now) link }
{
    if is_in(words, tail) {
        0
    } else {
        carry_in_days(&basin.links[link as usize].carry, month, days)
    }
}

/// What seniors keep on a link to outside the set, or 0 where it is the right's own.
fn kept_out(
    basin: &Basin,
    roll: &Roll,
    delivered: &[u64],
    right: u32,
    words: &[u64],
    link: u32,
) -> u64
    requires basin { IsValidBasin basin.now }
    requires roll { IsRollOf basin.now.rights roll.now }
    requires delivered { length delivered.now ≡ length basin.now.rights }
    requires right { right < length basin.now.rights }
    requires words { length words.now ≡ words_for (length basin.now.nodes) }
    requires link { link < length basin.now.links }
    ensures { result ≡ kept_out basin.now delivered.now right (marked_nodes basin.now words.now) link }
{
    if is_in(words, basin.links[link as usize].to) || is_on_link(basin, right, link) {
        0
    } else {
        kept_on(basin, roll, delivered, right, link)
    }
}

/// What a right that is senior to another is delivered, or 0.
fn senior_take(basin: &Basin, rows: &NodeRows, delivered: &[u64], right: u32, taker: u32) -> u64
    requires rows { ArePriorities basin.now rows.now }
    requires delivered { length delivered.now ≡ length basin.now.rights }
    requires right { right < length basin.now.rights }
    requires taker { taker < length basin.now.rights }
    ensures { result ≡ senior_take basin.now delivered.now right taker }
{
    if rows.is_senior(basin, taker, right) {
        delivered[taker as usize]
    } else {
        0
    }
}

/// The sum of the terms of the indices that belong to a node. Each is at most 10^15.
fn sum_at<F: Fn(u32) -> u64>(rows: &Chains, node: u32, term: F) -> u64
    requires rows { (node_of : ℕ → Option ℕ) × BelongBy node_of rows.now }
    requires few { length rows.now.next.items ≤ 4000 }
    requires terms { (index : ℕ) → index < length rows.now.next.items → F.pre term index }
    requires most { (index one : ℕ) → index < length rows.now.next.items → F.post term index one → one ≤ 10 ^ 15 }
    ensures sum { IsSumOfRow rows.now node (F.post term) result }
    ensures most { result ≤ 4000 * 10 ^ 15 }
{
    let mut sum = 0;
    let mut next = rows.first_of(node);
    while let Some(index) = next {
        sum += term(index);
        next = rows.next_of(index);
    }
    sum
}

/// The part of a node of the set.
fn sides_at(
    basin: &Basin,
    roll: &Roll,
    rows: &NodeRows,
    month: Month,
    days: u64,
    supply: &[u64],
    delivered: &[u64],
    right: u32,
    words: &[u64],
    node: u32,
) -> Sides
    requires basin { IsValidBasin basin.now }
    requires roll { IsRollOf basin.now.rights roll.now }
    requires rows { AreNodeRows basin.now roll.now rows.now }
    requires month { IsMonth month }
    requires days { days ≡ days_of month }
    requires amounts { AreAmounts basin.now supply.now delivered.now }
    requires right { right < length basin.now.rights }
    requires words { length words.now ≡ words_for (length basin.now.nodes) }
    requires node { node < length basin.now.nodes }
    ensures capacity { result.capacity
        ≡ node_capacity basin.now month supply.now (marked_nodes basin.now words.now) node }
    ensures kept { result.kept ≡ node_kept basin.now delivered.now right (marked_nodes basin.now words.now) node }
{
    let brought = sum_at(
        &rows.enter,
        node,
        |link| carry_in(basin, month, days, words, link, rows.tail(basin, link)),
    );
    let kept = sum_at(
        &rows.held,
        node,
        |link| kept_out(basin, roll, delivered, right, words, link),
    );
    let taken = sum_at(
        &rows.takers,
        node,
        |taker| senior_take(basin, rows, delivered, right, taker),
    );
    let here = supply[node as usize];
    Sides {
        capacity: here + brought,
        kept: kept + taken,
    }
}

/// What can come into the set of the nodes that the words mark, and what seniors keep in it and on the links that leave
/// it. It goes over these nodes alone.
#[inline(never)]
pub fn sides_of(
    basin: &Basin,
    roll: &Roll,
    rows: &NodeRows,
    month: Month,
    supply: &[u64],
    delivered: &[u64],
    right: u32,
    words: &[u64],
) -> Sides
    requires basin { IsValidBasin basin.now }
    requires roll { IsRollOf basin.now.rights roll.now }
    requires rows { AreNodeRows basin.now roll.now rows.now }
    requires month { IsMonth month }
    requires amounts { AreAmounts basin.now supply.now delivered.now }
    requires right { right < length basin.now.rights }
    requires words { length words.now ≡ words_for (length basin.now.nodes) }
    ensures capacity { result.capacity
        ≡ cut_capacity basin.now (carry_of basin.now month) supply.now (marked_nodes basin.now words.now) }
    ensures kept { result.kept ≡ cut_kept basin.now delivered.now right (marked_nodes basin.now words.now) }
    ensures small_capacity { result.capacity < 4001 * 10 ^ 15 }
    ensures small_kept { result.kept ≤ 6000 * 10 ^ 9 }
{
    let days = u64::from(month.days());
    let nodes = basin.nodes.len() as u32;
    let mut sides = Sides {
        capacity: 0,
        kept: 0,
    };
    let mut next = next_marked_in_both(words, words, 0, nodes);
    while let Some(node) = next {
        let one = sides_at(
            basin, roll, rows, month, days, supply, delivered, right, words, node,
        );
        sides.capacity += one.capacity;
        sides.kept += one.kept;
        next = next_marked_in_both(words, words, node + 1, nodes);
    }
    sides
}
