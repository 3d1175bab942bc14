//! Which right one more unit of carry on each link would help.
ghost use Rattle.std.specs.Prelude.{◌≡◌, ◌+◌, ◌<◌, length, None, slice_index_or};
ghost use Rattle.std.specs.Bool.{OnFalse, OnTrue};
ghost use Rattle.cut_cert.specs.Sets.{HasCut, cut_at};
ghost use Rattle.water_model.specs.Basin.{head_of, instream_link};
ghost use Rattle.water_model.specs.History.{HasReaches, IsShort};
ghost use Rattle.water_model.specs.Valid.{IsValidBasin};
ghost use Rattle.rights_roll.specs.Rolls.{IsRollOf};
ghost use Rattle.plan_residual.specs.Residual.{HasPlan};
ghost use Rattle.plan_residual.specs.Rows.{IsSearchOf};
ghost use Rattle.plan_residual.specs.Sweep.{right_at};
ghost use Rattle.next_unit.specs.Helped.{AreHelped, AreHelpedTo, AreLinks, AreUndecided, HasRoomForAll, HelpNot};
ghost use Rattle.next_unit.specs.Helped.{IsCandidate, IsHelped, IsHelpedTo, NoneEnters, TakesOneMore};
ghost use Rattle.next_unit.specs.Next.{AreNext, IsNextAt};

use crate::carry_helps;
use cut_cert::calls::is_short;
use cut_cert::{enters, holds};
use plan_residual::ResidualSearch;
use plan_residual::order::right_at;
use plan_residual::steps::can_rise;
use rights_roll::roll::Roll;
use water_model::types::{Basin, MonthRecord, RightKind};

/// The right to which one more unit at a link's head would go, if its reach does not hold the link's tail. Else carry
/// on the link would help no diversion or zone.
fn decided_by_right(basin: &Basin, month: &MonthRecord, right: u32, link: u32) -> Option<u32>
    requires month { TakesOneMore basin.now month.now }
    requires link { link < length basin.now.links }
    requires next { IsNextAt basin.now month.now (head_of basin.now link) right }
    ensures { IsHelpedTo basin.now month.now 0 link result }
{
    let ends = &basin.links[link as usize];
    if holds(&month.cuts, right, ends.from) {
        None
    } else {
        Some(right)
    }
}

/// What a list by node has of a link's head.
fn at_head(basin: &Basin, next: &[Option<u32>], link: u32) -> Option<u32>
    requires basin { IsValidBasin basin.now }
    requires next { length next.now ≡ length basin.now.nodes }
    requires link { link < length basin.now.links }
    ensures { result ≡ slice_index_or next.now (head_of basin.now link) None }
{
    let ends = &basin.links[link as usize];
    next[ends.to as usize]
}

/// The most senior right that one more unit of carry on a link would help, as far as the right to which one more unit
/// at its head would go says it. Where it says none, only an instream right could be helped.
fn decided_by_next(
    basin: &Basin,
    month: &MonthRecord,
    next: &[Option<u32>],
    link: u32,
) -> Option<u32>
    requires month { TakesOneMore basin.now month.now }
    requires next { AreNext basin.now month.now next.now }
    requires link { link < length basin.now.links }
    ensures { IsHelpedTo basin.now month.now 0 link result }
{
    match at_head(basin, next, link) {
        Some(right) => decided_by_right(basin, month, right, link),
        None => None,
    }
}

/// Whether it isn't decided yet whom one more unit of carry on a link would help: no right is known, but the link is
/// full, and one more unit at its head would be a right's.
fn is_undecided(
    basin: &Basin,
    month: &MonthRecord,
    next: &[Option<u32>],
    answer: Option<u32>,
    link: u32,
) -> bool
    requires month { TakesOneMore basin.now month.now }
    requires next { AreNext basin.now month.now next.now }
    requires link { link < length basin.now.links }
    requires answer { IsHelpedTo basin.now month.now 0 link answer }
    ensures { OnFalse result (IsHelped basin.now month.now link answer) }
{
    if answer.is_some() {
        return false;
    }
    match at_head(basin, next, link) {
        Some(_) => !can_rise(basin, month, link),
        None => false,
    }
}

/// Notes for each link what is known without a search for a core, and lists the links of which that doesn't decide it.
/// Answers how many those are.
fn begin(
    basin: &Basin,
    month: &MonthRecord,
    next: &[Option<u32>],
    helped: &mut [Option<u32>],
    undecided: &mut [u32],
) -> usize
    requires month { TakesOneMore basin.now month.now }
    requires next { AreNext basin.now month.now next.now }
    requires helped { length helped.old ≡ length basin.now.links }
    requires undecided { length undecided.old ≡ length basin.now.links }
    ensures length { length undecided.new ≡ length undecided.old }
    ensures helped { AreHelpedTo basin.now month.now 0 helped.new }
    ensures undecided { AreUndecided basin.now month.now helped.new undecided.new result }
{
    let mut count = 0;
    for link in 0..basin.links.len() as u32 {
        let answer = decided_by_next(basin, month, next, link);
        helped[link as usize] = answer;
        if is_undecided(basin, month, next, answer, link) {
            undecided[count] = link;
            count += 1;
        }
    }
    count
}

/// Whether one of the undecided links enters a right's reach. No other could help it.
fn any_enters(
    basin: &Basin,
    month: &MonthRecord,
    right: u32,
    undecided: &[u32],
    count: usize,
) -> bool
    requires basin { IsValidBasin basin.now }
    requires cut { HasCut basin.now month.now.cuts right }
    requires undecided { AreLinks basin.now undecided.now count }
    ensures { OnFalse result (NoneEnters basin.now (cut_at month.now.cuts right) undecided.now count) }
{
    for j in 0..count {
        if enters(basin, &month.cuts, right, undecided[j]) {
            return true;
        }
    }
    false
}

/// The right before, or the one at this index of the order if one more unit of carry on the link would help it.
fn helped_with(
    basin: &Basin,
    roll: &Roll,
    month: &MonthRecord,
    position: usize,
    core: &[bool],
    link: u32,
    before: Option<u32>,
) -> Option<u32>
    requires plan { HasPlan basin.now month.now }
    requires roll { IsRollOf basin.now.rights roll.now }
    requires position { position < length basin.now.rights }
    requires right { IsCandidate basin.now month.now (right_at basin.now position) core.now }
    requires link { link < length basin.now.links }
    requires before { IsHelpedTo basin.now month.now position link before }
    ensures { IsHelpedTo basin.now month.now (position + 1) link result }
{
    if before.is_some() {
        return before;
    }
    let right = right_at(basin, roll, position);
    if carry_helps(basin, month, right, core, link) {
        Some(right)
    } else {
        None
    }
}

/// Whether one of the undecided links could help a right: it is short, and one of them enters its reach.
fn could_be_helped(
    basin: &Basin,
    month: &MonthRecord,
    right: u32,
    undecided: &[u32],
    count: usize,
) -> bool
    requires month { TakesOneMore basin.now month.now }
    requires right { right < length basin.now.rights }
    requires undecided { AreLinks basin.now undecided.now count }
    ensures yes { OnTrue result (IsShort month.now right) }
    ensures no { OnFalse result (HelpNot basin.now month.now undecided.now count right) }
{
    is_short(month, right) && any_enters(basin, month, right, undecided, count)
}

/// Notes for each undecided link the right at an index of the order, if no senior was noted and one more unit of carry
/// on the link would help it.
fn note_links(
    basin: &Basin,
    roll: &Roll,
    month: &MonthRecord,
    position: usize,
    core: &[bool],
    undecided: &[u32],
    count: usize,
    helped: &mut [Option<u32>],
)
    requires plan { HasPlan basin.now month.now }
    requires roll { IsRollOf basin.now.rights roll.now }
    requires position { position < length basin.now.rights }
    requires right { IsCandidate basin.now month.now (right_at basin.now position) core.now }
    requires undecided { AreUndecided basin.now month.now helped.old undecided.now count }
    requires helped { AreHelpedTo basin.now month.now position helped.old }
    ensures undecided { AreUndecided basin.now month.now helped.new undecided.now count }
    ensures helped { AreHelpedTo basin.now month.now (position + 1) helped.new }
{
    for j in 0..count {
        let link = undecided[j];
        let before = helped[link as usize];
        helped[link as usize] = helped_with(basin, roll, month, position, core, link, before);
    }
}

/// Whether a right is an instream right.
fn is_instream(basin: &Basin, right: u32) -> bool
    requires basin { IsValidBasin basin.now }
    requires right { right < length basin.now.rights }
    ensures { OnFalse result (instream_link basin.now right ≡ None) }
{
    match basin.rights[right as usize].kind {
        RightKind::Instream { .. } => true,
        RightKind::Diversion { .. } => false,
        RightKind::Zone { .. } => false,
    }
}

/// Notes the right at an index of the order, if it is an instream right that is short, for the undecided links whose
/// carry would help it and no senior. No other right could be helped by one. Its core is searched for if an undecided
/// link enters its reach.
fn note_index(
    search: &mut ResidualSearch,
    basin: &Basin,
    roll: &Roll,
    month: &MonthRecord,
    position: usize,
    undecided: &[u32],
    count: usize,
    helped: &mut [Option<u32>],
)
    requires search { IsSearchOf basin.now search.old }
    requires month { TakesOneMore basin.now month.now }
    requires roll { IsRollOf basin.now.rights roll.now }
    requires position { position < length basin.now.rights }
    requires undecided { AreUndecided basin.now month.now helped.old undecided.now count }
    requires helped { AreHelpedTo basin.now month.now position helped.old }
    ensures search { IsSearchOf basin.now search.new }
    ensures undecided { AreUndecided basin.now month.now helped.new undecided.now count }
    ensures helped { AreHelpedTo basin.now month.now (position + 1) helped.new }
{
    let right = right_at(basin, roll, position);
    if !is_instream(basin, right) {
        return;
    }
    if could_be_helped(basin, month, right, undecided, count) {
        search.find_core(basin, roll, month, right);
        let core = search.core();
        note_links(basin, roll, month, position, core, undecided, count, helped);
    }
}

/// For each link the most senior right that one more unit of carry on it would help, or none.
///
/// For most links the right to which one more unit at each node would go decides it. The others are listed in
/// `undecided`, which has room for each link: they are full. Only an instream right could be helped by one, and its
/// core is searched for if one enters its reach. No memory is taken.
pub fn find_helped(
    search: &mut ResidualSearch,
    basin: &Basin,
    roll: &Roll,
    month: &MonthRecord,
    next: &[Option<u32>],
    undecided: &mut [u32],
    helped: &mut [Option<u32>],
)
    requires search { IsSearchOf basin.now search.old }
    requires plan { HasPlan basin.now month.now }
    requires roll { IsRollOf basin.now.rights roll.now }
    requires reaches { HasReaches basin.now month.now }
    requires room { HasRoomForAll basin.now month.now }
    requires next { AreNext basin.now month.now next.now }
    requires undecided { length undecided.old ≡ length basin.now.links }
    requires helped { length helped.old ≡ length basin.now.links }
    ensures search { IsSearchOf basin.now search.new }
    ensures undecided { length undecided.new ≡ length undecided.old }
    ensures helped { AreHelped basin.now month.now helped.new }
{
    let count = begin(basin, month, next, helped, undecided);
    for position in 0..basin.rights.len() {
        note_index(
            search, basin, roll, month, position, undecided, count, helped,
        );
    }
}
