//! Where one more unit would help a short right, one `put` for each line.
ghost use Rattle.std.specs.Prelude.{◌≡◌, ℕ, ◌<◌, ◌≤◌, Some, List, IfOk, IfSome, IsErr, length};
ghost use Rattle.std.specs.List.{flat_map};
ghost use Rattle.std.specs.Option.{option_to_list};
ghost use Rattle.cut_cert.specs.Sets.{HasCut, cut_at};
ghost use Rattle.rights_roll.specs.Rolls.{IsRollOf};
ghost use Rattle.water_edge.specs.Edge.{HasCause, Puts};
ghost use Rattle.water_model.specs.History.{HasReaches, IsShort};
ghost use Rattle.water_model.specs.Valid.{IsValidBasin};
ghost use Rattle.water_model.specs.declared.space.Space.TheVariants.{Links, Nodes};
ghost use Rattle.result_text.specs.Range.{FitsText};
ghost use Rattle.plan_residual.specs.Residual.{HasPlan};
ghost use Rattle.call_list.specs.Entries.{IsOfBasin, whole_line};
ghost use Rattle.call_list.specs.Helping.{IsHelpingText, helping_lines};
ghost use Rattle.call_list.specs.Helpers.{HoldsCore, HoldsSet, IsHelpFinderOf, help_lines};

use crate::entry::Entry;
use cut_book::put_account;
use cut_cert::holds;
use plan_residual::ResidualSearch;
use result_text::listing::{Listing, put_listing, put_some};
use rights_roll::roll::Roll;
use std::alloc::{AllocError, Global};
use std::marker::Model;
use water_edge::{Sink, SinkFailed};
use water_model::cut_list::CutList;
use water_model::space::Space;
use water_model::types::{Basin, MonthRecord};

/// What it takes to say where one more unit would help a right: the search through a month's residual network, and cuts
/// that keep the core that was found. All memory for the basin's months is taken when it is opened.
#[derive(Drop)]
pub struct HelpFinder {
    search: ResidualSearch,
    cuts: CutList,
}

impl Model for HelpFinder {
    ghost use Rattle.call_list.specs.Helpers.{HelpFinderSeen};

    ghost Value = { HelpFinderSeen };

    ghost view = { λ f. record { search = f.search; cuts = f.cuts } };
}

/// Keeps a set as a right's, and gives up all others.
fn keep(cuts: &mut CutList, right: u32, set: &[bool])
    requires right { right < length cuts.old.sets }
    requires nodes { length set.now ≡ cuts.old.nodes }
    requires bounded { length set.now ≤ 2000 }
    ensures { HoldsSet cuts.old cuts.new right set.now }
{
    cuts.clear();
    cuts.begin(right);
    for node in 0..set.len() {
        if set[node] {
            cuts.add(right, node as u32);
        }
    }
}

impl HelpFinder {
    /// Takes the memory for a basin. Refused only where memory runs out; no other call takes memory.
    pub fn open(alloc: Global, basin: &Basin) -> Result<HelpFinder, AllocError>
        requires { IsValidBasin basin.now }
        ensures { IfOk result (IsHelpFinderOf basin.now) }
    {
        let search = ResidualSearch::open(alloc, basin)?;
        let cuts = CutList::open(alloc, basin.rights.len() as u32, basin.nodes.len() as u32)?;
        Ok(HelpFinder { search, cuts })
    }

    /// Finds the core of a right, and keeps it as the right's set.
    fn find_core(&mut self, basin: &Basin, roll: &Roll, month: &MonthRecord, right: u32)
        requires finder { IsHelpFinderOf basin.now self.old }
        requires plan { HasPlan basin.now month.now }
        requires roll { IsRollOf basin.now.rights roll.now }
        requires right { right < length basin.now.rights }
        ensures finder { IsHelpFinderOf basin.now self.new }
        ensures core { HoldsCore basin.now month.now right self.new.cuts }
    {
        self.search.find_core(basin, roll, month, right);
        keep(&mut self.cuts, right, self.search.core());
    }

    /// The cuts that keep the core which was found last.
    fn cuts(&self) -> &CutList
        ensures { result.now ≡ self.now.cuts }
    {
        &self.cuts
    }
}

/// A right, with its reach in some cuts and its core in others.
#[derive(Drop)]
struct Help<'b> {
    basin: &'b Basin,
    reach: &'b CutList,
    core: &'b CutList,
    right: u32,
}

impl<'b> Model for Help<'b> {
    ghost use Rattle.call_list.specs.Helpers.{HelpSeen, IsHelpSeen, help_seen};

    ghost Value = { HelpSeen };

    ghost view = { λ h. help_seen h.basin.now h.reach.now h.core.now h.right };

    ghost invariant = { λ h. IsHelpSeen (help_seen h.basin.now h.reach.now h.core.now h.right) };
}

impl<'b> Help<'b> {
    /// The line of a node, if it is in the core.
    fn node_at(&self, node: u32) -> Option<Entry>
        requires { node < length self.now.basin.nodes }
        ensures lines { option_to_list result ≡ help_lines self.now Nodes node }
        ensures named { IfSome result (IsOfBasin self.now.basin) }
    {
        if holds(self.core, self.right, node) {
            Some(Entry::At { node })
        } else {
            None
        }
    }

    /// The line of a link, if it leads from outside the reach into the core.
    fn link_at(&self, link: u32) -> Option<Entry>
        requires { link < length self.now.basin.links }
        ensures lines { option_to_list result ≡ help_lines self.now Links link }
        ensures named { IfSome result (IsOfBasin self.now.basin) }
    {
        let ends = &self.basin.links[link as usize];
        if !holds(self.reach, self.right, ends.from) && holds(self.core, self.right, ends.to) {
            Some(Entry::Carry { link })
        } else {
            None
        }
    }
}

impl<'b> Listing for Help<'b> {
    type Part = Space;

    type Said = Entry;

    ghost of_basin = { λ h. h.basin };

    ghost part_space = { λ part. part };

    ghost entry_lines = { help_lines };

    fn space(&self, part: Space) -> Space {
        part
    }

    fn put_entry<K: Sink>(&self, sink: &mut K, part: Space, entry: u32) -> Result<(), SinkFailed> {
        match part {
            Space::Nodes => put_some(sink, self.basin, self.node_at(entry)),
            Space::Links => put_some(sink, self.basin, self.link_at(entry)),
            Space::Reservoirs | Space::Rights => Ok(()),
        }
    }
}

/// Puts what a right got and wanted, the nodes of its core, and the links that lead from outside its reach into the
/// core.
fn put_indices<K: Sink>(
    sink: &mut K,
    basin: &Basin,
    roll: &Roll,
    month: &MonthRecord,
    core: &CutList,
    right: u32,
) -> Result<(), SinkFailed>
    requires basin { IsValidBasin basin.now }
    requires roll { IsRollOf basin.now.rights roll.now }
    requires month { FitsText basin.now month.now }
    requires reach { HasCut basin.now month.now.cuts right }
    requires core { HasCut basin.now core.now right }
    ensures text { Puts (K.output sink.old) (K.output sink.new) result
        (flat_map (whole_line basin.now)
        (helping_lines basin.now month.now right (cut_at month.now.cuts right) (cut_at core.now right))) }
    ensures cause { HasCause (K.faults sink.old) (K.faults sink.new) (IsErr result) }
{
    let help = Help {
        basin,
        reach: &month.cuts,
        core,
        right,
    };
    let first = Entry::Where {
        month: month.month,
        right,
        amount: month.delivered[right as usize],
        want: month.want[right as usize],
    };
    let parts = [Space::Nodes, Space::Links];
    put_listing(sink, &help, basin, roll, &[first], &parts, &[])
}

/// Puts where one more unit would help a short right of a month whose sets are the reaches: what it got and wanted;
/// each node where one more unit of water would help it, which are the nodes of its core; each link where one more unit
/// of carry would help it, which are those that lead from outside its reach into the core; and the account of the core,
/// the shortest that shows why it got no more.
///
/// Each line is one `put`. `SinkFailed` comes only where the sink counted a fault; a prefix of the text was then put.
/// The cost is linear in nodes, links and rights, and no memory is taken.
pub fn put_helping<K: Sink>(
    sink: &mut K,
    finder: &mut HelpFinder,
    basin: &Basin,
    roll: &Roll,
    month: &MonthRecord,
    right: u32,
) -> Result<(), SinkFailed>
    requires finder { IsHelpFinderOf basin.now finder.old }
    requires basin { IsValidBasin basin.now }
    requires roll { IsRollOf basin.now.rights roll.now }
    requires month { FitsText basin.now month.now }
    requires plan { HasPlan basin.now month.now }
    requires reaches { HasReaches basin.now month.now }
    requires right { right < length basin.now.rights }
    requires short { IsShort month.now right }
    ensures text { (text : List ℕ) × IsHelpingText basin.now month.now right text ×
        Puts (K.output sink.old) (K.output sink.new) result text }
    ensures cause { HasCause (K.faults sink.old) (K.faults sink.new) (IsErr result) }
    ensures finder { IsHelpFinderOf basin.now finder.new }
{
    finder.find_core(basin, roll, month, right);
    let core = finder.cuts();
    put_indices(sink, basin, roll, month, core, right)?;
    put_account(sink, basin, roll, month, core, right)
}
