//! Where the circulation and the residual tree of a solver lie: in two places of one region of words, of which a month
//! borrows both.
ghost use Rattle.std.specs.Prelude.{◌≡◌, length, replicate};
ghost use Rattle.water_model.specs.Valid.{IsValidBasin};
ghost use Rattle.senior_hold.specs.MonthNetwork.{arc_count};
ghost use Rattle.senior_hold.specs.Arcs.{AreEnds};
ghost use Rattle.senior_hold.specs.Spilled.{spilled};
ghost use Rattle.senior_hold.specs.Givens.{IsGivens, CanBegin, IsSweep};
ghost use Rattle.senior_hold.specs.Layouts.{FitsRoom};
ghost use Rattle.senior_hold.specs.Places.{month_words, HasPlaces};

use crate::solver::Room;
use crate::sweep::{Givens, Sweep, sweep_month};
use circulation::{Circulation, Ends, words};
use residual_tree::tree_words;
use std::sync::ledger::Ledger;
use steps::Steps;
use water_model::cut_list::CutList;
use water_model::types::{Basin, Plan};
use word_region::{Full, Place, Region};

/// The circulation's place, and the tree's, which follows it.
#[derive(Clone, Copy)]
pub struct Places {
    pub circ: Circulation,
    pub tree: Place,
}

/// How many words the circulation and the tree of a basin take, with this many arcs.
pub fn words_of(basin: &Basin, arcs: usize) -> usize
    requires valid { IsValidBasin basin.now }
    requires arcs { arcs ≡ arc_count (spilled basin.now) }
    ensures { result ≡ month_words basin.now }
{
    let nodes = basin.nodes.len() as u32;
    words(nodes, arcs as u32) + tree_words(nodes)
}

/// Lays the circulation of a basin, and a place for the tree, into a region that is free and has exactly the words for
/// both.
pub fn open_places(basin: &Basin, ends: &[Ends], region: &mut Region) -> Places
    requires valid { IsValidBasin basin.now }
    requires ends { AreEnds (spilled basin.now) ends.now }
    requires free { region.old ≡ record { words = replicate (month_words basin.now) 0; used = 0 } }
    ensures places { HasPlaces basin.now region.new result }
    ensures full { region.new.used ≡ length region.new.words }
{
    let nodes = basin.nodes.len() as u32;
    let circ = match Circulation::open(nodes, ends, region) {
        Ok(circ) => circ,
        Err(Full) => unreachable!(),
    };
    let tree = match region.take(tree_words(nodes)) {
        Ok(tree) => tree,
        Err(Full) => unreachable!(),
    };
    Places { circ, tree }
}

/// Sweeps a month in the words of a region.
pub fn sweep<L: Ledger>(
    givens: &Givens,
    room: &mut Room,
    region: &mut Region,
    places: &Places,
    plan: &mut Plan,
    cuts: &mut CutList,
    pushes: &mut Steps<L>,
) -> Sweep
    requires givens { IsGivens givens.now }
    requires room { FitsRoom givens.now.basin.now room.old }
    requires places { HasPlaces givens.now.basin.now region.old places.now }
    requires begin { CanBegin givens.now plan.old cuts.old }
    ensures room { FitsRoom givens.now.basin.now room.new }
    ensures places { HasPlaces givens.now.basin.now region.new places.now }
    ensures swept { IsSweep givens.now plan.new cuts.new pushes.old pushes.new result }
{
    let circ = &places.circ;
    let both = Place {
        from: circ.place.from,
        len: circ.place.len + places.tree.len,
    };
    let words = region.words_mut(both);
    let (held, tree) = words.split_at_mut(circ.place.len);
    let (fixed, moving) = held.split_at_mut(circ.fixed());
    sweep_month(givens, room, circ, fixed, moving, tree, plan, cuts, pushes)
}
