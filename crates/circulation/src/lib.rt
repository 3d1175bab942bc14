//! A circulation: a network with lower and upper bounds on its arcs, and a flow that is in balance at each basin node.
//!
//! The terms are those of Ahuja, Magnanti and Orlin, Network Flows (1993): a step goes over an arc of
//! the residual network, forward or backward, and its room is its residual capacity. Basin nodes are
//! numbered 0, 1, .. and the one node outside the basin, which need not be in balance, comes after
//! them. All amounts are in units of 1,000 cubic metres.
//!
//! A circulation lies in one place of a region of words. A month works on its words through `CirculationMut`, which
//! borrows them: no call takes memory.
#![tactic(auto)]

ghost use Rattle.std.specs.Prelude.{◌≡◌, ◌+◌, ◌-◌, ◌*◌, ◌^◌, ◌<◌, ◌≤◌, ◌≢◌, length};
ghost use Rattle.std.specs.Prelude.{IfOk, OnOk, OnErr, All, List, ℕ, ◌++◌, drop, replicate, slice_index};
ghost use Rattle.circulation.specs.Contents.{Contents, empty_contents, month_contents, on_last, IsStart};
ghost use Rattle.circulation.specs.Rooms.{AreRooms};
ghost use Rattle.circulation.specs.Rows.{Rows};
ghost use Rattle.circulation.specs.Places.{word_count, fixed_count, tails, heads, AreFixedOf, AreWordsOf, Holds};
ghost use Rattle.word_region.specs.Words.{words_at};
ghost use Rattle.word_region.specs.declared.Place.{Place};

mod circulation_mut;
mod laying;
pub mod residual;
mod rooms;
mod rows;

pub use crate::circulation_mut::CirculationMut;
use crate::laying::lay;
use crate::rooms::write_last_rooms;
use word_region::{Full, Place, Region};

/// Every end of an arc is less than this: a word has the tail of an arc times this, plus its head.
const END: u64 = 4_294_967_296;

/// The nodes at the ends of an arc, which leads from its tail to its head.
#[derive(Clone, Copy, Debug, PartialEq, Eq)]
pub struct Ends {
    /// The tail.
    pub from: u32,
    /// The head.
    pub to: u32,
}

/// Where a circulation lies in a region: its place, and how many basin nodes and arcs it has.
#[derive(Clone, Copy, Debug, PartialEq, Eq)]
pub struct Circulation {
    /// Its place, of `words(nodes, arcs)` words.
    pub place: Place,
    /// The basin nodes.
    pub nodes: u32,
    /// The arcs.
    pub arcs: u32,
}

/// How many words a circulation takes, with this many basin nodes and arcs.
pub fn words(nodes: u32, arcs: u32) -> usize
    ensures { result ≡ word_count nodes arcs }
{
    8 * arcs as usize + 8 * nodes as usize + 16
}

/// How many of these words, from the first on, never change: the ends, and the rows of the steps.
fn fixed_words(nodes: u32, arcs: u32) -> usize
    ensures { result ≡ fixed_count nodes arcs }
{
    5 * arcs as usize + nodes as usize + 2
}

impl Circulation {
    /// A circulation of `nodes` basin nodes and of arcs with these ends, which may be the outside node, in a place of
    /// its own, which is the region's next. All supplies, bounds and flows are 0. Full comes exactly where fewer than
    /// `words(nodes, arcs)` words are free; then the region is unchanged. All other places stay, and no memory is
    /// taken.
    pub fn open(nodes: u32, ends: &[Ends], region: &mut Region) -> Result<Circulation, Full>
        requires bounded { length ends.now < 2 ^ 32 }
        requires ends { All (λ e. (e.from ≤ nodes) × (e.to ≤ nodes) × (e.from ≢ e.to)) ends.now }
        ensures numbers { IfOk result (λ c. c ≡ record {
          place = record { from = region.old.used; len = word_count nodes (length ends.now) };
          nodes = nodes;
          arcs = length ends.now;
        }) }
        ensures held { IfOk result (λ c. (rows : Rows) ×
            Holds region.new c (empty_contents nodes (tails ends.now) (heads ends.now) rows)) }
        ensures fitted { OnOk result (region.old.used + word_count nodes (length ends.now) ≤ length region.old.words) }
        ensures used { OnOk result (region.new.used ≡ region.old.used + word_count nodes (length ends.now)) }
        ensures size { OnOk result (length region.new.words ≡ length region.old.words) }
        ensures others { OnOk result ((place : Place) → place.from + place.len ≤ region.old.used →
            words_at region.new.words place ≡ words_at region.old.words place) }
        ensures full { OnErr result (length region.old.words < region.old.used + word_count nodes (length ends.now)) }
        ensures unchanged { OnErr result (region.new ≡ region.old) }
    {
        let arcs = ends.len() as u32;
        let place = region.take(words(nodes, arcs))?;
        lay(nodes, ends, region.words_mut(place));
        Ok(Circulation { place, nodes, arcs })
    }

    /// How many words of its place, from the first on, never change.
    pub fn fixed(&self) -> usize
        ensures { result ≡ fixed_count self.now.nodes self.now.arcs }
    {
        fixed_words(self.nodes, self.arcs)
    }

    /// The circulation whose words these are: those that never change, and those that do. A month works on it.
    pub fn lend<'r>(&self, fixed: &'r [u64], moving: &'r mut [u64]) -> CirculationMut<'r>
        requires { (c : Contents) × AreWordsOf self.now c fixed.now moving.old }
        ensures { (c : Contents) → AreWordsOf self.now c fixed.now moving.old → result ≡ c }
    {
        let arcs = self.arcs as usize;
        let basin = self.nodes as usize;
        let (ends, rows) = fixed.split_at(arcs);
        let (step, rows) = rows.split_at(2 * arcs);
        let (end, first) = rows.split_at(2 * arcs);
        let (rooms, moving) = moving.split_at_mut(2 * arcs);
        let (lower, moving) = moving.split_at_mut(arcs);
        let (supply, moving) = moving.split_at_mut(basin);
        let (scratch, _unused) = moving.split_at_mut(4 * basin + 8);
        CirculationMut {
            nodes: self.nodes,
            ends,
            step,
            end,
            first,
            rooms,
            lower,
            supply,
            scratch,
        }
    }

    /// The circulation at the start of a month, in its words: those that never change, and those that do, which may
    /// hold anything. No arc is held. Supplies by node and upper bounds by arc are those given, and so is the flow of
    /// the last arcs; on those before them there is none. All are in units of 1,000 cubic metres.
    pub fn lend_month<'r>(
        &self,
        fixed: &'r [u64],
        moving: &'r mut [u64],
        supply: &[u64],
        upper: &[u64],
        start: &[u64],
    ) -> CirculationMut<'r>
        requires count { length moving.old ≡
            word_count self.now.nodes self.now.arcs - fixed_count self.now.nodes self.now.arcs }
        requires bounded { length start.now ≤ self.now.arcs }
        requires start { (c : Contents) × (AreFixedOf self.now c fixed.now ×
            IsStart c supply.now upper.now (on_last self.now.arcs start.now)) }
        ensures { (c : Contents) → AreFixedOf self.now c fixed.now →
            result ≡ record (month_contents c supply.now upper.now (on_last self.now.arcs start.now)) {
              scratch = result.scratch;
            } }
    {
        write_month(moving, self.arcs as usize, supply, upper, start);
        self.lend(fixed, moving)
    }
}

/// Writes the rooms, the lower bounds and the supplies with which a month starts.
fn write_month(words: &mut [u64], arcs: usize, supply: &[u64], upper: &[u64], start: &[u64])
    requires start { length start.now ≤ arcs }
    requires upper { length upper.now ≡ arcs }
    requires within { (a : ℕ) → a < arcs → slice_index (on_last arcs start.now) a ≤ slice_index upper.now a }
    requires fits { 3 * arcs + length supply.now ≤ length words.old }
    ensures { (rooms : List ℕ) × (AreRooms (replicate arcs 0) upper.now (on_last arcs start.now) rooms
        × (words.new ≡ rooms ++ (replicate arcs 0
        ++ (supply.now ++ drop (3 * arcs + length supply.now) words.old)))) }
{
    let (rooms, words) = words.split_at_mut(2 * arcs);
    let (lowers, words) = words.split_at_mut(arcs);
    write_last_rooms(rooms, upper, start);
    lowers.fill(0);
    words[..supply.len()].copy_from_slice(supply);
}
