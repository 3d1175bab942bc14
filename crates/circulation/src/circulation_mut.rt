//! A circulation in words that are borrowed.
ghost use Rattle.std.specs.Prelude.{IsTrue, ◌↔◌, ◌≡◌, true, false, ℕ, ◌+◌, ◌*◌, ◌^◌, ◌<◌, ◌≤◌};
ghost use Rattle.std.specs.Prelude.{◌==◌, length, slice_index, slice_set};
ghost use Rattle.circulation.specs.Contents.{arcs, flow_of, step_of, held_contents, bounded_contents};
ghost use Rattle.circulation.specs.Contents.{month_contents, network};
ghost use Rattle.circulation.specs.Contents.{IsCirculation, IsStart};
ghost use Rattle.circulation.specs.Network.{inflow, outflow};
ghost use Rattle.circulation.specs.Residual.{by_direction, IsClosedWalk, IsPushed};
ghost use Rattle.finite_sums.specs.Sums.{total, when};

use crate::rooms::{move_room, write_rooms};
use crate::{END, Ends};
use std::marker::Model;
use std::sync::ledger::Ledger;
use steps::Steps;

/// The greatest upper bound that an arc may have, in units of 1,000 cubic metres.
const MAX_UPPER: u64 = 1_000_000_000_000_000;

/// Basin nodes with supplies, arcs with bounds, a flow that keeps them and is in balance at each basin
/// node, and `4 * nodes + 8` scratch words for a search. They lie in words that are borrowed.
#[derive(Drop)]
pub struct CirculationMut<'r> {
    pub(crate) nodes: u32,
    pub(crate) ends: &'r [u64],
    pub(crate) step: &'r [u64],
    pub(crate) end: &'r [u64],
    pub(crate) first: &'r [u64],
    /// The room of each step, in units of 1,000 cubic metres: word `2 * a` has that of the step forward over the
    /// arc `a`, and word `2 * a + 1` that of the step back over it.
    pub(crate) rooms: &'r mut [u64],
    pub(crate) lower: &'r mut [u64],
    pub(crate) supply: &'r mut [u64],
    pub(crate) scratch: &'r mut [u64],
}

impl<'r> Model for CirculationMut<'r> {
    ghost use Rattle.circulation.specs.Contents.{Contents};

    ghost Value = { Contents };

    ghost use Rattle.circulation.specs.BorrowedWords.{contents, IsValidCirculation};

    ghost view = { contents };

    ghost invariant = { IsValidCirculation };
}

impl CirculationMut<'_> {
    /// How many basin nodes there are, which is also the number of the outside node.
    pub fn nodes(&self) -> u32
        ensures number { result ≡ self.now.nodes }
        ensures kept { IsCirculation self.now }
    {
        self.nodes
    }

    /// How many arcs there are.
    pub fn arcs(&self) -> u32
        ensures { result ≡ arcs self.now }
    {
        self.ends.len() as u32
    }

    /// The ends of an arc.
    pub fn ends(&self, arc: u32) -> Ends
        requires { arc < arcs self.now }
        ensures from { result.from ≡ slice_index self.now.from arc }
        ensures to { result.to ≡ slice_index self.now.to arc }
        ensures kept { IsCirculation self.now }
    {
        let word = self.ends[arc as usize];
        Ends {
            from: (word / END) as u32,
            to: (word % END) as u32,
        }
    }

    /// The flow on an arc, in units of 1,000 cubic metres.
    pub fn flow(&self, arc: u32) -> u64
        requires { arc < arcs self.now }
        ensures amount { result ≡ flow_of self.now arc }
        ensures kept { IsCirculation self.now }
    {
        let place = arc as usize;
        self.lower[place] + self.rooms[2 * place + 1]
    }

    /// The least flow that an arc may have, in units of 1,000 cubic metres.
    pub fn lower(&self, arc: u32) -> u64
        requires { arc < arcs self.now }
        ensures { result ≡ slice_index self.now.lower arc }
    {
        self.lower[arc as usize]
    }

    /// The room of a step, in units of 1,000 cubic metres: how much the flow on an arc may rise
    /// (forward), or fall (backward).
    pub fn room(&self, arc: u32, forward: bool) -> u64
        requires { arc < arcs self.now }
        ensures rise { forward ≡ true → flow_of self.now arc + result ≡ slice_index self.now.upper arc }
        ensures fall { forward ≡ false → slice_index self.now.lower arc + result ≡ flow_of self.now arc }
    {
        let place = arc as usize;
        if forward {
            self.rooms[2 * place]
        } else {
            self.rooms[2 * place + 1]
        }
    }

    /// Holds an amount on an arc, in units of 1,000 cubic metres: the lower bound becomes the greater
    /// of itself and the amount.
    pub fn hold(&mut self, arc: u32, amount: u64)
        requires arc { arc < arcs self.old }
        requires kept { amount ≤ flow_of self.old arc }
        ensures kept { IsCirculation self.new }
        ensures held { self.new ≡ held_contents self.old arc amount }
    {
        let place = arc as usize;
        let held = self.lower[place];
        if amount > held {
            self.rooms[2 * place + 1] -= amount - held;
            self.lower[place] = amount;
        }
    }

    /// Bounds the flow on an arc anew, in units of 1,000 cubic metres: the upper bound becomes this amount, which is no
    /// less than the flow. The lower bound stays.
    pub fn bound(&mut self, arc: u32, most: u64)
        requires arc { arc < arcs self.old }
        requires kept { flow_of self.old arc ≤ most }
        requires small { most ≤ 10 ^ 15 }
        ensures kept { IsCirculation self.new }
        ensures bounded { self.new ≡ bounded_contents self.old arc most }
    {
        let place = arc as usize;
        let flow = self.lower[place] + self.rooms[2 * place + 1];
        self.rooms[2 * place] = most - flow;
    }

    /// Starts a month: no arc is held, and supplies by node, upper bounds by arc and the flow by arc are
    /// those given, in units of 1,000 cubic metres. `is_start` tests the condition.
    pub fn begin_month(&mut self, supply: &[u64], upper: &[u64], start: &[u64])
        requires { IsStart self.old supply.now upper.now start.now }
        ensures kept { IsCirculation self.new }
        ensures month { self.new ≡ month_contents self.old supply.now upper.now start.now }
    {
        self.supply.copy_from_slice(supply);
        self.lower.fill(0);
        write_rooms(self.rooms, upper, start);
    }

    /// The condition of `begin_month` as a test: the lengths fit, no upper bound passes 10^15, and the flow
    /// keeps them and balances the supplies. Goes over the nodes and over the arcs of each.
    pub fn is_start(&self, supply: &[u64], upper: &[u64], start: &[u64]) -> bool
        ensures { IsTrue result ↔ IsStart self.now supply.now upper.now start.now }
    {
        let arcs = self.arcs() as usize;
        supply.len() == self.nodes() as usize
            && upper.len() == arcs
            && start.len() == arcs
            && are_small(upper)
            && are_within(start, upper)
            && self.are_balanced(supply, start)
    }

    /// Whether each basin node is in balance, with these supplies by node and amounts by arc.
    fn are_balanced(&self, supply: &[u64], amounts: &[u64]) -> bool
        requires supplies { length supply.now ≡ self.now.nodes }
        requires amounts { length amounts.now ≡ arcs self.now }
        ensures { let flow = slice_index amounts.now in
            IsTrue result ↔ ((v : ℕ) → v < self.now.nodes →
            slice_index supply.now v + inflow (network self.now) flow v ≡ outflow (network self.now) flow v) }
    {
        for node in 0..self.nodes() {
            let gained = u128::from(supply[node as usize]) + self.carried(amounts, node, 1);
            if gained != self.carried(amounts, node, 0) {
                return false;
            }
        }
        true
    }

    /// What the arcs that leave a node carry, with these amounts by arc, where `way` is 0; and where it is 1, what
    /// those that enter it bring.
    fn carried(&self, amounts: &[u64], node: u32, way: u64) -> u128
        requires node { node ≤ self.now.nodes }
        requires amounts { length amounts.now ≡ arcs self.now }
        requires way { way < 2 }
        ensures sum { result ≡ total (arcs self.now) (λ a.
            when (by_direction (way == 1) (slice_index self.now.from a) (slice_index self.now.to a) == node)
            (slice_index amounts.now a)) }
        ensures small { result < 2 ^ 96 }
    {
        let mut sum = 0u128;
        for place in self.row_first(node)..self.row_last(node) {
            let step = self.step_at(place);
            if step % 2 == way {
                sum += u128::from(amounts[(step / 2) as usize]);
            }
        }
        sum
    }

    /// Changes the flow by an amount, in units of 1,000 cubic metres, on each step of a closed walk and nowhere
    /// else, and counts one search. The steps are `count` scratch words from word `first` on.
    pub fn push<L: Ledger>(
        &mut self,
        first: usize,
        count: usize,
        amount: u64,
        pushes: &mut Steps<L>,
    )
        requires fits { first + count ≤ 4 * self.old.nodes + 8 }
        requires walk { IsClosedWalk (network self.old) (flow_of self.old) (step_of self.old)
            first (first + count) amount }
        ensures rest { self.new ≡ record self.old { flow = self.new.flow } }
        ensures pushed { IsPushed (flow_of self.old) (flow_of self.new) (step_of self.old)
            first (first + count) amount }
        ensures kept { IsCirculation self.new }
        ensures ticked { pushes.new ≡ pushes.old + 1 }
    {
        // The number of nodes bounds the sum.
        let _nodes = self.nodes;
        for at in first..first + count {
            let step = self.scratch[at];
            move_room(self.rooms, step as usize, amount);
        }
        pushes.tick();
    }

    /// The index at which the row of a node begins: the steps that leave the node, backward over the arcs that enter
    /// it, by arc, and then forward over those that leave it. So ways into a node from upstream are looked at first.
    pub fn row_first(&self, node: u32) -> usize
        requires { node ≤ self.now.nodes }
        ensures place { result ≡ slice_index self.now.rows.first node }
        ensures kept { IsCirculation self.now }
    {
        self.first[node as usize] as usize
    }

    /// The index before which the row of a node ends.
    pub fn row_last(&self, node: u32) -> usize
        requires { node ≤ self.now.nodes }
        ensures place { result ≡ slice_index self.now.rows.first (node + 1) }
        ensures kept { IsCirculation self.now }
    {
        self.first[node as usize + 1] as usize
    }

    /// The step at an index in a row: 2 * a goes over the arc a forward, and 2 * a + 1 backward.
    pub fn step_at(&self, place: usize) -> u64
        requires { place < length self.now.rows.step }
        ensures { result ≡ slice_index self.now.rows.step place }
    {
        let step = self.step;
        step[place]
    }

    /// The node that the step at an index in a row enters.
    pub fn end_at(&self, place: usize) -> u32
        requires { place < length self.now.rows.step }
        ensures { result ≡ slice_index self.now.rows.end place }
    {
        let end = self.end;
        end[place] as u32
    }

    /// A scratch word.
    pub fn scratch_get(&self, at: usize) -> u64
        requires { at < 4 * self.now.nodes + 8 }
        ensures { result ≡ step_of self.now at }
    {
        let scratch: &[u64] = &*self.scratch;
        scratch[at]
    }

    /// Writes a scratch word.
    pub fn scratch_set(&mut self, at: usize, value: u64)
        requires { at < 4 * self.old.nodes + 8 }
        ensures kept { IsCirculation self.new }
        ensures written { self.new ≡ record self.old { scratch = slice_set self.old.scratch at value } }
    {
        let scratch: &mut [u64] = &mut *self.scratch;
        scratch[at] = value;
    }
}

/// Whether no upper bound passes the greatest one that an arc may have.
fn are_small(upper: &[u64]) -> bool
    ensures { IsTrue result ↔ ((a : ℕ) → a < length upper.now → slice_index upper.now a ≤ 10 ^ 15) }
{
    for most in upper {
        if *most > MAX_UPPER {
            return false;
        }
    }
    true
}

/// Whether no amount passes the upper bound of its arc.
fn are_within(amounts: &[u64], upper: &[u64]) -> bool
    requires { length amounts.now ≡ length upper.now }
    ensures { IsTrue result ↔ ((a : ℕ) → a < length upper.now → slice_index amounts.now a ≤ slice_index upper.now a) }
{
    for (amount, most) in amounts.iter().zip(upper) {
        if amount > most {
            return false;
        }
    }
    true
}
