//! The rounds of a basin, and what is sent round.
ghost use Rattle.std.specs.Prelude.{◌≡◌, ◌⊎◌, ℕ, ◌+◌, ◌*◌, ◌^◌, ◌<◌, ◌≤◌, true, false, not, All, List, length};
ghost use Rattle.std.specs.Prelude.{[], slice_index, slice_index_or, map, IfOk};
ghost use Rattle.water_text.specs.declared.month.Month.{Month};
ghost use Rattle.water_model.specs.Basin.{is_river};
ghost use Rattle.water_model.specs.Plans.{IsGreatest, DeliversSame};
ghost use Rattle.water_model.specs.Valid.{IsValidBasin};
ghost use Rattle.finite_sums.specs.Sums.{when};
ghost use Rattle.circulation.specs.Residual.{arc_of, is_backward, room_of, IsPushed};
ghost use Rattle.rivers_first.specs.Rounds.{canal_of, links_above, IsRound, IsDown, SpansInstream};
ghost use Rattle.rivers_first.specs.Sent.{IsWithin, IsSent, KeepsInstream, HasFullRiver, IsRelieved, IsRelievedIfDown};
ghost use Rattle.rivers_first.specs.Sent.{IsRoomOfOne};

use crate::instream::{InstreamSpan, instream_span};
use crate::search::Search;
use std::alloc::{AllocError, Global};
use std::marker::Model;
use water_model::rows::Rows;
use water_model::types::{Basin, Plan, RIVER_CARRY, RightKind};

/// For each canal beside which water can go by rivers alone a round: back over the canal, and from where it begins to
/// where it ends over rivers, down them or up. A step is a number: 2 * e goes over the link e forward, 2 * e + 1
/// backward. Water that is sent up a river is water that it no longer carries down.
#[derive(Drop)]
pub struct Rounds<'b> {
    basin: &'b Basin,
    /// Those of canals further down come first: what a lower canal gives up makes room for the others.
    rounds: Vec<Rows<u32>>,
    /// The canal of each round: most rounds need no more than a look at it.
    canals: Vec<u32>,
    /// Room: the least that each link must carry in a month.
    kept: Vec<u64>,
    /// Room: the rounds that were not passed over when all were looked at. Any numbers do.
    again: Vec<usize>,
    /// Where the instream rights stand.
    span: InstreamSpan,
}

impl<'b> Model for Rounds<'b> {
    ghost use Rattle.rivers_first.specs.Rounds.{RoundsView, HasRounds};

    ghost Value = { RoundsView };

    ghost view = { λ r. record { basin = r.basin.now; rounds = r.rounds.items; kept = r.kept.items } };

    ghost invariant = { λ r. HasRounds r.basin.now r.rounds.items r.kept.items r.canals.items r.again.items r.span };
}

/// Notes for each link the most that an instream right on it has of its want.
fn note_kept(basin: &Basin, span: InstreamSpan, want: &[u64], flow: &[u64], kept: &mut [u64])
    requires valid { IsValidBasin basin.now }
    requires span { SpansInstream basin.now span }
    requires wants { length want.now ≡ length basin.now.rights }
    requires kept { length kept.old ≡ length basin.now.links }
    requires flows { length flow.now ≡ length basin.now.links }
    requires small { (e : ℕ) → e < length basin.now.links → slice_index flow.now e ≤ 10 ^ 15 }
    ensures size { length kept.new ≡ length basin.now.links }
    ensures within { IsWithin basin.now kept.new flow.now }
    ensures kept { KeepsInstream basin.now want.now flow.now (length basin.now.rights) kept.new }
{
    kept.fill(0);
    for right in span.first..span.last {
        if let RightKind::Instream { link } = basin.rights[right].kind {
            let link = link as usize;
            let has = want[right].min(flow[link]);
            kept[link] = kept[link].max(has);
        }
    }
}

/// The flow of a link after a step over it.
fn stepped(flow: u64, step: u32, amount: u64) -> u64
    requires back { is_backward step ≡ true → amount ≤ flow }
    requires forward { is_backward step ≡ false → flow + amount < 2 ^ 64 }
    ensures { result + when (is_backward step) amount ≡ flow + when (not (is_backward step)) amount }
{
    if step % 2 == 1 {
        flow - amount
    } else {
        flow + amount
    }
}

/// The canals of rounds.
fn canals_of(alloc: Global, basin: &Basin, rounds: &[Rows<u32>]) -> Result<Vec<u32>, AllocError>
    requires { All (IsRound basin.now) rounds.now }
    ensures { IfOk result (λ canals. canals.items ≡ map canal_of rounds.now) }
{
    let mut canals = Vec::with_capacity(alloc, rounds.len())?;
    for round in rounds {
        canals.push(round[0] / 2)?;
    }
    Ok(canals)
}

impl<'b> Rounds<'b> {
    /// The rounds of a basin, whose nodes are given in an order in which each link runs forward. AllocError comes
    /// where memory is lacking. No other call takes memory.
    pub fn open(alloc: Global, basin: &'b Basin, order: &[u32]) -> Result<Rounds<'b>, AllocError>
        requires { IsValidBasin basin.now }
        ensures { IfOk result (λ rounds. rounds.basin ≡ basin.now) }
    {
        let mut search = Search::open(alloc, basin)?;
        let mut rounds = Vec::new(alloc);
        for place in (0..order.len()).rev() {
            search.add_rounds(alloc, basin, order[place], &mut rounds)?;
        }
        let canals = canals_of(alloc, basin, &rounds)?;
        let kept = vec![in alloc; 0; basin.links.len()]?;
        let again = vec![in alloc; 0; rounds.len()]?;
        Ok(Rounds {
            basin,
            rounds,
            canals,
            kept,
            again,
            span: instream_span(basin),
        })
    }

    /// How much more can go over a step, in units of 1,000 cubic metres.
    fn room(&self, step: u32, flow: &[u64]) -> u64
        requires step { arc_of step < length self.now.basin.links }
        requires within { IsWithin self.now.basin self.now.kept flow.now }
        ensures { let net = links_above self.now.basin (slice_index self.now.kept) in
            result ≡ room_of net (slice_index flow.now) step }
    {
        let link = (step / 2) as usize;
        if step % 2 == 1 {
            flow[link] - self.kept[link]
        } else {
            RIVER_CARRY - flow[link]
        }
    }

    /// The least room of a round's steps.
    fn least_room(&self, round: &[u32], flow: &[u64]) -> u64
        requires round { IsRound self.now.basin round.now }
        requires within { IsWithin self.now.basin self.now.kept flow.now }
        ensures least { let net = links_above self.now.basin (slice_index self.now.kept) in
            (i : ℕ) → i < length round.now → result ≤ room_of net (slice_index flow.now) (slice_index round.now i) }
        ensures one { IsRoomOfOne self.now.basin self.now.kept flow.now round.now (length round.now) result }
    {
        let mut least = RIVER_CARRY;
        for at in 0..round.len() {
            least = least.min(self.room(round[at], flow));
            if least == 0 {
                return 0;
            }
        }
        least
    }

    /// Changes the flow by an amount on each step of a round.
    fn push(&self, round: &[u32], amount: u64, flow: &mut [u64])
        requires round { IsRound self.now.basin round.now }
        requires within { IsWithin self.now.basin self.now.kept flow.old }
        requires amount { 0 < amount }
        requires room { let net = links_above self.now.basin (slice_index self.now.kept) in
            (i : ℕ) → i < length round.now → amount ≤ room_of net (slice_index flow.old) (slice_index round.now i) }
        ensures sent { IsSent self.now.basin self.now.kept flow.old flow.new }
        ensures pushed { IsPushed (slice_index flow.old) (slice_index flow.new) (slice_index round.now)
            0 (length round.now) amount }
    {
        for at in 0..round.len() {
            let step = round[at];
            let link = (step / 2) as usize;
            flow[link] = stepped(flow[link], step, amount);
        }
    }

    /// Sends as much as can go over one round.
    fn send(&self, round: &[u32], flow: &mut [u64])
        requires round { IsRound self.now.basin round.now }
        requires within { IsWithin self.now.basin self.now.kept flow.old }
        ensures sent { IsSent self.now.basin self.now.kept flow.old flow.new }
        ensures relieved { IsDown round.now →
            IsRelieved self.now.kept flow.new round.now ⊎ HasFullRiver self.now.basin flow.new }
    {
        let amount = self.least_room(round, flow);
        if amount > 0 {
            self.push(round, amount, flow);
        }
    }

    /// Sends as much as can go over the round with this index: nothing where its canal carries no more than is kept.
    /// Answers whether it carried more. No clause says so, as no answer of a month depends on it.
    fn send_over(&self, at: usize, flow: &mut [u64]) -> bool
        requires at { at < length self.now.rounds }
        requires within { IsWithin self.now.basin self.now.kept flow.old }
        ensures sent { IsSent self.now.basin self.now.kept flow.old flow.new }
        ensures relieved { let round = slice_index_or self.now.rounds at [] in
            IsDown round → IsRelieved self.now.kept flow.new round ⊎ HasFullRiver self.now.basin flow.new }
    {
        let canal = self.canals[at] as usize;
        let carried_more = flow[canal] > self.kept[canal];
        if carried_more {
            self.send(self.rounds[at].as_slice(), flow);
        }
        carried_more
    }

    /// Sends as much as can go over one round after the other. Notes those that were not passed over, and answers how
    /// many they are.
    fn send_all(&mut self, flow: &mut [u64]) -> usize
        requires within { IsWithin self.old.basin self.old.kept flow.old }
        ensures same { self.new ≡ self.old }
        ensures sent { IsSent self.old.basin self.old.kept flow.old flow.new }
        ensures relieved { All (IsRelievedIfDown self.old.basin self.old.kept flow.old flow.new) self.old.rounds }
        ensures count { result ≤ length self.old.rounds }
    {
        let mut count = 0;
        for at in 0..self.rounds.len() {
            if self.send_over(at, flow) {
                self.again[count] = at;
                count += 1;
            }
        }
        count
    }

    /// Sends as much as can go over the rounds that were noted, of which there are `count`: one canal can make room for
    /// another.
    fn send_again(&self, count: usize, flow: &mut [u64])
        requires count { count ≤ length self.now.rounds }
        requires within { IsWithin self.now.basin self.now.kept flow.old }
        ensures sent { IsSent self.now.basin self.now.kept flow.old flow.new }
    {
        for place in 0..count {
            let at = self.again[place];
            if at < self.rounds.len() {
                self.send_over(at, flow);
            }
        }
    }

    /// Sends as much as can go over each round, and once more where something could go or a canal was left.
    fn send_twice(&mut self, want: &[u64], flow: &mut [u64])
        requires valid { IsValidBasin self.old.basin }
        requires wants { length want.now ≡ length self.old.basin.rights }
        requires flows { length flow.old ≡ length self.old.basin.links }
        requires small { (e : ℕ) → e < length self.old.basin.links → slice_index flow.old e ≤ 10 ^ 15 }
        ensures basin { self.new.basin ≡ self.old.basin }
        ensures rounds { self.new.rounds ≡ self.old.rounds }
        ensures kept { KeepsInstream self.old.basin want.now flow.old (length self.old.basin.rights) self.new.kept }
        ensures sent { IsSent self.old.basin self.new.kept flow.old flow.new }
        ensures relieved { All (IsRelievedIfDown self.old.basin self.new.kept flow.old flow.new) self.old.rounds }
    {
        note_kept(self.basin, self.span, want, flow, self.kept.as_mut_slice());
        let count = self.send_all(flow);
        self.send_again(count, flow);
    }

    /// Changes the flows of a month's plan so that water goes by rivers where it need not go through a canal: over each
    /// round as much as can go, and once more, as one canal can make room for another. What instream rights have stays
    /// on their links. Wants are indexed by right, in units of 1,000 cubic metres. It refuses nothing and takes no
    /// memory.
    pub fn prefer_rivers(&mut self, want: &[u64], plan: &mut Plan)
        requires valid { IsValidBasin self.old.basin }
        requires wants { length want.now ≡ length self.old.basin.rights }
        requires flows { length plan.old.flow ≡ length self.old.basin.links }
        requires small { (e : ℕ) → e < length self.old.basin.links → slice_index plan.old.flow e ≤ 10 ^ 15 }
        ensures same { self.new.basin ≡ self.old.basin }
        ensures rounds { self.new.rounds ≡ self.old.rounds }
        ensures kept { KeepsInstream self.old.basin want.now plan.old.flow (length self.old.basin.rights)
            self.new.kept }
        ensures down { All (IsRelievedIfDown self.old.basin self.new.kept plan.old.flow plan.new.flow)
            self.old.rounds }
        ensures rest { plan.new ≡ record plan.old { flow = plan.new.flow } }
        ensures count { length plan.new.flow ≡ length plan.old.flow }
        ensures canals { (e : ℕ) → e < length self.old.basin.links → is_river self.old.basin e ≡ false →
            slice_index plan.new.flow e ≤ slice_index plan.old.flow e }
        ensures greatest { (month : Month) (supply : List ℕ) →
            IsGreatest self.old.basin month supply want.now plan.old →
            IsGreatest self.old.basin month supply want.now plan.new }
        ensures deliveries { (month : Month) (supply : List ℕ) →
            IsGreatest self.old.basin month supply want.now plan.old →
            DeliversSame self.old.basin want.now plan.old plan.new }
    {
        self.send_twice(want, plan.flow.as_mut_slice());
    }
}
