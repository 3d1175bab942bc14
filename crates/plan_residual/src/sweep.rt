//! The nodes that are reached, from right to right: most junior first, as a more senior right has more juniors and
//! fewer seniors, so no node that was reached is lost.
ghost use Rattle.std.specs.Prelude.{◌≡◌, ℕ, ◌+◌, ◌*◌, ◌<◌, ◌≤◌, ◌↔◌, true, length, Some, IsTrue, if◌then◌else◌};
ghost use Rattle.std.specs.Bool.{OnTrue, OnFalse};
ghost use Rattle.water_model.specs.Basin.{head_of, instream_link};
ghost use Rattle.water_model.specs.History.{IsShort};
ghost use Rattle.water_model.specs.Lookups.{has};
ghost use Rattle.plan_residual.specs.Queue.{IsQueueIn};
ghost use Rattle.plan_residual.specs.Search.{AreReachedApart, IsFollowed, IsReaching, ReachesOn};
ghost use Rattle.plan_residual.specs.Reaches.{HaveTightSets, HasReach, IsFirstOther};
ghost use Rattle.plan_residual.specs.Sweep.{ArePassed, IsAt, IsBetween, IsPassed, IsShortRight, right_at};
ghost use Rattle.plan_residual.specs.declared.steps.Direction.TheVariants.{FromSources};

use crate::deciding::covers;
use crate::scene::Scene;
use crate::sources::{see_junior, spread_apart, spread_own};
use crate::spread::{follow, spread_on};
use crate::steps::Direction;
use crate::visits::Queue;
use cut_cert::calls::is_short;
use water_model::types::RightKind;

/// Follows the step back over a link from its head, if that was seen.
fn fall(scene: &Scene, right: u32, link: u32, queue: &mut Queue)
    requires right { right < length scene.now.basin.rights }
    requires link { link < length scene.now.basin.links }
    requires reaching { IsReaching scene.now.basin scene.now.month right queue.old }
    ensures on { ReachesOn scene.now.basin scene.now.month right queue.old queue.new }
    ensures followed { has queue.old.seen (head_of scene.now.basin link) ≡ true →
        IsFollowed scene.now.basin scene.now.month right FromSources queue.new.seen (2 * link + 1) }
{
    if queue.seen()[scene.basin.links[link as usize].to as usize] {
        follow(scene, right, Direction::FromSources, 2 * link + 1, queue);
    }
}

/// Follows the step back over the link of an instream right.
fn fall_on_own(scene: &Scene, right: u32, junior: u32, queue: &mut Queue)
    requires right { right < length scene.now.basin.rights }
    requires junior { junior < length scene.now.basin.rights }
    requires reaching { IsReaching scene.now.basin scene.now.month right queue.old }
    ensures on { ReachesOn scene.now.basin scene.now.month right queue.old queue.new }
    ensures followed { (e : ℕ) → instream_link scene.now.basin junior ≡ Some e →
        has queue.old.seen (head_of scene.now.basin e) ≡ true →
        IsFollowed scene.now.basin scene.now.month right FromSources queue.new.seen (2 * e + 1) }
{
    match scene.basin.rights[junior as usize].kind {
        RightKind::Instream { link } => fall(scene, right, link, queue),
        RightKind::Diversion { .. } => {}
        RightKind::Zone { .. } => {}
    }
}

/// Passes a junior: it hinders the right no more.
fn pass(scene: &Scene, right: u32, junior: u32, queue: &mut Queue)
    requires right { right < length scene.now.basin.rights }
    requires junior { junior < length scene.now.basin.rights }
    requires reaching { IsReaching scene.now.basin scene.now.month right queue.old }
    ensures on { ReachesOn scene.now.basin scene.now.month right queue.old queue.new }
    ensures passed { IsPassed scene.now.basin scene.now.month right queue.old.seen queue.new.seen junior }
{
    see_junior(scene, right, junior, queue);
    fall_on_own(scene, right, junior, queue);
}

/// Passes the rights at some indices of the order.
fn pass_all(scene: &Scene, right: u32, from: usize, to: usize, queue: &mut Queue)
    requires right { right < length scene.now.basin.rights }
    requires from { from ≤ to }
    requires to { to ≤ length scene.now.basin.rights }
    requires reaching { IsReaching scene.now.basin scene.now.month right queue.old }
    ensures on { ReachesOn scene.now.basin scene.now.month right queue.old queue.new }
    ensures passed { ArePassed scene.now.basin scene.now.month right queue.old.seen queue.new.seen from to }
{
    for position in from..to {
        pass(scene, right, scene.right_at(position), queue);
    }
}

/// Goes on from the nodes that are reached as seen from a short right to those as seen from a more senior one. Their
/// indices in the order of seniority are given. The cost is that of the rights between them, and of the steps that
/// leave the nodes that are new.
fn advance(scene: &Scene, position: usize, before: usize, queue: &mut Queue)
    requires queue { IsQueueIn scene.now.basin queue.old }
    requires between { IsBetween scene.now.basin scene.now.month position before queue.old.seen }
    ensures queue { IsQueueIn scene.now.basin queue.new }
    ensures reached { let b = scene.now.basin in
        AreReachedApart b scene.now.month (right_at b position) queue.new.seen }
{
    let right = scene.right_at(position);
    let known = queue.len();
    pass_all(scene, right, position + 1, before + 1, queue);
    spread_on(scene, right, Direction::FromSources, queue, known);
}

/// Sees the nodes that are reached as seen from the short right at an index, but for those only from the end of its own
/// link, from where the sweep has come: to the short right at the other index, if it came to one.
fn rise(scene: &Scene, position: usize, before: Option<usize>, queue: &mut Queue)
    requires queue { IsQueueIn scene.now.basin queue.old }
    requires position { position < length scene.now.basin.rights }
    requires right { IsShortRight scene.now.basin scene.now.month (right_at scene.now.basin position) }
    requires before { IsAt scene.now.basin scene.now.month queue.old.seen (position + 1) before }
    ensures queue { IsQueueIn scene.now.basin queue.new }
    ensures reached { let b = scene.now.basin in
        AreReachedApart b scene.now.month (right_at b position) queue.new.seen }
{
    match before {
        Some(before) => advance(scene, position, before, queue),
        None => spread_apart(scene, scene.right_at(position), queue),
    }
}

/// Whether the set of a short right is its reach. The search goes on from the end of the right's own link, and forgets
/// again what it saw from there.
fn has_reach(scene: &Scene, right: u32, queue: &mut Queue) -> bool
    requires sets { HaveTightSets scene.now.basin scene.now.month }
    requires right { IsShortRight scene.now.basin scene.now.month right }
    requires queue { IsQueueIn scene.now.basin queue.old }
    requires reached { AreReachedApart scene.now.basin scene.now.month right queue.old.seen }
    ensures reach { IsTrue result ↔ HasReach scene.now.basin scene.now.month right }
    ensures queue { IsQueueIn scene.now.basin queue.new }
    ensures reached { AreReachedApart scene.now.basin scene.now.month right queue.new.seen }
{
    let known = queue.len();
    spread_own(scene, right, queue);
    let whole = covers(queue.seen(), &scene.month.cuts, right);
    queue.forget(known);
    whole
}

/// Whether a right was delivered less than its want.
fn falls_short(scene: &Scene, right: u32) -> bool
    requires right { right < length scene.now.basin.rights }
    ensures yes { OnTrue result (IsShort scene.now.month right) }
    ensures no { OnFalse result (IsShort scene.now.month right → ⊥) }
{
    is_short(scene.month, right)
}

/// Whether the right at an index of the order is short and has another set than its reach. The sweep comes to it, if it
/// is short.
fn judge(scene: &Scene, position: usize, last: &mut Option<usize>, queue: &mut Queue) -> bool
    requires sets { HaveTightSets scene.now.basin scene.now.month }
    requires queue { IsQueueIn scene.now.basin queue.old }
    requires position { position < length scene.now.basin.rights }
    requires last { IsAt scene.now.basin scene.now.month queue.old.seen (position + 1) last.old }
    ensures yes { let b = scene.now.basin in let m = scene.now.month in
        OnTrue result (IsShort m (right_at b position) × (HasReach b m (right_at b position) → ⊥)) }
    ensures no { let b = scene.now.basin in let m = scene.now.month in
        OnFalse result (IsShort m (right_at b position) → HasReach b m (right_at b position)) }
    ensures queue { IsQueueIn scene.now.basin queue.new }
    ensures last { IsAt scene.now.basin scene.now.month queue.new.seen position last.new }
{
    let right = scene.right_at(position);
    if !falls_short(scene, right) {
        return false;
    }
    rise(scene, position, *last, queue);
    *last = Some(position);
    !has_reach(scene, right, queue)
}

/// The right, if it is the one that is looked for, or the one before.
fn pick(found: bool, right: u32, before: Option<u32>) -> Option<u32>
    ensures { result ≡ (if found then Some right else before) }
{
    if found { Some(right) } else { before }
}

/// The most senior short right whose set isn't its reach, or none, by a sweep from the most junior right on.
pub fn sweep(scene: &Scene, queue: &mut Queue) -> Option<u32>
    requires sets { HaveTightSets scene.now.basin scene.now.month }
    requires queue { IsQueueIn scene.now.basin queue.old }
    ensures first { IsFirstOther scene.now.basin scene.now.month result }
    ensures queue { IsQueueIn scene.now.basin queue.new }
{
    let mut last = None;
    let mut answer = None;
    for position in (0..scene.basin.rights.len()).rev() {
        let other = judge(scene, position, &mut last, queue);
        answer = pick(other, scene.right_at(position), answer);
    }
    answer
}
