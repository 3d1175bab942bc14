//! The test whether steps are a round: a closed walk that takes water off a canal, and gives it to rivers.
ghost use Rattle.std.specs.Prelude.{IsTrue, ℕ, ◌≡◌, ◌≢◌, false, ◌<◌, length, slice_index};
ghost use Rattle.water_model.specs.Basin.{is_river};
ghost use Rattle.circulation.specs.Residual.{arc_of, start_of, end_of};
ghost use Rattle.rivers_first.specs.Rounds.{links_above, IsRound, BeginsOnCanal, GoesOn};

use water_model::types::{Basin, Carry};

/// Whether a link is a river.
pub fn is_river(basin: &Basin, link: u32) -> bool
    requires { link < length basin.now.links }
    ensures { result ≡ is_river basin.now link }
{
    matches!(basin.links[link as usize].carry, Carry::River)
}

/// The node that a step leaves.
pub fn start_of(basin: &Basin, step: u32) -> u32
    requires { arc_of step < length basin.now.links }
    ensures { result ≡ start_of (links_above basin.now (λ e. 0)) step }
{
    let link = &basin.links[(step / 2) as usize];
    if step % 2 == 1 { link.to } else { link.from }
}

/// The node that a step enters.
pub fn end_of(basin: &Basin, step: u32) -> u32
    requires { arc_of step < length basin.now.links }
    ensures { result ≡ end_of (links_above basin.now (λ e. 0)) step }
{
    let link = &basin.links[(step / 2) as usize];
    if step % 2 == 1 { link.from } else { link.to }
}

/// Whether the first step goes back over a canal.
fn begins_on_canal(basin: &Basin, round: &[u32]) -> bool
    ensures { IsTrue result → BeginsOnCanal basin.now round.now }
{
    if round.is_empty() {
        return false;
    }
    let link = round[0] / 2;
    round[0] % 2 == 1 && (link as usize) < basin.links.len() && !is_river(basin, link)
}

/// Whether an earlier step goes over the same link. A round has few steps.
fn comes_before(round: &[u32], at: usize) -> bool
    requires { at < length round.now }
    ensures { result ≡ false → (i : ℕ) → i < at →
        arc_of (slice_index round.now i) ≢ arc_of (slice_index round.now at) }
{
    let link = round[at] / 2;
    for earlier in 0..at {
        if round[earlier] / 2 == link {
            return true;
        }
    }
    false
}

/// Whether two steps go over links of the basin, and the second begins where the first one ends.
fn are_joined(basin: &Basin, step: u32, next: u32) -> bool
    ensures step { IsTrue result → arc_of step < length basin.now.links }
    ensures joined { IsTrue result →
        end_of (links_above basin.now (λ e. 0)) step ≡ start_of (links_above basin.now (λ e. 0)) next }
{
    let links = basin.links.len();
    ((step / 2) as usize) < links
        && ((next / 2) as usize) < links
        && end_of(basin, step) == start_of(basin, next)
}

/// Whether the step at an index goes over a link of its own, which is a river unless the step is the first, and ends
/// where the next one begins; the last one ends where the first one begins.
fn goes_on(basin: &Basin, round: &[u32], at: usize) -> bool
    requires { at < length round.now }
    ensures { IsTrue result → GoesOn basin.now round.now at }
{
    let step = round[at];
    let next = if at + 1 < round.len() {
        round[at + 1]
    } else {
        round[0]
    };
    are_joined(basin, step, next)
        && (at == 0 || is_river(basin, step / 2))
        && !comes_before(round, at)
}

/// Whether steps are a round.
pub fn is_round(basin: &Basin, round: &[u32]) -> bool
    ensures { IsTrue result → IsRound basin.now round.now }
{
    if !begins_on_canal(basin, round) {
        return false;
    }
    for at in 0..round.len() {
        if !goes_on(basin, round, at) {
            return false;
        }
    }
    true
}
