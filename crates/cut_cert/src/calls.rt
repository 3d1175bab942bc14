//! Which right another right answers to.
ghost use Rattle.std.specs.Prelude.{◌≡◌, ℕ, ◌*◌, ◌<◌, ◌≤◌, ◌&&◌, not, if◌then◌else◌, length, nat_lt, slice_index, Some};
ghost use Rattle.std.specs.Prelude.{None};
ghost use Rattle.std.specs.Option.{option_or};
ghost use Rattle.bit_words.specs.Marks.{in_both, is_marked};
ghost use Rattle.water_model.specs.History.{FitsBasin, IsCallingRight, calling_right};
ghost use Rattle.water_model.specs.Valid.{IsValidBasin};
ghost use Rattle.rights_roll.specs.Rolls.{IsRollOf};
ghost use Rattle.cut_cert.specs.Callers.{AreCallers, AreFree, caller_at, is_short, is_short_at};

use bit_words::{next_marked_in_both, unmark};
use rights_roll::priority::is_senior_to;
use rights_roll::roll::Roll;
use water_model::calls::taking_node;
use water_model::types::{Basin, MAX_NODES, MonthRecord};

/// How many words hold the marks of the most nodes that a basin has.
const MAX_WORDS: usize = 32;

/// Whether a right was delivered less than its want.
pub fn is_short(month: &MonthRecord, right: u32) -> bool
    requires delivered { right < length month.now.delivered }
    requires want { right < length month.now.want }
    ensures { result ≡ is_short month.now right }
{
    month.delivered[right as usize] < month.want[right as usize]
}

/// Makes a right the caller of each node that the set and the free nodes both mark, and takes the marks of these nodes
/// from the free ones. The other nodes stay as they are.
fn claim(callers: &mut [Option<u32>], free: &mut [u64], set: &[u64], nodes: u32, right: u32)
    requires callers { nodes ≤ length callers.old }
    requires free { nodes ≤ 64 * length free.old }
    requires set { nodes ≤ 64 * length set.now }
    ensures indices { length callers.new ≡ length callers.old }
    ensures words { length free.new ≡ length free.old }
    ensures given { (n : ℕ) → n < nodes → caller_at callers.new n
        ≡ (if in_both free.old set.now n then Some right else caller_at callers.old n) }
    ensures left { (n : ℕ) → n < nodes → is_marked free.new n
        ≡ is_marked free.old n && not (is_marked set.now n) }
{
    let mut from = 0;
    // Each turn but the last gives one node, so there are turns enough.
    for _turn in 0..nodes {
        match next_marked_in_both(free, set, from, nodes) {
            Some(node) => {
                callers[node as usize] = Some(right);
                unmark(free, node);
                from = node + 1;
            }
            None => return,
        }
    }
}

/// Makes a right the caller of the free nodes of its set, if it is short and has one. The nodes that have a caller keep
/// it.
fn call_from(
    callers: &mut [Option<u32>],
    free: &mut [u64],
    month: &MonthRecord,
    nodes: u32,
    right: u32,
)
    requires callers { nodes ≤ length callers.old }
    requires words { nodes ≤ 64 * length free.old }
    requires nodes { month.now.cuts.nodes ≡ nodes }
    requires delivered { right < length month.now.delivered }
    requires want { right < length month.now.want }
    requires right { right < length month.now.cuts.sets }
    requires free { AreFree nodes callers.old free.old }
    ensures indices { length callers.new ≡ length callers.old }
    ensures words { length free.new ≡ length free.old }
    ensures given { (n : ℕ) → n < nodes → caller_at callers.new n
        ≡ option_or (caller_at callers.old n) (if is_short_at month.now right n then Some right else None) }
    ensures free { AreFree nodes callers.new free.new }
{
    if !is_short(month, right) {
        return;
    }
    if let Some(set) = month.cuts.words(right) {
        claim(callers, free, set, nodes, right);
    }
}

/// For each node its first caller: the most senior right that is short and has a set in the record that holds the node.
/// There may be none.
///
/// It goes over the rights once, seniors first. Each node is given to a caller once, and two words of marks in which no
/// node is both free and in the set cost one look. It takes no memory.
#[inline(never)]
pub fn callers_by_node(basin: &Basin, roll: &Roll, month: &MonthRecord) -> [Option<u32>; MAX_NODES]
    requires basin { IsValidBasin basin.now }
    requires roll { IsRollOf basin.now.rights roll.now }
    requires month { FitsBasin basin.now month.now }
    ensures { AreCallers basin.now month.now result }
{
    let nodes = basin.nodes.len() as u32;
    let mut callers = [None; MAX_NODES];
    let mut free = [u64::MAX; MAX_WORDS];
    for right in roll.by_seniority() {
        call_from(&mut callers, &mut free, month, nodes, *right);
    }
    callers
}

/// Whether a right wants water in the month.
fn is_wanted(month: &MonthRecord, right: u32) -> bool
    requires { right < length month.now.want }
    ensures { result ≡ nat_lt 0 (slice_index month.now.want right) }
{
    month.want[right as usize] > 0
}

/// The calling right of a diversion or zone that wants water in the month: the most senior right that is short, is
/// senior to it, and has a set in the record that holds its node. There may be none. `callers` has each node's first
/// caller.
///
/// Under prior appropriation a right that is short calls on its juniors, and these are the ones whose water could reach
/// it. An instream right answers to none, and neither does a right that wants nothing.
///
/// Where the first caller of its node is not senior to the right, no caller of that node is.
pub fn calling_right(
    basin: &Basin,
    callers: &[Option<u32>],
    month: &MonthRecord,
    right: u32,
) -> Option<u32>
    requires basin { IsValidBasin basin.now }
    requires callers { AreCallers basin.now month.now callers.now }
    requires month { FitsBasin basin.now month.now }
    requires right { right < length basin.now.rights }
    ensures value { result ≡ calling_right basin.now month.now right }
    ensures meaning { IsCallingRight basin.now month.now right result }
{
    if !is_wanted(month, right) {
        return None;
    }
    let node = taking_node(basin, right)?;
    let caller = callers[node as usize]?;
    if is_senior_to(basin, caller, right) {
        Some(caller)
    } else {
        None
    }
}
