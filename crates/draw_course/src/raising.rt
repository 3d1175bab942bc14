//! The turn of one draw in its network.
ghost use Rattle.std.specs.Prelude.{◌≡◌, ◌+◌, ◌*◌, ◌^◌, ◌<◌, ◌≤◌, slice_index, slice_set};
ghost use Rattle.circulation.specs.Contents.{arcs, flow_of, network, bounded_contents, IsCirculation};
ghost use Rattle.augment.specs.Raised.{HasPathOut};
ghost use Rattle.draw_course.specs.Stops.{CanHaveStop};
ghost use Rattle.draw_course.specs.Raising.{IsRaisedDraw};

use augment::{Raised, raise};
use circulation::CirculationMut;
use std::sync::ledger::Ledger;
use steps::Steps;
use unreached_sets::mark;
use water_model::cut_list::CutList;

/// Fixes an arc at what it carries, which is the answer.
fn fix(circ: &mut CirculationMut<'_>, arc: u32) -> u64
    requires { arc < arcs circ.old }
    ensures kept { IsCirculation circ.new }
    ensures amount { result ≡ flow_of circ.old arc }
    ensures fixed { circ.new ≡ record circ.old {
      lower = slice_set circ.old.lower arc result;
      upper = slice_set circ.old.upper arc result;
    } }
{
    let amount = circ.flow(arc);
    circ.hold(arc, amount);
    circ.bound(arc, amount);
    amount
}

/// Opens an arc that is shut up to the cap, raises it as far as it can be, and fixes it at that, which is the answer.
/// A draw whose arc stays below the cap is given a tight cut of the arc as its set.
pub fn raise_draw<L: Ledger>(
    circ: &mut CirculationMut<'_>,
    arc: u32,
    draw: u32,
    cap: u64,
    stops: &mut CutList,
    pushes: &mut Steps<L>,
) -> u64
    requires arc { arc < arcs circ.old }
    requires shut { slice_index circ.old.upper arc ≡ 0 }
    requires cap { cap ≤ 10 ^ 9 }
    requires path_out { HasPathOut (network (bounded_contents circ.old arc cap)) arc }
    requires set { CanHaveStop circ.old.nodes stops.old draw }
    ensures kept { IsCirculation circ.new }
    ensures raised { IsRaisedDraw circ.old circ.new arc draw cap result stops.old stops.new }
    ensures cost { pushes.new ≤ pushes.old + 30 * (2 * arcs circ.old + 1) }
{
    // This call says that the circulation is kept.
    let _nodes = circ.nodes();
    circ.bound(arc, cap);
    if raise(circ, arc, cap, pushes) == Raised::Stopped {
        stops.begin(draw);
        mark(circ, draw, stops);
    }
    fix(circ, arc)
}
