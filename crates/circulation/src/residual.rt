//! The steps of the residual network, by their numbers.
ghost use Rattle.std.specs.Prelude.{◌≡◌, true, false, ◌+◌, ◌-◌, ◌<◌};
ghost use Rattle.circulation.specs.Contents.{arcs, flow_of, network, IsCirculation};
ghost use Rattle.circulation.specs.Residual.{arc_of, room_of, start_of, end_of, opposite};

use crate::circulation_mut::CirculationMut;

/// The arc that a step goes over.
pub fn arc_of_step(circ: &CirculationMut<'_>, step: u64) -> u32
    requires arc { arc_of step < arcs circ.now }
    requires kept { IsCirculation circ.now }
    ensures { result ≡ arc_of step }
{
    (step / 2) as u32
}

/// How much more a step can carry.
pub fn room(circ: &CirculationMut<'_>, step: u64) -> u64
    requires arc { arc_of step < arcs circ.now }
    requires kept { IsCirculation circ.now }
    ensures { result ≡ room_of (network circ.now) (flow_of circ.now) step }
{
    circ.rooms[step as usize]
}

/// The node that a step leaves.
pub fn start(circ: &CirculationMut<'_>, step: u64) -> u32
    requires arc { arc_of step < arcs circ.now }
    requires kept { IsCirculation circ.now }
    ensures { result ≡ start_of (network circ.now) step }
{
    let ends = circ.ends(arc_of_step(circ, step));
    if step % 2 == 1 { ends.to } else { ends.from }
}

/// The node that a step enters.
pub fn end(circ: &CirculationMut<'_>, step: u64) -> u32
    requires arc { arc_of step < arcs circ.now }
    requires kept { IsCirculation circ.now }
    ensures { result ≡ end_of (network circ.now) step }
{
    let ends = circ.ends(arc_of_step(circ, step));
    if step % 2 == 1 { ends.from } else { ends.to }
}

/// The step over the same arc the other way.
pub fn opposite(circ: &CirculationMut<'_>, step: u64) -> u64
    requires arc { arc_of step < arcs circ.now }
    requires kept { IsCirculation circ.now }
    ensures { result ≡ opposite step }
{
    if step % 2 == 1 { step - 1 } else { step + 1 }
}
