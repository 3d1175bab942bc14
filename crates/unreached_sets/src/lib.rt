//! The set of the nodes that a search did not reach, in a list of sets.
#![tactic(auto)]

ghost use Rattle.std.specs.Prelude.{◌≡◌, ◌<◌, length, replicate, false, Some};
ghost use Rattle.water_model.specs.CutSets.{set_of, with_set};
ghost use Rattle.augment.specs.Raised.{not_reached};
ghost use Rattle.unreached_sets.specs.Sets.{set_where};

use augment::reached;
use circulation::CirculationMut;
use water_model::cut_list::CutList;

/// Adds to the empty set with an index the nodes that the last search of `raise` did not reach. The other sets stay.
pub fn mark(circ: &CirculationMut<'_>, index: u32, sets: &mut CutList)
    requires index { index < length sets.old.sets }
    requires nodes { sets.old.nodes ≡ circ.now.nodes }
    requires empty { set_of sets.old index ≡ Some (replicate sets.old.nodes false) }
    ensures { sets.new ≡ with_set sets.old index (Some (set_where circ.now.nodes (not_reached circ.now))) }
{
    for node in 0..circ.nodes() {
        if !reached(circ, node) {
            sets.add(index, node);
        }
    }
}
