//! Laws over the definitions. Each is the contract of a function that does nothing.
ghost use Rattle.river_net.specs.Laws.{RunOfRiverIsPlan, SoundNetworksHaveNoFault};

/// The run of the river is a plan in which nobody takes.
pub fn run_of_river_is_plan()
    ensures { RunOfRiverIsPlan }
{}

/// Nodes and links that name nodes are a sound network exactly where they have no fault. So [`crate::Net::build`]
/// answers a network exactly for the sound ones, and for all others their first fault, but where memory runs out.
pub fn sound_networks_have_no_fault()
    ensures { SoundNetworksHaveNoFault }
{}
