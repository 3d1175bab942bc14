//! Why nodes and links are no network.
ghost use Rattle.std.specs.Prelude.{◌≡◌};

use std::alloc::AllocError;
use thiserror::Error;

/// Why nodes and links are no network. Links and nodes are named by their indices, from 0.
#[derive(Clone, Copy, Debug, PartialEq, Eq, Error)]
pub enum NetRefused {
    /// The first link that leads from a node to itself.
    #[error("link {0} leads from a node to itself")]
    SelfLink(u32),
    /// The first link that leaves an outlet.
    #[error("link {0} leaves an outlet")]
    LinkFromOutlet(u32),
    /// The first node that is no outlet and that no river leaves.
    #[error("no river leaves node {0}, which is no outlet")]
    NoRiver(u32),
    /// The first node to which its own water comes back, by rivers or canals.
    #[error("links lead from node {0} back to it")]
    DirectedCycle(u32),
    #[error("out of memory")]
    OutOfMemory,
}

impl From<AllocError> for NetRefused {
    ghost use Rattle.river_net.specs.declared.refused.NetRefused.TheVariants.{OutOfMemory};

    ghost from_gives = { λ _ e. e ≡ OutOfMemory };

    fn from(_error: AllocError) -> NetRefused {
        NetRefused::OutOfMemory
    }
}
