//! The instream rights on each link.
ghost use Rattle.std.specs.Prelude.{◌≡◌, ℕ, ◌<◌, ◌≤◌, length, Some, IfOk};
ghost use Rattle.chains.specs.Chains.{AreChains};
ghost use Rattle.rights_roll.specs.Rolls.{link_in};

use chains::{Chains, chains_by};
use std::alloc::{AllocError, Global};
use water_model::types::{Right, RightKind};

/// The link of an instream right.
fn link_at(rights: &[Right], at: usize) -> Option<u32>
    requires { at < length rights.now }
    ensures { result ≡ link_in rights.now at }
{
    match rights[at].kind {
        RightKind::Instream { link } => Some(link),
        _ => None,
    }
}

/// A number above that of each link that has an instream right.
fn link_count(rights: &[Right]) -> usize
    ensures { (right link : ℕ) → link_in rights.now right ≡ Some link → link < result }
{
    let mut count = 0;
    for right in rights {
        if let RightKind::Instream { link } = right.kind {
            count = count.max(link as usize + 1);
        }
    }
    count
}

/// The chains of the instream rights by their links. The tables have an entry for each link up to the greatest with an
/// instream right, and for each right.
pub fn chains_of(alloc: Global, rights: &[Right]) -> Result<Chains, AllocError>
    requires { length rights.now ≤ 2000 }
    ensures { IfOk result (λ chains.
        AreChains (link_in rights.now) (length rights.now) (length chains.first.items) chains) }
{
    let chains = chains_by(
        alloc,
        link_count(rights),
        rights.len(),
        |right| link_at(rights, right),
    )?;
    Ok(chains)
}
