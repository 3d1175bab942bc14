//! Indices in chains: for each key those that have it, one after the other.
#![tactic(auto)]

ghost use Rattle.std.specs.Prelude.{◌≡◌, ℕ, ◌^◌, ◌<◌, ◌≤◌, slice_index_or, None, Option, IfOk, IfSome};
ghost use Rattle.chains.specs.Chains.{AreChains};

use std::alloc::{AllocError, Global};

/// For each key the first index that has it, and for each index the next one that has the same key.
#[derive(Drop)]
pub struct Chains {
    pub first: Vec<Option<u32>>,
    pub next: Vec<Option<u32>>,
}

impl Chains {
    /// The first index that has a key, or none.
    pub fn first_of(&self, key: u32) -> Option<u32>
        ensures { result ≡ slice_index_or self.now.first.items key None }
    {
        self.first.get(key as usize).copied().flatten()
    }

    /// The next index that has the same key, or none.
    pub fn next_of(&self, index: u32) -> Option<u32>
        ensures { result ≡ slice_index_or self.now.next.items index None }
    {
        self.next.get(index as usize).copied().flatten()
    }
}

/// The indices below a count in chains, each in that of its key, if it has one. Keys are below a number too. The indices
/// are put in from the last one back, so each finds the one after it. AllocError comes where memory is lacking.
pub fn chains_by<F: Fn(usize) -> Option<u32>>(
    alloc: Global,
    keys: usize,
    count: usize,
    key_of: F,
) -> Result<Chains, AllocError>
    requires few { count ≤ 2 ^ 32 }
    requires indices { (index : ℕ) → index < count → F.pre key_of index }
    requires within { (index : ℕ) (key : Option ℕ) → index < count → F.post key_of index key →
        IfSome key (λ k. k < keys) }
    ensures { (own : ℕ → Option ℕ) →
        ((index : ℕ) (key : Option ℕ) → index < count → F.post key_of index key → key ≡ own index) →
        IfOk result (AreChains own count keys) }
{
    let mut first = vec![in alloc; None; keys]?;
    let mut next = vec![in alloc; None; count]?;
    for index in (0..count).rev() {
        if let Some(key) = key_of(index) {
            next[index] = first[key as usize];
            first[key as usize] = Some(index as u32);
        }
    }
    Ok(Chains { first, next })
}
