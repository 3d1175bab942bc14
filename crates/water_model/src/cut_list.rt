//! For each right none or a set of nodes.
ghost use Rattle.std.specs.Prelude.{◌≡◌, ◌+◌, ◌<◌, ◌≤◌, None, Some, length, replicate, slice_set, false, true, IfOk};
ghost use Rattle.std.specs.Prelude.{IfSome, IsSome, IsNone, ◌↔◌};
ghost use Rattle.std.specs.Option.{option_map};
ghost use Rattle.bit_words.specs.Marks.{words_for, marks};
ghost use Rattle.word_region.specs.Words.{zeroed};
ghost use Rattle.water_model.specs.Lookups.{has};
ghost use Rattle.water_model.specs.CutInside.{set_place};
ghost use Rattle.water_model.specs.CutSets.{set_of, with_set, without_sets, CutSets};

use bit_words::words_for;
use std::alloc::{AllocError, Global};
use std::marker::Model;
use word_region::{Full, Mark, Place, Region};

/// For each right none or a set of nodes: the cuts of a month, which show why rights are short.
///
/// Contracts see the sets, indexed by right, as lists of truth values, indexed by node. Memory is taken where a list is
/// opened or copied, and by nothing else.
#[derive(Drop)]
pub struct CutList {
    region: Region,
    rights: u32,
    nodes: u32,
}

impl Model for CutList {
    ghost use Rattle.water_model.specs.CutSets.{CutSets};

    ghost Value = { CutSets };

    ghost use Rattle.water_model.specs.CutInside.{cut_sets, KeepsSets};

    ghost view = { λ c. cut_sets c.rights c.nodes c.region.words };

    ghost invariant = { λ c. KeepsSets c.rights c.nodes c.region };
}

impl CutList {
    /// A list over these nodes, in which no right has a set. AllocError comes where memory for a set of each right is
    /// lacking.
    pub fn open(alloc: Global, rights: u32, nodes: u32) -> Result<CutList, AllocError>
        ensures { IfOk result (λ c. c ≡ record { nodes = nodes; sets = replicate rights None }) }
    {
        let words = rights as usize * (1 + words_for(nodes));
        let mut region = Region::open(alloc, words)?;
        next_place(&mut region, rights as usize);
        Ok(CutList {
            region,
            rights,
            nodes,
        })
    }

    /// An equal list, with memory of its own. AllocError comes where memory is lacking.
    pub fn copy(&self, alloc: Global) -> Result<CutList, AllocError>
        ensures { IfOk result (λ copied. copied ≡ self.now) }
    {
        let rights = self.rights;
        let nodes = self.nodes;
        let region = self.region.copy(alloc)?;
        Ok(CutList {
            region,
            rights,
            nodes,
        })
    }

    /// The words that mark the nodes of a right's set, 64 to a word, or none exactly where it has no set.
    pub fn words(&self, right: u32) -> Option<&[u64]>
        requires { right < length self.now.sets }
        ensures set { option_map (λ words. marks self.now.nodes words.now) result ≡ set_of self.now right }
        ensures size { IfSome result (λ words. length words.now ≡ words_for self.now.nodes) }
    {
        let begin = self.region.get(rights_place(self.rights), right as usize);
        if begin == 0 {
            return None;
        }
        Some(self.region.words(set_place(self.nodes, begin)))
    }

    /// Whether a right's set holds a node, or none exactly where it has no set.
    pub fn holds(&self, right: u32, node: u32) -> Option<bool>
        requires right { right < length self.now.sets }
        requires node { node < self.now.nodes }
        ensures none { IsNone result ↔ (set_of self.now right ≡ None) }
        ensures some { IfSome result (λ held. IfSome (set_of self.now right) (λ set. held ≡ has set node)) }
        ensures sized { IfSome (set_of self.now right) (λ set. length set ≡ self.now.nodes) }
    {
        match self.words(right) {
            Some(words) => Some(bit_words::is_marked(words, node)),
            None => None,
        }
    }

    /// Adds a node to a right's set. The other rights' sets stay.
    pub fn add(&mut self, right: u32, node: u32)
        requires right { right < length self.old.sets }
        requires node { node < self.old.nodes }
        requires held { IsSome (set_of self.old right) }
        ensures { IfSome (set_of self.old right) (λ set.
            self.new ≡ with_set self.old right (Some (slice_set set node true))) }
    {
        let begin = self.region.get(rights_place(self.rights), right as usize);
        let words = self.region.words_mut(set_place(self.nodes, begin));
        bit_words::mark(words, node);
    }

    /// Gives a right the empty set. The other rights' sets stay.
    pub fn begin(&mut self, right: u32)
        requires right { right < length self.old.sets }
        requires free { set_of self.old right ≡ None }
        ensures { self.new ≡ with_set self.old right (Some (replicate self.old.nodes false)) }
    {
        let place = next_place(&mut self.region, words_for(self.nodes));
        self.region.set(rights_place(self.rights), right as usize, place.from as u64);
    }

    /// Gives a right the set of the nodes that the words mark, 64 to a word. The other rights' sets stay.
    pub fn begin_with(&mut self, right: u32, words: &[u64])
        requires right { right < length self.old.sets }
        requires free { set_of self.old right ≡ None }
        requires words { length words.now ≡ words_for self.old.nodes }
        ensures { self.new ≡ with_set self.old right (Some (marks self.old.nodes words.now)) }
    {
        let place = next_place(&mut self.region, words.len());
        self.region.put(place, words);
        self.region.set(rights_place(self.rights), right as usize, place.from as u64);
    }

    /// Drops all sets.
    pub fn clear(&mut self)
        ensures { self.new ≡ without_sets self.old }
    {
        self.region.release(Mark { used: 0 });
        next_place(&mut self.region, self.rights as usize);
    }
}

/// The first place, which has a word for each right.
fn rights_place(rights: u32) -> Place
    ensures { result ≡ record { from = 0; len = rights } }
{
    Place {
        from: 0,
        len: rights as usize,
    }
}

/// The place of the set that begins at a word.
fn set_place(nodes: u32, begin: u64) -> Place
    ensures { result ≡ set_place nodes begin }
{
    Place {
        from: begin as usize,
        len: words_for(nodes),
    }
}

/// Takes the next `len` words, of which there are enough.
fn next_place(region: &mut Region, len: usize) -> Place
    requires { region.old.used + len ≤ length region.old.words }
    ensures place { result ≡ record { from = region.old.used; len = len } }
    ensures taken { region.new ≡ record {
      words = zeroed region.old.words region.old.used len;
      used = region.old.used + len;
    } }
{
    match region.take(len) {
        Ok(place) => place,
        Err(Full) => unreachable!(),
    }
}
