//! One block of words, handed out in order.
//!
//! Memory is taken where a region is opened or copied, and nowhere else.
#![tactic(auto)]

ghost use Rattle.std.specs.Prelude.{◌≡◌, ◌+◌, ◌<◌, ◌≤◌, length, replicate, slice_index, slice_set, IfOk, OnOk, OnErr};
ghost use Rattle.std.specs.Borrow.{sem};
ghost use Rattle.word_region.specs.Words.{IsUsed, words_at, with_words, zeroed};
ghost use Rattle.word_region.specs.Lending.{LendsWords};

use std::alloc::{AllocError, Global};
use std::marker::Model;

/// Some words of a region: `len` of them, from the word `from` onwards.
#[derive(Clone, Copy, Debug, PartialEq, Eq)]
pub struct Place {
    pub from: usize,
    pub len: usize,
}

/// How many words of a region were handed out when it was asked.
#[derive(Clone, Copy, Debug, PartialEq, Eq)]
pub struct Mark {
    pub used: usize,
}

/// A region has fewer words left than were asked for.
#[derive(Clone, Copy, Debug, PartialEq, Eq)]
pub struct Full;

/// The words, of which the first `used` are handed out.
///
/// Contracts see both.
#[derive(Drop)]
pub struct Region {
    words: Vec<u64>,
    used: usize,
}

impl Model for Region {
    ghost use Rattle.std.specs.Prelude.{◌≤◌, length};
    ghost use Rattle.word_region.specs.Words.{Words};

    ghost Value = { Words };

    ghost view = { λ r. record { words = r.words.items; used = r.used } };

    ghost invariant = { λ r. r.used ≤ length r.words.items };
}

impl Region {
    /// A region of this many words, all 0, of which none is handed out. AllocError comes where memory is lacking.
    pub fn open(alloc: Global, words: usize) -> Result<Region, AllocError>
        ensures { IfOk result (λ r. r ≡ record { words = replicate words 0; used = 0 }) }
    {
        Ok(Region {
            words: vec![in alloc; 0; words]?,
            used: 0,
        })
    }

    /// An equal region, with words of its own. AllocError comes where memory is lacking.
    pub fn copy(&self, alloc: Global) -> Result<Region, AllocError>
        ensures { IfOk result (λ copied. copied ≡ self.now) }
    {
        Ok(Region {
            words: Vec::from_slice(alloc, &self.words)?,
            used: self.used,
        })
    }

    /// How many words are left.
    pub fn free(&self) -> usize
        ensures { result + self.now.used ≡ length self.now.words }
    {
        self.words.len() - self.used
    }

    /// Hands out the next `len` words, all 0. Full comes exactly where fewer are left; then nothing is changed.
    pub fn take(&mut self, len: usize) -> Result<Place, Full>
        ensures place { IfOk result (λ place. place ≡ record { from = self.old.used; len = len }) }
        ensures taken { OnOk result (self.new ≡ record {
          words = zeroed self.old.words self.old.used len;
          used = self.old.used + len;
        }) }
        ensures fitted { OnOk result (self.old.used + len ≤ length self.old.words) }
        ensures full { OnErr result (length self.old.words < self.old.used + len) }
        ensures unchanged { OnErr result (self.new ≡ self.old) }
    {
        if len > self.words.len() - self.used {
            return Err(Full);
        }
        let from = self.used;
        self.used = from + len;
        zero(&mut self.words, from, len);
        Ok(Place { from, len })
    }

    /// How many words are handed out, for `release`.
    pub fn mark(&self) -> Mark
        ensures mark { result ≡ record { used = self.now.used } }
        ensures fits { self.now.used ≤ length self.now.words }
    {
        Mark { used: self.used }
    }

    /// Takes back all words that were handed out since a mark. They keep what they hold until they are handed out anew.
    pub fn release(&mut self, mark: Mark)
        requires { mark.used ≤ self.old.used }
        ensures { self.new ≡ record self.old { used = mark.used } }
    {
        self.used = mark.used;
    }

    /// A word of a place.
    pub fn get(&self, place: Place, at: usize) -> u64
        requires used { IsUsed place self.now }
        requires at { at < place.len }
        ensures word { result ≡ slice_index self.now.words (place.from + at) }
        ensures fits { self.now.used ≤ length self.now.words }
    {
        self.words[place.from + at]
    }

    /// Writes a word of a place. All other words stay.
    pub fn set(&mut self, place: Place, at: usize, value: u64)
        requires used { IsUsed place self.old }
        requires at { at < place.len }
        ensures { self.new ≡ record self.old { words = slice_set self.old.words (place.from + at) value } }
    {
        self.words[place.from + at] = value;
    }

    /// The words of a place.
    pub fn words(&self, place: Place) -> &[u64]
        requires { IsUsed place self.now }
        ensures words { result.now ≡ words_at self.now.words place }
        ensures count { length result.now ≡ place.len }
    {
        &self.words[place.from..place.from + place.len]
    }

    /// The words of a place, to be written. All other words stay.
    pub fn words_mut(&mut self, place: Place) -> &mut [u64]
        requires { IsUsed place self.old }
        ensures* writes_back { sem 𝓛 (LendsWords self.entry place result) }
        ensures words { result.now ≡ words_at self.old.words place }
        ensures count { length result.now ≡ place.len }
    {
        self.words.slice_mut(place.from..place.from + place.len)
    }

    /// Writes all words of a place. All other words stay.
    pub fn put(&mut self, place: Place, words: &[u64])
        requires used { IsUsed place self.old }
        requires count { length words.now ≡ place.len }
        ensures { self.new ≡ record self.old { words = with_words self.old.words place.from words.now } }
    {
        overwrite(&mut self.words, place.from, words);
    }
}

/// Writes 0 into `len` words, from the word `from` onwards.
fn zero(words: &mut [u64], from: usize, len: usize)
    requires { from + len ≤ length words.old }
    ensures { words.new ≡ zeroed words.old from len }
{
    words[from..from + len].fill(0);
}

/// Writes new words over those from the word `from` onwards.
fn overwrite(words: &mut [u64], from: usize, new: &[u64])
    requires { from + length new.now ≤ length words.old }
    ensures { words.new ≡ with_words words.old from new.now }
{
    words[from..from + new.len()].copy_from_slice(new);
}
