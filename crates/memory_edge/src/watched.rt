//! A shelf that counts how often one of its files is asked for.
ghost use Rattle.std.specs.Prelude.{◌≡◌, string_bytes};
ghost use Rattle.water_edge.specs.Edge.{AsksFor};
ghost use Rattle.memory_edge.specs.Watched.{asked_of};

use std::alloc::Global;
use std::marker::Model;
use water_edge::{Shelf, ShelfRefused};

/// A shelf, and how many calls asked for its file of one name. That count is known, and of all other names none.
/// Contracts see it as the shelf, the name and the count, which stands still at 2^64 - 1.
#[derive(Drop)]
pub struct WatchedShelf<S: Shelf + Drop> {
    shelf: S,
    name: String,
    asked: u64,
}

impl<S: Shelf + Drop> Model for WatchedShelf<S> {
    ghost use Rattle.std.specs.Prelude.{string_bytes};
    ghost use Rattle.memory_edge.specs.Watched.{Watched};

    ghost Value = { Watched S };

    ghost view = { λ w. record { shelf = w.shelf; name = string_bytes w.name; asked = w.asked } };
}

impl<S: Shelf + Drop> WatchedShelf<S> {
    /// The shelf, whose file of this name nobody asked for yet.
    pub fn new(shelf: S, name: String) -> WatchedShelf<S>
        ensures { result ≡ record { shelf = shelf; name = string_bytes name; asked = 0 } }
    {
        WatchedShelf {
            shelf,
            name,
            asked: 0,
        }
    }

    /// How many calls asked for the file.
    pub fn asked(&self) -> u64
        ensures { result ≡ self.now.asked }
    {
        self.asked
    }

    /// Counts a call that asks for a file.
    fn count(&mut self, name: &str)
        ensures asked { AsksFor (asked_of self.old) (asked_of self.new) name.now }
        ensures rest { self.new ≡ record self.old { asked = self.new.asked } }
    {
        if self.name.as_str() == name {
            self.asked = self.asked.saturating_add(1);
        }
    }
}

impl<S: Shelf + Drop> Shelf for WatchedShelf<S> {
    ghost known = { λ w. S.known w.shelf };

    ghost serves = { λ w. S.serves w.shelf };

    ghost asked = { asked_of };

    ghost faults = { λ w. S.faults w.shelf };

    fn read_whole(
        &mut self,
        alloc: Global,
        name: &str,
        limit: u64,
    ) -> Result<Vec<u8>, ShelfRefused> {
        self.count(name);
        self.shelf.read_whole(alloc, name, limit)
    }

    fn read_part(&mut self, name: &str, from: u64, into: &mut [u8]) -> Result<usize, ShelfRefused> {
        self.count(name);
        self.shelf.read_part(name, from, into)
    }
}
