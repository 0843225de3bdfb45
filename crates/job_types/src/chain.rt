ghost use Rattle.std.specs.Prelude.{◌≡◌, ◌<◌, ◌≤◌, ◌++◌, ◌∷◌, [], List, length, remove, slice_get};
ghost use Rattle.std.specs.Prelude.{Some};

use arrayvec::ArrayVec;
use plex_limits::MOST_HELD;
use std::marker::Model;

/// A record that a forlopp holds: the number of its file, and its own number in the file, from 0.
#[derive(Clone, Copy, Default, PartialEq, Eq)]
pub struct Held {
    pub file: u32,
    pub number: u32,
}

/// The records that a forlopp holds, in the order in which it seized them: at most 64, which
/// contracts see as a list. None of its calls takes memory.
#[derive(Drop)]
pub struct Chain {
    held: ArrayVec<Held, MOST_HELD>,
}

impl Model for Chain {
    ghost use Rattle.std.specs.Prelude.{List};
    ghost use Rattle.job_types.specs.declared.chain.Held.{Held};

    ghost Value = { List Held };

    ghost view = { λ c. c.held.items };
}

impl Chain {
    /// A chain of no records.
    pub fn new() -> Chain
        ensures { result ≡ [] }
    {
        Chain {
            held: ArrayVec::new(),
        }
    }

    /// Appends a record; there must be room for it.
    pub fn push(&mut self, item: Held)
        requires { length self.old < MOST_HELD }
        ensures { self.new ≡ self.old ++ item ∷ [] }
    {
        self.held.push(item);
    }

    /// Takes out the record at a place, counted from 0.
    pub fn remove(&mut self, i: usize) -> Held
        requires { i < length self.old }
        ensures item { slice_get self.old i ≡ Some result }
        ensures left { self.new ≡ remove self.old i }
    {
        self.held.remove(i)
    }

    /// Forgets all records, in the time that it takes to drop them.
    pub fn clear(&mut self)
        ensures { self.new ≡ [] }
    {
        self.held.clear();
    }

    /// Forgets all records, and has those of another chain.
    pub fn copy_from(&mut self, other: &Chain)
        ensures { self.new ≡ other.now }
    {
        self.clear();
        for held in other.held.as_slice() {
            self.push(*held);
        }
    }

    /// The records.
    pub fn as_slice(&self) -> &[Held]
        ensures items { result.now ≡ self.now }
        ensures room { length self.now ≤ MOST_HELD }
    {
        self.held.as_slice()
    }

    /// Another chain of the same records.
    pub fn copy(&self) -> Chain
        ensures { result ≡ self.now }
    {
        let mut made = Chain::new();
        for held in self.held.as_slice() {
            made.push(*held);
        }
        made
    }
}
