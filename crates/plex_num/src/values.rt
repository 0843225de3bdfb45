ghost use Rattle.std.specs.Prelude.{◌≡◌, ◌<◌, ◌≤◌, ◌++◌, ◌∷◌, [], List, ℕ, length, remove};
ghost use Rattle.std.specs.Prelude.{slice_get, Some};

use arrayvec::ArrayVec;
use plex_limits::MOST_VALUES;
use std::marker::Model;

/// The values of a signal: at most 8 numbers, which contracts see as a list. None of its calls
/// takes memory.
#[derive(Drop)]
pub struct Values {
    numbers: ArrayVec<u32, MOST_VALUES>,
}

impl Model for Values {
    ghost use Rattle.std.specs.Prelude.{List, ℕ};
    ghost use Rattle.std.specs.Coded.{coded_list, coded_ℕ};

    ghost Value = { List ℕ };

    ghost coded = { coded_list coded_ℕ };

    ghost view = { λ n. n.numbers.items };
}

impl Values {
    /// No values.
    pub fn new() -> Values
        ensures { result ≡ [] }
    {
        Values {
            numbers: ArrayVec::new(),
        }
    }

    /// Appends a number; there must be room for it.
    pub fn push(&mut self, item: u32)
        requires { length self.old < MOST_VALUES }
        ensures { self.new ≡ self.old ++ item ∷ [] }
    {
        self.numbers.push(item);
    }

    /// Takes out the number at a place, counted from 0.
    pub fn remove(&mut self, i: usize) -> u32
        requires { i < length self.old }
        ensures item { slice_get self.old i ≡ Some result }
        ensures left { self.new ≡ remove self.old i }
    {
        self.numbers.remove(i)
    }

    /// The numbers.
    pub fn as_slice(&self) -> &[u32]
        ensures items { result.now ≡ self.now }
        ensures room { length self.now ≤ MOST_VALUES }
    {
        self.numbers.as_slice()
    }

    /// Another list of the same numbers.
    pub fn copy(&self) -> Values
        ensures { result ≡ self.now }
    {
        let mut made = Values::new();
        for number in self.numbers.as_slice() {
            made.push(*number);
        }
        made
    }
}
