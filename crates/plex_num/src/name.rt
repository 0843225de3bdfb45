ghost use Rattle.std.specs.Prelude.{◌≡◌, ◌<◌, ◌≤◌, ◌++◌, ◌∷◌, [], List, ℕ, length, remove};
ghost use Rattle.std.specs.Prelude.{slice_get, Some};

use arrayvec::ArrayVec;
use std::marker::Model;

/// A name: at most 31 bytes, which contracts see as a list of bytes. None of its calls takes
/// memory.
#[derive(Debug, Drop, PartialEq, Eq, Hash)]
pub struct Name {
    bytes: ArrayVec<u8, 31>,
}

impl Model for Name {
    ghost use Rattle.std.specs.Prelude.{List, ℕ};
    ghost use Rattle.std.specs.Coded.{coded_list, coded_ℕ};

    ghost Value = { List ℕ };

    ghost coded = { coded_list coded_ℕ };

    ghost view = { λ n. n.bytes.items };

    ghost inverse = { λ d. record { bytes = record { items = d } } };
}

impl Name {
    /// The empty name.
    pub fn new() -> Name
        ensures { result ≡ [] }
    {
        Name {
            bytes: ArrayVec::new(),
        }
    }

    /// The name of these bytes, of which there must be at most 31.
    pub fn of(bytes: &[u8]) -> Name
        requires { length bytes.now ≤ 31 }
        ensures { result ≡ bytes.now }
    {
        match ArrayVec::try_from(bytes) {
            Ok(bytes) => Name { bytes },
            Err(_) => Name::new(),
        }
    }

    /// Appends a byte; there must be room for it.
    pub fn push(&mut self, item: u8)
        requires { length self.old < 31 }
        ensures { self.new ≡ self.old ++ item ∷ [] }
    {
        self.bytes.push(item);
    }

    /// Takes out the byte at a place, counted from 0.
    pub fn remove(&mut self, i: usize) -> u8
        requires { i < length self.old }
        ensures item { slice_get self.old i ≡ Some result }
        ensures left { self.new ≡ remove self.old i }
    {
        self.bytes.remove(i)
    }

    /// The bytes.
    pub fn as_slice(&self) -> &[u8]
        ensures items { result.now ≡ self.now }
        ensures room { length self.now ≤ 31 }
    {
        self.bytes.as_slice()
    }

    /// Another name of the same bytes.
    pub fn copy(&self) -> Name
        ensures { result ≡ self.now }
    {
        Name::of(self.as_slice())
    }
}
