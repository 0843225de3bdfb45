// Lists.
ghost use Rattle.std.specs.Prelude.{◌≡◌, ◌<◌, ◌≤◌, ◌++◌, ◌∷◌, [], List, length, take, slice_get};
ghost use Rattle.std.specs.Prelude.{slice_set, MatchResult, MatchOption, IfOk, OnOk, OnErr, Some};

use std::alloc::Global;
use std::marker::Model;

/// Memory was refused.
#[derive(Debug, Drop)]
pub struct Memory;

/// A list, which contracts see as a list of its items. Its length has no limit but memory.
pub struct Seq<T> {
    items: Vec<T>,
}

impl<T: Drop> Drop for Seq<T> {
    fn drop(self) {
        let Seq { items: _ } = self;
    }
}

impl<T> Model for Seq<T> {
    ghost use Rattle.std.specs.Prelude.{List};
    ghost use Rattle.std.specs.Coded.{coded_list};

    ghost Value = { List T };

    ghost coded = { coded_list T.code };

    ghost view = { λ s. s.items.items };
}

impl<T> Seq<T> {
    /// The empty list; it takes no memory.
    pub fn new(alloc: Global) -> Seq<T>
        ensures { result ≡ [] }
    {
        Seq {
            items: Vec::new(alloc),
        }
    }

    /// The empty list, with room for so many items: appending these takes no more memory.
    pub fn with_capacity(alloc: Global, items: usize) -> Result<Seq<T>, Memory>
        ensures { IfOk result (λ list. list ≡ []) }
    {
        match Vec::with_capacity(alloc, items) {
            Ok(items) => Ok(Seq { items }),
            Err(_) => Err(Memory),
        }
    }

    /// The list of these items, in their order.
    pub fn from_vec(items: Vec<T>) -> Seq<T>
        ensures { result ≡ items.items }
    {
        Seq { items }
    }

    /// The items, in their order.
    pub fn into_vec(self) -> Vec<T>
        ensures { result.items ≡ self }
    {
        let Seq { items } = self;
        items
    }

    /// The item at a place, counted from 0; `None` exactly where the list ends before it.
    pub fn get(&self, i: usize) -> Option<&T>
        ensures { MatchOption result
            (length self.now ≤ i)
            (λ x. slice_get self.now i ≡ Some x.now) }
    {
        self.items.get(i)
    }

    /// How many items there are.
    pub fn len(&self) -> usize
        ensures { result ≡ length self.now }
    {
        self.items.len()
    }

    /// The items, in their order.
    pub fn as_slice(&self) -> &[T]
        ensures { result.now ≡ self.now }
    {
        &self.items
    }
}

impl<T: Drop> Seq<T> {
    /// Appends an item; where memory is refused, the list stays as it was and the item is dropped.
    pub fn push(&mut self, value: T) -> Result<(), Memory>
        ensures { MatchResult result
            (λ _. self.new ≡ self.old ++ value ∷ [])
            (λ _. self.new ≡ self.old) }
    {
        match self.items.push(value) {
            Ok(()) => Ok(()),
            Err(_) => Err(Memory),
        }
    }

    /// Puts an item in the place of that at `i`, counted from 0, which must be within the list.
    pub fn set(&mut self, i: usize, value: T)
        requires { i < length self.old }
        ensures { self.new ≡ slice_set self.old i value }
    {
        self.items[i] = value;
    }
}

impl<T: Copy> Seq<T> {
    /// Appends these items, in their order; where memory is refused, the list stays as it was.
    pub fn push_all(&mut self, more: &[T]) -> Result<(), Memory>
        ensures { MatchResult result
            (λ _. self.new ≡ self.old ++ more.now)
            (λ _. self.new ≡ self.old) }
    {
        match self.items.extend_from_slice(more) {
            Ok(()) => Ok(()),
            Err(_) => Err(Memory),
        }
    }
}

impl Seq<u8> {
    /// Appends these bytes; where memory is refused, the list stays as it was.
    pub fn append(&mut self, bytes: &[u8]) -> Result<(), Memory>
        ensures { MatchResult result
            (λ _. self.new ≡ self.old ++ bytes.now)
            (λ _. self.new ≡ self.old) }
    {
        match self.items.extend_from_slice(bytes) {
            Ok(()) => Ok(()),
            Err(_) => Err(Memory),
        }
    }

    /// A copy of these bytes, unless memory is refused.
    pub fn copied(alloc: Global, bytes: &[u8]) -> Result<Seq<u8>, Memory>
        ensures { IfOk result (λ s. s ≡ bytes.now) }
    {
        match Vec::from_slice(alloc, bytes) {
            Ok(items) => Ok(Seq { items }),
            Err(_) => Err(Memory),
        }
    }
}
