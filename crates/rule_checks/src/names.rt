ghost use Rattle.std.specs.Prelude.{◌≡◌, ◌||◌, false, ℕ, List, OnOk};
ghost use Rattle.std.specs.Str.{bytes_eq};
ghost use Rattle.indexmap.specs.IndexSet.{contains};

use indexmap::IndexSet;
use plex_num::{Memory, Seed};
use std::alloc::Global;
use token_grammar::KeptName;

/// A set of names.
pub(crate) struct NameSet {
    pub(crate) names: IndexSet<KeptName, Seed>,
}

impl Drop for NameSet {
    fn drop(self) {
        let NameSet { names: _ } = self;
    }
}

impl NameSet {
    pub(crate) fn new(alloc: Global, seed: Seed) -> NameSet
        ensures { (n : List ℕ) → contains bytes_eq result.names n ≡ false }
    {
        NameSet {
            names: IndexSet::with_hasher(alloc, seed),
        }
    }

    pub(crate) fn has(&self, name: &KeptName) -> bool
        ensures { result ≡ contains bytes_eq self.now.names name.now }
    {
        self.names.contains(name)
    }

    /// Takes in a name.
    pub(crate) fn add(&mut self, name: &KeptName) -> Result<(), Memory>
        ensures { OnOk result ((n : List ℕ) → contains bytes_eq self.new.names n
            ≡ (contains bytes_eq self.old.names n || bytes_eq name.now n)) }
    {
        let kept = name.again(*self.names.allocator())?;
        match self.names.insert(kept) {
            Ok(_) => Ok(()),
            Err(_) => Err(Memory),
        }
    }
}
