// Names in the order in which they were added, looked up by hash.
ghost use Rattle.std.specs.Prelude.{◌≡◌, ◌++◌, ◌∷◌, [], OnOk, false};
ghost use Rattle.std.specs.Str.{bytes_eq};
ghost use Rattle.std.specs.List.{list_any};
ghost use Rattle.block_change.specs.Names.{place_of};

use indexmap::IndexSet;
use plex_num::{Memory, Name};
use std::alloc::Global;
use std::marker::Model;

/// A list holds fewer names than this, so that each place has a number of 32 bits.
const MOST: usize = 0xffff_ffff;

/// Different names, in the order in which they were added.
pub(crate) struct Names {
    names: IndexSet<Name>,
}

impl Drop for Names {
    fn drop(self) {
        let Names { names: _ } = self;
    }
}

impl Model for Names {
    ghost use Rattle.std.specs.Prelude.{◌<◌, ◌^◌, List, ℕ, length};
    ghost use Rattle.std.specs.Coded.{coded_list, coded_ℕ};

    ghost Value = { List (List ℕ) };

    ghost coded = { coded_list (coded_list coded_ℕ) };

    ghost view = { λ n. n.names.keys };

    ghost invariant = { λ n. length n.names.keys < 2 ^ 32 };
}

impl Names {
    /// No names; it takes no memory.
    pub(crate) fn new(alloc: Global) -> Names
        ensures { result ≡ [] }
    {
        Names {
            names: IndexSet::new(alloc),
        }
    }

    /// Adds a name, which must be new. So many names that one has no number of 32 bits are refused
    /// as memory is.
    pub(crate) fn add(&mut self, name: &Name) -> Result<(), Memory>
        requires { list_any (bytes_eq name.now) self.old ≡ false }
        ensures { OnOk result (self.new ≡ self.old ++ name.now ∷ []) }
    {
        if self.names.len() >= MOST {
            return Err(Memory);
        }
        let Ok(_) = self.names.insert_full(name.copy()) else {
            return Err(Memory);
        };
        Ok(())
    }

    /// The place of a name.
    pub(crate) fn place(&self, name: &Name) -> Option<u32>
        ensures { result ≡ place_of name.now self.now }
    {
        match self.names.get_index_of(name) {
            Some(place) => Some(place as u32),
            None => None,
        }
    }
}
