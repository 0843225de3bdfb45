// Names in the order in which they were added, looked up by hash.
ghost use Rattle.std.specs.Prelude.{◌≡◌, ◌<◌, ◌++◌, ◌∷◌, [], IfSome, OnOk, false, length, position};
ghost use Rattle.std.specs.Str.{bytes_eq};
ghost use Rattle.std.specs.List.{list_any};

use indexmap::IndexSet;
use plex_num::Memory;
use std::alloc::Global;
use std::marker::Model;

/// Different names, in the order in which they were added.
pub struct Names {
    names: IndexSet<Vec<u8>>,
}

impl Drop for Names {
    fn drop(self) {
        let Names { names: _ } = self;
    }
}

impl Model for Names {
    ghost use Rattle.std.specs.Prelude.{List, ℕ, map};
    ghost use Rattle.std.specs.Coded.{coded_list, coded_ℕ};

    ghost Value = { List (List ℕ) };

    ghost coded = { coded_list (coded_list coded_ℕ) };

    ghost view = { λ n. map (λ k. k.items) n.names.keys };
}

impl Names {
    /// No names.
    pub fn new(alloc: Global) -> Names
        ensures { result ≡ [] }
    {
        Names {
            names: IndexSet::new(alloc),
        }
    }

    /// Adds a name, which must be new.
    #[tactic(auto, using(crate::proofs::Named::added_last))]
    pub fn add(&mut self, alloc: Global, name: &[u8]) -> Result<(), Memory>
        requires { list_any (bytes_eq name.now) self.old ≡ false }
        ensures { OnOk result (self.new ≡ self.old ++ name.now ∷ []) }
    {
        let Ok(name) = Vec::from_slice(alloc, name) else {
            return Err(Memory);
        };
        let Ok(_) = self.names.insert_full(name) else {
            return Err(Memory);
        };
        Ok(())
    }

    /// The place of a name.
    #[tactic(auto, using(plex_num::proofs::Lists::position_map))]
    pub fn place(&self, name: &[u8]) -> Option<usize>
        ensures place { result ≡ position (bytes_eq name.now) self.now }
        ensures within { IfSome result (λ place. place < length self.now) }
    {
        self.names.get_index_of(name)
    }
}
