// Where a set may stand that was met before.
use plex_num::Memory;
use std::alloc::Global;
use std::collections::HashMap;

/// For each mark the number of the last set that had it. A hint may be wrong: what it leads to is
/// looked at, and a wrong hint costs time and room alone.
pub(crate) struct Hints {
    numbers: HashMap<u64, u32>,
}

impl Drop for Hints {
    fn drop(self) {
        let Hints { numbers: _ } = self;
    }
}

impl Hints {
    /// No hints.
    pub(crate) fn new(alloc: Global) -> Hints {
        Hints {
            numbers: HashMap::new(alloc),
        }
    }

    /// The number of the last set with this mark.
    pub(crate) fn number(&self, mark: u64) -> Option<u32> {
        self.numbers.get(&mark).copied()
    }

    /// Notes the number of a set with this mark.
    pub(crate) fn note(&mut self, mark: u64, number: u32) -> Result<(), Memory> {
        match self.numbers.insert(mark, number) {
            Ok(_) => Ok(()),
            Err(_) => Err(Memory),
        }
    }

    /// Forgets all hints.
    pub(crate) fn clear(&mut self) {
        self.numbers.clear();
    }
}

/// A number that sets of these words have in common with few others.
pub(crate) fn mark_of(words: &[u64]) -> u64 {
    let mut mark: u64 = 0;
    for word in words {
        let mixed = (mark ^ *word).wrapping_mul(0x9e37_79b9_7f4a_7c15);
        mark = mixed ^ (mixed >> 32);
    }
    mark
}
