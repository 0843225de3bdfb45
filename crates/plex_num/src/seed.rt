// Seeds of tables.
ghost use Rattle.std.specs.Prelude.{fold};
ghost use Rattle.std.specs.Hash as fed;
ghost use Rattle.std.specs.Hash.FoldHasher as folding;

use std::hash::{BuildHasher, DefaultHasher, FoldHasher, Hasher};

/// What the places of a table's keys hang on, besides the keys. It is drawn from all keys that a
/// text has, so that whoever chooses keys that would meet under one seed changes the seed by that
/// choice. No answer of a table hangs on it.
#[derive(Clone, Copy)]
pub struct Seed {
    number: u64,
}

impl Seed {
    /// The seed of no keys.
    pub fn new() -> Seed {
        Seed { number: 0 }
    }

    /// The seed that hangs on these bytes too.
    pub fn with(self, bytes: &[u8]) -> Seed {
        let mut hasher = DefaultHasher::new();
        hasher.write_u64(self.number);
        hasher.write(bytes);
        Seed {
            number: hasher.finish(),
        }
    }

    /// The seed that hangs on this number too.
    pub fn with_number(self, number: u32) -> Seed {
        self.with(&number.to_le_bytes())
    }
}

impl BuildHasher for Seed {
    type Hasher = FoldHasher;

    ghost build_hasher = { λ s. fold folding.write folding.initial (fed.u64 s.number) };

    fn build_hasher(&self) -> FoldHasher {
        let mut hasher = FoldHasher::default();
        hasher.write_u64(self.number);
        hasher
    }
}
