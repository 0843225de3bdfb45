// What the declared names of a block stand for, looked up by hash.
ghost use Rattle.std.specs.Prelude.{◌≡◌, ℕ, List, OnOk, IfOk, Option};
ghost use Rattle.text_events.specs.Seen.{note_of};
ghost use Rattle.block_resolver.specs.Added.{AddsMeaning};
ghost use Rattle.resolved_block.specs.Names.{meanings_of, with_first};
ghost use Rattle.block_resolver.specs.Tables.{meanings_in};

use crate::numbers::sum;
use indexmap::IndexMap;
use plex_num::{Memory, Seed};
use std::alloc::Global;
use text_events::{Event, EventKind, Meaning};
use token_grammar::KeptName;

/// The names that a block declares. Of a name that stands twice the last counts.
pub struct Declared {
    pub(crate) names: IndexMap<KeptName, Meaning, Seed>,
}

impl Drop for Declared {
    fn drop(self) {
        let Declared { names: _ } = self;
    }
}

/// The meaning, with files counted from that of the number `first_file`.
fn counted_on(first_file: u32, meaning: Meaning) -> Result<Meaning, Memory>
    ensures { IfOk result (λ m. m ≡ with_first first_file meaning) }
{
    match meaning {
        Meaning::File { file, forlopp } => {
            let file = sum(first_file, file)?;
            Ok(Meaning::File { file, forlopp })
        }
        Meaning::Field { file, field } => {
            let file = sum(first_file, file)?;
            Ok(Meaning::Field { file, field })
        }
        other => Ok(other),
    }
}

impl Declared {
    /// The names that these events declare, with files counted from the number `first_file` on.
    ///
    /// Memory comes where memory is refused, and where the number of a file has more than 32 bits.
    #[tactic(auto, using(crate::proofs::Meanings::names_declared))]
    pub(crate) fn of(
        alloc: Global,
        events: &[Event<'_>],
        first_file: u32,
        seed: Seed,
    ) -> Result<Declared, Memory>
        ensures { IfOk result (λ d. meanings_in d ≡ meanings_of first_file events.now) }
    {
        let mut declared = Declared::new(alloc, seed);
        for event in events {
            declared.see(event.kind(), first_file)?;
        }
        Ok(declared)
    }

    fn new(alloc: Global, seed: Seed) -> Declared
        ensures { (n : List ℕ) → meanings_in result n ≡ Option.None }
    {
        Declared {
            names: IndexMap::with_hasher(alloc, seed),
        }
    }

    /// Takes in one place more.
    #[tactic(auto, using(crate::proofs::Meanings::see_declared))]
    fn see(&mut self, kind: EventKind<'_>, first_file: u32) -> Result<(), Memory>
        ensures { OnOk result (AddsMeaning first_file (note_of kind.entry) (meanings_in self.old)
            (meanings_in self.new)) }
    {
        if let EventKind::Declares { name, meaning } = kind {
            let meaning = counted_on(first_file, meaning)?;
            let kept = name.again(*self.names.allocator())?;
            match self.names.insert(kept, meaning) {
                Ok(_) => {}
                Err(_) => return Err(Memory),
            }
        }
        Ok(())
    }

    /// What the name stands for.
    pub(crate) fn meaning(&self, name: &KeptName) -> Option<Meaning>
        ensures { result ≡ meanings_in self.now name.now }
    {
        self.names.get(name).copied()
    }
}
