// What a block has told so far, and what it tells as a whole.
ghost use Rattle.std.specs.Prelude.{◌≡◌, ◌||◌, ℕ, List, OnOk, IfOk, Option, false};
ghost use Rattle.std.specs.Str.{bytes_eq};
ghost use Rattle.indexmap.specs.IndexMap.{get};
ghost use Rattle.indexmap.specs.IndexSet.{contains};
ghost use Rattle.first_fault.specs.First.{any, or_else};
ghost use Rattle.text_events.specs.Named.{meaning_of_note};
ghost use Rattle.text_events.specs.Seen.{note_of};
ghost use Rattle.text_rules.specs.Blocks.{labels, labels_note, operand_of, chooses_note};
ghost use Rattle.text_rules.specs.Blocks.{has_choice};

use crate::names::NameSet;
use indexmap::{IndexMap, IndexSet};
use plex_num::{Memory, Seed};
use std::alloc::Global;
use text_events::{Event, EventKind, Meaning};
use token_grammar::KeptName;

/// The names that are declared so far.
pub(crate) struct Declared {
    pub(crate) names: IndexMap<KeptName, Meaning, Seed>,
}

impl Drop for Declared {
    fn drop(self) {
        let Declared { names: _ } = self;
    }
}

impl Declared {
    pub(crate) fn new(alloc: Global, seed: Seed) -> Declared
        ensures { (n : List ℕ) → get bytes_eq result.names n ≡ Option.None }
    {
        Declared {
            names: IndexMap::with_hasher(alloc, seed),
        }
    }

    /// What a name stands for.
    pub(crate) fn meaning(&self, name: &KeptName) -> Option<Meaning>
        ensures { result ≡ get bytes_eq self.now.names name.now }
    {
        self.names.get(name).copied()
    }

    #[tactic(auto, using(text_rules::proofs::BlockSteps::see_declared))]
    pub(crate) fn see(&mut self, kind: EventKind<'_>) -> Result<(), Memory>
        ensures { OnOk result ((n : List ℕ) → get bytes_eq self.new.names n
            ≡ or_else (meaning_of_note n (note_of kind.entry)) (get bytes_eq self.old.names n)) }
    {
        if let EventKind::Declares { name, meaning } = kind {
            let kept = name.again(*self.names.allocator())?;
            match self.names.insert(kept, meaning) {
                Ok(_) => {}
                Err(_) => return Err(Memory),
            }
        }
        Ok(())
    }
}

// The statement whose operand stands at a place.
pub(crate) fn operand_of(kind: EventKind<'_>) -> Option<u32>
    ensures { result ≡ operand_of (note_of kind.entry) }
{
    match kind {
        EventKind::Counts { owner } => Some(owner),
        EventKind::Reads { owner, .. } => Some(owner),
        EventKind::Refers { owner, .. } => Some(owner),
        _ => None,
    }
}

/// The numbers after WHEN that each CASE has so far.
pub(crate) struct Chosen {
    pub(crate) numbers: IndexSet<(u32, u32), Seed>,
}

impl Drop for Chosen {
    fn drop(self) {
        let Chosen { numbers: _ } = self;
    }
}

impl Chosen {
    pub(crate) fn new(alloc: Global, seed: Seed) -> Chosen
        ensures { (o n : ℕ) → has_choice result.numbers.keys o n ≡ false }
    {
        Chosen {
            numbers: IndexSet::with_hasher(alloc, seed),
        }
    }

    /// Whether a CASE has this number.
    pub(crate) fn has(&self, owner: u32, number: u32) -> bool
        ensures { result ≡ has_choice self.now.numbers.keys owner number }
    {
        let pair = (owner, number);
        self.numbers.contains(&pair)
    }

    pub(crate) fn see(&mut self, kind: EventKind<'_>) -> Result<(), Memory>
        ensures { OnOk result ((o n : ℕ) → has_choice self.new.numbers.keys o n
            ≡ (has_choice self.old.numbers.keys o n || chooses_note o n (note_of kind.entry))) }
    {
        if let EventKind::Chooses { owner, number } = kind {
            match self.numbers.insert((owner, number)) {
                Ok(_) => {}
                Err(_) => return Err(Memory),
            }
        }
        Ok(())
    }
}

fn see_label(names: &mut NameSet, kind: EventKind<'_>) -> Result<(), Memory>
    ensures { OnOk result ((n : List ℕ) → contains bytes_eq names.new.names n
        ≡ (contains bytes_eq names.old.names n || labels_note n (note_of kind.entry))) }
{
    match kind {
        EventKind::Declares {
            name,
            meaning: Meaning::Label(_),
        } => names.add(name),
        _ => Ok(()),
    }
}

/// The labels of a whole block.
#[tactic(auto, using(text_rules::proofs::BlockSteps::labels_begin, text_rules::proofs::BlockSteps::labels_step, text_rules::proofs::BlockSteps::labels_end))]
pub(crate) fn labels_of(alloc: Global, events: &[Event<'_>], seed: Seed) -> Result<NameSet, Memory>
    ensures { IfOk result (λ l. (n : List ℕ) → contains bytes_eq l.names n
        ≡ any (labels n) events.now) }
{
    let mut labels = NameSet::new(alloc, seed);
    for event in events {
        see_label(&mut labels, event.kind())?;
    }
    Ok(labels)
}
