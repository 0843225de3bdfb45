// How many operands each statement has.
ghost use Rattle.std.specs.Prelude.{◌≡◌, ◌+◌, ◌<◌, ℕ, OnOk, length, if◌then◌else◌, nat_eq};
ghost use Rattle.text_events.specs.Seen.{note_of};
ghost use Rattle.text_rules.specs.Blocks.{count_in, is_owner, operand_of};

use crate::block_tables::operand_of;
use plex_num::Memory;
use std::alloc::Global;
use text_events::EventKind;

/// How many operands each statement has so far, by the number that names it: a byte for each
/// number, since the 65th operand of a statement breaks a rule and is not counted.
pub(crate) struct Operands {
    pub(crate) of: Vec<u8>,
}

impl Drop for Operands {
    fn drop(self) {
        let Operands { of: _ } = self;
    }
}

impl Operands {
    pub(crate) fn new(alloc: Global) -> Operands
        ensures { (o : ℕ) → count_in result.of.items o ≡ 0 }
    {
        Operands {
            of: Vec::new(alloc),
        }
    }

    /// Those of a statement.
    #[tactic(auto, using(crate::proofs::CountSteps::counted_there, crate::proofs::CountSteps::counted_nowhere))]
    pub(crate) fn count(&self, owner: u32) -> u64
        ensures { result ≡ count_in self.now.of.items owner }
    {
        match self.of.get(owner as usize) {
            Some(count) => u64::from(*count),
            None => 0,
        }
    }

    /// Makes room for the count of a statement; nothing is counted.
    #[tactic(auto, using(crate::proofs::CountSteps::grown_begin, crate::proofs::CountSteps::grown_more, crate::proofs::CountSteps::grown_end))]
    fn reach(&mut self, owner: usize) -> Result<(), Memory>
        ensures within { OnOk result (owner < length self.new.of.items) }
        ensures same { OnOk result
            ((o : ℕ) → count_in self.new.of.items o ≡ count_in self.old.of.items o) }
    {
        'room: while self.of.len() <= owner {
            if self.of.push(0).is_err() {
                return Err(Memory);
            }
        }
        Ok(())
    }

    /// One operand more.
    #[tactic(auto, using(crate::proofs::CountSteps::counted_more))]
    fn add(&mut self, owner: u32) -> Result<(), Memory>
        ensures { OnOk result
            ((o : ℕ) → count_in self.new.of.items o
            ≡ count_in self.old.of.items o + (if nat_eq o owner then 1 else 0)) }
    {
        let at = owner as usize;
        self.reach(at)?;
        let Some(more) = self.of[at].checked_add(1) else {
            return Err(Memory);
        };
        self.of[at] = more;
        Ok(())
    }

    pub(crate) fn see(&mut self, kind: EventKind<'_>) -> Result<(), Memory>
        ensures { OnOk result
            ((o : ℕ) → count_in self.new.of.items o
            ≡ count_in self.old.of.items o
            + (if is_owner o (operand_of (note_of kind.entry)) then 1 else 0)) }
    {
        if let Some(owner) = operand_of(kind) {
            self.add(owner)?;
        }
        Ok(())
    }
}
