// A text that grows at its end.
ghost use Rattle.std.specs.Prelude.{◌≡◌, ◌++◌, [], OnOk};
ghost use Rattle.std.specs.List.{concat};

use crate::parts::Parts;
use plex_num::{Memory, Seq};
use std::alloc::Global;
use std::marker::Model;
use std::mem;

/// How many bytes there is room for when a part begins.
const PART_ROOM: usize = 65_536;

/// How many bytes a part has at most that goes on.
const PART_BYTES: usize = 64_512;

/// A text, which contracts see as its bytes. What it has already is not moved as it grows, and has
/// little room to spare.
pub struct Text {
    alloc: Global,
    pub(crate) parts: Parts,
    pub(crate) last: Seq<u8>,
}

impl Drop for Text {
    fn drop(self) {
        let Text {
            alloc: _,
            parts: _,
            last: _,
        } = self;
    }
}

impl Model for Text {
    ghost use Rattle.std.specs.Prelude.{◌++◌, ℕ, List};
    ghost use Rattle.std.specs.List.{concat};

    ghost Value = { List ℕ };

    ghost view = { λ t. concat t.parts ++ t.last };
}

impl Text {
    /// No bytes; it takes no memory.
    pub fn new(alloc: Global) -> Text
        ensures { result ≡ [] }
    {
        Text {
            alloc,
            parts: Parts::new(alloc),
            last: Seq::new(alloc),
        }
    }

    /// These bytes; it takes no memory.
    pub fn whole(alloc: Global, text: Seq<u8>) -> Text
        ensures { result ≡ text }
    {
        Text {
            alloc,
            parts: Parts::new(alloc),
            last: text,
        }
    }

    /// All these parts, one after the other; it takes no memory.
    #[tactic(auto, using(crate::proofs::Joined::joined_none))]
    pub fn in_parts(alloc: Global, parts: Parts) -> Text
        ensures { result ≡ concat parts }
    {
        Text {
            alloc,
            parts,
            last: Seq::new(alloc),
        }
    }

    /// The last bytes, which leave the text, so that they can be made longer and put back. It takes
    /// no memory.
    #[tactic(auto, using(crate::proofs::Joined::end_taken))]
    pub fn take_end(&mut self) -> Seq<u8>
        ensures { self.old ≡ self.new ++ result }
    {
        mem::replace(&mut self.last, Seq::new(self.alloc))
    }

    /// Appends these bytes. After `Memory` the text is of no more use.
    pub fn put(&mut self, end: Seq<u8>) -> Result<(), Memory>
        ensures { OnOk result (self.new ≡ self.old ++ end) }
    {
        let before = mem::replace(&mut self.last, end);
        add_some(&mut self.parts, before)?;
        close(self.alloc, &mut self.parts, &mut self.last)?;
        Ok(())
    }

    /// Appends a copy of these bytes. After `Memory` the text is of no more use.
    pub fn append(&mut self, bytes: &[u8]) -> Result<(), Memory>
        ensures { OnOk result (self.new ≡ self.old ++ bytes.now) }
    {
        self.last.append(bytes)?;
        close(self.alloc, &mut self.parts, &mut self.last)?;
        Ok(())
    }
}

/// Appends a part, unless it is empty.
#[tactic(auto, using(crate::proofs::Joined::none_added, crate::proofs::Joined::joined_more))]
fn add_some(parts: &mut Parts, part: Seq<u8>) -> Result<(), Memory>
    ensures { OnOk result (concat parts.new ≡ concat parts.old ++ part) }
{
    if part.len() == 0 {
        return Ok(());
    }
    parts.add(part)?;
    Ok(())
}

/// Where a part has as many bytes as it may have, the next one begins.
#[tactic(auto, using(crate::proofs::Joined::closed))]
fn close(alloc: Global, parts: &mut Parts, last: &mut Seq<u8>) -> Result<(), Memory>
    ensures { OnOk result (concat parts.new ++ last.new ≡ concat parts.old ++ last.old) }
{
    if last.len() <= PART_BYTES {
        return Ok(());
    }
    let next = Seq::with_capacity(alloc, PART_ROOM)?;
    let part = mem::replace(last, next);
    parts.add(part)?;
    Ok(())
}
