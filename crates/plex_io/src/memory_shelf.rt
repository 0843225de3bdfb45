// Files in memory.
ghost use Rattle.std.specs.Prelude.{◌≡◌, ◌≤◌, ◌↔◌, Some, None, Err, IsTrue, MatchOption, IfOk};
ghost use Rattle.std.specs.Prelude.{IfErr, Contains};
ghost use Rattle.plex_io.specs.Files.{ReadGives};
ghost use Rattle.plex_io.specs.Stored.{held_in, IsShelfCallListed, after_read};

use crate::shelf::{Shelf, ShelfFault, Word};
use plex_num::Seq;
use std::alloc::Global;
use std::marker::Model;

/// A file of a shelf in memory.
#[derive(Drop)]
pub struct StoredFile {
    /// The name under which it is held.
    pub name: Word,
    /// Its bytes.
    pub content: Seq<u8>,
}

/// A shelf of files in memory, which tells them. Of two files with one name the first counts.
/// The calls whose numbers are listed fail, and no others. Calls have numbers from 1.
#[derive(Drop)]
pub struct MemoryShelf {
    files: Seq<StoredFile>,
    fails: Seq<u64>,
    calls: u64,
    faults: u64,
}

impl Model for MemoryShelf {
    ghost use Rattle.plex_io.specs.Stored.{ShelfState};

    ghost Value = { ShelfState };

    ghost view = { λ s. record {
      files = s.files;
      fails = s.fails;
      calls = s.calls;
      faults = s.faults;
    } };
}

impl MemoryShelf {
    /// A shelf of these files; the calls with these numbers are to fail.
    pub fn new(files: Seq<StoredFile>, fails: Seq<u64>) -> MemoryShelf
        ensures { result ≡ record { files = files; fails = fails; calls = 0; faults = 0 } }
    {
        MemoryShelf {
            files,
            fails,
            calls: 0,
            faults: 0,
        }
    }
}

impl Shelf for MemoryShelf {
    ghost held = { λ s. Some (held_in s.files) };

    ghost faults = { λ s. s.faults };

    fn read_file(&mut self, alloc: Global, name: &Word, limit: u64) -> Result<Seq<u8>, ShelfFault>
        ensures bytes { IfOk result
            (λ got. ReadGives (held_in self.old.files name.now) limit got) }
        ensures absent { (result ≡ Err ShelfFault.Absent)
            ↔ (¬ IsShelfCallListed self.old × (held_in self.old.files name.now ≡ None)) }
        ensures failed { (result ≡ Err ShelfFault.Failed) ↔ IsShelfCallListed self.old }
        ensures after { self.new ≡ after_read self.old result }
        ensures later { self.old.faults ≤ self.new.faults }
    {
        self.calls = self.calls.saturating_add(1);
        if contains(self.fails.as_slice(), self.calls) {
            self.faults = self.faults.saturating_add(1);
            return Err(ShelfFault::Failed);
        }
        match find(self.files.as_slice(), name.as_slice()) {
            Some(content) => first_of(alloc, content.as_slice(), limit),
            None => Err(ShelfFault::Absent),
        }
    }
}

fn contains(numbers: &[u64], number: u64) -> bool
    ensures { IsTrue result ↔ Contains numbers.now number }
{
    numbers.contains(&number)
}

/// The content of the first file of this name.
#[tactic(auto, using(crate::proofs::Finds::find_other, crate::proofs::Finds::find_this, crate::proofs::Finds::find_end))]
pub(crate) fn find<'a>(files: &'a [StoredFile], name: &[u8]) -> Option<&'a Seq<u8>>
    ensures { MatchOption result
        (held_in files.now name.now ≡ None)
        (λ x. held_in files.now name.now ≡ Some x.now) }
{
    for file in files {
        if file.name.as_slice() == name {
            return Some(&file.content);
        }
    }
    None
}

/// The content, or its first `limit + 1` bytes.
pub(crate) fn first_of(alloc: Global, content: &[u8], limit: u64) -> Result<Seq<u8>, ShelfFault>
    ensures bytes { IfOk result (λ got. ReadGives (Some content.now) limit got) }
    ensures memory { IfErr result (λ e. e ≡ ShelfFault.Memory) }
{
    let part = if (content.len() as u64) <= limit {
        content
    } else {
        &content[..limit as usize + 1]
    };
    match Seq::copied(alloc, part) {
        Ok(bytes) => Ok(bytes),
        Err(_) => Err(ShelfFault::Memory),
    }
}
