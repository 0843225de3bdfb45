// Files in memory of which none is missing and no read fails.
ghost use Rattle.std.specs.Prelude.{◌≡◌, Some, IfOk, IfErr};
ghost use Rattle.plex_io.specs.Files.{ReadGives};
ghost use Rattle.plex_io.specs.Steady.{always_held};

use crate::memory_shelf::{StoredFile, find, first_of};
use crate::shelf::{Shelf, ShelfFault, Word};
use plex_num::Seq;
use std::alloc::Global;
use std::marker::Model;

/// A shelf of files in memory, which tells them and never fails. Of two files with one name the
/// first counts. Under every other name it holds an empty file.
#[derive(Drop)]
pub struct SteadyShelf {
    files: Seq<StoredFile>,
}

impl Model for SteadyShelf {
    ghost use Rattle.std.specs.Prelude.{List};
    ghost use Rattle.plex_io.specs.declared.memory_shelf.StoredFile.{StoredFile};

    ghost Value = { List StoredFile };

    ghost view = { λ s. s.files };
}

impl SteadyShelf {
    /// A shelf of these files.
    pub fn new(files: Seq<StoredFile>) -> SteadyShelf
        ensures { result ≡ files }
    {
        SteadyShelf { files }
    }
}

impl Shelf for SteadyShelf {
    ghost held = { λ files. Some (always_held files) };

    ghost faults = { λ _. 0 };

    fn read_file(&mut self, alloc: Global, name: &Word, limit: u64) -> Result<Seq<u8>, ShelfFault>
        ensures bytes { IfOk result (λ got. ReadGives (always_held self.old name.now) limit got) }
        ensures memory { IfErr result (λ e. e ≡ ShelfFault.Memory) }
        ensures same { self.new ≡ self.old }
    {
        match find(self.files.as_slice(), name.as_slice()) {
            Some(content) => first_of(alloc, content.as_slice(), limit),
            None => Ok(Seq::new(alloc)),
        }
    }
}
