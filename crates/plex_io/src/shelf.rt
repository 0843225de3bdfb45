// Files by name.
ghost use Rattle.std.specs.Prelude.{◌≡◌, ◌≤◌, ℕ, Option, IfOk, IfSome, Err};
ghost use Rattle.plex_io.specs.Causes.{Rose};
ghost use Rattle.plex_io.specs.Files.{Files, ReadGives, Lacks};

use plex_num::Seq;
use std::alloc::Global;

/// A word of the command, or the name of a file: bytes, which need not be text.
pub type Word = Seq<u8>;

/// Why a shelf gave no file.
#[derive(Debug, Drop)]
pub enum ShelfFault {
    /// The shelf tells its files, and none has the name.
    Absent,
    /// The read failed, and the shelf's count of faults rose.
    Failed,
    /// Memory was refused.
    Memory,
}

/// What holds files.
pub trait Shelf {
    // what is held under each name, where it is told
    ghost held: { Self → Option Files };

    // how often the shelf has failed; it never falls
    ghost faults: { Self → ℕ };

    /// The bytes of the file of this name, or its first `limit + 1` bytes where it is longer. No
    /// call changes what is held.
    fn read_file(&mut self, alloc: Global, name: &Word, limit: u64) -> Result<Seq<u8>, ShelfFault>
        ensures bytes { IfOk result (λ got.
            IfSome (held self.old) (λ files. ReadGives (files name.now) limit got)) }
        ensures absent { result ≡ Err ShelfFault.Absent → Lacks (held self.old) name.now }
        ensures failed { result ≡ Err ShelfFault.Failed → Rose (faults self.old) (faults self.new) }
        ensures kept { held self.new ≡ held self.old }
        ensures later { faults self.old ≤ faults self.new };
}
