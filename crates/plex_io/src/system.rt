// Real files and the standard output. No contract can say what the system holds or takes, so this
// file is trusted to pass it on: it is a few lines over the runtime, and tests show what it does.
ghost use Rattle.std.specs.Prelude.{◌≡◌, ◌≤◌, ◌+◌, [], None, Some, Ok, Err, length, IfOk, OnErr};
ghost use Rattle.std.specs.Prelude.{IsSome, MatchResult, IsUtf8};
ghost use Rattle.plex_io.specs.Causes.{risen};
ghost use Rattle.plex_io.specs.Written.{TakesSome};

use crate::shelf::{Shelf, ShelfFault, Word};
use crate::sink::{Sink, SinkFailed};
use plex_num::Seq;
use std::alloc::Global;
use std::io::{ErrorKind, Read};
use std::marker::Model;
use std::rt::Files;
use std::{fs, io};

/// The files of the system, by their paths. It does not tell what they hold. A missing file, a
/// folder, a name that is no UTF-8 and a read that fails are `Failed`; contracts see the count of
/// these, and that the kind of the last one is kept.
#[derive(Drop)]
pub struct FileShelf<'a, R> {
    rt: &'a R,
    faults: u64,
    cause: Option<ErrorKind>,
}

impl<'a, R> Model for FileShelf<'a, R> {
    ghost use Rattle.plex_io.specs.Causes.{Failures};

    ghost Value = { Failures };

    ghost view = { λ s. record { faults = s.faults; cause = s.cause } };
}

impl<'a, R: Files> FileShelf<'a, R> {
    /// A shelf over this runtime's files, with no fault so far.
    pub fn new(rt: &'a R) -> FileShelf<'a, R>
        ensures { result ≡ record { faults = 0; cause = None } }
    {
        FileShelf {
            rt,
            faults: 0,
            cause: None,
        }
    }

    /// Of what kind the last read that failed was; `InvalidInput` for a name that is no UTF-8.
    pub fn cause(&self) -> Option<ErrorKind>
        ensures { result ≡ self.now.cause }
    {
        self.cause
    }

    /// Counts a fault of this kind.
    fn failed(&mut self, kind: ErrorKind) -> ShelfFault
        ensures answer { result ≡ ShelfFault.Failed }
        ensures count { self.new.faults ≡ risen self.old.faults }
        ensures told { self.new.cause ≡ Some kind }
        ensures later { self.old.faults ≤ self.new.faults }
    {
        self.faults = self.faults.saturating_add(1);
        self.cause = Some(kind);
        ShelfFault::Failed
    }
}

impl<'a, R: Files> Shelf for FileShelf<'a, R> {
    ghost held = { λ _. None };

    ghost faults = { λ s. s.faults };

    fn read_file(&mut self, alloc: Global, name: &Word, limit: u64) -> Result<Seq<u8>, ShelfFault>
        ensures limit { IfOk result (λ got. length got ≤ limit + 1) }
        ensures absent { ¬ (result ≡ Err ShelfFault.Absent) }
        ensures name { ¬ IsUtf8 name.now → result ≡ Err ShelfFault.Failed }
        ensures failed { result ≡ Err ShelfFault.Failed → self.new.faults ≡ risen self.old.faults }
        ensures told { result ≡ Err ShelfFault.Failed → IsSome self.new.cause }
        ensures same { ¬ (result ≡ Err ShelfFault.Failed) → self.new ≡ self.old }
        ensures later { self.old.faults ≤ self.new.faults }
    {
        let Ok(path) = str::from_utf8(name.as_slice()) else {
            return Err(self.failed(ErrorKind::InvalidInput));
        };
        match first_bytes(self.rt, alloc, path, limit.saturating_add(1)) {
            Ok(bytes) => Ok(Seq::from_vec(bytes)),
            Err(error) if error.kind() == ErrorKind::OutOfMemory => Err(ShelfFault::Memory),
            Err(error) => Err(self.failed(error.kind())),
        }
    }
}

/// The first bytes of a file, at most `most` of them.
fn first_bytes<R: Files>(rt: &R, alloc: Global, path: &str, most: u64) -> io::Result<Vec<u8>>
    ensures { IfOk result (λ bytes. length bytes.items ≤ most) }
{
    let mut bytes = Vec::new(alloc);
    fs::open(rt, path)?.take(most).read_to_end(&mut bytes)?;

    // `take` gives no more than these, but no contract of the library says so.
    bytes.truncate(most as usize);
    Ok(bytes)
}

/// The standard output. It does not tell what was written, nor a size; contracts see its count of
/// faults, and that the kind of the last one is kept.
#[derive(Drop)]
pub struct OutSink<'a, R> {
    rt: &'a R,
    faults: u64,
    cause: Option<ErrorKind>,
}

impl<'a, R> Model for OutSink<'a, R> {
    ghost use Rattle.plex_io.specs.Causes.{Failures};

    ghost Value = { Failures };

    ghost view = { λ s. record { faults = s.faults; cause = s.cause } };
}

impl<'a, R: Print> OutSink<'a, R> {
    /// A sink over this runtime's standard output, with no fault so far.
    pub fn new(rt: &'a R) -> OutSink<'a, R>
        ensures { result ≡ record { faults = 0; cause = None } }
    {
        OutSink {
            rt,
            faults: 0,
            cause: None,
        }
    }

    /// Of what kind the last write that failed was; `WriteZero` for one that took nothing.
    pub fn cause(&self) -> Option<ErrorKind>
        ensures { result ≡ self.now.cause }
    {
        self.cause
    }

    /// Counts a fault of this kind.
    fn failed(&mut self, kind: ErrorKind) -> SinkFailed
        ensures count { self.new.faults ≡ risen self.old.faults }
        ensures told { self.new.cause ≡ Some kind }
        ensures later { self.old.faults ≤ self.new.faults }
    {
        self.faults = self.faults.saturating_add(1);
        self.cause = Some(kind);
        SinkFailed
    }
}

impl<'a, R: Print> Sink for OutSink<'a, R> {
    ghost written = { λ _. None };

    ghost size = { λ _. None };

    ghost faults = { λ s. s.faults };

    fn write(&mut self, piece: &[u8]) -> Result<usize, SinkFailed>
        ensures count { IfOk result (λ n. TakesSome (length piece.now) n) }
        ensures empty { piece.now ≡ [] → result ≡ Ok 0 }
        ensures after { MatchResult result
            (λ _. self.new ≡ self.old)
            (λ _. self.new.faults ≡ risen self.old.faults) }
        ensures told { OnErr result (IsSome self.new.cause) }
        ensures later { self.old.faults ≤ self.new.faults }
    {
        if piece.is_empty() {
            return Ok(0);
        }
        match self.rt.write_some(piece) {
            Ok(0) => Err(self.failed(ErrorKind::WriteZero)),
            Ok(count) => Ok(count),
            Err(refused) => Err(self.failed(refused.kind())),
        }
    }
}
