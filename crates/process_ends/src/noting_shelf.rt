// A shelf that remembers which file could not be read.
ghost use Rattle.std.specs.Prelude.{◌≡◌, ◌≤◌, ◌<◌, length, position, slice_get, None, Some, Err};
ghost use Rattle.std.specs.Prelude.{IfOk, IfSome, MatchOption};
ghost use Rattle.std.specs.Str.{bytes_eq};
ghost use Rattle.plex_io.specs.Causes.{Rose};
ghost use Rattle.plex_io.specs.Files.{ReadGives, Lacks};

use plex_io::{Shelf, ShelfFault, Word};
use plex_num::Seq;
use std::alloc::Global;

/// A shelf that wraps another one and remembers the last file whose read failed, as an index into
/// the command's arguments, so that it allocates nothing.
#[derive(Drop)]
pub struct NotingShelf<'a, S> {
    shelf: S,
    words: &'a [Word],
    unread: Option<usize>,
}

impl<'a, S: Shelf> NotingShelf<'a, S> {
    /// Wraps the given shelf; no read has failed so far.
    pub fn new(shelf: S, words: &'a [Word]) -> NotingShelf<'a, S>
        ensures shelf { result.shelf ≡ shelf }
        ensures words { result.words.now ≡ words.now }
        ensures unread { result.unread ≡ None }
    {
        NotingShelf {
            shelf,
            words,
            unread: None,
        }
    }

    /// The name of the last file whose read failed; `None` if no read failed, or if no argument
    /// equals that name.
    pub fn unread(&self) -> Option<&Word>
        ensures { MatchOption self.now.unread
            (result ≡ None)
            (λ i. MatchOption result
            (length self.now.words.now ≤ i)
            (λ name. slice_get self.now.words.now i ≡ Some name.now)) }
    {
        match self.unread {
            Some(place) => self.words.get(place),
            None => None,
        }
    }

    /// The wrapped shelf.
    pub fn inner(&self) -> &S
        ensures { result.now ≡ self.now.shelf }
    {
        &self.shelf
    }
}

impl<'a, S: Shelf> Shelf for NotingShelf<'a, S> {
    ghost held = { λ noting. S.held noting.shelf };

    ghost faults = { λ noting. S.faults noting.shelf };

    fn read_file(&mut self, alloc: Global, name: &Word, limit: u64) -> Result<Seq<u8>, ShelfFault>
        ensures bytes { IfOk result (λ got.
            IfSome (S.held self.old.shelf) (λ files. ReadGives (files name.now) limit got)) }
        ensures absent { result ≡ Err ShelfFault.Absent → Lacks (S.held self.old.shelf) name.now }
        ensures failed { result ≡ Err ShelfFault.Failed →
            Rose (S.faults self.old.shelf) (S.faults self.new.shelf) }
        ensures kept { S.held self.new.shelf ≡ S.held self.old.shelf }
        ensures later { S.faults self.old.shelf ≤ S.faults self.new.shelf }
        ensures noted { result ≡ Err ShelfFault.Failed →
            self.new.unread ≡ position (λ word. bytes_eq word name.now) self.old.words.now }
        ensures other { ¬ (result ≡ Err ShelfFault.Failed) → self.new.unread ≡ self.old.unread }
        ensures words { self.new.words.now ≡ self.old.words.now }
    {
        let got = self.shelf.read_file(alloc, name, limit);
        if let Err(ShelfFault::Failed) = got {
            self.unread = place_of(self.words, name.as_slice());
        }
        got
    }
}

/// The index of the first word that equals this name.
fn place_of(words: &[Word], name: &[u8]) -> Option<usize>
    ensures { result ≡ position (λ word. bytes_eq word name.now) words.now }
{
    words.iter().position(|word| word.as_slice() == name)
}
