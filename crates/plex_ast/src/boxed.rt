// A box.
ghost use Rattle.std.specs.Prelude.{◌≡◌, IfOk};

use plex_num::Memory;
use std::alloc::Global;
use std::marker::Model;

/// A value with a place of its own in memory, so that a type may hold itself; contracts see the
/// value alone.
pub struct Boxed<T> {
    place: Box<T>,
}

impl<T: Drop> Drop for Boxed<T> {
    fn drop(self) {
        let Boxed { place: _ } = self;
    }
}

impl<T> Model for Boxed<T> {
    ghost Value = { T };

    ghost coded = { T.code };

    ghost view = { λ b. b.place.value };
}

impl<T> Boxed<T> {
    /// The value.
    pub fn get(&self) -> &T
        ensures { result.now ≡ self.now }
    {
        &self.place
    }

    /// The value, taken out.
    pub fn into_inner(self) -> T
        ensures { result ≡ self }
    {
        let Boxed { place } = self;
        Box::into_inner(place)
    }
}

impl<T: Drop> Boxed<T> {
    /// The value in a box, or no memory.
    pub fn new(alloc: Global, value: T) -> Result<Boxed<T>, Memory>
        ensures { IfOk result (λ b. b ≡ value) }
    {
        match Box::new(alloc, value) {
            Ok(place) => Ok(Boxed { place }),
            Err(_) => Err(Memory),
        }
    }
}
