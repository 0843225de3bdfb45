// The parts of a text.
ghost use Rattle.std.specs.Prelude.{◌≡◌, ◌++◌, ◌∷◌, ℕ, List, [], Some, length, slice_get, OnOk};
ghost use Rattle.text_parts.specs.Parts.{part_at};

use plex_num::{Memory, Seq};
use std::alloc::Global;
use std::marker::Model;

/// Texts in an order, which contracts see as the list of them. One that stands there again is kept
/// once.
pub struct Parts {
    kept: Seq<Seq<u8>>,
    order: Seq<usize>,
}

impl Drop for Parts {
    fn drop(self) {
        let Parts { kept: _, order: _ } = self;
    }
}

impl Model for Parts {
    ghost use Rattle.std.specs.Prelude.{ℕ, List};
    ghost use Rattle.text_parts.specs.Parts.{ArePlaced, shown};

    ghost Value = { List (List ℕ) };

    ghost view = { λ p. shown p.kept p.order };

    ghost invariant = { λ p. ArePlaced p.kept p.order };
}

impl Parts {
    /// No part; it takes no memory.
    pub fn new(alloc: Global) -> Parts
        ensures { result ≡ [] }
    {
        Parts {
            kept: Seq::new(alloc),
            order: Seq::new(alloc),
        }
    }

    /// Appends a part. After `Memory` the parts are of no more use.
    pub fn add(&mut self, part: Seq<u8>) -> Result<(), Memory>
        ensures { OnOk result (self.new ≡ self.old ++ part ∷ []) }
    {
        let place = self.kept.len();
        self.kept.push(part)?;
        self.order.push(place)?;
        Ok(())
    }

    /// Appends the part at a place, counted from 0, once more; where there is none, nothing. After
    /// `Memory` the parts are of no more use.
    pub fn again(&mut self, i: usize) -> Result<(), Memory>
        ensures { OnOk result ((part : List ℕ) → slice_get self.old i ≡ Some part
            → self.new ≡ self.old ++ part ∷ []) }
    {
        let Some(place) = place_at(&self.order, i) else {
            return Ok(());
        };
        self.order.push(place)?;
        Ok(())
    }

    /// How many there are.
    pub fn len(&self) -> usize
        ensures { result ≡ length self.now }
    {
        self.order.len()
    }

    /// The part at a place, counted from 0: no bytes where there is none.
    pub fn at(&self, i: usize) -> &[u8]
        ensures { result.now ≡ part_at self.now i }
    {
        match place_at(&self.order, i) {
            Some(place) => kept_at(&self.kept, place),
            None => &[],
        }
    }
}

fn place_at(order: &Seq<usize>, i: usize) -> Option<usize>
    ensures { result ≡ slice_get order.now i }
{
    order.as_slice().get(i).copied()
}

/// What is kept at a place: nothing past the end.
fn kept_at(kept: &Seq<Seq<u8>>, place: usize) -> &[u8]
    ensures { result.now ≡ part_at kept.now place }
{
    match kept.as_slice().get(place) {
        Some(part) => part.as_slice(),
        None => &[],
    }
}
