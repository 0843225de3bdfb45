// A set of numbers for each slot before each point.
ghost use Rattle.std.specs.Prelude.{◌≡◌, ◌↔◌, ◌+◌, ◌<◌, [], map, slice_get, IfOk, MatchOption};
ghost use Rattle.std.specs.Prelude.{OnErr, IsTrue, Some};
ghost use Rattle.fact_rows.specs.Places.{HoldsSlot, at_spot, counts_of as counts_of_row};
ghost use Rattle.fact_rows.specs.Places.{numbers_at, spot_of as spot_of_slots};
ghost use Rattle.fact_rows.specs.Values.{room_at};
ghost use Rattle.fact_rows.specs.Numbers.{AreWordsOf};
ghost use Rattle.fact_rows.specs.Grids.{IsBlank, JoinsAt, SetsAt};

use crate::place::{Counts, Spot, spot_in};
use crate::planes::Planes;
use crate::value::{AWAITED_WORDS, PLANE_WORDS};
use flow_points::Slot;
use flow_table::Row;
use plex_num::{Memory, Seq};
use std::alloc::Global;
use std::marker::Model;

/// A set of numbers for each slot before each point of a table.
#[derive(Drop)]
pub(crate) struct Grid {
    slots: Seq<Counts>,
    starts: Vec<usize>,
    planes: Planes,
    awaits: Planes,
}

impl Model for Grid {
    ghost use Rattle.fact_rows.specs.Places.{Marks};
    ghost use Rattle.fact_rows.specs.Grids.{IsGrid};
    ghost use Rattle.fact_rows.specs.Spread.{row_of};

    ghost Value = { Marks };

    ghost view = { λ g. record {
      slots = g.slots;
      planes = row_of g.planes;
      awaits = row_of g.awaits;
    } };

    ghost invariant = { λ g. IsGrid g.slots g.starts.items g.planes g.awaits };
}

impl Grid {
    /// Sets with no numbers for the points of these rows.
    pub(crate) fn new(alloc: Global, rows: &[Row]) -> Result<Grid, Memory>
        ensures { IfOk result (IsBlank (map counts_of_row rows.now)) }
    {
        let mut slots = Seq::with_capacity(alloc, rows.len())?;
        let mut starts = Seq::with_capacity(alloc, rows.len())?;
        let mut size = 0;
        for row in rows {
            let counts = counts_of(row);
            starts.push(size)?;
            size = sum(size, counts.size())?;
            slots.push(counts)?;
        }
        let planes = Planes::new(alloc, size, PLANE_WORDS)?;
        let awaits = Planes::new(alloc, rows.len(), AWAITED_WORDS)?;
        Ok(Grid {
            slots,
            starts: starts.into_vec(),
            planes,
            awaits,
        })
    }

    /// Where the numbers of a slot before a point are, if the slot is there.
    pub(crate) fn spot_of(&self, point: u32, slot: Slot) -> Option<Spot>
        ensures { result ≡ spot_of_slots self.now.slots point slot }
    {
        let point = point as usize;
        let _ = self.planes.set_numbers.len();
        match self.slots.get(point) {
            Some(counts) => spot_in(self.starts[point], point, *counts, slot),
            None => None,
        }
    }

    /// Whether a slot before a point has no number.
    pub(crate) fn is_empty(&self, point: u32, slot: Slot) -> bool
        ensures { IsTrue result ↔ (numbers_at self.now point slot ≡ []) }
    {
        match self.spot_of(point, slot) {
            Some(spot) => self.is_blank(spot),
            None => true,
        }
    }

    /// Whether there is no number at the spot of a slot.
    pub(crate) fn is_blank(&self, spot: Spot) -> bool
        requires { HoldsSlot self.now.slots spot }
        ensures { IsTrue result ↔ (at_spot self.now (Some spot) ≡ []) }
    {
        match spot {
            Spot::Plane(i) => self.planes.is_blank(i),
            Spot::Awaited(i) => self.awaits.is_blank(i),
        }
    }

    /// The words of the numbers of a slot before a point, unless it has none.
    pub(crate) fn words(&self, point: u32, slot: Slot) -> Option<&[u64]>
        ensures { MatchOption result
            ([] ≡ numbers_at self.now point slot)
            (λ words. AreWordsOf (numbers_at self.now point slot) words.now) }
    {
        match self.spot_of(point, slot) {
            Some(Spot::Plane(i)) => self.planes.words(i),
            Some(Spot::Awaited(i)) => self.awaits.words(i),
            None => None,
        }
    }

    /// How many slots stand before a point, if it is there.
    pub(crate) fn counts(&self, point: u32) -> Option<Counts>
        ensures { result ≡ slice_get self.now.slots point }
    {
        match self.slots.get(point as usize) {
            Some(counts) => Some(*counts),
            None => None,
        }
    }

    /// Adds a number to those at the spot of a slot; true exactly where it was not among them.
    /// Where memory is refused, all stays as it was.
    pub(crate) fn set(&mut self, spot: Spot, number: u32) -> Result<bool, Memory>
        requires there { HoldsSlot self.old.slots spot }
        requires number { number < room_at spot }
        ensures ok { IfOk result (λ added.
            SetsAt self.old number added (Some spot) self.new) }
        ensures err { OnErr result (self.new ≡ self.old) }
    {
        match spot {
            Spot::Plane(i) => self.planes.set(i, number),
            Spot::Awaited(i) => self.awaits.set(i, number),
        }
    }

    /// Adds to the numbers at the spot of a slot all those at another one, which must have as much
    /// room; true exactly where one of them was not there. Where memory is refused, all stays as it
    /// was.
    pub(crate) fn join(&mut self, from: Spot, to: Spot) -> Result<bool, Memory>
        requires from { HoldsSlot self.old.slots from }
        requires to { HoldsSlot self.old.slots to }
        requires alike { room_at from ≡ room_at to }
        ensures ok { IfOk result (λ grown.
            JoinsAt self.old grown (Some from) (Some to) self.new) }
        ensures err { OnErr result (self.new ≡ self.old) }
    {
        match from {
            Spot::Plane(i) => match to {
                Spot::Plane(j) => self.planes.join(i, j),
                Spot::Awaited(_) => Ok(false),
            },
            Spot::Awaited(i) => match to {
                Spot::Awaited(j) => self.awaits.join(i, j),
                Spot::Plane(_) => Ok(false),
            },
        }
    }

    /// Leaves all slots without numbers, in the time of the sets that were met.
    pub(crate) fn clear(&mut self)
        ensures { IsBlank self.old.slots self.new }
    {
        self.planes.clear();
        self.awaits.clear();
    }
}

fn counts_of(row: &Row) -> Counts
    ensures { result ≡ counts_of_row row.now }
{
    Counts {
        temps: row.temps,
        given: row.given,
        answered: row.answered,
    }
}

/// The sum of two numbers of planes, which memory could not hold past the largest number.
fn sum(a: usize, b: usize) -> Result<usize, Memory>
    ensures { IfOk result (λ s. s ≡ a + b) }
{
    match a.checked_add(b) {
        Some(sum) => Ok(sum),
        None => Err(Memory),
    }
}
