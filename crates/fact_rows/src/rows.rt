// The facts of one entry, in sets of numbers.
ghost use Rattle.std.specs.Prelude.{◌≡◌, ◌↔◌, ◌+◌, ◌<◌, ◌++◌, ◌∷◌, [], map, true, IfOk, OnErr};
ghost use Rattle.std.specs.Prelude.{OnOk, IsTrue};
ghost use Rattle.std.specs.Bool.{MatchBool};
ghost use Rattle.std.specs.List.{Contains};
ghost use Rattle.std.specs.List.Sorted.{IsStrictlySortedBy};
ghost use Rattle.flow_points.specs.declared.fact.Fact.{Fact as FactType};
ghost use Rattle.flow_points.specs.Facts.{Reached, fact};
ghost use Rattle.flow_table.specs.Giving.{AreValues};
ghost use Rattle.fact_rows.specs.Places.{HoldsSlot};
ghost use Rattle.fact_rows.specs.Known.{AddsFact, AreFacts, ArePointsOf, Fits, HasSpot, Joins};
ghost use Rattle.fact_rows.specs.Known.{KnowNothing, Knows, KnowsAt, missing, slots_of};
ghost use Rattle.fact_rows.specs.Values.{is_awaits};
ghost use Rattle.fact_rows.specs.Numbers.{AreNumbers};
ghost use Rattle.fact_rows.specs.Touched.{IsTouched, facts_of, keys_of};

use crate::grid::Grid;
use crate::keys::Key;
use crate::place::Spot;
use crate::point_facts::{PointFacts, push_point, push_slot};
use crate::value::number_in;
use flow_points::{Fact, Slot, Value};
use flow_table::{FlowTable, KnownFacts};
use plex_num::{Memory, Seq};
use std::alloc::Global;
use std::marker::Model;

/// The facts of one entry, as rows of sets: for each point of a table a set of numbers for each
/// slot before it. They are made once for a table, and begun anew for each entry, in the time of
/// what was added. A slot takes four bytes, and beside them each set that the entry has met stands
/// once.
pub struct FactRows {
    entry: u32,
    grid: Grid,
    touched: Vec<u32>,
}

impl Drop for FactRows {
    fn drop(self) {
        let FactRows {
            entry: _,
            grid: _,
            touched: _,
        } = self;
    }
}

impl Model for FactRows {
    ghost use Rattle.fact_rows.specs.Known.{BitRows};

    ghost Value = { BitRows };

    ghost use Rattle.fact_rows.specs.Touched.{IsKept};

    ghost view = { λ r. record { entry = r.entry; marks = r.grid } };

    ghost invariant = { λ r. IsKept r.grid r.touched.items };
}

impl FactRows {
    /// Rows for the points of a table, of the first entry, in which nothing is known.
    pub fn new(alloc: Global, table: &FlowTable) -> Result<FactRows, Memory>
        ensures { IfOk result (KnowNothing 0 (slots_of table.now)) }
    {
        Ok(FactRows {
            entry: 0,
            grid: Grid::new(alloc, table.rows.as_slice())?,
            touched: Vec::new(alloc),
        })
    }

    /// Forgets all facts: from now on those of this entry are kept.
    pub fn begin(&mut self, entry: u32)
        ensures { KnowNothing entry self.old.marks.slots self.new }
    {
        self.grid.clear();
        self.touched.clear();
        self.entry = entry;
    }

    /// Adds a fact of the entry, whose slot must stand before its point, and whose value must have
    /// a number there; true exactly where it was not known. Where memory is refused, the rows stay
    /// as they were.
    pub fn add(&mut self, fact: Fact) -> Result<bool, Memory>
        requires entry { fact.entry ≡ self.old.entry }
        requires place { Fits self.old.marks.slots fact }
        ensures adds { OnOk result (AddsFact fact self.old self.new) }
        ensures added { IfOk result (λ added. IsTrue added ↔ (Knows self.old fact → ⊥)) }
        ensures counted { IfOk result (λ added. MatchBool added
            (missing self.new + 1 ≡ missing self.old)
            (self.new ≡ self.old)) }
        ensures err { OnErr result (self.new ≡ self.old) }
    {
        let Fact { point, slot, .. } = fact;
        let spot = self.grid.spot_of(point, slot).unwrap();
        touch(&self.grid, spot, point, &mut self.touched)?;
        let added = self.grid.set(spot, number_in(slot, fact.value))?;
        Ok(added)
    }

    /// Adds to the values of a slot, which must stand before its point, all those of another one;
    /// AWAITS must be both or neither. True exactly where one of them was not known. Where memory
    /// is refused, the rows stay as they were.
    pub fn join(&mut self, from: Key, to: Key) -> Result<bool, Memory>
        requires to { HasSpot self.old.marks.slots to.point to.slot }
        requires alike { is_awaits from.slot ≡ is_awaits to.slot }
        ensures joins { OnOk result (Joins from to self.old self.new) }
        ensures counted { IfOk result (λ grown. MatchBool grown
            (missing self.new < missing self.old)
            (self.new ≡ self.old)) }
        ensures err { OnErr result (self.new ≡ self.old) }
    {
        let Some(source) = self.grid.spot_of(from.point, from.slot) else {
            return Ok(false);
        };
        let target = self.grid.spot_of(to.point, to.slot).unwrap();
        if !is_last(&self.touched, to.point) && self.grid.is_blank(source) {
            return Ok(false);
        }
        touch(&self.grid, target, to.point, &mut self.touched)?;
        let grown = self.grid.join(source, target)?;
        Ok(grown)
    }

    /// The facts that are known, in their order.
    pub fn facts(&self, alloc: Global) -> Result<Seq<Fact>, Memory>
        ensures { IfOk result (AreFacts (Knows self.now)) }
    {
        let points = self.points(alloc)?;
        listed(alloc, self.entry, &self.grid, &points)
    }

    /// The points before which something is known, in order. There may be others among them, if
    /// something was to be added there and was not.
    pub fn points(&self, alloc: Global) -> Result<Vec<u32>, Memory>
        ensures { IfOk result (λ points. ArePointsOf (Knows self.now) points.items) }
    {
        let points = in_order(alloc, &self.touched)?;
        Ok(points)
    }

    /// Puts the facts that are known before a point, in their order, in the place of those of a
    /// list.
    pub fn list_at(&self, point: u32, list: &mut PointFacts) -> Result<(), Memory>
        ensures { OnOk result (AreFacts (KnowsAt self.now point) list.new.facts.items) }
    {
        list.facts.clear();
        push_point(self.entry, &self.grid, point, &mut list.facts)?;
        Ok(())
    }
}

impl KnownFacts for FactRows {
    ghost knows = { Knows };

    fn values(
        &self,
        alloc: Global,
        entry: u32,
        point: u32,
        slot: Slot,
    ) -> Result<Seq<Value>, Memory> {
        if entry != self.entry {
            return Ok(Seq::new(alloc));
        }
        let mut facts = Vec::new(alloc);
        push_slot(entry, &self.grid, Key { point, slot }, &mut facts)?;
        values_of(alloc, &facts)
    }

    fn is_reached(&self, entry: u32, point: u32) -> bool {
        if entry != self.entry {
            return false;
        }
        !self.grid.is_empty(point, Slot::Depth)
    }
}

/// Notes a point, unless it was noted last, or there are numbers at this spot of a slot before it,
/// so that it was noted for these.
#[tactic(auto, using(crate::proofs::Holding::not_blank, crate::proofs::Holding::noted_last, crate::proofs::Holding::noted_more))]
#[inline(always)]
fn touch(grid: &Grid, spot: Spot, point: u32, touched: &mut Vec<u32>) -> Result<(), Memory>
    requires { HoldsSlot grid.now.slots spot }
    ensures ok { OnOk result (IsTouched grid.now spot touched.old.items point touched.new.items) }
    ensures err { OnErr result (touched.new.items ≡ touched.old.items) }
{
    if is_last(touched, point) {
        return Ok(());
    }
    if !grid.is_blank(spot) {
        return Ok(());
    }
    match touched.push(point) {
        Ok(()) => Ok(()),
        Err(_) => Err(Memory),
    }
}

/// Whether a point is the last of these.
#[tactic(auto, using(crate::proofs::Holding::last_there))]
fn is_last(points: &[u32], point: u32) -> bool
    ensures { IsTrue result → Contains points.now point }
{
    match points.last() {
        Some(last) => *last == point,
        None => false,
    }
}

/// The same points in order, each once.
fn in_order(alloc: Global, points: &[u32]) -> Result<Vec<u32>, Memory>
    ensures { IfOk result (λ sorted. AreNumbers (Contains points.now) sorted.items) }
{
    let mut sorted = match Vec::from_slice(alloc, points) {
        Ok(sorted) => sorted,
        Err(_) => return Err(Memory),
    };
    sorted.sort_unstable();
    sorted.dedup();
    Ok(sorted)
}

/// The facts of the slots before these points, one point after the other.
fn listed(alloc: Global, entry: u32, grid: &Grid, points: &[u32]) -> Result<Seq<Fact>, Memory>
    ensures { IfOk result (λ facts.
        facts ≡ facts_of entry grid.now (keys_of grid.now.slots points.now)) }
{
    let mut facts = Vec::new(alloc);
    for point in points {
        push_point(entry, grid, *point, &mut facts)?;
    }
    Ok(Seq::from_vec(facts))
}

/// The values of facts.
fn values_of(alloc: Global, facts: &[Fact]) -> Result<Seq<Value>, Memory>
    ensures { IfOk result (λ values. values ≡ map (λ (f : FactType). f.value) facts.now) }
{
    let mut values = Seq::new(alloc);
    for fact in facts {
        values.push(fact.value)?;
    }
    Ok(values)
}
