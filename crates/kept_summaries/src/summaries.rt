// Summaries in an order.
ghost use Rattle.std.specs.Prelude.{◌≡◌, ◌<◌, ◌++◌, ◌∷◌, [], length, IfSome, OnOk, Some, slice_get};
ghost use Rattle.kept_summaries.specs.Standing.{IsLike};

use crate::equal::are_equal;
use crate::mark::mark_of;
use entry_summary::Summary;
use plex_num::{Memory, Seq};
use std::alloc::Global;
use std::collections::HashMap;
use std::marker::Model;

/// Where the equal of a summary of the order is kept, and where in the order it stood first.
#[derive(Clone, Copy)]
pub struct Standing {
    pub place: usize,
    pub first: usize,
}

/// Summaries in an order, which contracts see as the list of them. Equal ones are kept once, so
/// many entries that do the same take no more memory than one.
pub struct Summaries {
    kept: Seq<Summary>,
    order: Seq<Standing>,
    /// For each mark where in the order the last summary stands that was kept with it. It may be
    /// wrong: what it leads to is looked at, and a wrong hint costs time and room alone.
    hints: HashMap<u64, usize>,
}

impl Drop for Summaries {
    fn drop(self) {
        let Summaries {
            kept: _,
            order: _,
            hints: _,
        } = self;
    }
}

impl Model for Summaries {
    ghost use Rattle.std.specs.Prelude.{List};
    ghost use Rattle.std.specs.Coded.{codes};
    ghost use Rattle.std.specs.List.Sorted.{IsStrictlySortedBy-prop};
    ghost use Rattle.entry_summary.specs.declared.summary.Summary.{Summary};

    ghost Value = { List Summary };

    ghost coded = { Prim.hlevel (codes, IsStrictlySortedBy-prop) };

    ghost use Rattle.kept_summaries.specs.Standing.{ArePlaced, in_order};

    ghost view = { λ s. in_order s.kept s.order };

    ghost invariant = { λ s. ArePlaced s.kept s.order };
}

impl Summaries {
    /// No summary.
    pub fn new(alloc: Global) -> Summaries
        ensures { result ≡ [] }
    {
        Summaries {
            kept: Seq::new(alloc),
            order: Seq::new(alloc),
            hints: HashMap::new(alloc),
        }
    }

    /// Appends a summary.
    pub fn push(&mut self, summary: Summary) -> Result<(), Memory>
        ensures { OnOk result (self.new ≡ self.old ++ summary ∷ []) }
    {
        let mark = mark_of(&summary);
        let hint = self.hints.get(&mark).copied();
        let like = like_at(&self.kept, &self.order, hint, &summary);
        if let Some(standing) = like {
            self.order.push(standing)?;
            return Ok(());
        }
        let place = self.kept.len();
        let first = self.order.len();
        note(&mut self.hints, mark, first)?;
        self.kept.push(summary)?;
        self.order.push(Standing { place, first })?;
        Ok(())
    }

    /// How many there are.
    pub fn len(&self) -> usize
        ensures { result ≡ length self.now }
    {
        self.order.len()
    }

    /// The one at a place, counted from 0, which must be within the order.
    pub fn at(&self, i: usize) -> &Summary
        requires { i < length self.now }
        ensures { slice_get self.now i ≡ Some result.now }
    {
        let standing = standing_at(&self.order, i);
        kept_at(&self.kept, standing.place)
    }

    /// A place at which the same summary stands: the first one, where summaries with one mark are
    /// equal.
    pub fn first_like(&self, i: usize) -> usize
        requires { i < length self.now }
        ensures within { result < length self.now }
        ensures same { slice_get self.now result ≡ slice_get self.now i }
    {
        let standing = standing_at(&self.order, i);
        standing.first
    }
}

/// Where the equal of a summary stands, if it is what a hint leads to.
fn like_at(
    kept: &Seq<Summary>,
    order: &Seq<Standing>,
    hint: Option<usize>,
    summary: &Summary,
) -> Option<Standing>
    ensures { IfSome result (IsLike kept.now order.now summary.now) }
{
    let standing = order.get(hint?).copied()?;
    let other = kept.get(standing.place)?;
    if are_equal(other, summary) {
        Some(standing)
    } else {
        None
    }
}

fn note(hints: &mut HashMap<u64, usize>, mark: u64, place: usize) -> Result<(), Memory> {
    match hints.insert(mark, place) {
        Ok(_) => Ok(()),
        Err(_) => Err(Memory),
    }
}

fn standing_at(order: &Seq<Standing>, i: usize) -> Standing
    requires { i < length order.now }
    ensures { slice_get order.now i ≡ Some result }
{
    order.as_slice()[i]
}

fn kept_at(kept: &Seq<Summary>, place: usize) -> &Summary
    requires { place < length kept.now }
    ensures { slice_get kept.now place ≡ Some result.now }
{
    &kept.as_slice()[place]
}
