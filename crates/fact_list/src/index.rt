// Where the facts of a point stand in a list in order.
use crate::search::Span;
use flow_points::Fact;
use plex_num::{Memory, Seq};
use std::alloc::Global;

/// Facts whose mark would have this number or a higher one are not in an index.
const MOST_MARKS: usize = 1_048_576;

/// Which of 64 points of an entry have facts, a bit for each, and how many pairs of an entry and a
/// point with facts come before these.
#[derive(Clone, Copy)]
struct Mark {
    points: u64,
    before: usize,
}

/// For each entry and point where their facts stand, or would stand. It is a hint: what it tells is
/// compared with the facts, and a wrong one costs time alone.
pub(crate) struct Index {
    marks: Seq<Mark>,
    open: Mark,
    width: usize,
    begins: Seq<usize>,
}

impl Drop for Index {
    fn drop(self) {
        let Index {
            marks: _,
            open: _,
            width: _,
            begins: _,
        } = self;
    }
}

impl Index {
    /// The index of facts in order.
    pub(crate) fn new(alloc: Global, facts: &[Fact]) -> Result<Index, Memory> {
        let mut index = Index {
            marks: Seq::new(alloc),
            open: none_yet(0),
            width: highest_point(facts) as usize / 64 + 1,
            begins: Seq::new(alloc),
        };
        for place in 0..facts.len() {
            index.note(facts[place], place)?;
        }
        index.marks.push(index.open)?;
        index.begins.push(facts.len())?;
        Ok(index)
    }

    /// Where the facts of an entry at a point stand, or would stand.
    pub(crate) fn span(&self, entry: u32, point: u32) -> Span {
        match self.marks.get(self.number(entry, point)) {
            Some(mark) => self.span_by(*mark, bit_of(point)),
            None => Span { from: 0, to: 0 },
        }
    }

    fn span_by(&self, mark: Mark, bit: u64) -> Span {
        let lower = mark.points & bit.wrapping_sub(1);
        let first = mark.before.saturating_add(lower.count_ones() as usize);
        let next = if mark.points & bit == 0 {
            first
        } else {
            first.saturating_add(1)
        };
        Span {
            from: self.begin(first),
            to: self.begin(next),
        }
    }

    /// Where the facts of so manieth a pair begin.
    fn begin(&self, pair: usize) -> usize {
        match self.begins.get(pair) {
            Some(place) => *place,
            None => 0,
        }
    }

    /// The number of the mark of an entry and a point.
    fn number(&self, entry: u32, point: u32) -> usize {
        let before = (entry as usize).saturating_mul(self.width);
        before.saturating_add(point as usize / 64)
    }

    /// Notes the next fact of the list, which stands at a place.
    fn note(&mut self, fact: Fact, place: usize) -> Result<(), Memory> {
        let number = self.number(fact.entry, fact.point);
        if number >= MOST_MARKS {
            return Ok(());
        }
        self.open_mark(number)?;
        let bit = bit_of(fact.point);
        if self.open.points & bit == 0 {
            self.open.points = self.open.points | bit;
            self.begins.push(place)?;
        }
        Ok(())
    }

    /// Goes on to the mark of a number, with no point for those between.
    fn open_mark(&mut self, number: usize) -> Result<(), Memory> {
        for _ in self.marks.len()..number {
            self.marks.push(self.open)?;
            self.open = none_yet(self.begins.len());
        }
        Ok(())
    }
}

/// A mark of no point, behind so many pairs.
fn none_yet(before: usize) -> Mark {
    Mark { points: 0, before }
}

fn bit_of(point: u32) -> u64 {
    1u64 << (point % 64)
}

fn highest_point(facts: &[Fact]) -> u32 {
    let mut highest: u32 = 0;
    for fact in facts {
        if fact.point > highest {
            highest = fact.point;
        }
    }
    highest
}
