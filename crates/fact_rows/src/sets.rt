// The sets of numbers that were met, each kept once.
ghost use Rattle.std.specs.Prelude.{◌≡◌, ◌+◌, ◌-◌, ◌<◌, ◌≤◌, [], length, IfOk, IfSome, IsTrue};
ghost use Rattle.std.specs.Prelude.{MatchOption};
ghost use Rattle.fact_rows.specs.Spread.{HasSet, IsLonger, IsPassed, IsWordsOf};

use crate::bits::{are_same, from, until};
use crate::hints::{Hints, mark_of};
use plex_num::Memory;
use std::alloc::Global;

/// Past so many words, counted over all that was forgotten, the numbers of sets begin anew, so that
/// they stay small.
const MOST_PASSED: usize = 32_768;

/// Sets of numbers, each as bits of `width` words, in one list of words. The number of a set is the
/// place of its first word, counted from `first`; a number below that is of no set.
#[derive(Drop)]
pub(crate) struct Sets {
    pub words: Vec<u64>,
    pub width: u32,
    pub first: u32,
    pub last: u32,
    pub hints: Hints,
}

impl Sets {
    /// No sets, of so many words each.
    pub(crate) fn new(alloc: Global, width: u32) -> Sets
        ensures words { result.words.items ≡ [] }
        ensures width { result.width ≡ width }
        ensures first { result.first ≡ width }
    {
        Sets {
            words: Vec::new(alloc),
            width,
            first: width,
            last: 0,
            hints: Hints::new(alloc),
        }
    }

    /// The words of the set of this number, if it is of one.
    pub(crate) fn set(&self, number: u32) -> Option<&[u64]>
        requires { number + self.now.width ≤ self.now.first + length self.now.words.items }
        ensures { MatchOption result
            (number < self.now.first)
            (λ set. IsWordsOf self.now.words.items self.now.first self.now.width number set.now) }
    {
        if number < self.first {
            return None;
        }
        let start = (number - self.first) as usize;
        Some(until(from(&self.words, start), self.width as usize))
    }

    /// The number of a set, which is kept if it was not met before. It may be that of a set that is
    /// said to be likely. Where memory is refused, all numbers stay those of their sets.
    #[tactic(auto, using(crate::proofs::Spreading::as_long))]
    pub(crate) fn number_of(&mut self, set: &[u64], likely: u32) -> Result<u32, Memory>
        requires { length set.now ≡ self.old.width }
        ensures number { IfOk result (λ number. HasSet self.new number set.now) }
        ensures longer { IsLonger self.old self.new }
    {
        if self.has(likely, set) {
            return Ok(likely);
        }
        let number = self.found_or_kept(set)?;
        self.last = number;
        Ok(number)
    }

    /// The number of a set that was met lately or long ago, or else a new one.
    #[tactic(auto, using(crate::proofs::Spreading::as_long))]
    fn found_or_kept(&mut self, set: &[u64]) -> Result<u32, Memory>
        requires { length set.now ≡ self.old.width }
        ensures number { IfOk result (λ number. HasSet self.new number set.now) }
        ensures longer { IsLonger self.old self.new }
    {
        if self.has(self.last, set) {
            return Ok(self.last);
        }
        let mark = mark_of(set);
        if let Some(number) = self.known(mark, set) {
            return Ok(number);
        }
        let number = self.keep(set)?;
        self.hints.note(mark, number)?;
        Ok(number)
    }

    /// The number of a set with this mark, if it is the last one with it.
    fn known(&self, mark: u64, set: &[u64]) -> Option<u32>
        requires { length set.now ≡ self.now.width }
        ensures { IfSome result (λ number. HasSet self.now number set.now) }
    {
        let number = self.hints.number(mark)?;
        if self.has(number, set) {
            Some(number)
        } else {
            None
        }
    }

    /// Whether a number is that of this set.
    #[tactic(auto, using(crate::proofs::Spreading::set_found))]
    fn has(&self, number: u32, set: &[u64]) -> bool
        requires { length set.now ≡ self.now.width }
        ensures { IsTrue result → HasSet self.now number set.now }
    {
        let end = number as usize + self.width as usize;
        if end > self.first as usize + self.words.len() {
            return false;
        }
        match self.set(number) {
            Some(kept) => are_same(kept, set),
            None => false,
        }
    }

    /// Keeps a set behind the others.
    #[tactic(auto, using(crate::proofs::Spreading::set_kept, crate::proofs::Spreading::set_longer, crate::proofs::Spreading::as_long))]
    fn keep(&mut self, set: &[u64]) -> Result<u32, Memory>
        requires { length set.now ≡ self.old.width }
        ensures number { IfOk result (λ number. HasSet self.new number set.now) }
        ensures longer { IsLonger self.old self.new }
    {
        let number = self.first as usize + self.words.len();
        if number > u32::MAX as usize {
            return Err(Memory);
        }
        match self.words.extend_from_slice(set) {
            Ok(()) => Ok(number as u32),
            Err(_) => Err(Memory),
        }
    }

    /// Forgets all sets, so that the numbers that they had are of none; false where numbers are to
    /// begin anew before that.
    #[tactic(auto, using(crate::proofs::Spreading::passed_on, crate::proofs::Spreading::not_passed))]
    pub(crate) fn pass(&mut self) -> bool
        ensures { IsPassed self.old self.new result }
    {
        let passed = self.first as usize + self.words.len();
        if passed > MOST_PASSED {
            return false;
        }
        self.first = passed as u32;
        self.words.clear();
        self.hints.clear();
        true
    }

    /// Forgets all sets, and begins the numbers anew.
    pub(crate) fn restart(&mut self)
        ensures words { self.new.words.items ≡ [] }
        ensures width { self.new.width ≡ self.old.width }
        ensures first { self.new.first ≡ self.old.width }
    {
        self.first = self.width;
        self.words.clear();
        self.hints.clear();
    }
}
