// A row of sets of numbers, of which each set that was met is kept once.
ghost use Rattle.std.specs.Prelude.{◌≡◌, ◌↔◌, ◌*◌, ◌<◌, ◌≤◌, ◌^◌, [], length, replicate};
ghost use Rattle.std.specs.Prelude.{slice_index_or, IfOk, OnErr, OnOk, IsTrue, MatchOption};
ghost use Rattle.std.specs.List.{All};
ghost use Rattle.fact_rows.specs.Grids.{IsJoinedAt, IsSetAt};
ghost use Rattle.fact_rows.specs.Spread.{AreWordsAt, IsAlike, IsSound, KeepsRow, row_of};

use crate::bits::{are_zero, join, set_bit};
use crate::narrow::NumberRow;
use crate::sets::Sets;
use plex_num::Memory;
use std::alloc::Global;

/// A row of sets of numbers. Each takes two bytes, or four where very many sets are met: the number
/// of its set among those that the row has met, each of which is kept once. One set of the row is
/// laid out beside these, so that numbers can be added to it; what it has become is kept when
/// another one is laid out.
#[derive(Drop)]
pub(crate) struct Planes {
    /// The number of each set.
    pub set_numbers: NumberRow,
    /// The sets that were met since the row was cleared.
    pub sets: Sets,
    /// Which set is laid out: the first, counted from 0, or none where there are not so many.
    pub own: usize,
    /// The words of that one.
    pub laid: Vec<u64>,
}

impl Planes {
    /// A row of so many sets with no numbers, for numbers below 64 times a width.
    #[tactic(auto, using(crate::proofs::Spreading::zeros_sound, crate::proofs::Spreading::zeros_blank))]
    pub(crate) fn new(alloc: Global, count: usize, width: u32) -> Result<Planes, Memory>
        requires wide { 0 < width }
        requires fits { 64 * width ≤ 2 ^ 32 }
        ensures sound { IfOk result IsSound }
        ensures width { IfOk result (λ row. row.sets.width ≡ width) }
        ensures long { IfOk result (λ row. length row.set_numbers ≡ count) }
        ensures none { IfOk result (λ row. All (λ ns. ns ≡ []) (row_of row)) }
    {
        let set_numbers = NumberRow::zeros(alloc, count)?;
        let laid = no_words(alloc, width as usize)?;
        Ok(Planes {
            set_numbers,
            sets: Sets::new(alloc, width),
            own: count,
            laid,
        })
    }

    /// The words of a set of the row, counted from 0, unless it has no numbers.
    #[tactic(auto, using(crate::proofs::Spreading::open_words, crate::proofs::Spreading::kept_words, crate::proofs::Spreading::no_words, crate::proofs::Spreading::number_inside))]
    pub(crate) fn words(&self, i: usize) -> Option<&[u64]>
        requires sound { IsSound self.now }
        requires place { i < length self.now.set_numbers }
        ensures { MatchOption result
            ([] ≡ slice_index_or (row_of self.now) i [])
            (λ words. AreWordsAt self.now i words.now) }
    {
        if i == self.own {
            return Some(&self.laid);
        }
        match self.sets.set(self.set_numbers.number(i)) {
            Some(words) => Some(words),
            None => None,
        }
    }

    /// Whether a set of the row, counted from 0, has no number.
    #[tactic(auto, using(crate::proofs::Spreading::words_blank, crate::proofs::Spreading::none_blank))]
    pub(crate) fn is_blank(&self, i: usize) -> bool
        requires sound { IsSound self.now }
        requires place { i < length self.now.set_numbers }
        ensures { IsTrue result ↔ (slice_index_or (row_of self.now) i [] ≡ []) }
    {
        match self.words(i) {
            Some(words) => are_zero(words),
            None => true,
        }
    }

    /// Adds a number to a set of the row; true exactly where it was not there. Where memory is
    /// refused, all sets stay as they were.
    pub(crate) fn set(&mut self, i: usize, number: u32) -> Result<bool, Memory>
        requires sound { IsSound self.old }
        requires place { i < length self.old.set_numbers }
        requires number { number < 64 * self.old.sets.width }
        ensures ok { IfOk result (λ added.
            IsSetAt (row_of self.old) i number added (row_of self.new)) }
        ensures err { OnErr result (row_of self.new ≡ row_of self.old) }
        ensures keeps { KeepsRow self.old self.new }
    {
        self.lay_out(i)?;
        Ok(set_bit(&mut self.laid, number))
    }

    /// Adds to a set of the row all numbers of another one; true exactly where one of them was not
    /// there. Sets with the same number are not looked at, and a set without one gets that of the
    /// other. Where memory is refused, all sets stay as they were.
    pub(crate) fn join(&mut self, from: usize, to: usize) -> Result<bool, Memory>
        requires sound { IsSound self.old }
        requires from { from < length self.old.set_numbers }
        requires to { to < length self.old.set_numbers }
        ensures ok { IfOk result (λ grown.
            IsJoinedAt (row_of self.old) from to grown (row_of self.new)) }
        ensures err { OnErr result (row_of self.new ≡ row_of self.old) }
        ensures keeps { KeepsRow self.old self.new }
    {
        self.put_away()?;
        let more = self.set_numbers.number(from);
        let own = self.set_numbers.number(to);
        if own == more {
            return Ok(false);
        }
        if own < self.sets.first {
            return self.share(from, to);
        }
        self.take_out(to);
        Ok(self.join_laid(from))
    }

    /// Gives a set of the row that is none of those that are kept the number of another one, where
    /// none is laid out; true exactly where that one has numbers. Where memory is refused, all sets
    /// stay as they were.
    #[tactic(auto, using(crate::proofs::Spreading::keeps_itself, crate::proofs::Spreading::keeps_same))]
    fn share(&mut self, from: usize, to: usize) -> Result<bool, Memory>
        requires sound { IsSound self.old }
        requires none { length self.old.set_numbers ≤ self.old.own }
        requires from { from < length self.old.set_numbers }
        requires to { to < length self.old.set_numbers }
        requires blank { slice_index_or self.old.set_numbers to 0 < self.old.sets.first }
        ensures ok { IfOk result (λ grown.
            IsJoinedAt (row_of self.old) from to grown (row_of self.new)) }
        ensures err { OnErr result (row_of self.new ≡ row_of self.old) }
        ensures keeps { KeepsRow self.old self.new }
    {
        if self.is_blank(from) {
            return Ok(false);
        }
        let number = self.set_numbers.number(from);
        self.set_numbers.put(to, number)?;
        Ok(true)
    }

    /// Adds to the set that is laid out all numbers of another one; true exactly where one of them
    /// was not there.
    #[tactic(auto, using(crate::proofs::Spreading::number_inside, crate::proofs::Spreading::keeps_itself))]
    fn join_laid(&mut self, from: usize) -> bool
        requires sound { IsSound self.old }
        requires from { from < length self.old.set_numbers }
        requires own { self.old.own < length self.old.set_numbers }
        requires apart { from ≡ self.old.own → ⊥ }
        ensures joined { IsJoinedAt (row_of self.old) from self.old.own result (row_of self.new) }
        ensures keeps { KeepsRow self.old self.new }
    {
        match self.sets.set(self.set_numbers.number(from)) {
            Some(others) => join(&mut self.laid, others),
            None => false,
        }
    }

    /// Lays out a set of the row.
    #[tactic(auto, using(crate::proofs::Spreading::alike_itself, crate::proofs::Spreading::alike_then))]
    fn lay_out(&mut self, i: usize) -> Result<(), Memory>
        requires sound { IsSound self.old }
        requires place { i < length self.old.set_numbers }
        ensures alike { IsAlike self.old self.new }
        ensures own { OnOk result (self.new.own ≡ i) }
    {
        if self.own == i {
            return Ok(());
        }
        self.put_away()?;
        self.take_out(i);
        Ok(())
    }

    /// Keeps the set that is laid out, if there is one.
    #[tactic(auto, using(crate::proofs::Spreading::alike_itself, crate::proofs::Spreading::away_alike, crate::proofs::Spreading::longer_alike))]
    fn put_away(&mut self) -> Result<(), Memory>
        requires { IsSound self.old }
        ensures alike { IsAlike self.old self.new }
        ensures none { OnOk result (length self.new.set_numbers ≤ self.new.own) }
    {
        let count = self.set_numbers.len();
        let own = self.own;
        if own >= count {
            return Ok(());
        }
        let likely = self.set_numbers.number(own);
        let number = self.sets.number_of(&self.laid, likely)?;
        self.set_numbers.put(own, number)?;
        self.own = count;
        Ok(())
    }

    /// Lays out a set of the row where none is.
    #[tactic(auto, using(crate::proofs::Spreading::some_out, crate::proofs::Spreading::none_out, crate::proofs::Spreading::number_inside))]
    fn take_out(&mut self, i: usize)
        requires sound { IsSound self.old }
        requires none { length self.old.set_numbers ≤ self.old.own }
        requires place { i < length self.old.set_numbers }
        ensures alike { IsAlike self.old self.new }
        ensures own { self.new.own ≡ i }
    {
        self.own = i;
        match self.sets.set(self.set_numbers.number(i)) {
            Some(set) => self.laid.copy_from_slice(set),
            None => clear_words(&mut self.laid),
        }
    }

    /// Leaves all sets without numbers, in the time of the sets that were met, but for once in a
    /// very long while.
    #[tactic(auto, using(crate::proofs::Spreading::anew_keeps, crate::proofs::Spreading::anew_blank, crate::proofs::Spreading::passed_keeps, crate::proofs::Spreading::passed_blank))]
    pub(crate) fn clear(&mut self)
        requires { IsSound self.old }
        ensures keeps { KeepsRow self.old self.new }
        ensures none { All (λ ns. ns ≡ []) (row_of self.new) }
    {
        self.own = self.set_numbers.len();
        if self.sets.pass() {
            return;
        }
        self.set_numbers.clear();
        self.sets.restart();
    }
}

/// So many words with no bit.
fn no_words(alloc: Global, count: usize) -> Result<Vec<u64>, Memory>
    ensures { IfOk result (λ list. list.items ≡ replicate count 0) }
{
    match Vec::from_elem(alloc, 0, count) {
        Ok(list) => Ok(list),
        Err(_) => Err(Memory),
    }
}

/// Leaves these words without bits.
fn clear_words(words: &mut [u64])
    ensures { words.new ≡ replicate (length words.old) 0 }
{
    words.fill(0);
}
