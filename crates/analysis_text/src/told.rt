// What is told of pairs of summaries, each pair of equal ones once.
ghost use Rattle.std.specs.Prelude.{◌≡◌, ◌<◌, List, length, IfOk, IfSome, IsTrue};
ghost use Rattle.entry_summary.specs.declared.summary.Summary.{Summary};
ghost use Rattle.analysis_text.specs.Telling.{AreTold, IsToldOf, IsToldPair, TellsPair};

use entry_summary::Summary;
use kept_summaries::Summaries;
use pair_tests::{Conflict, Test, Verdict, tests_of, verdict_of};
use plex_num::{Memory, Seq};
use std::alloc::Global;

/// What is told of two summaries: their first conflict, or else all tests that jobs of the two must
/// pass, in order.
#[derive(Drop)]
pub enum Told {
    Never(Conflict),
    Asks(Seq<Test>),
}

/// What is told of the summaries at two places, of which the first comes before the later one in
/// the single run.
#[derive(Drop)]
pub struct ToldPair {
    pub first: usize,
    pub later: usize,
    pub told: Told,
}

/// What was told of pairs of so many summaries, each pair at a place of its own, which is a hint
/// alone: what stands there says of which pair it is.
pub struct ToldPairs {
    count: usize,
    pairs: Vec<Option<ToldPair>>,
}

impl Drop for ToldPairs {
    fn drop(self) {
        let ToldPairs { count: _, pairs: _ } = self;
    }
}

impl ToldPairs {
    /// Nothing was told yet.
    pub fn new(alloc: Global, count: usize) -> Result<ToldPairs, Memory>
        ensures { IfOk result (λ told. (summaries : List Summary)
            → AreTold summaries told.pairs.items) }
    {
        let pairs = nothing_told(alloc, count.saturating_mul(count))?;
        Ok(ToldPairs { count, pairs })
    }

    /// What is told of two summaries. Where it was told of two that are equal to these and kept, it
    /// is handed out, and nothing is looked at again.
    pub fn pair(
        &mut self,
        alloc: Global,
        summaries: &Summaries,
        first: usize,
        later: usize,
    ) -> Result<ToldPair, Memory>
        requires first { first < length summaries.now }
        requires later { later < length summaries.now }
        requires told { AreTold summaries.now self.old.pairs.items }
        ensures kept { AreTold summaries.now self.new.pairs.items }
        ensures pair { IfOk result (IsToldOf summaries.now first later) }
    {
        let one = summaries.first_like(first);
        let other = summaries.first_like(later);
        let place = place_of(self.count, one, other);
        if let Some(pair) = taken(&mut self.pairs, place) {
            if is_of(&pair, one, other) {
                return Ok(pair);
            }
        }
        tell(alloc, summaries, one, other)
    }

    /// Keeps what is told of a pair, to be handed out again.
    pub fn keep(&mut self, pair: ToldPair)
        ensures { (summaries : List Summary) → AreTold summaries self.old.pairs.items
            → IsToldPair summaries pair → AreTold summaries self.new.pairs.items }
    {
        let place = place_of(self.count, pair.first, pair.later);
        if place < self.pairs.len() {
            self.pairs[place] = Some(pair);
        }
    }
}

/// So many places at which nothing is told.
#[tactic(auto, using(crate::proofs::Telling::blank_begin, crate::proofs::Telling::blank_more, crate::proofs::Telling::blank_told))]
fn nothing_told(alloc: Global, places: usize) -> Result<Vec<Option<ToldPair>>, Memory>
    ensures { IfOk result (λ pairs. (summaries : List Summary) → AreTold summaries pairs.items) }
{
    let mut pairs = Seq::with_capacity(alloc, places)?;
    for _place in 0..places {
        pairs.push(None)?;
    }
    Ok(pairs.into_vec())
}

/// Where what is told of a pair is kept, among all pairs of so many summaries.
fn place_of(count: usize, first: usize, later: usize) -> usize {
    first.saturating_mul(count).saturating_add(later)
}

/// What is told at a place, which is handed out.
fn taken(pairs: &mut Vec<Option<ToldPair>>, place: usize) -> Option<ToldPair>
    ensures left { (summaries : List Summary)
        → AreTold summaries pairs.old.items → AreTold summaries pairs.new.items }
    ensures told { (summaries : List Summary)
        → AreTold summaries pairs.old.items → IfSome result (IsToldPair summaries) }
{
    if place < pairs.len() {
        pairs[place].take()
    } else {
        None
    }
}

/// Whether it is told of the summaries at these places.
fn is_of(pair: &ToldPair, first: usize, later: usize) -> bool
    ensures { IsTrue result → (pair.now.first ≡ first) × (pair.now.later ≡ later) }
{
    (pair.first == first) & (pair.later == later)
}

/// What is told of the summaries at two places.
fn tell(
    alloc: Global,
    summaries: &Summaries,
    first: usize,
    later: usize,
) -> Result<ToldPair, Memory>
    requires first { first < length summaries.now }
    requires later { later < length summaries.now }
    ensures told { IfOk result (IsToldPair summaries.now) }
    ensures places { IfOk result (λ pair. (pair.first ≡ first) × (pair.later ≡ later)) }
{
    let told = told_of(alloc, summaries.at(first), summaries.at(later))?;
    Ok(ToldPair { first, later, told })
}

/// What is told of two summaries.
fn told_of(alloc: Global, first: &Summary, later: &Summary) -> Result<Told, Memory>
    ensures { IfOk result (TellsPair first.now later.now) }
{
    match verdict_of(first, later) {
        Verdict::Never(conflict) => Ok(Told::Never(conflict)),
        Verdict::Tests => {
            let tests = tests_of(alloc, first, later)?;
            Ok(Told::Asks(tests))
        }
    }
}
