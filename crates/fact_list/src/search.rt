// Facts that rise, searched.
ghost use Rattle.std.specs.Prelude.{◌≡◌, ◌+◌, ◌<◌, ◌≤◌, Some, length, map, slice_get, IfOk, IsTrue};
ghost use Rattle.std.specs.Prelude.{slice_range};
ghost use Rattle.std.specs.Ordering.{is_gt, is_lt};
ghost use Rattle.flow_points.specs.Orders.{fact_order};
ghost use Rattle.fact_list.specs.Spans.{AreAbove, AreBelow, IsSpan, Rises, shifted, value_of};

use flow_points::{Fact, Value};
use plex_num::{Memory, Seq};
use std::alloc::Global;

/// Where a fact stands in a list, or would stand: from the first place to before the second one.
/// The two are the same where it is not in the list.
#[derive(Clone, Copy)]
pub struct Span {
    pub from: usize,
    pub to: usize,
}

/// Where a fact stands, in facts that rise. It is looked for first between the two places of the
/// hint.
pub(crate) fn span_of(facts: &[Fact], hint: Span, fact: Fact) -> Span
    requires { Rises facts.now }
    ensures { IsSpan facts.now fact result }
{
    if !are_below(facts, hint.from, fact) {
        return search(facts, fact);
    }
    if !are_above(facts, hint.to, fact) {
        return search(facts, fact);
    }
    search_within(facts, hint, fact)
}

/// The same, where all facts before the two places are less, and all behind them are greater.
fn search_within(facts: &[Fact], hint: Span, fact: Fact) -> Span
    requires rising { Rises facts.now }
    requires below { AreBelow facts.now fact hint.from }
    requires above { AreAbove facts.now fact hint.to }
    ensures { IsSpan facts.now fact result }
{
    let span = search(between(facts, hint.from, hint.to), fact);
    shifted(facts, hint.from, span)
}

/// Whether so many facts are there, from the first one on, and all are less than this one.
#[tactic(auto, using(crate::proofs::Searching::none_below))]
fn are_below(facts: &[Fact], count: usize, fact: Fact) -> bool
    requires { Rises facts.now }
    ensures { IsTrue result → AreBelow facts.now fact count }
{
    if count == 0 {
        return true;
    }
    if count > facts.len() {
        return false;
    }
    is_less(at(facts, count - 1), fact)
}

/// Whether the list goes up to a place, and all facts from there on are greater than this one.
#[tactic(auto, using(crate::proofs::Searching::none_above))]
fn are_above(facts: &[Fact], place: usize, fact: Fact) -> bool
    requires { Rises facts.now }
    ensures { IsTrue result → AreAbove facts.now fact place }
{
    if place == facts.len() {
        return true;
    }
    if place > facts.len() {
        return false;
    }
    is_greater(at(facts, place), fact)
}

fn is_less(one: Fact, other: Fact) -> bool
    ensures { result ≡ is_lt (fact_order one other) }
{
    one.cmp(&other).is_lt()
}

fn is_greater(one: Fact, other: Fact) -> bool
    ensures { result ≡ is_gt (fact_order one other) }
{
    one.cmp(&other).is_gt()
}

fn at(facts: &[Fact], place: usize) -> Fact
    requires { place < length facts.now }
    ensures { slice_get facts.now place ≡ Some result }
{
    facts[place]
}

/// The same span of a list, in one that has so many facts before it.
fn shifted(facts: &[Fact], from: usize, span: Span) -> Span
    requires ordered { span.from ≤ span.to }
    requires within { from + span.to ≤ length facts.now }
    ensures { result ≡ shifted from span }
{
    let _ = facts.len();
    Span {
        from: from + span.from,
        to: from + span.to,
    }
}

/// Where a fact stands, in facts that rise, by halves.
fn search(facts: &[Fact], fact: Fact) -> Span
    requires { Rises facts.now }
    ensures { IsSpan facts.now fact result }
{
    let _ = facts.len();
    match facts.binary_search(&fact) {
        Ok(place) => Span {
            from: place,
            to: place + 1,
        },
        Err(place) => Span {
            from: place,
            to: place,
        },
    }
}

/// The facts from one place to before another one.
pub(crate) fn between(facts: &[Fact], from: usize, to: usize) -> &[Fact]
    requires rising { from ≤ to }
    requires within { to ≤ length facts.now }
    ensures { result.now ≡ slice_range facts.now from to }
{
    &facts[from..to]
}

/// The values of these facts.
pub(crate) fn values_of(alloc: Global, facts: &[Fact]) -> Result<Seq<Value>, Memory>
    ensures { IfOk result (λ values. values ≡ map value_of facts.now) }
{
    let mut values = Seq::new(alloc);
    for fact in facts {
        values.push(fact.value)?;
    }
    Ok(values)
}
