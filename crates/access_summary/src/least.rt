// The least facts of an exchange, and the summaries by them.
ghost use Rattle.std.specs.Prelude.{◌≡◌, ◌↔◌, ◌+◌, ◌≤◌, ℕ, Some, map, IfOk, OnOk};
ghost use Rattle.std.specs.List.{Contains};
ghost use Rattle.std.specs.List.Sorted.{IsStrictlySortedBy};
ghost use Rattle.exchange_model.specs.declared.exchange.Exchange.{Exchange as ExchangeType};
ghost use Rattle.flow_points.specs.declared.fact.Fact.{Fact as FactType};
ghost use Rattle.flow_points.specs.Facts.{IsLeast};
ghost use Rattle.flow_points.specs.Orders.{fact_order};
ghost use Rattle.flow_table.specs.Rows.{IsFlowTable};
ghost use Rattle.flow_table.specs.Texts.{ArePlaces, seen};
ghost use Rattle.least_facts.specs.Least.{HasLearned, IsFor};
ghost use Rattle.least_facts.specs.Giving.{IsOwnLeast};
ghost use Rattle.least_facts.specs.Looks.{HasFacts, IsOver};
ghost use Rattle.entry_accesses.specs.Numbered.{AreNumbers};
ghost use Rattle.entry_summary.specs.Summaries.{IsSummary};
ghost use Rattle.certificate_meaning.specs.Summaries.{AreSummaries};
ghost use Rattle.access_summary.specs.Looks.{ComeWithin, IsExcess, SumsBy, SumsWithin, left_of};
ghost use Rattle.access_summary.specs.Looks.{most_of};

use crate::looks::{Excess, FewOrMany, PART_OF_ENTRY, POINTS_OF_LOOK, Summed};
use crate::summary::{summary_of, summary_within};
use entry_accesses::{CellNumbers, numbers_of};
use entry_summary::Summary;
use exchange_model::Exchange;
use flow_points::Fact;
use flow_table::{FlowTable, PlaceAt, places_of, table_of};
use kept_summaries::Summaries;
use least_facts::{Analyser, Looked, is_over};
use plex_num::{Memory, Seq};
use std::alloc::Global;

/// The summary of each entry, by the least facts.
pub fn summaries_of(alloc: Global, exchange: &Exchange) -> Result<Summaries, Memory>
    ensures { IfOk result (AreSummaries exchange.now) }
{
    let told = summaries_within(alloc, exchange, None)?;
    match told {
        FewOrMany::Few(summaries) => Ok(summaries),
        FewOrMany::Many(_) => unreachable!(),
    }
}

/// The same with so many looks, about, each of which takes a quarter of a microsecond: at facts,
/// and at accesses that are met. Where more are wanted, in all or for one entry, for which there
/// may be a sixteenth of them, it tells how many were made; no more are told than `LOOKS_OF_FACT`
/// of `least_facts` for each least fact that was found, and one for each `POINTS_OF_LOOK` points
/// and each entry. Memory is the only reason for an error.
pub fn summaries_if_few(
    alloc: Global,
    exchange: &Exchange,
    looks: usize,
) -> Result<FewOrMany, Memory>
    ensures { IfOk result (ComeWithin exchange.now (Some looks)) }
{
    summaries_within(alloc, exchange, Some(looks))
}

/// The summary of each entry, if there is no bound, or if so many looks are enough.
fn summaries_within(
    alloc: Global,
    exchange: &Exchange,
    most: Option<usize>,
) -> Result<FewOrMany, Memory>
    ensures { IfOk result (ComeWithin exchange.now most) }
{
    exchange.kept();
    let table = table_of(alloc, exchange)?;
    let places = places_of(alloc, exchange)?;
    let numbers = numbers_of(alloc, exchange)?;
    let mut analyser = Analyser::new(alloc, exchange, &table)?;
    let points = table.rows.len() / POINTS_OF_LOOK;
    let mut summaries = Summaries::new(alloc);
    let mut before: usize = 0;
    for entry in 0..exchange.entries.len() {
        let bound = most_of_entry(most, before);
        let summed = summarise(
            alloc,
            exchange,
            &table,
            places.as_slice(),
            &numbers,
            &mut analyser,
            entry as u32,
            bound,
        )?;
        match summed {
            Summed::Whole { summary, looks } => {
                before = with_more(before, looks, points);
                summaries.push(summary)?;
            }
            Summed::Over { looks } => {
                return Ok(FewOrMany::Many(excess_of(most, before, looks)));
            }
        }
    }
    Ok(FewOrMany::Few(summaries))
}

/// So many looks, those for one entry more, and those that the points take for it.
fn with_more(before: usize, looks: usize, points: usize) -> usize
    ensures { result ≤ before + looks + points }
{
    before.saturating_add(looks).saturating_add(points)
}

/// How many looks there may be for one entry, where so many were made for those before.
fn most_of_entry(most: Option<usize>, before: usize) -> Option<usize>
    ensures { result ≡ most_of most before }
{
    match most {
        Some(most) => Some(most.saturating_sub(before).min(most / PART_OF_ENTRY)),
        None => None,
    }
}

/// How many looks are left of a bound after so many.
fn left(most: Option<usize>, looks: usize) -> Option<usize>
    ensures { result ≡ left_of most looks }
{
    match most {
        Some(most) => Some(most.saturating_sub(looks)),
        None => None,
    }
}

/// Which bound is passed by so many looks for one entry, and so many for those before.
fn excess_of(most: Option<usize>, before: usize, looks: usize) -> Excess
    requires { IsOver (most_of most before) looks }
    ensures { IsExcess most before looks result }
{
    match most {
        Some(most) => {
            if looks > most / PART_OF_ENTRY {
                Excess::ForOne { looks }
            } else {
                Excess::InAll { before, looks }
            }
        }
        None => unreachable!(),
    }
}

/// The summary of an entry by the least facts, which the analyser learns, with so many looks, if
/// there is a bound.
fn summarise(
    alloc: Global,
    exchange: &Exchange,
    table: &FlowTable,
    places: &[PlaceAt<'_>],
    numbers: &CellNumbers,
    analyser: &mut Analyser,
    entry: u32,
    most: Option<usize>,
) -> Result<Summed, Memory>
    requires table { IsFlowTable exchange.now table.now }
    requires places { ArePlaces exchange.now (map seen places.now) }
    requires numbers { AreNumbers exchange.now numbers.now }
    requires own { IsFor exchange.now table.now analyser.old }
    ensures summed { IfOk result (SumsBy (IsOwnLeast exchange.now entry) most
        (IsSummary exchange.now (IsLeast exchange.now) entry)) }
    ensures own { OnOk result (IsFor exchange.now table.now analyser.new) }
{
    let looked = analyser.learn(alloc, exchange, table, entry, most)?;
    let looks = match looked {
        Looked::Whole { looks } => looks,
        Looked::Over { looks } => return Ok(Summed::Over { looks }),
    };
    let rest = left(most, looks);
    let summed = by_learned(
        alloc, exchange, table, places, numbers, &*analyser, entry, rest,
    )?;
    match summed {
        Summed::Whole {
            summary,
            looks: more,
        } => {
            let looks = told_if_bound(alloc, &*analyser, most, looks.saturating_add(more))?;
            Ok(Summed::Whole { summary, looks })
        }
        Summed::Over { looks: more } => {
            let looks = analyser.told(alloc, looks.saturating_add(more))?;
            if is_over(most, looks) {
                return Ok(Summed::Over { looks });
            }
            let summary = all_by_learned(
                alloc, exchange, table, places, numbers, &*analyser, entry,
            )?;
            Ok(Summed::Whole { summary, looks })
        }
    }
}

/// The looks that are told for an entry of which the analyser has learned the least facts; none
/// where there is no bound, since nobody asks then.
fn told_if_bound(
    alloc: Global,
    analyser: &Analyser,
    most: Option<usize>,
    looks: usize,
) -> Result<usize, Memory>
    ensures { IfOk result (λ told. (x : ExchangeType) (e : ℕ) → HasLearned x e analyser.now
        → HasFacts (IsOwnLeast x e) told) }
{
    match most {
        Some(_) => {
            let told = analyser.told(alloc, looks)?;
            Ok(told)
        }
        None => Ok(0),
    }
}

/// The summary of an entry of which the analyser has learned the least facts, with so many looks,
/// if there is a bound.
fn by_learned(
    alloc: Global,
    exchange: &Exchange,
    table: &FlowTable,
    places: &[PlaceAt<'_>],
    numbers: &CellNumbers,
    analyser: &Analyser,
    entry: u32,
    most: Option<usize>,
) -> Result<Summed, Memory>
    requires table { IsFlowTable exchange.now table.now }
    requires places { ArePlaces exchange.now (map seen places.now) }
    requires numbers { AreNumbers exchange.now numbers.now }
    requires learned { HasLearned exchange.now entry analyser.now }
    ensures { IfOk result
        (SumsWithin most (IsSummary exchange.now (IsLeast exchange.now) entry)) }
{
    let known = analyser.known();
    let summed = summary_within(alloc, exchange, table, places, numbers, known, entry, most)?;
    Ok(summed)
}

/// The same summary, however many looks it takes. These are few where the least facts are few,
/// since a statement has at most 64 operands.
fn all_by_learned(
    alloc: Global,
    exchange: &Exchange,
    table: &FlowTable,
    places: &[PlaceAt<'_>],
    numbers: &CellNumbers,
    analyser: &Analyser,
    entry: u32,
) -> Result<Summary, Memory>
    requires table { IsFlowTable exchange.now table.now }
    requires places { ArePlaces exchange.now (map seen places.now) }
    requires numbers { AreNumbers exchange.now numbers.now }
    requires learned { HasLearned exchange.now entry analyser.now }
    ensures { IfOk result (IsSummary exchange.now (IsLeast exchange.now) entry) }
{
    let known = analyser.known();
    let summary = summary_of(alloc, exchange, table, places, numbers, known, entry)?;
    Ok(summary)
}

/// The least facts of all entries, in order.
pub fn least_facts(alloc: Global, exchange: &Exchange) -> Result<Seq<Fact>, Memory>
    ensures exact { IfOk result
        (λ facts. (f : FactType) → Contains facts f ↔ IsLeast exchange.now f) }
    ensures order { IfOk result (IsStrictlySortedBy fact_order) }
{
    exchange.kept();
    let table = table_of(alloc, exchange)?;
    let mut analyser = Analyser::new(alloc, exchange, &table)?;
    let mut facts = Seq::new(alloc);
    for entry in 0..exchange.entries.len() {
        let more = analyser.facts_of(alloc, exchange, &table, entry as u32)?;
        facts.push_all(more.as_slice())?;
    }
    Ok(facts)
}
