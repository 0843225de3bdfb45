// The least fact that facts give and that is not among them.
ghost use Rattle.std.specs.Prelude.{◌≡◌, ◌<◌, ◌↔◌, All, Contains, IfOk, IsTrue, Some, length};
ghost use Rattle.std.specs.List.{AllByRecursion};
ghost use Rattle.flow_points.specs.declared.fact.Fact.{Fact};
ghost use Rattle.flow_points.specs.Facts.{Gives, Reached};
ghost use Rattle.flow_table.specs.declared.way.Way.{Way};
ghost use Rattle.flow_table.specs.Rows.{IsFlowTable};
ghost use Rattle.flow_table.specs.Small.{IsSmall};
ghost use Rattle.fact_flows.specs.Flows.{FlowsTo, OneGives, WayGives};
ghost use Rattle.fact_flows.specs.Given.{GivenAtStart};
ghost use Rattle.answer_table.specs.Answers.{AreAnswers, answer_way};
ghost use Rattle.certificate_faults.specs.Missing.{IsBefore, IsLowerMissing, IsLowestOf, LeastIn};
ghost use Rattle.certificate_faults.specs.Missing.{Misses, StartsBelow, lower};
ghost use Rattle.certificate_faults.specs.Returned.{AreReturned, IsAnsweredAt, PointSends};
ghost use Rattle.certificate_faults.specs.Returned.{WaySends, given_about};
ghost use Rattle.checked.specs.Belonging.{IsOfExchange};
ghost use Rattle.certificate_faults.specs.Strange.{AreListed};

use crate::reached::reached_by;
use crate::returned::{push_answered, returned_from};
use answer_table::{AnswerTable, answers_of, awaited_in, gives_answer};
use exchange_model::Exchange;
use fact_flows::{push_flow_to, push_given_at_start};
use fact_list::FactList;
use flow_points::{Fact, Passing};
use flow_table::{Ends, FlowTable, KnownFacts, Way};
use plex_num::{Memory, Seq};
use std::alloc::Global;

/// Facts that are known and can be looked up one by one.
pub trait ListedFacts: KnownFacts {
    /// Whether the fact is known.
    fn has(&self, fact: Fact) -> bool
        ensures { IsTrue result ↔ Self.knows self.now fact };
}

impl ListedFacts for FactList {
    fn has(&self, fact: Fact) -> bool {
        FactList::has(self, fact)
    }
}

/// Where answers are awaited, and what RETURNs give, joined: facts that name the answer in the
/// place of a point.
#[derive(Clone, Copy)]
struct Returns<'a> {
    answers: &'a AnswerTable,
    joined: &'a FactList,
}

/// How values go on from a point, in jobs of an entry that reach it.
#[derive(Clone, Copy)]
struct Outflow<'a> {
    entry: u32,
    point: u32,
    how: &'a Passing,
}

/// The least fact that one rule gives from these facts and that is not among them; `None` exactly
/// where they are closed. The facts are those that are known, in an order in which those of one
/// point stand together.
///
/// What one flow gives is listed at a time. A flow to a point behind that of the least fact so far
/// gives nothing lower, and is left out. What another one gives is known where it leads to, or the
/// least falls, which it does few times for each point, since the ends of a way rise. What RETURNs
/// give is joined first, so that each RETRIEVE gets it once. So in all few times as much is listed
/// as is known, however many flows lead from a point and to it.
pub fn least_missing<K: ListedFacts>(
    alloc: Global,
    exchange: &Exchange,
    table: &FlowTable,
    known: &K,
    facts: &[Fact],
) -> Result<Option<Fact>, Memory>
    requires table { IsFlowTable exchange.now table.now }
    requires listed { AreListed exchange.now }
    requires same { (f : Fact) → K.knows known.now f → Contains facts.now f }
    requires fit { All (IsOfExchange exchange.now) facts.now }
    ensures { IfOk result (LeastIn (K.knows known.now) (Gives exchange.now (K.knows known.now))) }
{
    exchange.kept();
    let first = first_at_starts(alloc, exchange, table, known)?;
    let answers = answers_of(alloc, exchange)?;
    let reached = reached_by(alloc, facts)?;
    let points = reached.as_slice();
    let joined = returned_from(alloc, exchange, table, known, points)?;
    let returns = Returns {
        answers: &answers,
        joined: &joined,
    };
    let least = lowest_of_points(alloc, exchange, table, known, &returns, points, first)?;
    Ok(least)
}

/// The least that the starts of jobs give.
#[tactic(auto, using(crate::proofs::Lowered::starts_end))]
fn first_at_starts<K: ListedFacts>(
    alloc: Global,
    exchange: &Exchange,
    table: &FlowTable,
    known: &K,
) -> Result<Option<Fact>, Memory>
    requires { IsFlowTable exchange.now table.now }
    ensures { IfOk result (LeastIn (K.knows known.now)
        (StartsBelow exchange.now (K.knows known.now) (length exchange.now.entries))) }
{
    let mut least = None;
    let count = exchange.entries().len() as u32;
    for entry in 0..count {
        least = lowest_at_start(alloc, exchange, table, known, entry, least)?;
    }
    Ok(least)
}

/// The least of this one and of what the start of a job at an entry gives.
fn lowest_at_start<K: ListedFacts>(
    alloc: Global,
    exchange: &Exchange,
    table: &FlowTable,
    known: &K,
    entry: u32,
    least: Option<Fact>,
) -> Result<Option<Fact>, Memory>
    requires table { IsFlowTable exchange.now table.now }
    requires missing { Misses (K.knows known.now) least }
    ensures { IfOk result (IsLowestOf (K.knows known.now)
        (GivenAtStart exchange.now (K.knows known.now) entry) least) }
{
    let mut given = Seq::new(alloc);
    push_given_at_start(alloc, exchange, table, known, entry, &mut given)?;
    Ok(lowest(known, least, given.as_slice()))
}

/// The least of this one, which is the first, and of what is given from the points of these facts
/// and, by answers, to them.
fn lowest_of_points<K: ListedFacts>(
    alloc: Global,
    exchange: &Exchange,
    table: &FlowTable,
    known: &K,
    returns: &Returns<'_>,
    reached: &[Fact],
    first: Option<Fact>,
) -> Result<Option<Fact>, Memory>
    requires table { IsFlowTable exchange.now table.now }
    requires answers { AreAnswers exchange.now returns.now.answers.now }
    requires joined { AreReturned exchange.now table.now (K.knows known.now)
        returns.now.joined.now }
    requires missing { Misses (K.knows known.now) first }
    ensures { IfOk result (IsLowestOf (K.knows known.now)
        (OneGives (given_about exchange.now table.now (K.knows known.now)) reached.now) first) }
{
    let mut least = first;
    for fact in reached {
        least = lowest_about(alloc, exchange, table, known, returns, *fact, least)?;
    }
    Ok(least)
}

/// The least of this one and of what is given from the point of a fact, and to it by answers.
fn lowest_about<K: ListedFacts>(
    alloc: Global,
    exchange: &Exchange,
    table: &FlowTable,
    known: &K,
    returns: &Returns<'_>,
    fact: Fact,
    least: Option<Fact>,
) -> Result<Option<Fact>, Memory>
    requires table { IsFlowTable exchange.now table.now }
    requires answers { AreAnswers exchange.now returns.now.answers.now }
    requires joined { AreReturned exchange.now table.now (K.knows known.now)
        returns.now.joined.now }
    requires missing { Misses (K.knows known.now) least }
    ensures { IfOk result (IsLowestOf (K.knows known.now)
        (given_about exchange.now table.now (K.knows known.now) fact) least) }
{
    if !known.is_reached(fact.entry, fact.point) {
        return Ok(least);
    }
    let sent = lowest_sent(alloc, exchange, table, known, fact, least)?;
    let lowest = lowest_answered(alloc, exchange, table, known, returns, fact, sent)?;
    Ok(lowest)
}

/// The least of what is sent, which is this one, and of what RETURNs give to the point of a fact,
/// which is reached, if it is one of a RETRIEVE.
fn lowest_answered<K: ListedFacts>(
    alloc: Global,
    exchange: &Exchange,
    table: &FlowTable,
    known: &K,
    returns: &Returns<'_>,
    fact: Fact,
    sent: Option<Fact>,
) -> Result<Option<Fact>, Memory>
    requires answers { AreAnswers exchange.now returns.now.answers.now }
    requires joined { AreReturned exchange.now table.now (K.knows known.now)
        returns.now.joined.now }
    requires reached { Reached (K.knows known.now) fact.entry fact.point }
    requires missing { Misses (K.knows known.now) sent }
    ensures { IfOk result (IsLowestOf (K.knows known.now)
        (IsAnsweredAt exchange.now table.now (K.knows known.now) fact.entry fact.point) sent) }
{
    exchange.kept();
    let _ = &table.rows;
    if is_before(sent, fact.entry, fact.point) {
        return Ok(sent);
    }
    match awaited_in(returns.answers, fact.point) {
        Some(answer) => {
            let mut given = Seq::new(alloc);
            push_answered(
                alloc,
                exchange,
                returns.joined,
                fact.entry,
                answer,
                fact.point,
                &mut given,
            )?;
            Ok(lowest(known, sent, given.as_slice()))
        }
        None => Ok(sent),
    }
}

/// The least of this one and of what other ways than answers give from the point of a fact, which
/// is reached.
fn lowest_sent<K: ListedFacts>(
    alloc: Global,
    exchange: &Exchange,
    table: &FlowTable,
    known: &K,
    fact: Fact,
    least: Option<Fact>,
) -> Result<Option<Fact>, Memory>
    requires table { IsFlowTable exchange.now table.now }
    requires reached { Reached (K.knows known.now) fact.entry fact.point }
    requires missing { Misses (K.knows known.now) least }
    ensures { IfOk result (IsLowestOf (K.knows known.now)
        (PointSends exchange.now table.now (K.knows known.now) fact.entry fact.point) least) }
{
    exchange.kept();
    match table.rows.get(fact.point as usize) {
        Some(row) => {
            let ways = row.ways.as_slice();
            let lower = lowest_of_ways(alloc, exchange, table, known, fact, ways, least)?;
            Ok(lower)
        }
        None => Ok(least),
    }
}

/// The least of this one, which is the first, and of what those of these ways give from a point
/// that is reached that are none of an answer.
fn lowest_of_ways<K: ListedFacts>(
    alloc: Global,
    exchange: &Exchange,
    table: &FlowTable,
    known: &K,
    fact: Fact,
    ways: &[Way],
    first: Option<Fact>,
) -> Result<Option<Fact>, Memory>
    requires table { IsFlowTable exchange.now table.now }
    requires small { AllByRecursion (λ (w : Way). IsSmall w.how) ways.now }
    requires missing { Misses (K.knows known.now) first }
    ensures { IfOk result (IsLowestOf (K.knows known.now)
        (OneGives (WaySends exchange.now (K.knows known.now) fact.entry fact.point) ways.now)
        first) }
{
    let mut least = first;
    for way in ways {
        least = lowest_of_way(alloc, exchange, table, known, fact, way, least)?;
    }
    Ok(least)
}

/// The least of this one and of what a way gives from the point of a fact, which is reached, if it
/// is none of an answer.
fn lowest_of_way<K: ListedFacts>(
    alloc: Global,
    exchange: &Exchange,
    table: &FlowTable,
    known: &K,
    fact: Fact,
    way: &Way,
    least: Option<Fact>,
) -> Result<Option<Fact>, Memory>
    requires table { IsFlowTable exchange.now table.now }
    requires small { IsSmall way.now.how }
    requires missing { Misses (K.knows known.now) least }
    ensures { IfOk result (IsLowestOf (K.knows known.now)
        (WaySends exchange.now (K.knows known.now) fact.entry fact.point way.now) least) }
{
    exchange.kept();
    let flow = Outflow {
        entry: fact.entry,
        point: fact.point,
        how: &way.how,
    };
    match &way.ends {
        Ends::Points(points) => {
            let ends = points.as_slice();
            let lower = lowest_of_flows(alloc, exchange, table, known, &flow, ends, least)?;
            Ok(lower)
        }
        Ends::Retrieves(answer) => {
            if gives_answer(&way.how) {
                return Ok(least);
            }
            let all = lowest_at_retrieves(alloc, exchange, table, known, &flow, *answer, least)?;
            Ok(all)
        }
    }
}

/// The least of this one and of what flows from a point that is reached to the RETRIEVEs of an
/// answer.
fn lowest_at_retrieves<K: ListedFacts>(
    alloc: Global,
    exchange: &Exchange,
    table: &FlowTable,
    known: &K,
    flow: &Outflow<'_>,
    answer: u32,
    least: Option<Fact>,
) -> Result<Option<Fact>, Memory>
    requires table { IsFlowTable exchange.now table.now }
    requires small { IsSmall flow.now.how.now }
    requires missing { Misses (K.knows known.now) least }
    ensures { IfOk result (IsLowestOf (K.knows known.now)
        (WayGives exchange.now (K.knows known.now) flow.now.entry flow.now.point
        (answer_way flow.now.how.now answer)) least) }
{
    exchange.kept();
    match table.retrieves.get(answer as usize) {
        Some(points) => {
            let ends = points.as_slice();
            let lower = lowest_of_flows(alloc, exchange, table, known, flow, ends, least)?;
            Ok(lower)
        }
        None => Ok(least),
    }
}

/// The least of this one, which is the first, and of what flows give from a point that is reached
/// to these points.
fn lowest_of_flows<K: ListedFacts>(
    alloc: Global,
    exchange: &Exchange,
    table: &FlowTable,
    known: &K,
    flow: &Outflow<'_>,
    ends: &[u32],
    first: Option<Fact>,
) -> Result<Option<Fact>, Memory>
    requires table { IsFlowTable exchange.now table.now }
    requires small { IsSmall flow.now.how.now }
    requires missing { Misses (K.knows known.now) first }
    ensures { IfOk result (IsLowestOf (K.knows known.now)
        (OneGives (FlowsTo exchange.now (K.knows known.now) flow.now.entry flow.now.point
        flow.now.how.now) ends.now) first) }
{
    let mut least = first;
    for to in ends {
        least = lowest_of_flow(alloc, exchange, table, known, flow, *to, least)?;
    }
    Ok(least)
}

/// The least of this one and of what flows from a point that is reached to another one, which is
/// listed unless this one comes before all that could be.
fn lowest_of_flow<K: ListedFacts>(
    alloc: Global,
    exchange: &Exchange,
    table: &FlowTable,
    known: &K,
    flow: &Outflow<'_>,
    to: u32,
    least: Option<Fact>,
) -> Result<Option<Fact>, Memory>
    requires table { IsFlowTable exchange.now table.now }
    requires small { IsSmall flow.now.how.now }
    requires missing { Misses (K.knows known.now) least }
    ensures { IfOk result (IsLowestOf (K.knows known.now)
        (FlowsTo exchange.now (K.knows known.now) flow.now.entry flow.now.point
        flow.now.how.now to) least) }
{
    if is_before(least, flow.entry, to) {
        return Ok(least);
    }
    let mut given = Seq::new(alloc);
    push_flow_to(
        alloc, exchange, table, known, flow.entry, flow.point, flow.how, to, &mut given,
    )?;
    Ok(lowest(known, least, given.as_slice()))
}

/// Whether a fact comes before all those of an entry at a point.
fn is_before(least: Option<Fact>, entry: u32, point: u32) -> bool
    ensures { IsTrue result → IsBefore least entry point }
{
    match least {
        Some(least) => comes_before(least, entry, point),
        None => false,
    }
}

fn comes_before(least: Fact, entry: u32, point: u32) -> bool
    ensures { IsTrue result → IsBefore (Some least) entry point }
{
    if least.entry == entry {
        return least.point < point;
    }
    least.entry < entry
}

/// The least of these that is not known: the first, which is not, and those of the list.
fn lowest<K: ListedFacts>(known: &K, first: Option<Fact>, given: &[Fact]) -> Option<Fact>
    requires { Misses (K.knows known.now) first }
    ensures { IsLowestOf (K.knows known.now) (Contains given.now) first result }
{
    let mut least = first;
    for fact in given {
        least = lower_missing(known, least, *fact);
    }
    least
}

/// The lower of this one and of a fact, if that is not known.
fn lower_missing<K: ListedFacts>(known: &K, least: Option<Fact>, fact: Fact) -> Option<Fact>
    ensures { IsLowerMissing (K.knows known.now) least fact result }
{
    if known.has(fact) {
        least
    } else {
        Some(lower(least, fact))
    }
}

/// The lower of two facts.
fn lower(least: Option<Fact>, fact: Fact) -> Fact
    ensures { result ≡ lower least fact }
{
    match least {
        Some(least) => {
            if fact.cmp(&least).is_lt() {
                fact
            } else {
                least
            }
        }
        None => fact,
    }
}
