// What RETURNs give, joined for each answer.
ghost use Rattle.std.specs.Prelude.{IfOk, OnOk};
ghost use Rattle.std.specs.List.{AllByRecursion, Contains};
ghost use Rattle.flow_table.specs.declared.way.Way.{Way as WayType};
ghost use Rattle.flow_table.specs.Giving.{HasGiven};
ghost use Rattle.flow_table.specs.Rows.{IsFlowTable};
ghost use Rattle.flow_table.specs.Small.{IsSmall};
ghost use Rattle.fact_flows.specs.Flows.{OneGives};
ghost use Rattle.certificate_faults.specs.Reached.{CoverReached};
ghost use Rattle.certificate_faults.specs.Returned.{AreAnswered, AreReturned, IsHandedOut};
ghost use Rattle.certificate_faults.specs.Returned.{PointReturns, WayReturns, handed, returned_at};

use answer_table::gives_answer;
use exchange_model::Exchange;
use fact_flows::{Numbered, push_numbered};
use fact_list::{FactList, in_order};
use flow_points::{Fact, Slot, Source};
use flow_table::{Ends, FlowTable, KnownFacts, Way, count_of, push_flow, push_given};
use plex_num::{Memory, Seq};
use std::alloc::Global;

/// What RETURNs give, from facts that are known, where one of these at least is of each point that
/// is reached. Each fact of it names the answer, which is a signal by its number, in the place of a
/// point, and stands there once, however many RETURNs give it.
pub(crate) fn returned_from<K: KnownFacts>(
    alloc: Global,
    exchange: &Exchange,
    table: &FlowTable,
    known: &K,
    reached: &[Fact],
) -> Result<FactList, Memory>
    requires table { IsFlowTable exchange.now table.now }
    requires all { CoverReached (K.knows known.now) reached.now }
    ensures { IfOk result (AreReturned exchange.now table.now (K.knows known.now)) }
{
    let mut given = Seq::new(alloc);
    push_returned(alloc, exchange, table, known, reached, &mut given)?;
    let joined = FactList::new(alloc, in_order(given))?;
    Ok(joined)
}

/// Appends what RETURNs at the points of these facts give.
fn push_returned<K: KnownFacts>(
    alloc: Global,
    exchange: &Exchange,
    table: &FlowTable,
    known: &K,
    reached: &[Fact],
    given: &mut Seq<Fact>,
) -> Result<(), Memory>
    requires { IsFlowTable exchange.now table.now }
    ensures { OnOk result (HasGiven given.old given.new
        (OneGives (returned_at exchange.now table.now (K.knows known.now)) reached.now)) }
{
    for fact in reached {
        push_point(alloc, exchange, table, known, *fact, given)?;
    }
    Ok(())
}

/// Appends what a RETURN at the point of a fact gives.
fn push_point<K: KnownFacts>(
    alloc: Global,
    exchange: &Exchange,
    table: &FlowTable,
    known: &K,
    fact: Fact,
    given: &mut Seq<Fact>,
) -> Result<(), Memory>
    requires { IsFlowTable exchange.now table.now }
    ensures { OnOk result (HasGiven given.old given.new
        (PointReturns exchange.now table.now (K.knows known.now) fact.entry fact.point)) }
{
    exchange.kept();
    if !known.is_reached(fact.entry, fact.point) {
        return Ok(());
    }
    match table.rows.get(fact.point as usize) {
        Some(row) => {
            let ways = row.ways.as_slice();
            push_ways(alloc, exchange, known, fact, ways, given)?;
            Ok(())
        }
        None => Ok(()),
    }
}

/// Appends what those of these ways from the point of a fact give that go back to the RETRIEVEs of
/// an answer.
fn push_ways<K: KnownFacts>(
    alloc: Global,
    exchange: &Exchange,
    known: &K,
    fact: Fact,
    ways: &[Way],
    given: &mut Seq<Fact>,
) -> Result<(), Memory>
    requires { AllByRecursion (λ (w : WayType). IsSmall w.how) ways.now }
    ensures { OnOk result (HasGiven given.old given.new
        (OneGives (WayReturns exchange.now (K.knows known.now) fact.entry fact.point) ways.now)) }
{
    for way in ways {
        push_way(alloc, exchange, known, fact, way, given)?;
    }
    Ok(())
}

/// Appends what a way from the point of a fact gives, if it goes back to the RETRIEVEs of an
/// answer.
fn push_way<K: KnownFacts>(
    alloc: Global,
    exchange: &Exchange,
    known: &K,
    fact: Fact,
    way: &Way,
    given: &mut Seq<Fact>,
) -> Result<(), Memory>
    requires { IsSmall way.now.how }
    ensures { OnOk result (HasGiven given.old given.new
        (WayReturns exchange.now (K.knows known.now) fact.entry fact.point way.now)) }
{
    match &way.ends {
        Ends::Points(_points) => Ok(()),
        Ends::Retrieves(answer) => {
            let answer = *answer;
            let how = &way.how;
            if !gives_answer(how) {
                return Ok(());
            }
            let slots = answered_slots(alloc, exchange, answer)?;
            let there = slots.as_slice();
            push_flow(
                alloc, known, fact.entry, fact.point, how, answer, there, given,
            )?;
            Ok(())
        }
    }
}

/// The slots of the values of an answer.
fn answered_slots(alloc: Global, exchange: &Exchange, answer: u32) -> Result<Seq<Slot>, Memory>
    ensures { IfOk result (AreAnswered exchange.now answer) }
{
    let mut slots = Seq::new(alloc);
    let count = count_of(exchange, answer);
    push_numbered(Numbered::Answered, count, &mut slots)?;
    Ok(slots)
}

/// Appends what RETURNs give to a RETRIEVE of the answer, which is reached in jobs of the entry: it
/// is joined.
pub(crate) fn push_answered(
    alloc: Global,
    exchange: &Exchange,
    joined: &FactList,
    entry: u32,
    answer: u32,
    point: u32,
    given: &mut Seq<Fact>,
) -> Result<(), Memory>
    ensures { OnOk result (HasGiven given.old given.new
        (IsHandedOut exchange.now (Contains joined.now) entry answer point)) }
{
    let slots = answered_slots(alloc, exchange, answer)?;
    push_slots(alloc, joined, entry, answer, point, slots.as_slice(), given)?;
    Ok(())
}

/// Appends what is joined for these slots of an answer.
fn push_slots(
    alloc: Global,
    joined: &FactList,
    entry: u32,
    answer: u32,
    point: u32,
    slots: &[Slot],
    given: &mut Seq<Fact>,
) -> Result<(), Memory>
    ensures { OnOk result (HasGiven given.old given.new
        (OneGives (handed (Contains joined.now) entry answer point) slots.now)) }
{
    for slot in slots {
        let slot = *slot;
        push_given(
            alloc,
            joined,
            entry,
            answer,
            Source::Of(slot),
            point,
            slot,
            given,
        )?;
    }
    Ok(())
}
