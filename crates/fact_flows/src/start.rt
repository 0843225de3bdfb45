// What the start of a job gives.
ghost use Rattle.std.specs.Prelude.{OnOk};
ghost use Rattle.flow_table.specs.Giving.{HasGiven};
ghost use Rattle.flow_table.specs.Rows.{IsFlowTable};
ghost use Rattle.fact_flows.specs.Given.{GivenAtStart};
ghost use Rattle.fact_flows.specs.Flows.{OneGives, StartsIn};

use crate::slots::slots_at;
use exchange_model::Exchange;
use flow_points::{Fact, Slot};
use flow_table::{FlowTable, KnownFacts, count_of, push_given, start_source};
use plex_num::{Memory, Seq};
use std::alloc::Global;

/// Appends all facts that the start of a job at its entry gives; none where there is no such entry.
#[tactic(auto, using(crate::proofs::Flowing::no_start, crate::proofs::Flowing::started))]
pub fn push_given_at_start<K: KnownFacts>(
    alloc: Global,
    exchange: &Exchange,
    table: &FlowTable,
    known: &K,
    entry: u32,
    facts: &mut Seq<Fact>,
) -> Result<(), Memory>
    requires table { IsFlowTable exchange.now table.now }
    ensures { OnOk result (HasGiven facts.old facts.new
        (GivenAtStart exchange.now (K.knows known.now) entry)) }
{
    match exchange.entries.get(entry as usize) {
        Some(start) => {
            let count = count_of(exchange, start.signal);
            let slots = slots_at(alloc, exchange, table, start.point)?;
            push_starts(
                alloc,
                known,
                entry,
                start.point,
                count,
                slots.as_slice(),
                facts,
            )?;
            Ok(())
        }
        None => Ok(()),
    }
}

/// Appends what the start of a job, whose signal has so many values, gives to these slots before
/// its point.
fn push_starts<K: KnownFacts>(
    alloc: Global,
    known: &K,
    entry: u32,
    point: u32,
    count: u8,
    slots: &[Slot],
    facts: &mut Seq<Fact>,
) -> Result<(), Memory>
    ensures { OnOk result (HasGiven facts.old facts.new
        (OneGives (StartsIn (K.knows known.now) entry point count) slots.now)) }
{
    for slot in slots {
        let slot = *slot;
        let source = start_source(count, slot);
        push_given(alloc, known, entry, point, source, point, slot, facts)?;
    }
    Ok(())
}
