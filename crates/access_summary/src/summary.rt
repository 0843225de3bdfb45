// The summary of an entry.
ghost use Rattle.std.specs.Prelude.{map, IfOk};
ghost use Rattle.flow_table.specs.Rows.{IsFlowTable};
ghost use Rattle.flow_table.specs.Texts.{ArePlaces, seen};
ghost use Rattle.exchange_model.specs.Names.{level_of};
ghost use Rattle.entry_accesses.specs.Numbered.{AreNumbers};
ghost use Rattle.entry_summary.specs.Summaries.{IsSummary};
ghost use Rattle.access_summary.specs.Looks.{SumsWithin};

use crate::looks::Summed;
use entry_accesses::{CellNumbers, Listed, accesses_within, levels_of};
use entry_faults::may_fault;
use entry_summary::Summary;
use exchange_model::Exchange;
use flow_table::{FlowTable, KnownFacts, PlaceAt, reached_places};
use plex_num::Memory;
use std::alloc::Global;

/// The summary of an entry, by facts that are known. `table`, `places` and `numbers` are those of
/// the exchange, which are made once.
pub fn summary_of<K: KnownFacts>(
    alloc: Global,
    exchange: &Exchange,
    table: &FlowTable,
    places: &[PlaceAt<'_>],
    numbers: &CellNumbers,
    known: &K,
    entry: u32,
) -> Result<Summary, Memory>
    requires table { IsFlowTable exchange.now table.now }
    requires places { ArePlaces exchange.now (map seen places.now) }
    requires numbers { AreNumbers exchange.now numbers.now }
    ensures { IfOk result (IsSummary exchange.now (K.knows known.now) entry) }
{
    let summed = summary_within(alloc, exchange, table, places, numbers, known, entry, None)?;
    match summed {
        Summed::Whole { summary, .. } => Ok(summary),
        Summed::Over { .. } => unreachable!(),
    }
}

/// The same with so many looks, if there is a bound: each access that is met is one.
pub(crate) fn summary_within<K: KnownFacts>(
    alloc: Global,
    exchange: &Exchange,
    table: &FlowTable,
    places: &[PlaceAt<'_>],
    numbers: &CellNumbers,
    known: &K,
    entry: u32,
    most: Option<usize>,
) -> Result<Summed, Memory>
    requires table { IsFlowTable exchange.now table.now }
    requires places { ArePlaces exchange.now (map seen places.now) }
    requires numbers { AreNumbers exchange.now numbers.now }
    ensures { IfOk result
        (SumsWithin most (IsSummary exchange.now (K.knows known.now) entry)) }
{
    let there = reached_places(alloc, places, known, entry)?;
    let reached = there.as_slice();
    let listed = accesses_within(alloc, exchange, numbers, reached, known, entry, most)?;
    let (accesses, looks) = match listed {
        Listed::Whole { accesses, met } => (accesses, met),
        Listed::Over { met } => return Ok(Summed::Over { looks: met }),
    };
    let levels = levels_of(alloc, exchange, reached, known, entry)?;
    let fault = may_fault(alloc, exchange, table, places, reached, known, entry)?;
    let summary = Summary {
        level: exchange.level_of(entry),
        accesses,
        levels,
        fault,
    };
    Ok(Summed::Whole { summary, looks })
}
