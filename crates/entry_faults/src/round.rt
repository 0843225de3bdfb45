// Whether a statement that is reached leads back to itself.
ghost use Rattle.std.specs.Prelude.{◌≡◌, ◌↔◌, map, true, IfOk};
ghost use Rattle.flow_table.specs.Rows.{IsFlowTable};
ghost use Rattle.flow_table.specs.Texts.{ArePlaces, seen};
ghost use Rattle.entry_summary.specs.Faults.{GoesRound};
ghost use Rattle.entry_faults.specs.Reaching.{AreReached};

use crate::search::circles;
use exchange_model::Exchange;
use flow_table::{FlowTable, KnownFacts, PlaceAt};
use plex_num::{Memory, Seq};
use std::alloc::Global;

/// Whether a statement that a job of the entry may reach leads back to itself, over flows from
/// statements that it may reach.
pub fn goes_round<K: KnownFacts>(
    alloc: Global,
    exchange: &Exchange,
    table: &FlowTable,
    places: &[PlaceAt<'_>],
    known: &K,
    entry: u32,
) -> Result<bool, Memory>
    requires table { IsFlowTable exchange.now table.now }
    requires places { ArePlaces exchange.now (map seen places.now) }
    ensures { IfOk result
        (λ round. (round ≡ true) ↔ GoesRound exchange.now (K.knows known.now) entry) }
{
    exchange.kept();
    let reached = reached_of(alloc, places, known, entry)?;
    circles(alloc, table, &reached)
}

/// Of each statement whether it is reached.
fn reached_of<K: KnownFacts>(
    alloc: Global,
    places: &[PlaceAt<'_>],
    known: &K,
    entry: u32,
) -> Result<Seq<bool>, Memory>
    ensures { IfOk result (AreReached (K.knows known.now) entry places.now) }
{
    let mut reached = Seq::new(alloc);
    for at in places {
        reached.push(known.is_reached(entry, at.point))?;
    }
    Ok(reached)
}
