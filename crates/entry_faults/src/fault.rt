// Whether a job of an entry may fault.
ghost use Rattle.std.specs.Prelude.{◌≡◌, ◌↔◌, map, true, IfOk};
ghost use Rattle.flow_table.specs.Rows.{IsFlowTable};
ghost use Rattle.flow_table.specs.Texts.{ArePlaces, AreReachedAmong, seen};
ghost use Rattle.entry_summary.specs.Faults.{MayFault};

use crate::round::goes_round;
use crate::sends::too_many_sends;
use crate::statement::some_faults;
use exchange_model::Exchange;
use flow_table::{FlowTable, KnownFacts, PlaceAt};
use plex_num::Memory;
use std::alloc::Global;

/// Whether a job of the entry may fault. The places are those of the exchange, and among `reached`
/// are all of them that are reached.
#[tactic(auto, using(crate::proofs::Faulting::one_faults))]
pub fn may_fault<K: KnownFacts>(
    alloc: Global,
    exchange: &Exchange,
    table: &FlowTable,
    places: &[PlaceAt<'_>],
    reached: &[PlaceAt<'_>],
    known: &K,
    entry: u32,
) -> Result<bool, Memory>
    requires table { IsFlowTable exchange.now table.now }
    requires places { ArePlaces exchange.now (map seen places.now) }
    requires reached { AreReachedAmong exchange.now (K.knows known.now) entry
        (map seen reached.now) }
    ensures { IfOk result
        (λ fault. (fault ≡ true) ↔ MayFault exchange.now (K.knows known.now) entry) }
{
    if too_many_sends(exchange, reached, known, entry) {
        return Ok(true);
    }
    if some_faults(alloc, exchange, reached, known, entry)? {
        return Ok(true);
    }
    goes_round(alloc, exchange, table, places, known, entry)
}
