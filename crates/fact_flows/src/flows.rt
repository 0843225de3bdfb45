// What one flow gives.
ghost use Rattle.std.specs.Prelude.{OnOk};
ghost use Rattle.flow_table.specs.Giving.{HasGiven};
ghost use Rattle.flow_table.specs.Rows.{IsFlowTable};
ghost use Rattle.flow_table.specs.Small.{IsSmall};
ghost use Rattle.fact_flows.specs.Flows.{FlowsTo};

use crate::slots::slots_at;
use exchange_model::Exchange;
use flow_points::{Fact, Passing};
use flow_table::{FlowTable, KnownFacts, is_guarded, push_flow};
use plex_num::{Memory, Seq};
use std::alloc::Global;

/// Appends what flows from a point that is reached to another one, in a job of the entry; nothing
/// where the flow asks for more than that, and this is not so.
#[tactic(auto, using(crate::proofs::Flowing::not_guarded, crate::proofs::Flowing::guarded_flow))]
pub fn push_flow_to<K: KnownFacts>(
    alloc: Global,
    exchange: &Exchange,
    table: &FlowTable,
    known: &K,
    entry: u32,
    point: u32,
    how: &Passing,
    to: u32,
    facts: &mut Seq<Fact>,
) -> Result<(), Memory>
    requires table { IsFlowTable exchange.now table.now }
    requires small { IsSmall how.now }
    ensures { OnOk result (HasGiven facts.old facts.new
        (FlowsTo exchange.now (K.knows known.now) entry point how.now to)) }
{
    if !is_guarded(alloc, known, entry, point, to, how)? {
        return Ok(());
    }
    let slots = slots_at(alloc, exchange, table, to)?;
    push_flow(alloc, known, entry, point, how, to, slots.as_slice(), facts)?;
    Ok(())
}
