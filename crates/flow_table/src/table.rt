// The table of an exchange.
ghost use Rattle.std.specs.Prelude.{◌≡◌, map, IfOk, OnOk};
ghost use Rattle.exchange_model.specs.declared.stmt.StmtKind.{out-StmtKind};
ghost use Rattle.exchange_model.specs.Fits.{retrieved};
ghost use Rattle.flow_points.specs.Places.{IsPlace};
ghost use Rattle.flow_points.specs.Slots.{answer_count, temp_count};
ghost use Rattle.flow_table.specs.PointLists.{listed_at};
ghost use Rattle.flow_table.specs.Rows.{AreAllRetrieves, AreRows, AreSlotsOf, IsRowOf, IsFlowTable};
ghost use Rattle.flow_table.specs.Texts.{ArePlaces, seen};

use crate::place::PlaceAt;
use crate::point_lists::{empty_lists, push_listed};
use crate::row::{FlowTable, Row};
use crate::walk::places_of;
use crate::ways::{count_of, given_of, ways_of};
use exchange_model::{Exchange, StmtKind};
use plex_num::{Memory, Seq};
use std::alloc::Global;

/// The table of an exchange, which is made once.
pub fn table_of(alloc: Global, exchange: &Exchange) -> Result<FlowTable, Memory>
    ensures { IfOk result (IsFlowTable exchange.now) }
{
    let places = places_of(alloc, exchange)?;
    let rows = rows_of(alloc, exchange, places.as_slice())?;
    let retrieves = all_retrieves(alloc, exchange, places.as_slice())?;
    Ok(FlowTable { rows, retrieves })
}

/// The points of the RETRIEVEs of each signal, among these places of an exchange.
fn all_retrieves(
    alloc: Global,
    exchange: &Exchange,
    places: &[PlaceAt<'_>],
) -> Result<Seq<Seq<u32>>, Memory>
    requires { ArePlaces exchange.now (map seen places.now) }
    ensures { IfOk result (AreAllRetrieves exchange.now) }
{
    exchange.kept();
    let count = exchange.signals.len();
    let lists = empty_lists(alloc, count)?;
    let mut retrieves = lists.into_vec();
    for at in places {
        push_retrieve(at, &mut retrieves)?;
    }
    Ok(Seq::from_vec(retrieves))
}

/// Appends the point of a statement to the list of the answer that it awaits, if it is a RETRIEVE.
fn push_retrieve(at: &PlaceAt<'_>, retrieves: &mut Vec<Seq<u32>>) -> Result<(), Memory>
    ensures { OnOk result (retrieves.new.items
        ≡ listed_at (retrieved (out-StmtKind at.now.kind.now)) at.now.point retrieves.old.items) }
{
    push_listed(awaited_of(at.kind), at.point, retrieves)
}

/// The rows of all points of an exchange, of which these are the places.
#[tactic(auto, using(crate::proofs::Rowing::rows_begin))]
pub fn rows_of(
    alloc: Global,
    exchange: &Exchange,
    places: &[PlaceAt<'_>],
) -> Result<Seq<Row>, Memory>
    requires { ArePlaces exchange.now (map seen places.now) }
    ensures { IfOk result (λ rows. AreRows exchange.now rows) }
{
    let mut rows = Seq::with_capacity(alloc, places.len())?;
    let mut slots = slots_of(exchange, 0);
    for at in places {
        slots = slots_near(exchange, slots, at.block);
        rows.push(row_of(alloc, exchange, slots, at)?)?;
    }
    Ok(rows)
}

/// How many temporaries and entry values stand before each point of a block.
#[derive(Clone, Copy)]
pub struct BlockSlots {
    pub block: u32,
    pub temps: u8,
    pub given: u8,
}

/// Those of a block.
fn slots_of(exchange: &Exchange, block: u32) -> BlockSlots
    ensures block { result.block ≡ block }
    ensures slots { AreSlotsOf exchange.now result }
{
    BlockSlots {
        block,
        temps: temps_of(exchange, block),
        given: given_of(exchange, block),
    }
}

/// The same, where those of some block are known, which need not be looked for again.
fn slots_near(exchange: &Exchange, known: BlockSlots, block: u32) -> BlockSlots
    requires { AreSlotsOf exchange.now known }
    ensures block { result.block ≡ block }
    ensures slots { AreSlotsOf exchange.now result }
{
    if known.block == block {
        return known;
    }
    slots_of(exchange, block)
}

/// The row of a statement where it stands, before which its block has these slots.
fn row_of(
    alloc: Global,
    exchange: &Exchange,
    slots: BlockSlots,
    at: &PlaceAt<'_>,
) -> Result<Row, Memory>
    requires place { IsPlace exchange.now (seen at.now) }
    requires block { slots.block ≡ at.now.block }
    requires slots { AreSlotsOf exchange.now slots }
    ensures { IfOk result (λ row. IsRowOf exchange.now (seen at.now) row) }
{
    exchange.kept();
    let ways = ways_of(alloc, exchange, at.kind, at.block, at.point, at.next)?;
    Ok(Row {
        temps: slots.temps,
        given: slots.given,
        answered: answered_of(exchange, at.kind),
        ways,
    })
}

/// How many temporaries a block has; 0 where there is none.
#[tactic(auto, using(crate::proofs::Rowing::temps_none, crate::proofs::Rowing::temps_some, crate::proofs::Rowing::temps_few))]
fn temps_of(exchange: &Exchange, block: u32) -> u8
    ensures { result ≡ temp_count exchange.now block }
{
    exchange.kept();
    match exchange.blocks.get(block as usize) {
        Some(found) => found.temporaries.len() as u8,
        None => 0,
    }
}

/// How many values the answer of a RETRIEVE has; 0 of any other statement.
fn answered_of(exchange: &Exchange, kind: &StmtKind) -> u8
    ensures { result ≡ answer_count exchange.now (retrieved (out-StmtKind kind.now)) }
{
    match awaited_of(kind) {
        Some(answer) => count_of(exchange, answer),
        None => 0,
    }
}

/// The answer of a RETRIEVE; `None` exactly for every other statement.
pub fn awaited_of(kind: &StmtKind) -> Option<u32>
    ensures { result ≡ retrieved (out-StmtKind kind.now) }
{
    match kind {
        StmtKind::Retrieve { answer, .. } => Some(*answer),
        _ => None,
    }
}
