// The first fact of a list that an exchange has not.
ghost use Rattle.std.specs.Prelude.{◌≡◌, ◌<◌, ◌↔◌, All, IsTrue, MatchOption, length};
ghost use Rattle.source_meaning.specs.Valid.{entry_count};
ghost use Rattle.flow_points.specs.Slots.{HasSlot};
ghost use Rattle.flow_table.specs.Rows.{IsFlowTable, RowHas};
ghost use Rattle.checked.specs.Belonging.{IsOfExchange, IsValueOfEntry};
ghost use Rattle.certificate_faults.specs.Strange.{AreListed};
ghost use Rattle.certificate_meaning.specs.Faults.{IsFirstStrange};

use exchange_model::Exchange;
use flow_points::{Fact, Slot, Value};
use flow_table::{FlowTable, Row, count_of};

/// The first of the facts whose entry, point or slot the exchange lacks, or whose value is a datum
/// that jobs of the entry do not have; `None` exactly where there is none. The look at a fact takes
/// no walk.
#[tactic(auto, using(crate::proofs::Firsts::first_begin))]
pub fn first_strange(exchange: &Exchange, table: &FlowTable, facts: &[Fact]) -> Option<Fact>
    requires table { IsFlowTable exchange.now table.now }
    requires listed { AreListed exchange.now }
    ensures { MatchOption result
        (All (IsOfExchange exchange.now) facts.now)
        (λ f. IsFirstStrange exchange.now facts.now f) }
{
    for fact in facts {
        if !is_of_exchange(exchange, table, *fact) {
            return Some(*fact);
        }
    }
    None
}

/// Whether the exchange has the fact.
fn is_of_exchange(exchange: &Exchange, table: &FlowTable, fact: Fact) -> bool
    requires table { IsFlowTable exchange.now table.now }
    requires listed { AreListed exchange.now }
    ensures { IsTrue result ↔ IsOfExchange exchange.now fact }
{
    has_entry(exchange, fact.entry)
        & has_slot(exchange, table, fact.point, fact.slot)
        & is_value_of(exchange, fact.entry, fact.value)
}

fn has_entry(exchange: &Exchange, entry: u32) -> bool
    ensures { IsTrue result ↔ (entry < length exchange.now.entries) }
{
    (entry as usize) < exchange.entries().len()
}

/// Whether the slot is there before the point.
fn has_slot(exchange: &Exchange, table: &FlowTable, point: u32, slot: Slot) -> bool
    requires table { IsFlowTable exchange.now table.now }
    requires listed { AreListed exchange.now }
    ensures { IsTrue result ↔ HasSlot exchange.now point slot }
{
    let _ = exchange;
    match table.rows.get(point as usize) {
        Some(row) => row_has(row, slot),
        None => false,
    }
}

fn row_has(row: &Row, slot: Slot) -> bool
    ensures { IsTrue result ↔ RowHas row.now slot }
{
    match slot {
        Slot::Temp(temp) => temp < row.temps,
        Slot::Given(place) => place < row.given,
        Slot::Answered(place) => place < row.answered,
        Slot::Depth | Slot::Awaits => true,
    }
}

/// Whether a job of the entry may have the value.
fn is_value_of(exchange: &Exchange, entry: u32, value: Value) -> bool
    ensures { IsTrue result ↔ IsValueOfEntry exchange.now entry value }
{
    match value {
        Value::Arg(place) => place < entry_values(exchange, entry),
        Value::Const(_) | Value::Any => true,
    }
}

/// How many values jobs of an entry start with; 0 where there is no such entry.
#[tactic(auto, using(crate::proofs::Firsts::count_some, crate::proofs::Firsts::count_none))]
fn entry_values(exchange: &Exchange, entry: u32) -> u8
    ensures { result ≡ entry_count exchange.now entry }
{
    match exchange.entries().get(entry as usize) {
        Some(found) => count_of(exchange, found.signal),
        None => 0,
    }
}
