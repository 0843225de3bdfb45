// The slots before a point.
ghost use Rattle.std.specs.Prelude.{◌≡◌, ◌++◌, map, IfOk, OnOk};
ghost use Rattle.std.specs.List.{range_with_len};
ghost use Rattle.flow_table.specs.Rows.{IsFlowTable};
ghost use Rattle.fact_flows.specs.Slots.{AreSlots, numbered_slot, row_slots};

use exchange_model::Exchange;
use flow_points::Slot;
use flow_table::{FlowTable, Row};
use plex_num::{Memory, Seq};
use std::alloc::Global;

/// What stands before a point more than once, and is numbered from 0.
#[derive(Clone, Copy, PartialEq, Eq)]
pub enum Numbered {
    Temp,
    Given,
    Answered,
}

/// The slots before a point, each once; none where no statement stands.
#[tactic(auto, using(crate::proofs::Slotting::some_slots, crate::proofs::Slotting::no_slots))]
pub fn slots_at(
    alloc: Global,
    exchange: &Exchange,
    table: &FlowTable,
    point: u32,
) -> Result<Seq<Slot>, Memory>
    requires { IsFlowTable exchange.now table.now }
    ensures { IfOk result (AreSlots exchange.now point) }
{
    exchange.kept();
    match table.rows.get(point as usize) {
        Some(row) => slots_of(alloc, row),
        None => Ok(Seq::new(alloc)),
    }
}

/// The slots that a row tells.
#[tactic(auto, using(crate::proofs::Slotting::all_listed))]
fn slots_of(alloc: Global, row: &Row) -> Result<Seq<Slot>, Memory>
    ensures { IfOk result (λ slots. slots ≡ row_slots row.now) }
{
    let mut slots = Seq::new(alloc);
    push_numbered(Numbered::Temp, row.temps, &mut slots)?;
    push_numbered(Numbered::Given, row.given, &mut slots)?;
    push_numbered(Numbered::Answered, row.answered, &mut slots)?;
    slots.push(Slot::Depth)?;
    slots.push(Slot::Awaits)?;
    Ok(slots)
}

/// Appends so many numbered slots.
#[tactic(auto, using(crate::proofs::Slotting::numbered_begin, crate::proofs::Slotting::numbered_end))]
pub fn push_numbered(numbered: Numbered, count: u8, slots: &mut Seq<Slot>) -> Result<(), Memory>
    ensures { OnOk result
        (slots.new ≡ slots.old ++ map (numbered_slot numbered) (range_with_len 0 count)) }
{
    for number in 0..count {
        slots.push(slot_of(numbered, number))?;
    }
    Ok(())
}

fn slot_of(numbered: Numbered, number: u8) -> Slot
    ensures { result ≡ numbered_slot numbered number }
{
    match numbered {
        Numbered::Temp => Slot::Temp(number),
        Numbered::Given => Slot::Given(number),
        Numbered::Answered => Slot::Answered(number),
    }
}
