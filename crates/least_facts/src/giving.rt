// What one flow gives to the rows, slot by slot.
ghost use Rattle.std.specs.Prelude.{◌≡◌, IfOk, length, slice_index_or};
ghost use Rattle.std.specs.List.{Contains};
ghost use Rattle.flow_points.specs.declared.flow.Source.TheVariants.{Of};
ghost use Rattle.flow_points.specs.declared.fact.Slot.{Slot as SlotType};
ghost use Rattle.flow_points.specs.declared.fact.Slot.TheVariants.{Awaits};
ghost use Rattle.flow_points.specs.declared.fact.Value.{Value as ValueType};
ghost use Rattle.flow_points.specs.Facts.{SourceGives, fact};
ghost use Rattle.flow_points.specs.Slots.{HasSlot};
ghost use Rattle.flow_table.specs.Giving.{SlotGives};
ghost use Rattle.fact_flows.specs.Slots.{row_slots};
ghost use Rattle.fact_rows.specs.Known.{HasSpot, Knows};
ghost use Rattle.fact_rows.specs.Values.{HasNumber, is_awaits};
ghost use Rattle.least_facts.specs.Giving.{CanFlow, FillsPoint, FillsSlots, Gives, OfValues};
ghost use Rattle.answer_table.specs.Answers.{IsFact};
ghost use Rattle.least_facts.specs.Settings.{IsSetting};

use crate::setting::Setting;
use fact_rows::{FactRows, Key};
use flow_points::{Fact, Passing, Slot, Source, Value};
use flow_table::{Row, source_over, values_from};
use plex_num::Memory;
use std::alloc::Global;

/// Gives all slots before a point what comes over a flow from another one; true exactly where a
/// value is new.
#[tactic(auto, using(crate::proofs::Placing::row_there, crate::proofs::Placing::point_filled, crate::proofs::Placing::none_filled))]
pub(crate) fn give_point(
    setting: &Setting<'_>,
    from: u32,
    how: &Passing,
    to: u32,
    rows: &mut FactRows,
) -> Result<bool, Memory>
    requires setting { IsSetting setting.now }
    requires can { CanFlow setting.now.exchange.now setting.now.table.now setting.now.entry
        from how.now to rows.old }
    ensures { IfOk result (λ grown. FillsPoint setting.now.exchange.now setting.now.entry
        from how.now to rows.old grown rows.new) }
{
    setting.exchange.kept();
    match setting.table.rows.get(to as usize) {
        Some(row) => {
            let grown = give_slots(setting, from, how, to, row, rows)?;
            Ok(grown)
        }
        None => Ok(false),
    }
}

/// Gives the slots that a row tells what comes over a flow to its point; true exactly where a value
/// is new.
fn give_slots(
    setting: &Setting<'_>,
    from: u32,
    how: &Passing,
    to: u32,
    row: &Row,
    rows: &mut FactRows,
) -> Result<bool, Memory>
    requires setting { IsSetting setting.now }
    requires can { CanFlow setting.now.exchange.now setting.now.table.now setting.now.entry
        from how.now to rows.old }
    requires slots { (s : SlotType)
        → Contains (row_slots row.now) s → HasSlot setting.now.exchange.now to s }
    ensures { IfOk result (λ grown. FillsSlots setting.now.exchange.now setting.now.entry
        from how.now to (row_slots row.now) rows.old grown rows.new) }
{
    setting.exchange.kept();
    let mut grown = false;
    let count = slot_count(row);
    for i in 0..count {
        let slot = slot_at(row, i);
        let source = source_over(how, slot);
        let new = give(setting.alloc, setting.entry, from, source, to, slot, rows)?;
        grown = grown | new;
    }
    Ok(grown)
}

/// How many slots a row tells.
#[tactic(auto, using(crate::proofs::Placing::row_long))]
pub(crate) fn slot_count(row: &Row) -> usize
    ensures { result ≡ length (row_slots row.now) }
{
    row.temps as usize + row.given as usize + row.answered as usize + 2
}

/// The slot at a place of a row, counted from 0: AWAITS is the last one.
#[tactic(auto, using(crate::proofs::Placing::at_temp, crate::proofs::Placing::at_given, crate::proofs::Placing::at_answered, crate::proofs::Placing::at_depth, crate::proofs::Placing::at_awaits))]
fn slot_at(row: &Row, i: usize) -> Slot
    ensures { result ≡ slice_index_or (row_slots row.now) i Awaits }
{
    let given = row.temps as usize;
    let answered = given + row.given as usize;
    let depth = answered + row.answered as usize;
    if i < given {
        Slot::Temp(i as u8)
    } else if i < answered {
        Slot::Given((i - given) as u8)
    } else if i < depth {
        Slot::Answered((i - answered) as u8)
    } else if i == depth {
        Slot::Depth
    } else {
        Slot::Awaits
    }
}

/// Gives a slot the values that come from a source before a point; true exactly where one of them
/// is new.
fn give(
    alloc: Global,
    entry: u32,
    from: u32,
    source: Source,
    to: u32,
    slot: Slot,
    rows: &mut FactRows,
) -> Result<bool, Memory>
    requires entry { rows.old.entry ≡ entry }
    requires spot { HasSpot rows.old.marks.slots to slot }
    requires alike { (own : SlotType) → source ≡ Of own → is_awaits own ≡ is_awaits slot }
    requires number { (v : ValueType)
        → SourceGives (Knows rows.old) entry from source v → HasNumber slot v }
    ensures { IfOk result (λ grown.
        Gives rows.old (SlotGives (Knows rows.old) entry from source to slot) grown rows.new) }
{
    match source {
        Source::Of(own) => {
            let grown = rows.join(
                Key {
                    point: from,
                    slot: own,
                },
                Key { point: to, slot },
            )?;
            Ok(grown)
        }
        Source::Is(value) => {
            let grown = give_value(entry, to, slot, value, rows)?;
            Ok(grown)
        }
        _ => {
            let values = values_from(alloc, &*rows, entry, from, source)?;
            let grown = give_values(entry, to, slot, values.as_slice(), rows)?;
            Ok(grown)
        }
    }
}

/// Gives a slot these values.
fn give_values(
    entry: u32,
    to: u32,
    slot: Slot,
    values: &[Value],
    rows: &mut FactRows,
) -> Result<bool, Memory>
    requires entry { rows.old.entry ≡ entry }
    requires spot { HasSpot rows.old.marks.slots to slot }
    requires number { (v : ValueType) → Contains values.now v → HasNumber slot v }
    ensures { IfOk result (λ grown.
        Gives rows.old (OfValues entry to slot values.now) grown rows.new) }
{
    let mut grown = false;
    for value in values {
        let new = give_value(entry, to, slot, *value, rows)?;
        grown = grown | new;
    }
    Ok(grown)
}

/// Gives a slot a value.
#[tactic(auto, using(crate::proofs::Filling::fact_given, crate::proofs::Filling::spot_fits))]
fn give_value(
    entry: u32,
    to: u32,
    slot: Slot,
    value: Value,
    rows: &mut FactRows,
) -> Result<bool, Memory>
    requires entry { rows.old.entry ≡ entry }
    requires spot { HasSpot rows.old.marks.slots to slot }
    requires number { HasNumber slot value }
    ensures { IfOk result (λ grown.
        Gives rows.old (IsFact (fact entry to slot value)) grown rows.new) }
{
    let grown = rows.add(Fact {
        entry,
        point: to,
        slot,
        value,
    })?;
    Ok(grown)
}
