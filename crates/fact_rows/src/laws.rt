// What holds of the slots of a table.
ghost use Rattle.std.specs.Prelude.{ℕ};
ghost use Rattle.exchange_model.specs.declared.exchange.Exchange.{Exchange};
ghost use Rattle.flow_points.specs.declared.fact.Slot.{Slot};
ghost use Rattle.flow_points.specs.declared.fact.Value.{Value};
ghost use Rattle.flow_points.specs.Facts.{fact};
ghost use Rattle.flow_points.specs.Slots.{HasSlot};
ghost use Rattle.flow_table.specs.declared.row.FlowTable.{FlowTable};
ghost use Rattle.flow_table.specs.Rows.{IsFlowTable};
ghost use Rattle.fact_rows.specs.Known.{Fits, slots_of};
ghost use Rattle.fact_rows.specs.Values.{HasNumber};

/// A fact has a place in the rows of an exchange's table where its slot is there before its point,
/// and its value has a number.
pub fn slots_have_places()
    ensures { (x : Exchange) (t : FlowTable) (e p : ℕ) (s : Slot) (v : Value)
        → IsFlowTable x t → HasSlot x p s → HasNumber s v → Fits (slots_of t) (fact e p s v) }
{}
