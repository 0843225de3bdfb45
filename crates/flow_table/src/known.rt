// Facts that are known.
ghost use Rattle.std.specs.Prelude.{◌↔◌, IsTrue, IfOk};
ghost use Rattle.flow_points.specs.declared.fact.Fact.{Fact};
ghost use Rattle.flow_points.specs.Facts.{Reached, fact};
ghost use Rattle.flow_table.specs.Giving.{AreValues};

use flow_points::{Slot, Value};
use plex_num::{Memory, Seq};
use std::alloc::Global;

/// Facts that are known, however they are kept.
pub trait KnownFacts {
    // It knows these facts.
    ghost knows: { Self → Fact → Type 0 };

    /// The values that a slot may have before a point, in a job of the entry.
    fn values(
        &self,
        alloc: Global,
        entry: u32,
        point: u32,
        slot: Slot,
    ) -> Result<Seq<Value>, Memory>
        ensures { IfOk result (AreValues (λ v. knows self.now (fact entry point slot v))) };

    /// Whether a point is reached, in a job of the entry.
    fn is_reached(&self, entry: u32, point: u32) -> bool
        ensures { IsTrue result ↔ Reached (knows self.now) entry point };
}
