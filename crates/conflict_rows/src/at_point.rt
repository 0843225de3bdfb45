// What is known of one point.
ghost use Rattle.fact_rows.specs.Known.{KnowsAt};

use fact_rows::FactRows;
use flow_points::{Slot, Value};
use flow_table::KnownFacts;
use plex_num::{Memory, Seq};
use std::alloc::Global;

/// The facts that are known of one point, and no others: by these the accesses of all statements
/// are those of the statement there.
#[derive(Clone, Copy)]
pub(crate) struct AtPoint<'a> {
    pub(crate) known: &'a FactRows,
    pub(crate) point: u32,
}

impl<'a> KnownFacts for AtPoint<'a> {
    ghost knows = { λ here f. KnowsAt here.known.now here.point f };

    fn values(
        &self,
        alloc: Global,
        entry: u32,
        point: u32,
        slot: Slot,
    ) -> Result<Seq<Value>, Memory> {
        if point != self.point {
            return Ok(Seq::new(alloc));
        }
        let values = self.known.values(alloc, entry, point, slot)?;
        Ok(values)
    }

    fn is_reached(&self, entry: u32, point: u32) -> bool {
        if point != self.point {
            return false;
        }
        self.known.is_reached(entry, point)
    }
}
