// The slots before points, in order.
ghost use Rattle.std.specs.Prelude.{◌≡◌};
ghost use Rattle.fact_rows.specs.Touched.{numbered_slot};

use flow_points::Slot;

/// A slot before a point. In the order of points, then of slots.
#[derive(Clone, Copy, PartialEq, Eq, PartialOrd, Ord)]
pub struct Key {
    pub point: u32,
    pub slot: Slot,
}

/// What stands before a point more than once, and is numbered from 0.
#[derive(Clone, Copy, PartialEq, Eq)]
pub enum Numbered {
    Temp,
    Given,
    Answered,
}

/// The slot of this number.
pub(crate) fn slot_of(numbered: Numbered, number: u8) -> Slot
    ensures { result ≡ numbered_slot numbered number }
{
    match numbered {
        Numbered::Temp => Slot::Temp(number),
        Numbered::Given => Slot::Given(number),
        Numbered::Answered => Slot::Answered(number),
    }
}
