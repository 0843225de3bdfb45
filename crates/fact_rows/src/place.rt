// Where the numbers of a slot are kept.
ghost use Rattle.std.specs.Prelude.{◌≡◌, ◌+◌, ◌<◌, ◌^◌};
ghost use Rattle.fact_rows.specs.Places.{size_of, spot_below as spot_below_of};
ghost use Rattle.fact_rows.specs.Places.{spot_in as spot_in_of};

use flow_points::Slot;

/// How many temporaries, entry values and values of an answer stand before a point.
#[derive(Clone, Copy)]
pub struct Counts {
    pub temps: u8,
    pub given: u8,
    pub answered: u8,
}

/// Where the numbers of a slot are kept: in the row of planes, or in that of AWAITS.
#[derive(Clone, Copy)]
pub enum Spot {
    Plane(usize),
    Awaited(usize),
}

impl Counts {
    /// How many planes a point has.
    pub(crate) fn size(self) -> usize
        ensures { result ≡ size_of self }
    {
        self.temps as usize + self.given as usize + self.answered as usize + 1
    }
}

/// The spot of a slot before a point whose planes begin so, if there is one.
pub(crate) fn spot_in(start: usize, point: usize, counts: Counts, slot: Slot) -> Option<Spot>
    requires { start + size_of counts < 2 ^ 64 }
    ensures { result ≡ spot_in_of start point counts slot }
{
    let given = start + counts.temps as usize;
    let answered = given + counts.given as usize;
    match slot {
        Slot::Temp(k) => spot_below(start, k, counts.temps),
        Slot::Given(k) => spot_below(given, k, counts.given),
        Slot::Answered(k) => spot_below(answered, k, counts.answered),
        Slot::Depth => Some(Spot::Plane(answered + counts.answered as usize)),
        Slot::Awaits => Some(Spot::Awaited(point)),
    }
}

fn spot_below(first: usize, k: u8, count: u8) -> Option<Spot>
    requires { first + count < 2 ^ 64 }
    ensures { result ≡ spot_below_of first k count }
{
    if k < count {
        Some(Spot::Plane(first + k as usize))
    } else {
        None
    }
}
