// Lists of points.
ghost use Rattle.std.specs.Prelude.{◌≡◌, IfOk, IfSome};
ghost use Rattle.flow_table.specs.Points.{points_at};
ghost use Rattle.flow_table.specs.Ways.{listed};

use plex_num::{Memory, Seq};
use std::alloc::Global;
use std::marker::Model;

/// Where points stand.
#[derive(Drop)]
enum Place {
    Nowhere,
    Here([u32; 1]),
    Away(Box<Seq<u32>>),
}

/// A list of points that mostly has one, in 16 bytes: more than one stand in a place of their own.
/// Contracts see the list.
#[derive(Drop)]
pub struct Points {
    place: Place,
}

impl Model for Points {
    ghost use Rattle.std.specs.Prelude.{List, ℕ};
    ghost use Rattle.std.specs.Coded.{coded_list, coded_ℕ};
    ghost use Rattle.flow_table.specs.Points.{points_at};

    ghost Value = { List ℕ };

    ghost coded = { coded_list coded_ℕ };

    ghost view = { λ p. points_at p.place };
}

impl Points {
    /// This point, if there is one; it takes no memory.
    pub fn of_option(point: Option<u32>) -> Points
        ensures { result ≡ listed point }
    {
        match point {
            Some(point) => Points {
                place: Place::Here([point]),
            },
            None => Points {
                place: Place::Nowhere,
            },
        }
    }

    /// These points, in their order, or no memory.
    pub fn from_seq(alloc: Global, points: Seq<u32>) -> Result<Points, Memory>
        ensures { IfOk result (λ made. made ≡ points) }
    {
        if let Some(place) = near(points.as_slice()) {
            return Ok(Points { place });
        }
        match Box::new(alloc, points) {
            Ok(points) => Ok(Points {
                place: Place::Away(points),
            }),
            Err(_) => Err(Memory),
        }
    }

    /// The points, in their order.
    pub fn as_slice(&self) -> &[u32]
        ensures { result.now ≡ self.now }
    {
        match &self.place {
            Place::Nowhere => &[],
            Place::Here(points) => points,
            Place::Away(points) => points.as_slice(),
        }
    }
}

/// Where points stand that need no memory.
fn near(points: &[u32]) -> Option<Place>
    ensures { IfSome result (λ place. points_at place ≡ points.now) }
{
    match points {
        [] => Some(Place::Nowhere),
        [point] => Some(Place::Here([*point])),
        _ => None,
    }
}
