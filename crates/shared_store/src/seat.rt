ghost use Rattle.shared_store.specs.Sound.{Sound};

use crate::view::View;
use atomic_table::Seat;
use std::marker::Model;

/// The seat of a loan, by which one job touches the words that it was lent. Contracts see the store
/// that it is of, and what it knows.
#[derive(Drop)]
pub struct JobSeat {
    pub(crate) seat: Seat<(), View>,
}

impl Model for JobSeat {
    ghost use Rattle.atomic_table.specs.Seated.{TableId};
    ghost use Rattle.shared_store.specs.declared.view.Hold.{Hold};

    ghost Value = { TableId × Hold };

    ghost use Rattle.shared_store.specs.Seats.{hold_of, IsJobSeat};

    ghost view = { λ s. (s.seat.table_id, hold_of s.seat.me.0) };

    ghost invariant = { λ s. IsJobSeat s.seat.table_id s.seat.me };
}

impl JobSeat {
    /// What the touches of every seat are: each load found the seat's own last store or the base
    /// value, and each touch kept the permit. It touches no word.
    pub fn knows(&self)
        ensures { Sound self.now.1.lent.permit self.now.1.lent.base self.now.1.touches }
    {
        let _seat = &self.seat;
    }
}

/// The root's seat, of which there is one for each store. Contracts see the store that it is of,
/// and what it knows.
#[derive(Drop)]
pub struct RootSeat {
    pub(crate) seat: Seat<(), View>,
}

impl Model for RootSeat {
    ghost use Rattle.atomic_table.specs.Seated.{TableId};
    ghost use Rattle.shared_store.specs.declared.view.Top.{Top};

    ghost Value = { TableId × Top };

    ghost use Rattle.shared_store.specs.Seats.{top_of, IsRootSeat};

    ghost view = { λ s. (s.seat.table_id, top_of s.seat.me.0) };

    ghost invariant = { λ s. IsRootSeat s.seat.table_id s.seat.me };
}
