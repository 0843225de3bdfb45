// The lists of the four levels.
ghost use Rattle.std.specs.Prelude.{◌≡◌, ◌<◌, ◌^◌, MatchResult};
ghost use Rattle.std.specs.Option.{option_copied};
ghost use Rattle.job_buffers.specs.Room.{room_at, rooms, with_room, without_one};
ghost use Rattle.job_buffers.specs.Standing.{first_placed, none_placed, placed_at, stays_in};
ghost use Rattle.job_buffers.specs.Standing.{without_first, AreTidied};

use crate::queue::{Placed, Queue};
use crate::stays::Stays;
use plex_num::{Level, Memory};
use std::alloc::Global;
use std::marker::Model;

/// The placed jobs of the four levels, and for how many more there is room at each.
pub struct Queues {
    a: Queue,
    b: Queue,
    c: Queue,
    d: Queue,
}

impl Drop for Queues {
    fn drop(self) {
        let Queues {
            a: _,
            b: _,
            c: _,
            d: _,
        } = self;
    }
}

impl Model for Queues {
    ghost use Rattle.std.specs.Coded.{codes};
    ghost use Rattle.job_buffers.specs.Standing.{Held, held};

    ghost Value = { Held };

    ghost coded = { Prim.hlevel codes };

    ghost view = { λ q. held q.a q.b q.c q.d };
}

impl Queues {
    /// No jobs; it takes no memory.
    pub fn new(alloc: Global) -> Queues
        ensures lists { result.lists ≡ none_placed }
        ensures room { rooms result.room ≡ 0 }
    {
        Queues {
            a: Queue::new(alloc),
            b: Queue::new(alloc),
            c: Queue::new(alloc),
            d: Queue::new(alloc),
        }
    }

    /// For how many more jobs of a level there is room.
    pub fn room_at(&self, level: Level) -> usize
        ensures { result ≡ room_at level self.now.room }
    {
        match level {
            Level::A => self.a.room(),
            Level::B => self.b.room(),
            Level::C => self.c.room(),
            Level::D => self.d.room(),
        }
    }

    /// For how many more jobs there is room in all.
    pub fn rooms(&self) -> usize
        requires { rooms self.now.room < 2 ^ 64 }
        ensures { result ≡ rooms self.now.room }
    {
        self.a.room() + self.b.room() + self.c.room() + self.d.room()
    }

    /// Makes room for that many more jobs of a level.
    pub fn make_room(&mut self, level: Level, more: usize) -> Result<(), Memory>
        ensures lists { self.new.lists ≡ self.old.lists }
        ensures room { MatchResult result
            (λ _. self.new.room ≡ with_room level more self.old.room)
            (λ _. self.new.room ≡ self.old.room) }
    {
        match level {
            Level::A => self.a.make_room(more),
            Level::B => self.b.make_room(more),
            Level::C => self.c.make_room(more),
            Level::D => self.d.make_room(more),
        }
    }

    /// The job stands last at a level, where there must be room for it.
    pub fn push_reserved(&mut self, level: Level, placed: Placed)
        requires { 0 < room_at level self.old.room }
        ensures lists { self.new.lists ≡ placed_at level placed self.old.lists }
        ensures room { self.new.room ≡ without_one level self.old.room }
    {
        match level {
            Level::A => self.a.push_reserved(placed),
            Level::B => self.b.push_reserved(placed),
            Level::C => self.c.push_reserved(placed),
            Level::D => self.d.push_reserved(placed),
        }
    }

    /// The front of the first list of A, B, C and D that is not empty.
    pub fn front(&self) -> Option<&Placed>
        ensures { option_copied result ≡ first_placed self.now.lists }
    {
        if let Some(placed) = self.a.front() {
            return Some(placed);
        }
        if let Some(placed) = self.b.front() {
            return Some(placed);
        }
        if let Some(placed) = self.c.front() {
            return Some(placed);
        }
        self.d.front()
    }

    /// Takes that front.
    pub fn take_front(&mut self) -> Option<Placed>
        ensures placed { result ≡ first_placed self.old.lists }
        ensures lists { self.new.lists ≡ without_first self.old.lists }
        ensures room { self.new.room ≡ self.old.room }
    {
        if let Some(placed) = self.a.take_front() {
            return Some(placed);
        }
        if let Some(placed) = self.b.take_front() {
            return Some(placed);
        }
        if let Some(placed) = self.c.take_front() {
            return Some(placed);
        }
        self.d.take_front()
    }

    /// Lets go of jobs that wait no longer; so many wait. In front of each list one that waits is
    /// left.
    pub fn tidy(&mut self, stays: &Stays, waiting: u64)
        ensures tidied { AreTidied (stays_in stays.now.table) self.old.lists self.new.lists }
        ensures room { self.new.room ≡ self.old.room }
    {
        self.a.tidy(stays, waiting);
        self.b.tidy(stays, waiting);
        self.c.tidy(stays, waiting);
        self.d.tidy(stays, waiting);
    }

    /// All jobs go.
    pub fn clear(&mut self)
        ensures lists { self.new.lists ≡ none_placed }
        ensures room { self.new.room ≡ self.old.room }
    {
        self.a.clear();
        self.b.clear();
        self.c.clear();
        self.d.clear();
    }
}
