// The jobs that were placed at one level.
ghost use Rattle.std.specs.Prelude.{◌≡◌, ◌-◌, ◌<◌, ◌≤◌, ◌++◌, ◌∷◌, [], drop, filter, length};
ghost use Rattle.std.specs.Prelude.{position, slice_get, MatchResult};
ghost use Rattle.std.specs.List.{position_or_len};
ghost use Rattle.std.specs.Option.{option_copied};
ghost use Rattle.std.specs.VecDeque.{deque_capacity};
ghost use Rattle.job_buffers.specs.Standing.{counts, stays_in, IsTidied};

use crate::stays::Stays;
use job_types::Job;
use plex_num::Memory;
use std::alloc::Global;
use std::collections::VecDeque;
use std::marker::Model;

/// A job in a list, and the number of the stay in which it joined.
#[derive(Drop)]
pub struct Placed {
    pub job: Job,
    pub stay: u64,
}

/// A list of placed jobs, the one that was placed first in front, and for how many more there is
/// room.
pub struct Queue {
    placed: VecDeque<Placed>,
    room: usize,
}

impl Drop for Queue {
    fn drop(self) {
        let Queue { placed: _, room: _ } = self;
    }
}

impl Model for Queue {
    ghost use Rattle.std.specs.Prelude.{◌+◌, ◌≤◌, length};
    ghost use Rattle.std.specs.VecDeque.{deque_capacity};
    ghost use Rattle.std.specs.Coded.{codes};
    ghost use Rattle.job_buffers.specs.Standing.{Queued};

    ghost Value = { Queued };

    ghost coded = { Prim.hlevel codes };

    ghost view = { λ q. record { placed = q.placed.items; room = q.room } };

    ghost invariant = { λ q. length q.placed.items + q.room ≤ deque_capacity q.placed };
}

impl Queue {
    /// No jobs; it takes no memory.
    pub fn new(alloc: Global) -> Queue
        ensures placed { result.placed ≡ [] }
        ensures room { result.room ≡ 0 }
    {
        Queue {
            placed: VecDeque::new(alloc),
            room: 0,
        }
    }

    /// For how many more jobs there is room.
    pub fn room(&self) -> usize
        ensures { result ≡ self.now.room }
    {
        self.room
    }

    /// Makes room for that many more jobs.
    pub fn make_room(&mut self, more: usize) -> Result<(), Memory>
        ensures placed { self.new.placed ≡ self.old.placed }
        ensures room { MatchResult result
            (λ _. self.new.room ≡ more)
            (λ _. self.new.room ≡ self.old.room) }
    {
        match self.placed.reserve(more) {
            Ok(()) => {
                self.room = more;
                Ok(())
            }
            Err(_) => Err(Memory),
        }
    }

    /// The job stands last; there must be room for it.
    pub fn push_reserved(&mut self, placed: Placed)
        requires { 0 < self.old.room }
        ensures placed { self.new.placed ≡ self.old.placed ++ placed ∷ [] }
        ensures room { self.new.room ≡ self.old.room - 1 }
    {
        self.placed.push_back_reserved(placed);
        self.room -= 1;
    }

    /// The first job.
    pub fn front(&self) -> Option<&Placed>
        ensures { option_copied result ≡ slice_get self.now.placed 0 }
    {
        self.placed.front()
    }

    /// Takes the first job.
    pub fn take_front(&mut self) -> Option<Placed>
        ensures placed { result ≡ slice_get self.old.placed 0 }
        ensures rest { self.new.placed ≡ drop 1 self.old.placed }
        ensures room { self.new.room ≡ self.old.room }
    {
        self.placed.pop_front()
    }

    /// Lets go of the jobs in front that wait no longer, and of all such jobs where they are more
    /// than half of the list; so many jobs wait in all lists together.
    pub fn tidy(&mut self, stays: &Stays, waiting: u64)
        ensures tidied { IsTidied (stays_in stays.now.table) self.old.placed self.new.placed }
        ensures room { self.new.room ≡ self.old.room }
    {
        if self.placed.len() as u64 / 2 > waiting {
            keep_waiting(&mut self.placed, stays);
        } else {
            let gone = ended_in_front(&self.placed, stays);
            drop_front(&mut self.placed, gone);
        }
    }

    /// All jobs go.
    pub fn clear(&mut self)
        ensures placed { self.new.placed ≡ [] }
        ensures room { self.new.room ≡ self.old.room }
    {
        self.placed.clear();
    }
}

/// Keeps the jobs that still wait.
fn keep_waiting(placed: &mut VecDeque<Placed>, stays: &Stays)
    ensures items { placed.new.items ≡ filter (counts (stays_in stays.now.table)) placed.old.items }
    ensures fewer { length placed.new.items ≤ length placed.old.items }
    ensures capacity { deque_capacity placed.new ≡ deque_capacity placed.old }
{
    placed.retain(|placed| stays.counts(placed));
}

/// How many jobs in front wait no longer.
#[tactic(auto, using(crate::proofs::Counting::first_or_length))]
fn ended_in_front(placed: &VecDeque<Placed>, stays: &Stays) -> usize
    ensures { result ≡ position_or_len (counts (stays_in stays.now.table)) placed.now.items }
{
    first_waiting(placed, stays).unwrap_or(placed.len())
}

/// The place of the first job that still waits.
fn first_waiting(placed: &VecDeque<Placed>, stays: &Stays) -> Option<usize>
    ensures { result ≡ position (counts (stays_in stays.now.table)) placed.now.items }
{
    placed.iter().position(|placed| stays.counts(placed))
}

/// Lets go of that many jobs in front.
#[tactic(auto, using(crate::proofs::Counting::drop_one_more))]
fn drop_front(placed: &mut VecDeque<Placed>, count: usize)
    ensures items { placed.new.items ≡ drop count placed.old.items }
    ensures capacity { deque_capacity placed.new ≡ deque_capacity placed.old }
{
    for _turn in 0..count {
        let _ = placed.pop_front();
    }
}
