// The jobs that wait.
ghost use Rattle.std.specs.Prelude.{◌≡◌, ◌+◌, ◌<◌, ◌≤◌, ◌↔◌, IsNone, OnOk, MatchResult};
ghost use Rattle.std.specs.Option.{option_copied};
ghost use Rattle.job_buffers.specs.Room.{HasOthersOf, NoLess, room_at, without_one};
ghost use Rattle.job_types.specs.Waiting.{after_pick, count_of, joins, nobody, others, pick};
ghost use Rattle.job_types.specs.Waiting.{waiting_count};

use crate::queue::Placed;
use crate::queues::Queues;
use crate::stays::Stays;
use job_types::Job;
use plex_num::{Level, Memory};
use std::alloc::Global;
use std::marker::Model;

/// The jobs that wait, in four lists by level, each job behind those of its level that joined
/// before it. Contracts see the lists, and for how many more jobs each of them has room. Each call
/// takes the same time, spread over many calls, whatever waits; but `remove_all` takes that of the
/// jobs that wait.
pub struct Buffers {
    queues: Queues,
    stays: Stays,
    pushed: u64,
    waiting: u64,
}

impl Drop for Buffers {
    fn drop(self) {
        let Buffers {
            queues: _,
            stays: _,
            pushed: _,
            waiting: _,
        } = self;
    }
}

impl Model for Buffers {
    ghost use Rattle.std.specs.Coded.{codes};
    ghost use Rattle.std.specs.HashMap.{spare};
    ghost use Rattle.job_buffers.specs.Room.{Buffered};
    ghost use Rattle.job_buffers.specs.Standing.{stays_in, waiting_of, IsSound};

    ghost Value = { Buffered };

    ghost coded = { Prim.hlevel codes };

    ghost view = { λ w. record {
      waiting = waiting_of (stays_in w.stays.table) w.queues.lists;
      room = w.queues.room;
    } };

    ghost invariant = { λ w.
        IsSound (stays_in w.stays.table) (spare w.stays.table) w.pushed w.waiting
        w.queues.lists w.queues.room };
}

impl Buffers {
    /// Buffers in which no job waits; it takes no memory.
    pub fn new(alloc: Global) -> Buffers
        ensures { result.waiting ≡ nobody }
    {
        Buffers {
            queues: Queues::new(alloc),
            stays: Stays::new(alloc),
            pushed: 0,
            waiting: 0,
        }
    }

    /// Makes room for that many more jobs of a level.
    pub fn reserve(&mut self, level: Level, more: usize) -> Result<(), Memory>
        ensures waiting { self.new.waiting ≡ self.old.waiting }
        ensures room { OnOk result (more ≤ room_at level self.new.room) }
        ensures no_less { room_at level self.old.room ≤ room_at level self.new.room }
        ensures others { HasOthersOf level self.old.room self.new.room }
    {
        let room = self.queues.room_at(level);
        if more <= room {
            return Ok(());
        }
        let rooms = self.queues.rooms() as u64;
        let wanted = (more - room) as u64;
        if wanted > u64::MAX - self.pushed - rooms {
            return Err(Memory);
        }
        self.stays.reserve((rooms + wanted) as usize)?;
        self.queues.make_room(level, more)
    }

    /// The job joins the list of its level; where memory is refused, it is dropped and all lists
    /// stay as they were.
    pub fn push(&mut self, job: Job) -> Result<(), Memory>
        ensures waiting { MatchResult result
            (λ _. self.new.waiting ≡ joins job self.old.waiting)
            (λ _. self.new.waiting ≡ self.old.waiting) }
        ensures room { room_at job.level self.old.room ≤ room_at job.level self.new.room + 1 }
        ensures others { HasOthersOf job.level self.old.room self.new.room }
    {
        self.reserve(job.level, 1)?;
        self.push_reserved(job);
        Ok(())
    }

    /// The job joins the list of its level, which must have room for it.
    pub fn push_reserved(&mut self, job: Job)
        requires { 0 < room_at job.level self.old.room }
        ensures waiting { self.new.waiting ≡ joins job self.old.waiting }
        ensures room { self.new.room ≡ without_one job.level self.old.room }
    {
        let stay = self.stays.join(job.forlopp, self.pushed);
        self.pushed += 1;
        self.waiting += 1;
        self.queues.push_reserved(job.level, Placed { job, stay });
    }

    /// The job that is next: the front of the first list of A, B, C and D that is not empty. `None`
    /// exactly where no job waits.
    pub fn pick(&self) -> Option<&Job>
        ensures job { option_copied result ≡ pick self.now.waiting }
        ensures none { IsNone result ↔ (self.now.waiting ≡ nobody) }
    {
        match self.queues.front() {
            Some(placed) => Some(&placed.job),
            None => None,
        }
    }

    /// Takes the job that is next out of its list. `None` exactly where no job waits.
    pub fn take(&mut self) -> Option<Job>
        ensures job { result ≡ pick self.old.waiting }
        ensures none { IsNone result ↔ (self.old.waiting ≡ nobody) }
        ensures left { self.new.waiting ≡ after_pick self.old.waiting }
        ensures room { NoLess self.old.room self.new.room }
    {
        let Some(placed) = self.queues.take_front() else {
            return None;
        };
        self.stays.leave(placed.job.forlopp);
        self.waiting -= 1;
        self.queues.tidy(&self.stays, self.waiting);
        Some(placed.job)
    }

    /// Removes the jobs of a forlopp from all lists, and tells how many went. The others keep their
    /// order.
    pub fn remove_forlopp(&mut self, forlopp: u64) -> u64
        ensures count { result ≡ count_of forlopp self.old.waiting }
        ensures left { self.new.waiting ≡ others forlopp self.old.waiting }
        ensures room { NoLess self.old.room self.new.room }
    {
        let gone = self.stays.end(forlopp);
        self.waiting -= gone;
        self.queues.tidy(&self.stays, self.waiting);
        gone
    }

    /// Removes all jobs from all lists, and tells how many went.
    pub fn remove_all(&mut self) -> u64
        ensures count { result ≡ waiting_count self.old.waiting }
        ensures left { self.new.waiting ≡ nobody }
        ensures room { NoLess self.old.room self.new.room }
    {
        let gone = self.waiting;
        self.queues.clear();
        self.stays.clear();
        self.waiting = 0;
        gone
    }
}
