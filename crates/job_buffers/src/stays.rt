// The stays of the forlopps: which of the jobs that were placed still wait.
ghost use Rattle.std.specs.Prelude.{◌≡◌, ◌+◌, ◌<◌, ◌≤◌, ◌^◌, IsSome, None, OnOk, Some};
ghost use Rattle.std.specs.HashMap.{spare};
ghost use Rattle.job_buffers.specs.Standing.{counts, jobs_of, joined, left, stays_in, updated};

use crate::queue::Placed;
use plex_num::Memory;
use std::alloc::Global;
use std::collections::HashMap;

/// The stay of a forlopp, from the moment when a first job of it joins to the moment when none of
/// its jobs waits: its number, which no other stay has, and how many jobs wait.
#[derive(Clone, Copy)]
pub struct Stay {
    pub number: u64,
    pub jobs: u64,
}

/// The stay of each forlopp of which a job waits.
pub struct Stays {
    pub table: HashMap<u64, Stay>,
}

impl Drop for Stays {
    fn drop(self) {
        let Stays { table: _ } = self;
    }
}

impl Stays {
    /// No stays; it takes no memory.
    pub fn new(alloc: Global) -> Stays
        ensures { stays_in result.table ≡ (λ _. None) }
    {
        Stays {
            table: HashMap::new(alloc),
        }
    }

    /// Makes room for that many more stays.
    pub fn reserve(&mut self, more: usize) -> Result<(), Memory>
        ensures stays { stays_in self.new.table ≡ stays_in self.old.table }
        ensures room { OnOk result (more ≤ spare self.new.table) }
        ensures no_less { spare self.old.table ≤ spare self.new.table }
    {
        match self.table.reserve(more) {
            Ok(()) => Ok(()),
            Err(_) => Err(Memory),
        }
    }

    /// Whether a placed job still waits.
    pub fn counts(&self, placed: &Placed) -> bool
        ensures { result ≡ counts (stays_in self.now.table) placed.now }
    {
        match self.table.get(&placed.job.forlopp) {
            Some(stay) => stay.number == placed.stay,
            None => false,
        }
    }

    /// The stay of a forlopp.
    fn stay(&self, forlopp: u64) -> Option<Stay>
        ensures { result ≡ stays_in self.now.table forlopp }
    {
        self.table.get(&forlopp).copied()
    }

    /// A job of a forlopp joins: the number of its stay, which is this one if the stay begins with
    /// it. There must be room for a stay.
    pub fn join(&mut self, forlopp: u64, number: u64) -> u64
        requires room { 0 < spare self.old.table }
        requires few { jobs_of (stays_in self.old.table forlopp) + 1 < 2 ^ 64 }
        ensures number { result ≡ (joined number (stays_in self.old.table forlopp)).number }
        ensures stays { stays_in self.new.table ≡ updated forlopp
            (Some (joined number (stays_in self.old.table forlopp))) (stays_in self.old.table) }
        ensures room { spare self.old.table ≤ spare self.new.table + 1 }
    {
        let stay = with_one_more(self.stay(forlopp), number);
        let put: Result<_, _> = self.table.insert(forlopp, stay);
        let _ = put.unwrap();
        stay.number
    }

    /// A job of a forlopp leaves; with the last one the stay ends.
    pub fn leave(&mut self, forlopp: u64)
        ensures stays { stays_in self.new.table ≡ updated forlopp
            (left (stays_in self.old.table forlopp)) (stays_in self.old.table) }
        ensures room { spare self.old.table ≤ spare self.new.table }
    {
        match with_one_less(self.stay(forlopp)) {
            Some(stay) => self.put(forlopp, stay),
            None => self.forget(forlopp),
        }
    }

    /// The stay of a forlopp that stays becomes this one.
    fn put(&mut self, forlopp: u64, stay: Stay)
        requires { IsSome (stays_in self.old.table forlopp) }
        ensures stays { stays_in self.new.table
            ≡ updated forlopp (Some stay) (stays_in self.old.table) }
        ensures room { spare self.old.table ≤ spare self.new.table }
    {
        if let Some(kept) = self.table.get_mut(&forlopp) {
            *kept = stay;
        }
    }

    /// A forlopp stays no longer.
    fn forget(&mut self, forlopp: u64)
        ensures stays { stays_in self.new.table ≡ updated forlopp None (stays_in self.old.table) }
        ensures room { spare self.old.table ≤ spare self.new.table }
    {
        let _ = self.table.remove(&forlopp);
    }

    /// The stay of a forlopp ends: how many of its jobs waited.
    pub fn end(&mut self, forlopp: u64) -> u64
        ensures count { result ≡ jobs_of (stays_in self.old.table forlopp) }
        ensures stays { stays_in self.new.table ≡ updated forlopp None (stays_in self.old.table) }
        ensures room { spare self.old.table ≤ spare self.new.table }
    {
        let count = jobs(self.stay(forlopp));
        self.forget(forlopp);
        count
    }

    /// All stays end.
    pub fn clear(&mut self)
        ensures stays { stays_in self.new.table ≡ (λ _. None) }
        ensures room { spare self.old.table ≤ spare self.new.table }
    {
        self.table.clear();
    }
}

/// How many jobs wait in a stay.
fn jobs(stay: Option<Stay>) -> u64
    ensures { result ≡ jobs_of stay }
{
    match stay {
        Some(stay) => stay.jobs,
        None => 0,
    }
}

/// A stay with one job more; a new one has this number.
fn with_one_more(stay: Option<Stay>, number: u64) -> Stay
    requires { jobs_of stay + 1 < 2 ^ 64 }
    ensures { result ≡ joined number stay }
{
    match stay {
        Some(stay) => Stay {
            number: stay.number,
            jobs: stay.jobs + 1,
        },
        None => Stay { number, jobs: 1 },
    }
}

/// A stay with one job less, which ends with the last one.
fn with_one_less(stay: Option<Stay>) -> Option<Stay>
    ensures left { result ≡ left stay }
    ensures stays { IsSome result → IsSome stay }
{
    let stay = stay?;
    if stay.jobs > 1 {
        Some(Stay {
            number: stay.number,
            jobs: stay.jobs - 1,
        })
    } else {
        None
    }
}
