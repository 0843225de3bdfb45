// The numbers that are dead.
ghost use Rattle.std.specs.Prelude.{◌≡◌, ◌+◌, ◌<◌, ◌≤◌, ◌&&◌, nat_lt, OnOk};
ghost use Rattle.job_types.specs.Forlopps.{dead_below, is_dead, none_dead, with_dead};

use plex_num::Memory;
use std::alloc::Global;
use std::collections::HashSet;
use std::marker::Model;

/// All numbers from 1 up to a bound, and some others.
pub struct DeadNumbers {
    below: u64,
    others: HashSet<u64>,
}

impl Drop for DeadNumbers {
    fn drop(self) {
        let DeadNumbers {
            below: _,
            others: _,
        } = self;
    }
}

impl Model for DeadNumbers {
    ghost use Rattle.std.specs.Coded.{codes};
    ghost use Rattle.std.specs.HashSet.{keys, spare};
    ghost use Rattle.forlopp_chain.specs.Codes.{dead_code};
    ghost use Rattle.forlopp_chain.specs.Kept.{Dying, dead_of};

    ghost Value = { Dying };

    ghost coded = { Prim.hlevel (codes, dead_code) };

    ghost view = { λ d. record { dead = dead_of d.below (keys d.others); room = spare d.others } };
}

impl DeadNumbers {
    /// No number; it takes no memory.
    pub fn new(alloc: Global) -> DeadNumbers
        ensures { result.dead ≡ none_dead }
    {
        DeadNumbers {
            below: 1,
            others: HashSet::new(alloc),
        }
    }

    /// Makes room for one number more.
    pub fn reserve(&mut self) -> Result<(), Memory>
        ensures dead { self.new.dead ≡ self.old.dead }
        ensures room { OnOk result (0 < self.new.room) }
        ensures no_less { self.old.room ≤ self.new.room }
    {
        match self.others.reserve(1) {
            Ok(()) => Ok(()),
            Err(_) => Err(Memory),
        }
    }

    /// Whether a number is dead.
    pub fn contains(&self, number: u64) -> bool
        ensures { result ≡ is_dead self.now.dead number }
    {
        is_below(self.below, number) || self.others.contains(&number)
    }

    /// One number more is dead; there must be room for it.
    pub fn add(&mut self, number: u64)
        requires { 0 < self.old.room }
        ensures dead { self.new.dead ≡ with_dead self.old.dead number }
        ensures room { self.old.room ≤ self.new.room + 1 }
    {
        let _ = self.others.insert(number).unwrap();
    }

    /// All numbers from 1 up to this one are dead besides.
    pub fn add_below(&mut self, next: u64)
        ensures dead { self.new.dead ≡ dead_below self.old.dead next }
        ensures room { self.new.room ≡ self.old.room }
    {
        self.below = self.below.max(next);
    }
}

/// Whether a number lies below the bound and is not 0.
fn is_below(bound: u64, number: u64) -> bool
    ensures { result ≡ (nat_lt 0 number && nat_lt number bound) }
{
    0 < number && number < bound
}
