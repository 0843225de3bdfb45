// The chains and the dead numbers.
ghost use Rattle.std.specs.Prelude.{◌≡◌, ◌≢◌, ◌+◌, ◌<◌, ◌≤◌, [], false, IfOk, OnOk};
ghost use Rattle.std.specs.FinMap as map;
ghost use Rattle.job_types.specs.Forlopps.{all_records, chain_at, dead_below, is_dead, none_dead};
ghost use Rattle.job_types.specs.Forlopps.{with_chain, with_dead};
ghost use Rattle.forlopp_chain.specs.Chains.{AreBelow, IsSound};

use crate::dead::DeadNumbers;
use crate::held::HeldChains;
use job_types::{Chain, Held};
use plex_num::{Memory, Seq};
use std::alloc::Global;
use std::marker::Model;

/// The chain of each number that holds records, and the numbers that are dead. Contracts see a map,
/// a bound with a set, and for how many more chains and deaths there is room.
pub struct Chains {
    held: HeldChains,
    dead: DeadNumbers,
}

impl Drop for Chains {
    fn drop(self) {
        let Chains { held: _, dead: _ } = self;
    }
}

impl Model for Chains {
    ghost use Rattle.std.specs.Coded.{codes};
    ghost use Rattle.forlopp_chain.specs.Chains.{Forlopps, IsSound};
    ghost use Rattle.forlopp_chain.specs.Codes.{chains_code, dead_code};

    ghost Value = { Forlopps };

    ghost coded = { Prim.hlevel (codes, chains_code, dead_code) };

    ghost view = { λ c. record {
      chains = c.held.chains;
      dead = c.dead.dead;
      puts = c.held.room;
      deaths = c.dead.room;
    } };

    ghost invariant = { λ c. IsSound c.held.chains c.dead.dead };
}

impl Chains {
    /// No chains and no dead numbers; it takes no memory.
    pub fn new(alloc: Global) -> Chains
        ensures chains { result.chains ≡ map.empty }
        ensures dead { result.dead ≡ none_dead }
    {
        Chains {
            held: HeldChains::new(alloc),
            dead: DeadNumbers::new(alloc),
        }
    }

    /// Makes room for one chain and for one death.
    pub fn reserve(&mut self) -> Result<(), Memory>
        ensures chains { self.new.chains ≡ self.old.chains }
        ensures dead { self.new.dead ≡ self.old.dead }
        ensures room { OnOk result ((0 < self.new.puts) × (0 < self.new.deaths)) }
        ensures puts { self.old.puts ≤ self.new.puts }
        ensures deaths { self.old.deaths ≤ self.new.deaths }
    {
        self.held.reserve()?;
        self.dead.reserve()
    }

    /// The number, which is live, gets this chain in the place of its own; an empty one is kept as
    /// none. There must be room for a chain.
    pub fn put_reserved(&mut self, forlopp: u64, chain: Chain)
        requires room { 0 < self.old.puts }
        requires some { forlopp ≢ 0 }
        requires live { is_dead self.old.dead forlopp ≡ false }
        ensures chains { self.new.chains ≡ with_chain self.old.chains forlopp chain }
        ensures dead { self.new.dead ≡ self.old.dead }
        ensures puts { self.old.puts ≤ self.new.puts + 1 }
        ensures deaths { self.new.deaths ≡ self.old.deaths }
    {
        self.held.put(forlopp, chain);
    }

    /// The records of a number, in the order in which it seized them; none where the number is dead
    /// or is 0.
    pub fn chain(&self, forlopp: u64) -> &[Held]
        ensures chain { result.now ≡ chain_at self.now.chains forlopp }
        ensures sound { IsSound self.now.chains self.now.dead }
    {
        self.held.of(forlopp)
    }

    /// The chain of a number; it is empty where the number holds nothing, is dead or is 0.
    pub fn chain_of(&self, forlopp: u64) -> Chain
        ensures chain { result ≡ chain_at self.now.chains forlopp }
        ensures sound { IsSound self.now.chains self.now.dead }
    {
        self.held.copied(forlopp)
    }

    /// The number, which is live, dies, and its chain is handed out. There must be room for a
    /// death.
    pub fn kill_reserved(&mut self, forlopp: u64) -> Chain
        requires room { 0 < self.old.deaths }
        requires some { forlopp ≢ 0 }
        requires live { is_dead self.old.dead forlopp ≡ false }
        ensures chain { result ≡ chain_at self.old.chains forlopp }
        ensures chains { self.new.chains ≡ with_chain self.old.chains forlopp [] }
        ensures dead { self.new.dead ≡ with_dead self.old.dead forlopp }
        ensures puts { self.old.puts ≤ self.new.puts }
        ensures deaths { self.old.deaths ≤ self.new.deaths + 1 }
    {
        self.dead.add(forlopp);
        self.held.take(forlopp)
    }

    /// All numbers from 1 up to `next` die, and all chains go. No number from `next` on may hold
    /// records. It takes no memory.
    pub fn kill_below(&mut self, next: u64)
        requires { AreBelow self.old.chains next }
        ensures chains { self.new.chains ≡ map.empty }
        ensures dead { self.new.dead ≡ dead_below self.old.dead next }
        ensures puts { self.old.puts ≤ self.new.puts }
        ensures deaths { self.new.deaths ≡ self.old.deaths }
    {
        self.held.clear();
        self.dead.add_below(next);
    }

    /// Whether a number is dead; 0 never is.
    pub fn is_dead(&self, forlopp: u64) -> bool
        ensures dead { result ≡ is_dead self.now.dead forlopp }
        ensures zero { forlopp ≡ 0 → result ≡ false }
    {
        self.dead.contains(forlopp)
    }

    /// The numbers that hold records, rising. Memory is the only reason for an error.
    pub fn numbers(&self) -> Result<Seq<u64>, Memory>
        ensures numbers { IfOk result (λ numbers. numbers ≡ map.keys self.now.chains) }
        ensures sound { IsSound self.now.chains self.now.dead }
    {
        self.held.numbers()
    }

    /// The records of all chains, by the numbers that hold them. Memory is the only reason for an
    /// error.
    pub fn records(&self) -> Result<Seq<Held>, Memory>
        ensures records { IfOk result (λ records. records ≡ all_records self.now.chains) }
        ensures sound { IsSound self.now.chains self.now.dead }
    {
        self.held.records()
    }
}
