// The chain of each number that holds records.
ghost use Rattle.std.specs.Prelude.{◌≡◌, ◌+◌, ◌<◌, ◌≤◌, ◌++◌, [], flat_map, length, nat_eq};
ghost use Rattle.std.specs.Prelude.{unwrap_or, IfOk, OnOk};
ghost use Rattle.std.specs.FinMap as map;
ghost use Rattle.std.specs.HashMap.{IsUnique, keys};
ghost use Rattle.job_types.specs.Forlopps.{all_records, chain_at, with_chain};
ghost use Rattle.forlopp_chain.specs.Kept.{chains_of};

use job_types::{Chain, Held};
use plex_limits::MOST_HELD;
use plex_num::{Memory, Seq};
use std::alloc::{AllocError, Global};
use std::collections::HashMap;
use std::marker::Model;

/// The chains, found by their numbers.
pub struct HeldChains {
    chains: HashMap<u64, Chain>,
    alloc: Global,
}

impl Drop for HeldChains {
    fn drop(self) {
        let HeldChains {
            chains: _,
            alloc: _,
        } = self;
    }
}

impl Model for HeldChains {
    ghost use Rattle.std.specs.Coded.{codes};
    ghost use Rattle.std.specs.HashMap.{spare};
    ghost use Rattle.forlopp_chain.specs.Codes.{chains_code};
    ghost use Rattle.forlopp_chain.specs.Kept.{Kept, chains_of};

    ghost Value = { Kept };

    ghost coded = { Prim.hlevel (codes, chains_code) };

    ghost view = { λ h. record { chains = chains_of h.chains.entries; room = spare h.chains } };
}

impl HeldChains {
    /// No chains; it takes no memory.
    pub fn new(alloc: Global) -> HeldChains
        ensures { result.chains ≡ map.empty }
    {
        HeldChains {
            chains: HashMap::new(alloc),
            alloc,
        }
    }

    /// Makes room for one chain more.
    pub fn reserve(&mut self) -> Result<(), Memory>
        ensures chains { self.new.chains ≡ self.old.chains }
        ensures room { OnOk result (0 < self.new.room) }
        ensures no_less { self.old.room ≤ self.new.room }
    {
        match self.chains.reserve(1) {
            Ok(()) => Ok(()),
            Err(_) => Err(Memory),
        }
    }

    /// The records of a number, in their order.
    pub fn of(&self, forlopp: u64) -> &[Held]
        ensures { result.now ≡ chain_at self.now.chains forlopp }
    {
        match self.chains.get(&forlopp) {
            Some(chain) => chain.as_slice(),
            None => &[],
        }
    }

    /// The chain of a number.
    pub fn copied(&self, forlopp: u64) -> Chain
        ensures { result ≡ chain_at self.now.chains forlopp }
    {
        match self.chains.get(&forlopp) {
            Some(chain) => chain.copy(),
            None => Chain::new(),
        }
    }

    /// The number gets this chain in the place of its own; there must be room for it.
    pub fn put(&mut self, forlopp: u64, chain: Chain)
        requires { 0 < self.old.room }
        ensures chains { self.new.chains ≡ with_chain self.old.chains forlopp chain }
        ensures few { length chain ≤ MOST_HELD }
        ensures room { self.old.room ≤ self.new.room + 1 }
    {
        if chain.as_slice().is_empty() {
            let _ = self.chains.remove(&forlopp);
        } else {
            let put: Result<_, _> = self.chains.insert(forlopp, chain);
            let _ = put.unwrap();
        }
    }

    /// The chain of a number, which goes.
    pub fn take(&mut self, forlopp: u64) -> Chain
        ensures chain { result ≡ chain_at self.old.chains forlopp }
        ensures chains { self.new.chains ≡ with_chain self.old.chains forlopp [] }
        ensures room { self.old.room ≤ self.new.room }
    {
        found(self.chains.remove(&forlopp))
    }

    /// All chains go.
    pub fn clear(&mut self)
        ensures chains { self.new.chains ≡ map.empty }
        ensures room { self.old.room ≤ self.new.room }
    {
        self.chains.clear();
    }

    /// The numbers that hold records, rising.
    pub fn numbers(&self) -> Result<Seq<u64>, Memory>
        ensures { IfOk result (λ numbers. numbers ≡ map.keys self.now.chains) }
    {
        match sorted_keys(self.alloc, &self.chains) {
            Ok(numbers) => Ok(Seq::from_vec(numbers)),
            Err(_) => Err(Memory),
        }
    }

    /// The records of all chains, by the numbers that hold them.
    #[tactic(auto, using(job_types::proofs::ChainMaps::by_number))]
    pub fn records(&self) -> Result<Seq<Held>, Memory>
        ensures { IfOk result (λ records. records ≡ all_records self.now.chains) }
    {
        let numbers = self.numbers()?;
        self.records_of(numbers.as_slice())
    }

    /// The records of these numbers, chain by chain.
    fn records_of(&self, numbers: &[u64]) -> Result<Seq<Held>, Memory>
        ensures { IfOk result (λ records. records ≡ flat_map (chain_at self.now.chains) numbers.now) }
    {
        let mut records = Seq::new(self.alloc);
        for number in numbers {
            add_all(&mut records, self.of(*number))?;
        }
        Ok(records)
    }
}

/// Appends the records of a chain.
fn add_all(records: &mut Seq<Held>, chain: &[Held]) -> Result<(), Memory>
    ensures { OnOk result (records.new ≡ records.old ++ chain.now) }
{
    for held in chain {
        records.push(*held)?;
    }
    Ok(())
}

/// The keys of a table, rising.
fn sorted_keys(alloc: Global, chains: &HashMap<u64, Chain>) -> Result<Vec<u64>, AllocError>
    ensures { IfOk result (λ numbers. numbers.items ≡ map.keys (chains_of chains.now.entries)) }
{
    let mut numbers = keys_of(alloc, chains)?;
    numbers.sort_unstable();
    Ok(numbers)
}

/// The keys of a table in its own order, each once.
fn keys_of(alloc: Global, chains: &HashMap<u64, Chain>) -> Result<Vec<u64>, AllocError>
    ensures keys { IfOk result (λ numbers. numbers.items ≡ keys chains.now) }
    ensures once { IsUnique nat_eq chains.now }
{
    chains.keys().copied().collect(alloc)
}

/// The chain that was found, or else an empty one.
fn found(chain: Option<Chain>) -> Chain
    ensures { result ≡ unwrap_or chain [] }
{
    match chain {
        Some(chain) => chain,
        None => Chain::new(),
    }
}
