// The signals of an exchange, found by name.
ghost use Rattle.std.specs.Prelude.{◌≡◌, ℕ, List, IfOk, OnOk, MatchOption, Option, if◌then◌else◌};
ghost use Rattle.std.specs.Str.{bytes_eq};
ghost use Rattle.indexmap.specs.IndexMap.{get};
ghost use Rattle.first_fault.specs.First.{or_else};
ghost use Rattle.exchange_model.specs.Kept.{signal_name, signal_count};
ghost use Rattle.signal_types.specs.Found.{number_in, kind_at, kind_in};

use exchange_model::SignalKind;
use indexmap::IndexMap;
use plex_num::{Memory, Name, Seed};
use std::alloc::Global;
use token_grammar::KeptName;

/// Signals, each found by its name. Of two signals of one name the first counts.
pub struct SignalTable<'a> {
    pub(crate) numbers: IndexMap<Name, u32, Seed>,
    pub kinds: &'a [SignalKind],
    /// The seed of this table, and of others over names of the same text.
    pub seed: Seed,
    pub ghost known: { (n : List ℕ) → get bytes_eq numbers n ≡ number_in kinds.now n },
}

impl Drop for SignalTable<'_> {
    fn drop(self) {
        let SignalTable {
            numbers: _,
            kinds: _,
            seed: _,
        } = self;
    }
}

/// The name of a signal.
pub fn name_of(signal: &SignalKind) -> &Name
    ensures { result.now ≡ signal_name signal.now }
{
    match signal {
        SignalKind::Buffered { name, .. } => name,
        SignalKind::Direct { name, .. } => name,
        SignalKind::Combined { name, .. } => name,
        SignalKind::Answer { name, .. } => name,
        SignalKind::Outside { name, .. } => name,
    }
}

/// How many values a signal carries.
pub fn count_of_signal(signal: &SignalKind) -> u8
    ensures { result ≡ signal_count signal.now }
{
    match signal {
        SignalKind::Buffered { count, .. } => *count,
        SignalKind::Direct { count, .. } => *count,
        SignalKind::Combined { count, .. } => *count,
        SignalKind::Answer { count, .. } => *count,
        SignalKind::Outside { count, .. } => *count,
    }
}

/// No name; it takes no memory.
fn no_numbers(alloc: Global, seed: Seed) -> IndexMap<Name, u32, Seed>
    ensures { (n : List ℕ) → get bytes_eq result n ≡ Option.None }
{
    IndexMap::with_hasher(alloc, seed)
}

/// Takes in a signal's name with its number; a name that is there keeps its number.
#[tactic(auto, using(crate::proofs::Found::note_kept, crate::proofs::Found::note_new))]
fn note(numbers: &mut IndexMap<Name, u32, Seed>, name: &Name, number: u32) -> Result<(), Memory>
    ensures { OnOk result ((n : List ℕ) → get bytes_eq numbers.new n
        ≡ or_else (get bytes_eq numbers.old n)
        (if bytes_eq name.now n then Option.Some number else Option.None)) }
{
    if numbers.get(name).is_some() {
        return Ok(());
    }
    match numbers.insert(name.copy(), number) {
        Ok(_) => Ok(()),
        Err(_) => Err(Memory),
    }
}

impl<'a> SignalTable<'a> {
    /// The table of these signals, with a seed that hangs on their names. Memory is refused also
    /// where there are 2^32 of them or more.
    #[tactic(auto, using(crate::proofs::Found::table_begin, crate::proofs::Found::table_more, crate::proofs::Found::table_end))]
    pub fn of(alloc: Global, kinds: &'a [SignalKind], seed: Seed) -> Result<SignalTable<'a>, Memory>
        ensures kinds { IfOk result (λ s. s.kinds.now ≡ kinds.now) }
        ensures numbers { IfOk result (λ s. (n : List ℕ)
            → get bytes_eq s.numbers n ≡ number_in kinds.now n) }
    {
        let mut numbers = no_numbers(alloc, seed);
        let mut number = 0;
        for kind in kinds {
            note(&mut numbers, name_of(kind), number)?;
            let Some(next) = number.checked_add(1) else {
                return Err(Memory);
            };
            number = next;
        }
        Ok(SignalTable {
            numbers,
            kinds,
            seed,
        })
    }

    /// The number of the first signal of this name.
    pub fn number(&self, name: &KeptName) -> Option<u32>
        ensures kept { result ≡ get bytes_eq self.now.numbers name.now }
        ensures found { result ≡ number_in self.now.kinds.now name.now }
    {
        self.numbers.get(&name.copy()).copied()
    }

    /// The first signal of this name.
    pub fn kind(&self, name: &KeptName) -> Option<&'a SignalKind>
        ensures kept { MatchOption result (kind_at self.now.kinds.now
            (get bytes_eq self.now.numbers name.now) ≡ Option.None)
            (λ k. kind_at self.now.kinds.now (get bytes_eq self.now.numbers name.now)
            ≡ Option.Some k.now) }
        ensures found { MatchOption result (kind_in self.now.kinds.now name.now ≡ Option.None)
            (λ k. kind_in self.now.kinds.now name.now ≡ Option.Some k.now) }
    {
        match self.number(name) {
            Some(number) => self.kinds.get(number as usize),
            None => None,
        }
    }
}
