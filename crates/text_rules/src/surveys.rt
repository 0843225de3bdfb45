// What the surveys of all blocks say, looked up by hash.
ghost use Rattle.std.specs.Prelude.{◌≡◌, ◌+◌, ◌||◌, ◌&&◌, ℕ, List, false, not, nat_eq, IfOk, OnOk};
ghost use Rattle.std.specs.Prelude.{if◌then◌else◌, Option};
ghost use Rattle.std.specs.Str.{bytes_eq};
ghost use Rattle.indexmap.specs.IndexMap.{get};
ghost use Rattle.first_fault.specs.First.{any, or_else};
ghost use Rattle.text_rules.specs.Surveys.{line_receives, block_named, first_receiver};
ghost use Rattle.text_rules.specs.Surveys.{receiver_count, receives_at};
ghost use Rattle.text_rules.specs.Received.{has_pair, counted_in, first_in, chosen};

use indexmap::{IndexMap, IndexSet};
use plex_ast::{Block, Survey, SurveyKind};
use plex_num::{Memory, Name, Seed};
use std::alloc::Global;
use token_grammar::KeptName;

/// The blocks that receive a signal: the first of them, and how many there are.
#[derive(Clone, Copy)]
pub(crate) struct Receiving {
    pub(crate) first: u32,
    pub(crate) count: u64,
}

/// What blocks receive.
pub(crate) struct Received {
    pub(crate) pairs: IndexSet<(u32, Name), Seed>,
    pub(crate) signals: IndexMap<Name, Receiving, Seed>,
}

impl Drop for Received {
    fn drop(self) {
        let Received {
            pairs: _,
            signals: _,
        } = self;
    }
}

impl Received {
    fn new(alloc: Global, seed: Seed) -> Received
        ensures pairs { (b : ℕ) (s : List ℕ) → has_pair result b s ≡ false }
        ensures counts { (s : List ℕ) → counted_in result s ≡ 0 }
        ensures first { (s : List ℕ) → first_in result s ≡ Option.None }
    {
        Received {
            pairs: IndexSet::with_hasher(alloc, seed),
            signals: IndexMap::with_hasher(alloc, seed),
        }
    }

    /// Whether the block of a number receives a signal.
    pub(crate) fn has(&self, block: u32, signal: &KeptName) -> bool
        ensures { result ≡ has_pair self.now block signal.now }
    {
        let pair = (block, signal.copy());
        self.pairs.contains(&pair)
    }

    fn receiving(&self, signal: &KeptName) -> Option<Receiving>
        ensures { result ≡ get bytes_eq self.now.signals signal.now }
    {
        self.signals.get(&signal.copy()).copied()
    }

    /// How many blocks receive a signal.
    pub(crate) fn count(&self, signal: &KeptName) -> u64
        ensures { result ≡ counted_in self.now signal.now }
    {
        match self.receiving(signal) {
            Some(receiving) => receiving.count,
            None => 0,
        }
    }

    /// The first block that receives a signal.
    pub(crate) fn first(&self, signal: &KeptName) -> Option<u32>
        ensures { result ≡ first_in self.now signal.now }
    {
        match self.receiving(signal) {
            Some(receiving) => Some(receiving.first),
            None => None,
        }
    }

    /// One block more receives a signal.
    #[tactic(auto, using(crate::proofs::SurveySteps::first_again, crate::proofs::SurveySteps::first_new, crate::proofs::SurveySteps::count_again, crate::proofs::SurveySteps::count_new))]
    fn count_one(&mut self, block: u32, signal: &KeptName) -> Result<(), Memory>
        ensures pairs { OnOk result (self.new.pairs ≡ self.old.pairs) }
        ensures counts { OnOk result
            ((s : List ℕ) → counted_in self.new s
            ≡ counted_in self.old s + (if bytes_eq signal.now s then 1 else 0)) }
        ensures first { OnOk result
            ((s : List ℕ) → first_in self.new s
            ≡ or_else (first_in self.old s) (chosen (bytes_eq signal.now s) block)) }
    {
        let receiving = match self.receiving(signal) {
            Some(Receiving { first, count }) => {
                let Some(count) = count.checked_add(1) else {
                    return Err(Memory);
                };
                Receiving { first, count }
            }
            None => Receiving {
                first: block,
                count: 1,
            },
        };
        match self.signals.insert(signal.copy(), receiving) {
            Ok(_) => Ok(()),
            Err(_) => Err(Memory),
        }
    }

    /// Adds a block with a signal that it receives; says whether that is new.
    fn add_pair(&mut self, block: u32, signal: &KeptName) -> Result<bool, Memory>
        ensures added { IfOk result (λ added. added ≡ not (has_pair self.old block signal.now)) }
        ensures pairs { OnOk result
            ((b : ℕ) (s : List ℕ) → has_pair self.new b s
            ≡ (has_pair self.old b s || (nat_eq b block && bytes_eq signal.now s))) }
        ensures signals { OnOk result (self.new.signals ≡ self.old.signals) }
    {
        let Ok((_, added)) = self.pairs.insert_full((block, signal.copy())) else {
            return Err(Memory);
        };
        Ok(added)
    }

    fn count_if(&mut self, added: bool, block: u32, signal: &KeptName) -> Result<(), Memory>
        ensures pairs { OnOk result (self.new.pairs ≡ self.old.pairs) }
        ensures counts { OnOk result
            ((s : List ℕ) → counted_in self.new s
            ≡ counted_in self.old s + (if bytes_eq signal.now s && added then 1 else 0)) }
        ensures first { OnOk result
            ((s : List ℕ) → first_in self.new s
            ≡ or_else (first_in self.old s) (chosen (bytes_eq signal.now s && added) block)) }
    {
        if added {
            self.count_one(block, signal)?;
        }
        Ok(())
    }

    /// A block receives a signal; one that it received before is not counted again.
    fn receive(&mut self, block: u32, signal: &KeptName) -> Result<(), Memory>
        ensures pairs { OnOk result
            ((b : ℕ) (s : List ℕ) → has_pair self.new b s
            ≡ (has_pair self.old b s || (nat_eq b block && bytes_eq signal.now s))) }
        ensures counts { OnOk result
            ((s : List ℕ) → counted_in self.new s
            ≡ counted_in self.old s
            + (if bytes_eq signal.now s && not (has_pair self.old block signal.now)
            then 1 else 0)) }
        ensures first { OnOk result
            ((s : List ℕ) → first_in self.new s
            ≡ or_else (first_in self.old s)
            (chosen (bytes_eq signal.now s && not (has_pair self.old block signal.now)) block)) }
    {
        let added = self.add_pair(block, signal)?;
        self.count_if(added, block, signal)?;
        Ok(())
    }

    #[tactic(auto, using(crate::proofs::SurveySteps::counted_once, crate::proofs::SurveySteps::first_once, crate::proofs::SurveySteps::nothing_paired))]
    fn receive_line(&mut self, block: u32, line: &Survey) -> Result<(), Memory>
        ensures pairs { OnOk result
            ((b : ℕ) (s : List ℕ) → has_pair self.new b s
            ≡ (has_pair self.old b s || (nat_eq b block && line_receives s line.now))) }
        ensures counts { OnOk result
            ((s : List ℕ) → counted_in self.new s
            ≡ counted_in self.old s
            + (if line_receives s line.now && not (has_pair self.old block s)
            then 1 else 0)) }
        ensures first { OnOk result
            ((s : List ℕ) → first_in self.new s
            ≡ or_else (first_in self.old s)
            (chosen (line_receives s line.now && not (has_pair self.old block s)) block)) }
    {
        match &line.kind {
            SurveyKind::Receive { signal } => {
                self.receive(block, &signal.name)?;
                Ok(())
            }
            SurveyKind::Send { signal: _ } => Ok(()),
        }
    }

    /// A block that received nothing so far receives the signals of its survey.
    fn receive_all(&mut self, block: u32, lines: &[Survey]) -> Result<(), Memory>
        requires fresh { (s : List ℕ) → has_pair self.old block s ≡ false }
        ensures pairs { OnOk result
            ((b : ℕ) (s : List ℕ) → has_pair self.new b s
            ≡ (has_pair self.old b s || (nat_eq b block && any (line_receives s) lines.now))) }
        ensures counts { OnOk result
            ((s : List ℕ) → counted_in self.new s
            ≡ counted_in self.old s + (if any (line_receives s) lines.now then 1 else 0)) }
        ensures first { OnOk result
            ((s : List ℕ) → first_in self.new s
            ≡ or_else (first_in self.old s) (chosen (any (line_receives s) lines.now) block)) }
    {
        for line in lines {
            self.receive_line(block, line)?;
        }
        Ok(())
    }
}

/// The numbers of blocks by their names.
pub(crate) struct Numbers {
    pub(crate) names: IndexMap<Name, u32, Seed>,
}

impl Drop for Numbers {
    fn drop(self) {
        let Numbers { names: _ } = self;
    }
}

impl Numbers {
    fn new(alloc: Global, seed: Seed) -> Numbers
        ensures { (n : List ℕ) → get bytes_eq result.names n ≡ Option.None }
    {
        Numbers {
            names: IndexMap::with_hasher(alloc, seed),
        }
    }

    fn number(&self, name: &KeptName) -> Option<u32>
        ensures { result ≡ get bytes_eq self.now.names name.now }
    {
        self.names.get(&name.copy()).copied()
    }

    /// Takes in a name with its number; a name that is there keeps its number.
    #[tactic(auto, using(crate::proofs::SurveySteps::note_kept, crate::proofs::SurveySteps::note_new))]
    fn add(&mut self, name: &KeptName, number: u32) -> Result<(), Memory>
        ensures { OnOk result
            ((n : List ℕ) → get bytes_eq self.new.names n
            ≡ or_else (get bytes_eq self.old.names n) (if bytes_eq name.now n
            then Option.Some number else Option.None)) }
    {
        if self.number(name).is_some() {
            return Ok(());
        }
        match self.names.insert(name.copy(), number) {
            Ok(_) => Ok(()),
            Err(_) => Err(Memory),
        }
    }
}

/// The blocks of a text, each found by its name and by the signals that its survey receives. Of
/// several blocks the first counts.
pub struct BlockTable<'a> {
    pub(crate) numbers: Numbers,
    pub(crate) received: Received,
    /// The blocks of the text, in order.
    pub blocks: &'a [Block],
    pub ghost named: { (n : List ℕ) → get bytes_eq numbers.names n ≡ block_named blocks.now n },
    pub ghost pairs: { (b : ℕ) (s : List ℕ) → has_pair received b s ≡ receives_at blocks.now b s },
    pub ghost counted: { (s : List ℕ) → counted_in received s ≡ receiver_count blocks.now s },
    pub ghost first: { (s : List ℕ) → first_in received s ≡ first_receiver blocks.now s },
}

impl Drop for BlockTable<'_> {
    fn drop(self) {
        let BlockTable {
            numbers: _,
            received: _,
            blocks: _,
        } = self;
    }
}

impl<'a> BlockTable<'a> {
    /// The table of these blocks, with a seed that hangs on the names of the text. Memory is
    /// refused also where there are 2^32 of them or more.
    #[tactic(auto, using(crate::proofs::SurveySteps::blocks_named, crate::proofs::SurveySteps::blocks_pairs, crate::proofs::SurveySteps::blocks_counts, crate::proofs::SurveySteps::blocks_firsts))]
    pub fn of(alloc: Global, blocks: &'a [Block], seed: Seed) -> Result<BlockTable<'a>, Memory>
        ensures { IfOk result (λ t. t.blocks.now ≡ blocks.now) }
    {
        let mut numbers = Numbers::new(alloc, seed);
        let mut received = Received::new(alloc, seed);
        let mut number = 0;
        for block in blocks {
            numbers.add(&block.name.name, number)?;
            received.receive_all(number, block.surveys.as_slice())?;
            let Some(next) = number.checked_add(1) else {
                return Err(Memory);
            };
            number = next;
        }
        Ok(BlockTable {
            numbers,
            received,
            blocks,
        })
    }

    /// The number of the block of this name.
    pub fn number(&self, name: &KeptName) -> Option<u32>
        ensures kept { result ≡ get bytes_eq self.now.numbers.names name.now }
        ensures found { result ≡ block_named self.now.blocks.now name.now }
    {
        self.numbers.number(name)
    }

    /// The number of the first block that receives this signal.
    pub fn first_receiver(&self, signal: &KeptName) -> Option<u32>
        ensures kept { result ≡ first_in self.now.received signal.now }
        ensures found { result ≡ first_receiver self.now.blocks.now signal.now }
    {
        self.received.first(signal)
    }

    /// How many blocks receive this signal.
    pub fn receiver_count(&self, signal: &KeptName) -> u64
        ensures kept { result ≡ counted_in self.now.received signal.now }
        ensures found { result ≡ receiver_count self.now.blocks.now signal.now }
    {
        self.received.count(signal)
    }

    /// Whether the block of a number receives this signal.
    pub fn receives(&self, block: u32, signal: &KeptName) -> bool
        ensures kept { result ≡ has_pair self.now.received block signal.now }
        ensures found { result ≡ receives_at self.now.blocks.now block signal.now }
    {
        self.received.has(block, signal)
    }
}
