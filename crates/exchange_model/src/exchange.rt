ghost use Rattle.std.specs.Prelude.{◌≡◌, ◌≤◌, [], length, IfOk, position};
ghost use Rattle.exchange_model.specs.Parts.{parts};
ghost use Rattle.exchange_model.specs.Cells.{first_cell};
ghost use Rattle.exchange_model.specs.Index.{FindsFile, enter_of, is_entry};
ghost use Rattle.exchange_model.specs.Kept.{IsExchange};
ghost use Rattle.exchange_model.specs.Names.{level_of, name_of_block, name_of_signal};

use crate::block::{Block, FilePlace};
use crate::entry::{Entry, PointInfo};
use crate::index::Index;
use crate::signal::SignalKind;
use plex_limits::MOST_ENTRIES;
use plex_num::{Level, Memory, Seq};
use std::alloc::Global;
use std::marker::Model;

/// An exchange: signals, blocks, the entries at which jobs start, and the points, which are the
/// statements of all blocks in order. `cells` counts the stored variables, fields and marks of all
/// blocks.
pub struct Exchange {
    pub signals: Seq<SignalKind>,
    pub blocks: Seq<Block>,
    pub entries: Seq<Entry>,
    pub points: Seq<PointInfo>,
    pub cells: u32,
    index: Index,
}

impl Drop for Exchange {
    fn drop(self) {
        let Exchange {
            signals: _,
            blocks: _,
            entries: _,
            points: _,
            cells: _,
            index: _,
        } = self;
    }
}

impl Model for Exchange {
    ghost use Rattle.std.specs.Coded.{codes};
    ghost use Rattle.exchange_model.specs.Parts.{Parts, parts};
    ghost use Rattle.exchange_model.specs.Kept.{IsExchange};
    ghost use Rattle.exchange_model.specs.Index.{IsIndex};
    ghost use Rattle.exchange_model.specs.contracts.stmt.StmtKind as kind;

    ghost Value = { Parts };

    ghost coded = { Prim.hlevel (codes, kind.the_row.coded) };

    ghost view = { λ x. parts x.signals x.blocks x.entries x.points x.cells };

    ghost invariant = { λ x. IsExchange (parts x.signals x.blocks x.entries x.points x.cells)
        × IsIndex (parts x.signals x.blocks x.entries x.points x.cells) x.index };
}

impl Exchange {
    /// The exchange of these parts, which must keep all that an exchange keeps. Files, entries and
    /// ENTERs are looked up in it without a walk, by what is noted of them here.
    pub fn new(
        alloc: Global,
        signals: Seq<SignalKind>,
        blocks: Seq<Block>,
        entries: Seq<Entry>,
        points: Seq<PointInfo>,
        cells: u32,
    ) -> Result<Exchange, Memory>
        requires kept { IsExchange (parts signals blocks entries points cells) }
        ensures { IfOk result (λ x. x ≡ parts signals blocks entries points cells) }
    {
        let index = Index::new(alloc, blocks.as_slice(), entries.as_slice())?;
        Ok(Exchange {
            signals,
            blocks,
            entries,
            points,
            cells,
            index,
        })
    }

    /// The exchange without signals and blocks.
    #[tactic(auto, using(crate::proofs::Facts::empty_kept))]
    pub fn empty(alloc: Global) -> Result<Exchange, Memory>
        ensures { IfOk result (λ x. x ≡ parts [] [] [] [] 0) }
    {
        Exchange::new(
            alloc,
            Seq::new(alloc),
            Seq::new(alloc),
            Seq::new(alloc),
            Seq::new(alloc),
            0,
        )
    }

    /// What an exchange keeps, for those who prove.
    pub fn kept(&self)
        ensures { IsExchange self.now }
    {
        let _ = &self.cells;
    }

    /// The entries, which are within their limit.
    pub fn entries(&self) -> &[Entry]
        ensures list { result.now ≡ self.now.entries }
        ensures few { length result.now ≤ MOST_ENTRIES }
    {
        self.entries.as_slice()
    }

    /// The cell of a block's first variable; past the last block, the number of cells.
    #[tactic(auto, using(crate::proofs::Indexed::first_found, crate::proofs::Indexed::first_past))]
    pub fn first_cell(&self, block: u32) -> u32
        ensures { result ≡ first_cell self.now.blocks block }
    {
        match self.index.first(block) {
            Some(first) => first,
            None => self.cells,
        }
    }

    /// The file of this number; `None` exactly where there is none.
    #[tactic(auto, using(crate::proofs::Indexed::file_found))]
    pub fn file(&self, number: u32) -> Option<FilePlace<'_>>
        ensures { FindsFile self.now.blocks number result }
    {
        let Some(position) = self.index.position(number) else {
            return None;
        };
        let block = &self.blocks.as_slice()[position.block as usize];
        Some(FilePlace {
            block: position.block,
            file: &block.files.as_slice()[position.place],
            first: position.first,
        })
    }

    /// The name of the signal of this number; no bytes where there is none.
    pub fn signal_name(&self, number: u32) -> &[u8]
        ensures { result.now ≡ name_of_signal self.now.signals number }
    {
        match self.signals.get(number as usize) {
            Some(signal) => signal.name().as_slice(),
            None => &[],
        }
    }

    /// The name of the block of this number; no bytes where there is none.
    pub fn block_name(&self, number: u32) -> &[u8]
        ensures { result.now ≡ name_of_block self.now.blocks number }
    {
        match self.blocks.get(number as usize) {
            Some(block) => block.name.as_slice(),
            None => &[],
        }
    }

    /// The level at which the jobs of an entry wait; B where there is none of this number.
    pub fn level_of(&self, entry: u32) -> Level
        ensures { result ≡ level_of self.now entry }
    {
        let Some(start) = self.entries.get(entry as usize) else {
            return Level::B;
        };
        match self.signals.get(start.signal as usize) {
            Some(SignalKind::Buffered { level, .. }) => *level,
            _ => Level::B,
        }
    }

    /// The number of the entry of a signal at a block, if there is one.
    pub fn entry_of(&self, block: u32, signal: u32) -> Option<u32>
        ensures { result ≡ position (is_entry block signal) self.now.entries }
    {
        self.index.entries.number(block, signal)
    }

    /// The place of the ENTER of a signal in a block, if there is one.
    pub fn enter_of(&self, block: u32, signal: u32) -> Option<u32>
        ensures { result ≡ enter_of self.now.blocks block signal }
    {
        self.index.enters.number(block, signal)
    }
}
