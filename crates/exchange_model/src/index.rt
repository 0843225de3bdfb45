// What an exchange knows by number.
ghost use Rattle.std.specs.Prelude.{◌≡◌, ◌+◌, ◌<◌, ◌≤◌, ◌^◌, ◌++◌, ℕ, length, sum_by, slice_get};
ghost use Rattle.std.specs.Prelude.{IfOk, OnOk, None};
ghost use Rattle.exchange_model.specs.Cells.{cell_count, file_cells};
ghost use Rattle.exchange_model.specs.Index.{HasNoted, HasNotedRows, IsOfEnters, IsOfEntries};
ghost use Rattle.exchange_model.specs.Index.{firsts_from, noted, positions_from, positions_in};

use crate::block::{Block, Enter, File};
use crate::entry::Entry;
use plex_limits::MOST_ENTRIES;
use plex_num::{Memory, Seed, Seq};
use std::alloc::Global;
use std::collections::HashMap;

/// Where a file stands: the number of its block, its place in the list of that block, and the cell
/// at which its records begin.
#[derive(Clone, Copy)]
pub(crate) struct FilePosition {
    pub(crate) block: u32,
    pub(crate) place: usize,
    pub(crate) first: u32,
}

/// Numbers that were noted of pairs of a block and a signal. What is noted first stays.
pub(crate) struct Noted {
    pub(crate) numbers: HashMap<(u32, u32), u32, Seed>,
}

impl Drop for Noted {
    fn drop(self) {
        let Noted { numbers: _ } = self;
    }
}

/// Of each block its first cell, of each file where it stands, and of each signal of a block the
/// number of its entry and the place of its ENTER.
pub(crate) struct Index {
    pub(crate) firsts: Seq<u32>,
    pub(crate) files: Seq<FilePosition>,
    pub(crate) entries: Noted,
    pub(crate) enters: Noted,
}

impl Drop for Index {
    fn drop(self) {
        let Index {
            firsts: _,
            files: _,
            entries: _,
            enters: _,
        } = self;
    }
}

impl Noted {
    fn new(alloc: Global, seed: Seed) -> Noted
        ensures { (b s : ℕ) → noted result b s ≡ None }
    {
        Noted {
            numbers: HashMap::with_hasher(alloc, seed),
        }
    }

    /// The number that was noted of a block and a signal.
    pub(crate) fn number(&self, block: u32, signal: u32) -> Option<u32>
        ensures { result ≡ noted self.now block signal }
    {
        let pair = (block, signal);
        self.numbers.get(&pair).copied()
    }

    /// Notes a number of a block and a signal, unless one is noted.
    #[tactic(auto, using(crate::proofs::Noting::noted_stays))]
    fn note(&mut self, block: u32, signal: u32, number: u32) -> Result<(), Memory>
        ensures { OnOk result (HasNoted self.old self.new block signal number) }
    {
        if self.number(block, signal).is_some() {
            return Ok(());
        }
        match self.numbers.insert((block, signal), number) {
            Ok(_) => Ok(()),
            Err(_) => Err(Memory),
        }
    }

    /// Notes the places of the ENTERs of a block.
    #[tactic(auto, using(crate::proofs::Noting::rows_begin))]
    fn note_rows(&mut self, block: u32, rows: &[Enter]) -> Result<(), Memory>
        ensures { OnOk result (HasNotedRows self.old self.new block rows.now) }
    {
        for row in rows {
            self.note(block, row.signal, row.place)?;
        }
        Ok(())
    }
}

/// The first cell of each block.
#[tactic(auto, using(crate::proofs::Indexed::firsts_listed))]
fn firsts_of(alloc: Global, blocks: &[Block]) -> Result<Seq<u32>, Memory>
    requires { cell_count blocks.now < 2 ^ 32 }
    ensures { IfOk result (λ firsts. firsts ≡ firsts_from 0 blocks.now) }
{
    let mut firsts = Seq::new(alloc);
    let mut cell = 0;
    for block in blocks {
        firsts.push(cell)?;
        cell += block.cells();
    }
    Ok(firsts)
}

/// Where the files of each block stand.
#[tactic(auto, using(crate::proofs::Indexed::all_listed))]
fn positions_of(alloc: Global, blocks: &[Block]) -> Result<Seq<FilePosition>, Memory>
    requires few { cell_count blocks.now < 2 ^ 32 }
    requires short { length blocks.now < 2 ^ 32 }
    ensures { IfOk result (λ positions. positions ≡ positions_from 0 0 blocks.now) }
{
    let mut positions = Seq::new(alloc);
    let mut cell = 0;
    for (number, block) in blocks.iter().enumerate() {
        let first = cell + block.variables.len() as u32;
        cell = add_positions(&mut positions, number as u32, first, block.files.as_slice())?;
    }
    Ok(positions)
}

/// Appends where the files of a block stand, the first of which begins at this cell, and gives the
/// cell after the last.
#[tactic(auto, using(crate::proofs::Indexed::files_listed))]
fn add_positions(
    positions: &mut Seq<FilePosition>,
    block: u32,
    first: u32,
    files: &[File],
) -> Result<u32, Memory>
    requires { first + sum_by file_cells files.now < 2 ^ 32 }
    ensures positions { IfOk result (λ _.
        positions.new ≡ positions.old ++ positions_in block 0 first files.now) }
    ensures next { IfOk result (λ next. next ≡ first + sum_by file_cells files.now) }
{
    let mut cell = first;
    for (place, file) in files.iter().enumerate() {
        positions.push(FilePosition {
            block,
            place,
            first: cell,
        })?;
        cell += file.cells();
    }
    Ok(cell)
}

/// The seed of what is noted of these entries.
fn seed_of_entries(entries: &[Entry]) -> Seed {
    let mut seed = Seed::new();
    for entry in entries {
        seed = seed.with_number(entry.block).with_number(entry.signal);
    }
    seed
}

/// The seed of what is noted of the ENTERs of these blocks.
fn seed_of_enters(blocks: &[Block]) -> Seed {
    let mut seed = Seed::new();
    for block in blocks {
        seed = with_rows(seed, block.enters.as_slice());
    }
    seed
}

/// The seed that hangs on the rows of one block more.
fn with_rows(seed: Seed, rows: &[Enter]) -> Seed {
    let mut seed = seed.with(&rows.len().to_le_bytes());
    for row in rows {
        seed = seed.with_number(row.signal);
    }
    seed
}

/// The numbers of the entries.
#[tactic(auto, using(crate::proofs::Noting::entries_end))]
fn entries_of(alloc: Global, entries: &[Entry]) -> Result<Noted, Memory>
    requires { length entries.now ≤ MOST_ENTRIES }
    ensures { IfOk result (λ made. IsOfEntries made entries.now) }
{
    let mut made = Noted::new(alloc, seed_of_entries(entries));
    for (number, entry) in entries.iter().enumerate() {
        made.note(entry.block, entry.signal, number as u32)?;
    }
    Ok(made)
}

/// The places of the ENTERs of all blocks.
#[tactic(auto, using(crate::proofs::Noting::enters_end))]
fn enters_of(alloc: Global, blocks: &[Block]) -> Result<Noted, Memory>
    requires { length blocks.now < 2 ^ 32 }
    ensures { IfOk result (λ made. IsOfEnters made blocks.now) }
{
    let mut made = Noted::new(alloc, seed_of_enters(blocks));
    for (number, block) in blocks.iter().enumerate() {
        made.note_rows(number as u32, block.enters.as_slice())?;
    }
    Ok(made)
}

impl Index {
    /// The index of these blocks and entries.
    pub(crate) fn new(alloc: Global, blocks: &[Block], entries: &[Entry]) -> Result<Index, Memory>
        requires few { cell_count blocks.now < 2 ^ 32 }
        requires short { length blocks.now < 2 ^ 32 }
        requires entries { length entries.now ≤ MOST_ENTRIES }
        ensures firsts { IfOk result (λ i. i.firsts ≡ firsts_from 0 blocks.now) }
        ensures files { IfOk result (λ i. i.files ≡ positions_from 0 0 blocks.now) }
        ensures entries { IfOk result (λ i. IsOfEntries i.entries entries.now) }
        ensures enters { IfOk result (λ i. IsOfEnters i.enters blocks.now) }
    {
        Ok(Index {
            firsts: firsts_of(alloc, blocks)?,
            files: positions_of(alloc, blocks)?,
            entries: entries_of(alloc, entries)?,
            enters: enters_of(alloc, blocks)?,
        })
    }

    /// The first cell of a block, if it is there.
    pub(crate) fn first(&self, block: u32) -> Option<u32>
        ensures { result ≡ slice_get self.now.firsts block }
    {
        self.firsts.as_slice().get(block as usize).copied()
    }

    /// Where the file of this number stands, if there is one.
    pub(crate) fn position(&self, number: u32) -> Option<FilePosition>
        ensures { result ≡ slice_get self.now.files number }
    {
        self.files.as_slice().get(number as usize).copied()
    }
}
