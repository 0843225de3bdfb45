ghost use Rattle.std.specs.Prelude.{◌≡◌, ℕ, ◌+◌, ◌*◌, ◌<◌, ◌≤◌, ◌^◌, ◌++◌, List, IfOk, Some};
ghost use Rattle.std.specs.Prelude.{length, map, slice_get, sum_by};
ghost use Rattle.std.specs.List.{AllByRecursion};
ghost use Rattle.exchange_model.specs.Cells.{IsCell, cell_number, file_cells, placed_in};
ghost use Rattle.exchange_model.specs.Kept.{FileFits};
ghost use Rattle.exchange_model.specs.declared.block.Block.{Block};
ghost use Rattle.store_layout.specs.Laid.{HasCell, HasWord, IsLayout, file_row};
ghost use Rattle.store_layout.specs.Search.{IsIn, IsLastUpTo, SomeUpTo};

use crate::row::{BlockRow, FileRow};
use exchange_model::{Cell, Exchange, File};
use plex_limits::MOST_BLOCKS;
use plex_num::{Memory, Seq};
use std::alloc::Global;
use std::marker::Model;

/// Where each stored cell of an exchange stands among the words of a store. Contracts see its rows.
pub struct Layout {
    blocks: Seq<BlockRow>,
    files: Seq<FileRow>,
    cells: u32,
}

impl Drop for Layout {
    fn drop(self) {
        let Layout {
            blocks: _,
            files: _,
            cells: _,
        } = self;
    }
}

impl Model for Layout {
    ghost use Rattle.store_layout.specs.Rows.{Rows};

    ghost Value = { Rows };

    ghost view = { λ l. record { blocks = l.blocks; files = l.files; cells = l.cells } };
}

/// The layout of an exchange.
#[tactic(auto, using(crate::proofs::Laying::laid_begin))]
pub fn layout_of(alloc: Global, exchange: &Exchange) -> Result<Layout, Memory>
    ensures { IfOk result (IsLayout exchange.now.blocks) }
{
    exchange.kept();
    let mut blocks = Seq::new(alloc);
    let mut files = Seq::new(alloc);
    let mut cells = 0;
    for block in exchange.blocks.as_slice() {
        let variables = block.variables.len() as u32;
        blocks.push(BlockRow {
            first: cells,
            variables,
        })?;
        cells = lay_files(&mut files, cells + variables, block.files.as_slice())?;
    }
    Ok(Layout {
        blocks,
        files,
        cells,
    })
}

/// Appends the rows of these files, the first of which begins at this word, and gives the word
/// after the last one.
#[tactic(auto, using(crate::proofs::Laying::files_laid_begin, crate::proofs::Laying::files_laid_end))]
fn lay_files(rows: &mut Seq<FileRow>, first: u32, files: &[File]) -> Result<u32, Memory>
    requires fits { AllByRecursion FileFits files.now }
    requires few { first + sum_by file_cells files.now < 2 ^ 32 }
    ensures rows { IfOk result (λ _.
        rows.new ≡ rows.old ++ map file_row (placed_in 0 first files.now)) }
    ensures next { IfOk result (λ next. next ≡ first + sum_by file_cells files.now) }
{
    let mut word = first;
    for file in files {
        rows.push(FileRow {
            number: file.number,
            first: word,
            size: file.size,
            fields: file.fields.len() as u32,
            stride: file.record_cells(),
        })?;
        word += file.cells();
    }
    Ok(word)
}

impl Layout {
    /// How many words there are: one for each cell.
    pub fn words(&self) -> u32
        ensures { result ≡ self.now.cells }
    {
        self.cells
    }
}

/// The row of a file, by its number; `None` where there is none.
pub fn file_of(layout: &Layout, number: u32) -> Option<FileRow>
    ensures { result ≡ slice_get layout.now.files number }
{
    layout.files.as_slice().get(number as usize).copied()
}

/// The word of a cell, which must be one of the layout's exchange.
pub fn word_of(layout: &Layout, cell: Cell) -> u32
    requires { HasCell layout.now cell }
    ensures { (blocks : List Block) → IsLayout blocks layout.now → IsCell blocks cell
        → result ≡ cell_number blocks cell }
{
    match cell {
        Cell::Variable { block, index } => block_at(layout, block).first + index,
        Cell::Field {
            file,
            number,
            field,
        } => word_in(file_at(layout, file as usize), number, field),
        Cell::Mark { file, number } => {
            let row = file_at(layout, file as usize);
            word_in(row, number, row.fields)
        }
    }
}

/// The cell of a word, which must be below the number of words.
pub fn cell_of(layout: &Layout, word: u32) -> Cell
    requires { HasWord layout.now word }
    ensures cell { (blocks : List Block) → IsLayout blocks layout.now → IsCell blocks result }
    ensures number { (blocks : List Block) → IsLayout blocks layout.now
        → cell_number blocks result ≡ word }
{
    let block = block_before(layout, word);
    let row = block_at(layout, block);
    if word - row.first < row.variables {
        return Cell::Variable {
            block,
            index: word - row.first,
        };
    }
    let file = file_before(layout, word);
    cell_in(file_at(layout, file), word)
}

/// The row of a block.
fn block_at(layout: &Layout, block: u32) -> BlockRow
    requires { block < length layout.now.blocks }
    ensures { slice_get layout.now.blocks block ≡ Some result }
{
    layout.blocks.as_slice()[block as usize]
}

/// The row of a file.
fn file_at(layout: &Layout, file: usize) -> FileRow
    requires { file < length layout.now.files }
    ensures { slice_get layout.now.files file ≡ Some result }
{
    layout.files.as_slice()[file]
}

/// The last block that begins at this word or before it.
fn block_before(layout: &Layout, word: u32) -> u32
    requires some { SomeUpTo (λ r. r.first) layout.now.blocks word }
    requires short { length layout.now.blocks ≤ MOST_BLOCKS }
    ensures { IsLastUpTo (λ r. r.first) layout.now.blocks word result }
{
    last_block(layout.blocks.as_slice(), word) as u32
}

/// The last file that begins at this word or before it.
fn file_before(layout: &Layout, word: u32) -> usize
    requires { SomeUpTo (λ r. r.first) layout.now.files word }
    ensures { IsLastUpTo (λ r. r.first) layout.now.files word result }
{
    last_file(layout.files.as_slice(), word)
}

fn last_block(rows: &[BlockRow], word: u32) -> usize
    requires { SomeUpTo (λ r. r.first) rows.now word }
    ensures { IsLastUpTo (λ r. r.first) rows.now word result }
{
    rows.partition_point(|row| row.first <= word) - 1
}

fn last_file(rows: &[FileRow], word: u32) -> usize
    requires { SomeUpTo (λ r. r.first) rows.now word }
    ensures { IsLastUpTo (λ r. r.first) rows.now word result }
{
    rows.partition_point(|row| row.first <= word) - 1
}

/// The word at a place of a record.
fn word_in(row: FileRow, number: u32, place: u32) -> u32
    requires { row.first + number * row.stride + place < 2 ^ 32 }
    ensures { result ≡ row.first + number * row.stride + place }
{
    row.first + number * row.stride + place
}

/// The cell of a file with this word.
fn cell_in(row: FileRow, word: u32) -> Cell
    requires from { row.first ≤ word }
    requires some { 0 < row.stride }
    ensures { IsIn row word result }
{
    let place = word - row.first;
    let number = place / row.stride;
    let field = place % row.stride;
    if field < row.fields {
        Cell::Field {
            file: row.number,
            number,
            field,
        }
    } else {
        Cell::Mark {
            file: row.number,
            number,
        }
    }
}
