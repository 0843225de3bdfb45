// What is the same in two exchanges, by names.
ghost use Rattle.std.specs.Prelude.{◌≡◌, IfOk, MatchOption, Some, None, slice_get};
ghost use Rattle.std.specs.Option.{option_copied};
ghost use Rattle.exchange_model.specs.Kept.{variable_names};
ghost use Rattle.exchange_model.specs.declared.entry.Cell.TheVariants.{Variable as VariableCell};
ghost use Rattle.exchange_model.specs.declared.entry.Cell.TheVariants.{Field as FieldCell};
ghost use Rattle.block_change.specs.Names.{IsDirectory, names_of};
ghost use Rattle.block_change.specs.Same.{cell_variable, field_at, field_cell_in, file_at};
ghost use Rattle.block_change.specs.Same.{same_block, same_cell, same_entry, same_file};
ghost use Rattle.block_change.specs.Same.{same_signal, variable_at, variable_cell_at};

use crate::directory::{BlockNames, Directory, directory_of};
use crate::names::Names;
use exchange_model::{Block, Cell, Entry, Exchange, File, Variable};
use plex_num::{Memory, Name};
use std::alloc::Global;

/// An exchange, and all that it has by its names.
#[derive(Drop)]
pub struct Named<'a> {
    pub exchange: &'a Exchange,
    pub(crate) names: Directory,
    pub(crate) ghost named: { IsDirectory exchange.now names },
}

impl<'a> Named<'a> {
    /// The exchange, with its directory. Memory is the only reason for an error.
    pub fn of(alloc: Global, exchange: &'a Exchange) -> Result<Named<'a>, Memory>
        ensures { IfOk result (λ named. named.exchange.now ≡ exchange.now) }
    {
        let names = directory_of(alloc, exchange)?;
        Ok(Named { exchange, names })
    }
}

/// A block, and the names of what stands in it.
#[derive(Drop)]
pub(crate) struct Inside<'a> {
    pub(crate) block: &'a Block,
    pub(crate) names: &'a BlockNames,
}

/// A file, and the names of its fields.
#[derive(Drop)]
pub(crate) struct FileInside<'a> {
    pub(crate) file: &'a File,
    pub(crate) fields: &'a Names,
}

/// The block of `to` that has the name of this block of `from`.
pub(crate) fn same_block(from: &Exchange, to: &Named<'_>, block: u32) -> Option<u32>
    ensures { result ≡ same_block from.now.blocks to.now.exchange.now.blocks block }
{
    let Some(found) = from.blocks.as_slice().get(block as usize) else {
        return None;
    };
    to.names.blocks.place(&found.name)
}

/// The signal of `to` that has the name of this signal of `from`.
fn same_signal(from: &Exchange, to: &Named<'_>, signal: u32) -> Option<u32>
    ensures { result ≡ same_signal from.now.signals to.now.exchange.now.signals signal }
{
    let Some(found) = from.signals.as_slice().get(signal as usize) else {
        return None;
    };
    to.names.signals.place(found.name())
}

/// The entry of `to` at the block and for the signal of the same names.
pub(crate) fn same_entry(from: &Exchange, to: &Named<'_>, entry: Entry) -> Option<u32>
    ensures { result ≡ same_entry from.now to.now.exchange.now entry }
{
    let Some(block) = same_block(from, to, entry.block) else {
        return None;
    };
    let Some(signal) = same_signal(from, to, entry.signal) else {
        return None;
    };
    to.exchange.entry_of(block, signal)
}

/// The block of this number.
#[tactic(auto, using(crate::proofs::Lists::names_there))]
fn inside_of<'a>(to: &'a Named<'_>, block: u32) -> Option<Inside<'a>>
    ensures { MatchOption result
        (slice_get to.now.exchange.now.blocks block ≡ None)
        (λ i. (slice_get to.now.exchange.now.blocks block ≡ Some i.block.now)
        × (i.names.now ≡ names_of i.block.now)) }
{
    let exchange: &Exchange = to.exchange;
    let Some(found) = exchange.blocks.as_slice().get(block as usize) else {
        return None;
    };
    let Some(names) = to.names.inside.as_slice().get(block as usize) else {
        return None;
    };
    Some(Inside {
        block: found,
        names,
    })
}

/// The file of this name in a block.
#[tactic(auto, using(crate::proofs::Lists::fields_there))]
pub(crate) fn file_at<'a>(to: &'a Named<'_>, name: &Name, block: u32) -> Option<FileInside<'a>>
    ensures { MatchOption result
        (file_at to.now.exchange.now.blocks name.now block ≡ None)
        (λ f. (file_at to.now.exchange.now.blocks name.now block ≡ Some f.file.now)
        × (f.fields.now ≡ variable_names f.file.now.fields)) }
{
    let Some(inside) = inside_of(to, block) else {
        return None;
    };
    let Some(place) = inside.names.files.place(name) else {
        return None;
    };
    let Some(file) = inside.block.files.as_slice().get(place as usize) else {
        return None;
    };
    let Some(fields) = inside.names.fields.as_slice().get(place as usize) else {
        return None;
    };
    Some(FileInside { file, fields })
}

/// The file of `to` that has the names of this file of `from`.
pub(crate) fn same_file<'a>(from: &Exchange, to: &'a Named<'_>, file: u32) -> Option<FileInside<'a>>
    ensures { MatchOption result
        (same_file from.now.blocks to.now.exchange.now.blocks file ≡ None)
        (λ f. (same_file from.now.blocks to.now.exchange.now.blocks file ≡ Some f.file.now)
        × (f.fields.now ≡ variable_names f.file.now.fields)) }
{
    let Some(place) = from.file(file) else {
        return None;
    };
    let Some(block) = same_block(from, to, place.block) else {
        return None;
    };
    file_at(to, &place.file.name, block)
}

/// A variable of a block.
fn variable_at(exchange: &Exchange, block: u32, index: u32) -> Option<&Variable>
    ensures { option_copied result ≡ variable_at exchange.now.blocks block index }
{
    let Some(found) = exchange.blocks.as_slice().get(block as usize) else {
        return None;
    };
    found.variables.as_slice().get(index as usize)
}

/// A field of a file.
fn field_at(exchange: &Exchange, file: u32, field: u32) -> Option<&Variable>
    ensures { option_copied result ≡ field_at exchange.now.blocks file field }
{
    let Some(place) = exchange.file(file) else {
        return None;
    };
    place.file.fields.as_slice().get(field as usize)
}

/// The variable or the field of a cell.
pub(crate) fn cell_variable(exchange: &Exchange, cell: Cell) -> Option<&Variable>
    ensures { option_copied result ≡ cell_variable exchange.now.blocks cell }
{
    match cell {
        Cell::Variable { block, index } => variable_at(exchange, block, index),
        Cell::Field {
            file,
            number: _,
            field,
        } => field_at(exchange, file, field),
        Cell::Mark { .. } => None,
    }
}

/// The cell of this variable in a block.
fn variable_cell_at(to: &Named<'_>, name: &Name, block: u32) -> Option<Cell>
    ensures { result ≡ variable_cell_at to.now.exchange.now.blocks name.now block }
{
    let Some(inside) = inside_of(to, block) else {
        return None;
    };
    let Some(index) = inside.names.variables.place(name) else {
        return None;
    };
    Some(Cell::Variable { block, index })
}

/// The cell of this field in a record of a file.
fn field_cell_in(found: &FileInside<'_>, name: &Name, number: u32) -> Option<Cell>
    requires { found.now.fields.now ≡ variable_names found.now.file.now.fields }
    ensures { result ≡ field_cell_in name.now number found.now.file.now }
{
    if number < found.file.size {
        let Some(field) = found.fields.place(name) else {
            return None;
        };
        return Some(Cell::Field {
            file: found.file.number,
            number,
            field,
        });
    }
    None
}

/// The cell of `to` that has the names of a variable's cell of `from`.
fn same_variable(from: &Exchange, to: &Named<'_>, block: u32, index: u32) -> Option<Cell>
    ensures { result ≡ same_cell from.now.blocks to.now.exchange.now.blocks
        (VariableCell block index) }
{
    let Some(variable) = variable_at(from, block, index) else {
        return None;
    };
    let Some(found) = same_block(from, to, block) else {
        return None;
    };
    variable_cell_at(to, &variable.name, found)
}

/// The cell of `to` that has the names of a field's cell of `from`, in the same record.
fn same_field(from: &Exchange, to: &Named<'_>, file: u32, number: u32, field: u32) -> Option<Cell>
    ensures { result ≡ same_cell from.now.blocks to.now.exchange.now.blocks
        (FieldCell file number field) }
{
    let Some(variable) = field_at(from, file, field) else {
        return None;
    };
    let Some(found) = same_file(from, to, file) else {
        return None;
    };
    field_cell_in(&found, &variable.name, number)
}

/// The cell of `to` that has the names and the record of this cell of `from`.
pub(crate) fn same_cell(from: &Exchange, to: &Named<'_>, cell: Cell) -> Option<Cell>
    ensures { result ≡ same_cell from.now.blocks to.now.exchange.now.blocks cell }
{
    match cell {
        Cell::Variable { block, index } => same_variable(from, to, block, index),
        Cell::Field {
            file,
            number,
            field,
        } => same_field(from, to, file, number, field),
        Cell::Mark { .. } => None,
    }
}
