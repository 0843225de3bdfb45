// The lines of the stored words: variables, and fields that have another value than before the
// first job.
ghost use Rattle.std.specs.Prelude.{◌≡◌, ◌+◌, ◌*◌, ◌<◌, ◌^◌, ◌++◌, OnOk, flat_map, length, sum_by};
ghost use Rattle.std.specs.List.{AllByRecursion};
ghost use Rattle.exchange_model.specs.Cells.{file_cells, placed_in, record_cells};
ghost use Rattle.exchange_model.specs.Kept.{FileFits};
ghost use Rattle.report_text.specs.Names.{placed, record_name};
ghost use Rattle.report_text.specs.Report.{block_lines, field_line, field_lines, file_lines};
ghost use Rattle.report_text.specs.Report.{line_of_field, named_value, record_lines, text_of};
ghost use Rattle.report_text.specs.Report.{variable_line, variable_lines, written};

use crate::names::add_record_name;
use exchange_model::{Block, Exchange, File, FilePlace, Variable};
use plex_num::{Memory, Seq, add_number, value_at};
use text_parts::Text;

/// The line of each variable.
pub fn add_variables(text: &mut Text, exchange: &Exchange, store: &[u32]) -> Result<(), Memory>
    ensures { OnOk result
        (text.new ≡ text.old ++ text_of (variable_lines exchange.now.blocks store.now)) }
{
    exchange.kept();
    for (number, block) in exchange.blocks.as_slice().iter().enumerate() {
        let first = exchange.first_cell(number as u32);
        add_block(text, block, first, store)?;
    }
    Ok(())
}

/// The line of each variable of a block, the first of which has this cell.
fn add_block(text: &mut Text, block: &Block, first: u32, store: &[u32]) -> Result<(), Memory>
    ensures { OnOk result
        (text.new ≡ text.old ++ text_of (block_lines store.now first block.now)) }
{
    let name = block.name.as_slice();
    for (place, variable) in block.variables.as_slice().iter().enumerate() {
        let value = value_at(store, first as usize + place);
        add_variable(text, name, variable.name.as_slice(), value)?;
    }
    Ok(())
}

/// `VAR BLOCK.NAME v`.
fn add_variable(text: &mut Text, block: &[u8], name: &[u8], value: u32) -> Result<(), Memory>
    ensures { OnOk result
        (text.new ≡ text.old ++ written (variable_line block.now name.now value)) }
{
    let mut end = text.take_end();
    end.append(b"VAR ")?;
    end.append(block)?;
    add_value(&mut end, name, value)?;
    text.put(end)?;
    Ok(())
}

/// `.NAME v`, and the end of the line.
fn add_value(text: &mut Seq<u8>, name: &[u8], value: u32) -> Result<(), Memory>
    ensures { OnOk result (text.new ≡ text.old ++ written (named_value name.now value)) }
{
    text.append(b".")?;
    text.append(name)?;
    add_number(text, b" ", u64::from(value))?;
    text.append(b"\n")
}

/// The line of each field that has not its INIT value.
pub fn add_fields(text: &mut Text, exchange: &Exchange, store: &[u32]) -> Result<(), Memory>
    ensures { OnOk result
        (text.new ≡ text.old ++ text_of (field_lines exchange.now.blocks store.now)) }
{
    exchange.kept();
    for (number, block) in exchange.blocks.as_slice().iter().enumerate() {
        let number = number as u32;
        let first = exchange.first_cell(number) + block.variables.len() as u32;
        add_files(text, exchange, number, first, block.files.as_slice(), store)?;
    }
    Ok(())
}

/// The lines of the files of a block, the first of which begins at this cell.
fn add_files(
    text: &mut Text,
    exchange: &Exchange,
    block: u32,
    first: u32,
    files: &[File],
    store: &[u32],
) -> Result<(), Memory>
    requires fits { AllByRecursion FileFits files.now }
    requires few { first + sum_by file_cells files.now < 2 ^ 32 }
    ensures { OnOk result (text.new ≡ text.old ++ text_of
        (flat_map (file_lines exchange.now.blocks store.now) (placed_in block first files.now))) }
{
    let mut first = first;
    for file in files {
        let place = FilePlace { block, file, first };
        add_file(text, exchange, &place, store)?;
        first += file.cells();
    }
    Ok(())
}

/// The lines of the records of a file.
fn add_file(
    text: &mut Text,
    exchange: &Exchange,
    place: &FilePlace<'_>,
    store: &[u32],
) -> Result<(), Memory>
    requires { record_cells place.now.file.now < 2 ^ 32 }
    ensures { OnOk result (text.new
        ≡ text.old ++ text_of (file_lines exchange.now.blocks store.now (placed place.now))) }
{
    if place.file.fields.len() == 0 {
        return Ok(());
    }
    for number in 0..place.file.size {
        add_fields_of(text, exchange, place, number, store)?;
    }
    Ok(())
}

/// The lines of the fields of a record.
fn add_fields_of(
    text: &mut Text,
    exchange: &Exchange,
    place: &FilePlace<'_>,
    number: u32,
    store: &[u32],
) -> Result<(), Memory>
    requires { record_cells place.now.file.now < 2 ^ 32 }
    ensures { OnOk result (text.new ≡ text.old ++ text_of
        (record_lines exchange.now.blocks store.now (placed place.now) number)) }
{
    let start = start_of(place, number);
    for (index, field) in place.file.fields.as_slice().iter().enumerate() {
        let value = value_at(store, start + index);
        add_field(text, exchange, place, number, field, value)?;
    }
    Ok(())
}

/// The cell of the first field of a record.
fn start_of(place: &FilePlace<'_>, number: u32) -> usize
    requires { record_cells place.now.file.now < 2 ^ 32 }
    ensures cell { result ≡ place.now.first + number * record_cells place.now.file.now }
    ensures room { result + length place.now.file.now.fields < 2 ^ 64 }
{
    place.first as usize + number as usize * place.file.record_cells() as usize
}

/// The line of a field, unless that has its INIT value.
fn add_field(
    text: &mut Text,
    exchange: &Exchange,
    place: &FilePlace<'_>,
    number: u32,
    field: &Variable,
    value: u32,
) -> Result<(), Memory>
    ensures { OnOk result (text.new ≡ text.old ++ text_of (line_of_field
        (record_name exchange.now.blocks (placed place.now) number) field.now value)) }
{
    if value == field.init {
        return Ok(());
    }
    add_other(text, exchange, place, number, field.name.as_slice(), value)?;
    Ok(())
}

/// `REC BLOCK.FILE(r).FIELD v`.
fn add_other(
    text: &mut Text,
    exchange: &Exchange,
    place: &FilePlace<'_>,
    number: u32,
    field: &[u8],
    value: u32,
) -> Result<(), Memory>
    ensures { OnOk result (text.new ≡ text.old ++ written (field_line
        (record_name exchange.now.blocks (placed place.now) number) field.now value)) }
{
    let mut end = text.take_end();
    end.append(b"REC ")?;
    add_record_name(&mut end, exchange, place, number)?;
    add_value(&mut end, field, value)?;
    text.put(end)?;
    Ok(())
}
