// Where the variables and fields of an exchange stand, by their numbers through it.
ghost use Rattle.std.specs.Prelude.{◌≡◌, ◌+◌, ◌<◌, ◌^◌, ◌++◌, map, IfOk, OnOk, slice_get};
ghost use Rattle.std.specs.List.{range_with_len};
ghost use Rattle.exchange_model.specs.Cells.{cell_count};
ghost use Rattle.exchange_model.specs.Inside.{joined};
ghost use Rattle.start_permit.specs.Granted.{IsCellTable};
ghost use Rattle.start_permit.specs.Listed.{AllSmall, AreSmall, field_places, file_places};
ghost use Rattle.start_permit.specs.Listed.{place_at, variable_words, words_from};

use exchange_model::{Block, Exchange, File};
use plex_num::{Memory, Seq};
use std::alloc::Global;

/// A field: the number of its file, and its place among the fields of the file.
#[derive(Clone, Copy)]
pub struct FieldPlace {
    pub file: u32,
    pub field: u32,
}

/// The word of each variable of an exchange, and the place of each field, by their numbers through
/// it.
pub struct CellTable {
    pub variables: Seq<u32>,
    pub fields: Seq<FieldPlace>,
}

impl Drop for CellTable {
    fn drop(self) {
        let CellTable {
            variables: _,
            fields: _,
        } = self;
    }
}

/// The table of an exchange, which is made once. Memory is the only reason for an error.
pub fn table_of(alloc: Global, exchange: &Exchange) -> Result<CellTable, Memory>
    ensures { IfOk result (λ table. IsCellTable exchange.now table) }
{
    exchange.kept();
    let variables = words_of_variables(alloc, exchange.blocks.as_slice())?;
    let fields = places_of_fields(alloc, exchange.blocks.as_slice())?;
    Ok(CellTable { variables, fields })
}

/// The words of all variables of these blocks.
fn words_of_variables(alloc: Global, blocks: &[Block]) -> Result<Seq<u32>, Memory>
    requires { cell_count blocks.now < 2 ^ 32 }
    ensures { IfOk result (λ words. words ≡ variable_words 0 blocks.now) }
{
    let mut words = Seq::new(alloc);
    let mut cell: u32 = 0;
    for block in blocks {
        let count = block.variables.len() as u32;
        push_range(cell, count, &mut words)?;
        cell += block.cells();
    }
    Ok(words)
}

/// Appends so many words, from one on.
fn push_range(first: u32, count: u32, words: &mut Seq<u32>) -> Result<(), Memory>
    requires { first + count < 2 ^ 32 }
    ensures { OnOk result (words.new ≡ words.old ++ words_from first count) }
{
    for i in 0..count {
        words.push(first + i)?;
    }
    Ok(())
}

/// The places of all fields of these blocks.
fn places_of_fields(alloc: Global, blocks: &[Block]) -> Result<Seq<FieldPlace>, Memory>
    requires { AllSmall blocks.now }
    ensures { IfOk result (λ places. places ≡ field_places blocks.now) }
{
    let mut places = Seq::new(alloc);
    for block in blocks {
        push_files(block.files.as_slice(), &mut places)?;
    }
    Ok(places)
}

/// Appends the places of the fields of these files.
fn push_files(files: &[File], places: &mut Seq<FieldPlace>) -> Result<(), Memory>
    requires { AreSmall files.now }
    ensures { OnOk result (places.new ≡ places.old ++ joined (map file_places files.now)) }
{
    for file in files {
        let count = file.fields.len() as u32;
        push_places(file.number, count, places)?;
    }
    Ok(())
}

/// Appends the places of so many fields of a file.
fn push_places(file: u32, count: u32, places: &mut Seq<FieldPlace>) -> Result<(), Memory>
    ensures { OnOk result
        (places.new ≡ places.old ++ map (place_at file) (range_with_len 0 count)) }
{
    for field in 0..count {
        places.push(FieldPlace { file, field })?;
    }
    Ok(())
}

impl CellTable {
    /// The word of the variable of this number, if there is one.
    pub fn variable(&self, number: u32) -> Option<u32>
        ensures { result ≡ slice_get self.now.variables number }
    {
        self.variables.as_slice().get(number as usize).copied()
    }

    /// Where the field of this number stands, if there is one.
    pub fn field(&self, number: u32) -> Option<FieldPlace>
        ensures { result ≡ slice_get self.now.fields number }
    {
        self.fields.as_slice().get(number as usize).copied()
    }
}
