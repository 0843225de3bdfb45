// What has a number is told by its name.
ghost use Rattle.std.specs.Prelude.{◌≡◌, ◌++◌, OnOk, IfOk, flat_map};
ghost use Rattle.analysis_text.specs.Names.{fields_of as fields_of_block, fields_of_file};
ghost use Rattle.analysis_text.specs.Names.{files_of as files_of_block, level_word, name_at};
ghost use Rattle.analysis_text.specs.Names.{names_of, own_name, value_words};
ghost use Rattle.analysis_text.specs.Names.{variables_of as variables_of_block};

use exchange_model::{Block, Exchange, File};
use flow_points::Value;
use plex_num::{Level, Memory, Seq, add_number};
use std::alloc::Global;

/// `BLOCK.NAME` of all variables, fields and files of an exchange, each by its number.
pub struct Names {
    pub variables: Seq<Seq<u8>>,
    pub fields: Seq<Seq<u8>>,
    pub files: Seq<Seq<u8>>,
}

impl Drop for Names {
    fn drop(self) {
        let Names {
            variables: _,
            fields: _,
            files: _,
        } = self;
    }
}

/// The names of an exchange.
#[tactic(auto, using(crate::proofs::Named::names_are))]
pub fn names_of(alloc: Global, exchange: &Exchange) -> Result<Names, Memory>
    ensures { IfOk result (λ names. names ≡ names_of exchange.now.blocks) }
{
    let blocks = exchange.blocks.as_slice();
    let variables = variable_names(alloc, blocks)?;
    let fields = field_names(alloc, blocks)?;
    let files = file_names(alloc, blocks)?;
    Ok(Names {
        variables,
        fields,
        files,
    })
}

fn variable_names(alloc: Global, blocks: &[Block]) -> Result<Seq<Seq<u8>>, Memory>
    ensures { IfOk result (λ names. names ≡ flat_map variables_of_block blocks.now) }
{
    let mut names = Seq::new(alloc);
    for block in blocks {
        push_variables(alloc, block, &mut names)?;
    }
    Ok(names)
}

fn push_variables(alloc: Global, block: &Block, names: &mut Seq<Seq<u8>>) -> Result<(), Memory>
    ensures { OnOk result (names.new ≡ names.old ++ variables_of_block block.now) }
{
    for variable in block.variables.as_slice() {
        let name = own_name(alloc, block.name.as_slice(), variable.name.as_slice())?;
        names.push(name)?;
    }
    Ok(())
}

fn field_names(alloc: Global, blocks: &[Block]) -> Result<Seq<Seq<u8>>, Memory>
    ensures { IfOk result (λ names. names ≡ flat_map fields_of_block blocks.now) }
{
    let mut names = Seq::new(alloc);
    for block in blocks {
        push_fields(alloc, block, &mut names)?;
    }
    Ok(names)
}

fn push_fields(alloc: Global, block: &Block, names: &mut Seq<Seq<u8>>) -> Result<(), Memory>
    ensures { OnOk result (names.new ≡ names.old ++ fields_of_block block.now) }
{
    for file in block.files.as_slice() {
        push_fields_of(alloc, block.name.as_slice(), file, names)?;
    }
    Ok(())
}

fn push_fields_of(
    alloc: Global,
    block: &[u8],
    file: &File,
    names: &mut Seq<Seq<u8>>,
) -> Result<(), Memory>
    ensures { OnOk result (names.new ≡ names.old ++ fields_of_file block.now file.now) }
{
    for field in file.fields.as_slice() {
        let name = own_name(alloc, block, field.name.as_slice())?;
        names.push(name)?;
    }
    Ok(())
}

fn file_names(alloc: Global, blocks: &[Block]) -> Result<Seq<Seq<u8>>, Memory>
    ensures { IfOk result (λ names. names ≡ flat_map files_of_block blocks.now) }
{
    let mut names = Seq::new(alloc);
    for block in blocks {
        push_files(alloc, block, &mut names)?;
    }
    Ok(names)
}

fn push_files(alloc: Global, block: &Block, names: &mut Seq<Seq<u8>>) -> Result<(), Memory>
    ensures { OnOk result (names.new ≡ names.old ++ files_of_block block.now) }
{
    for file in block.files.as_slice() {
        let name = own_name(alloc, block.name.as_slice(), file.name.as_slice())?;
        names.push(name)?;
    }
    Ok(())
}

/// `BLOCK.NAME`.
fn own_name(alloc: Global, block: &[u8], name: &[u8]) -> Result<Seq<u8>, Memory>
    ensures { IfOk result (λ made. made ≡ own_name block.now name.now) }
{
    let mut made = Seq::new(alloc);
    made.append(block)?;
    made.append(b".")?;
    made.append(name)?;
    Ok(made)
}

/// The name at a place; no bytes where there is none.
pub fn name_at(names: &Seq<Seq<u8>>, number: u32) -> &[u8]
    ensures { result.now ≡ name_at names.now number }
{
    match names.get(number as usize) {
        Some(name) => name.as_slice(),
        None => &[],
    }
}

/// The letter of a level.
pub fn level_word(level: Level) -> &'static [u8]
    ensures { result.now ≡ level_word level }
{
    match level {
        Level::A => b"A",
        Level::B => b"B",
        Level::C => b"C",
        Level::D => b"D",
    }
}

/// `ARG k`, `CONST c` or `ANY`.
pub fn add_value(text: &mut Seq<u8>, value: Value) -> Result<(), Memory>
    ensures { OnOk result (text.new ≡ text.old ++ value_words value) }
{
    match value {
        Value::Arg(place) => add_number(text, b"ARG ", u64::from(place)),
        Value::Const(number) => add_number(text, b"CONST ", u64::from(number)),
        Value::Any => text.append(b"ANY"),
    }
}
