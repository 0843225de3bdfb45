// What an exchange has, by its names.
ghost use Rattle.std.specs.Prelude.{◌≡◌, IfOk, map};
ghost use Rattle.std.specs.Str.{bytes_eq};
ghost use Rattle.std.specs.List.{AllByRecursion, IsDistinct};
ghost use Rattle.exchange_model.specs.Kept.{variable_names};
ghost use Rattle.exchange_model.specs.declared.block.File.{File as FileType};
ghost use Rattle.block_change.specs.Names.{AreNamedApart, IsDirectory, field_names, file_names};
ghost use Rattle.block_change.specs.Names.{names_of};
ghost use Rattle.exchange_model.specs.Names.{names_of_blocks, names_of_signals};

use crate::names::Names;
use exchange_model::{Block, Exchange, File, SignalKind, Variable};
use plex_num::{Memory, Seq};
use std::alloc::Global;

/// The names of the variables and of the files of a block, and of the fields of each file, in the
/// order of the text.
#[derive(Drop)]
pub(crate) struct BlockNames {
    pub(crate) variables: Names,
    pub(crate) files: Names,
    pub(crate) fields: Seq<Names>,
}

/// The names of an exchange's signals and blocks, in the order of their numbers, and what stands in
/// each block.
pub(crate) struct Directory {
    pub(crate) signals: Names,
    pub(crate) blocks: Names,
    pub(crate) inside: Seq<BlockNames>,
}

impl Drop for Directory {
    fn drop(self) {
        let Directory {
            signals: _,
            blocks: _,
            inside: _,
        } = self;
    }
}

/// The directory of an exchange.
#[tactic(auto, using(crate::proofs::Distinct::signals_apart, crate::proofs::Distinct::blocks_apart, crate::proofs::Distinct::all_apart))]
pub(crate) fn directory_of(alloc: Global, exchange: &Exchange) -> Result<Directory, Memory>
    ensures { IfOk result (λ directory. IsDirectory exchange.now directory) }
{
    exchange.kept();
    let signals = signal_names(alloc, exchange.signals.as_slice())?;
    let blocks = block_names(alloc, exchange.blocks.as_slice())?;
    let inside = all_names(alloc, exchange.blocks.as_slice())?;
    Ok(Directory {
        signals,
        blocks,
        inside,
    })
}

#[tactic(auto, using(plex_num::proofs::Names::new_name))]
fn signal_names(alloc: Global, signals: &[SignalKind]) -> Result<Names, Memory>
    requires { IsDistinct bytes_eq (names_of_signals signals.now) }
    ensures { IfOk result (λ names. names ≡ names_of_signals signals.now) }
{
    let mut names = Names::new(alloc);
    for signal in signals {
        names.add(signal.name())?;
    }
    Ok(names)
}

#[tactic(auto, using(plex_num::proofs::Names::new_name))]
fn block_names(alloc: Global, blocks: &[Block]) -> Result<Names, Memory>
    requires { IsDistinct bytes_eq (names_of_blocks blocks.now) }
    ensures { IfOk result (λ names. names ≡ names_of_blocks blocks.now) }
{
    let mut names = Names::new(alloc);
    for block in blocks {
        names.add(&block.name)?;
    }
    Ok(names)
}

#[tactic(auto, using(plex_num::proofs::Names::new_name))]
fn variable_names(alloc: Global, variables: &[Variable]) -> Result<Names, Memory>
    requires { IsDistinct bytes_eq (variable_names variables.now) }
    ensures { IfOk result (λ names. names ≡ variable_names variables.now) }
{
    let mut names = Names::new(alloc);
    for variable in variables {
        names.add(&variable.name)?;
    }
    Ok(names)
}

#[tactic(auto, using(plex_num::proofs::Names::new_name))]
fn file_names(alloc: Global, files: &[File]) -> Result<Names, Memory>
    requires { IsDistinct bytes_eq (file_names files.now) }
    ensures { IfOk result (λ names. names ≡ file_names files.now) }
{
    let mut names = Names::new(alloc);
    for file in files {
        names.add(&file.name)?;
    }
    Ok(names)
}

/// The names of the fields of each file.
#[tactic(auto, using(plex_num::proofs::Lists::all_here))]
fn field_names(alloc: Global, files: &[File]) -> Result<Seq<Names>, Memory>
    requires { AllByRecursion (λ (f : FileType).
        IsDistinct bytes_eq (variable_names f.fields)) files.now }
    ensures { IfOk result (λ names. names ≡ field_names files.now) }
{
    let mut names = Seq::new(alloc);
    for file in files {
        names.push(variable_names(alloc, file.fields.as_slice())?)?;
    }
    Ok(names)
}

/// The names of a block.
fn names_of(alloc: Global, block: &Block) -> Result<BlockNames, Memory>
    requires { AreNamedApart block.now }
    ensures { IfOk result (λ names. names ≡ names_of block.now) }
{
    let variables = variable_names(alloc, block.variables.as_slice())?;
    let files = file_names(alloc, block.files.as_slice())?;
    let fields = field_names(alloc, block.files.as_slice())?;
    Ok(BlockNames {
        variables,
        files,
        fields,
    })
}

/// The names of each block.
#[tactic(auto, using(plex_num::proofs::Lists::all_here))]
fn all_names(alloc: Global, blocks: &[Block]) -> Result<Seq<BlockNames>, Memory>
    requires { AllByRecursion AreNamedApart blocks.now }
    ensures { IfOk result (λ names. names ≡ map names_of blocks.now) }
{
    let mut names = Seq::new(alloc);
    for block in blocks {
        names.push(names_of(alloc, block)?)?;
    }
    Ok(names)
}
