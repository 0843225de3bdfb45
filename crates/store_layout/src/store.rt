// The store before the first job.
ghost use Rattle.std.specs.Prelude.{◌≡◌, ◌++◌, [], IfOk};
ghost use Rattle.exchange_model.specs.Opening.{block_opening, file_opening, inits, opening_store};
ghost use Rattle.exchange_model.specs.Opening.{record_opening};

use crate::layout::Layout;
use exchange_model::{Block, Exchange, File, Variable};
use plex_num::{Memory, Seq};
use std::alloc::Global;

/// The store before the first job: the INIT values, and marks 0. Its room is taken at once, by the
/// layout's number of words.
#[tactic(auto, using(crate::proofs::Opened::blocks_begin, crate::proofs::Opened::blocks_end))]
pub fn opening(alloc: Global, exchange: &Exchange, layout: &Layout) -> Result<Seq<u32>, Memory>
    ensures { IfOk result (λ store. store ≡ opening_store exchange.now.blocks) }
{
    let mut store = Seq::with_capacity(alloc, layout.words() as usize)?;
    for block in exchange.blocks.as_slice() {
        open_block(&mut store, block)?;
    }
    Ok(store)
}

/// Appends the words of a block.
#[tactic(auto, using(crate::proofs::Opened::files_begin, crate::proofs::Opened::files_end))]
fn open_block(store: &mut Seq<u32>, block: &Block) -> Result<(), Memory>
    ensures { IfOk result (λ _. store.new ≡ store.old ++ block_opening block.now) }
{
    open_variables(store, block.variables.as_slice())?;
    for file in block.files.as_slice() {
        open_file(store, file)?;
    }
    Ok(())
}

/// Appends the INIT values of these variables or fields.
fn open_variables(store: &mut Seq<u32>, variables: &[Variable]) -> Result<(), Memory>
    ensures { IfOk result (λ _. store.new ≡ store.old ++ inits variables.now) }
{
    for variable in variables {
        store.push(variable.init)?;
    }
    Ok(())
}

/// Appends the records of a file. A file whose records have no cell is done at once.
#[tactic(auto, using(crate::proofs::Opened::records_begin, crate::proofs::Opened::records_end, crate::proofs::Opened::no_records))]
fn open_file(store: &mut Seq<u32>, file: &File) -> Result<(), Memory>
    ensures { IfOk result (λ _. store.new ≡ store.old ++ file_opening file.now) }
{
    if file.fields.len() == 0 && !file.forlopp {
        return Ok(());
    }
    for _record in 0..file.size {
        open_record(store, file)?;
    }
    Ok(())
}

/// Appends a record of a file: its fields and, in a forlopp file, the mark of a free record.
#[tactic(auto, using(crate::proofs::Opened::marked_record, crate::proofs::Opened::plain_record))]
fn open_record(store: &mut Seq<u32>, file: &File) -> Result<(), Memory>
    ensures { IfOk result (λ _. store.new ≡ store.old ++ record_opening file.now) }
{
    open_variables(store, file.fields.as_slice())?;
    if file.forlopp { store.push(0) } else { Ok(()) }
}
