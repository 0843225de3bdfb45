// The stores of a release and of a restart: they are listed before the first change, so that none
// can be refused.
ghost use Rattle.std.specs.Prelude.{◌≡◌, ℕ, ◌+◌, ◌*◌, ◌<◌, ◌^◌, ◌++◌, true, map, length, slice_get};
ghost use Rattle.std.specs.Prelude.{slice_set, IfOk, OnOk};
ghost use Rattle.std.specs.List.{AllByRecursion};
ghost use Rattle.job_types.specs.Touches.{stored};
ghost use Rattle.machine_code.specs.Told.{told_all, told_more};
ghost use Rattle.run_books.specs.Stores.{all_clear_stores, clear_of, clear_stores, field_stores};
ghost use Rattle.run_books.specs.Stores.{open_store, open_stores, touch_of};
ghost use Rattle.store_layout.specs.Laid.{IsLayout};
ghost use Rattle.run_books.specs.declared.stores.Write.{Write};

use exchange_model::{Exchange, Variable};
use job_types::Held;
use machine_code::Words;
use plex_num::{Memory, Seq};
use store_layout::{FileRow, Layout, file_of};

/// A store of a value to a word.
#[derive(Clone, Copy)]
pub struct Write {
    pub word: u64,
    pub value: u32,
}

/// Makes these stores, in order.
#[tactic(auto, using(crate::proofs::Written::wrote_begin, crate::proofs::Written::wrote_values, crate::proofs::Written::wrote_told, crate::proofs::Written::each_may))]
pub fn make_stores<W: Words>(stores: &[Write], words: &mut W)
    requires { AllByRecursion (λ (s : Write). W.may_write words.old s.word ≡ true) stores.now }
    ensures values { W.values words.new ≡ stored (W.values words.old) (map touch_of stores.now) }
    ensures told { W.told words.new ≡ told_all (W.told words.old) (map touch_of stores.now) }
    ensures allowed { (W.may_read words.new ≡ W.may_read words.old)
        × (W.may_write words.new ≡ W.may_write words.old) }
    ensures like { W.like words.old words.new }
{
    for store in stores {
        make_store(*store, words);
    }
}

/// Makes a store.
fn make_store<W: Words>(store: Write, words: &mut W)
    requires { W.may_write words.old store.word ≡ true }
    ensures values { W.values words.new ≡ slice_set (W.values words.old) store.word store.value }
    ensures told { W.told words.new ≡ told_more (W.told words.old) (touch_of store) }
    ensures allowed { (W.may_read words.new ≡ W.may_read words.old)
        × (W.may_write words.new ≡ W.may_write words.old) }
    ensures like { W.like words.old words.new }
{
    words.write(store.word as u32, store.value);
}

/// Lists the stores by which these records are opened, behind those that are listed.
pub fn list_records(
    stores: &mut Seq<Write>,
    exchange: &Exchange,
    layout: &Layout,
    records: &[Held],
) -> Result<(), Memory>
    requires { IsLayout exchange.now.blocks layout.now }
    ensures { OnOk result (stores.new ≡ stores.old ++ open_stores exchange.now records.now) }
{
    for held in records {
        list_record(stores, exchange, layout, *held)?;
    }
    Ok(())
}

/// Lists the stores by which a record is opened.
fn list_record(
    stores: &mut Seq<Write>,
    exchange: &Exchange,
    layout: &Layout,
    held: Held,
) -> Result<(), Memory>
    requires { IsLayout exchange.now.blocks layout.now }
    ensures { OnOk result (stores.new ≡ stores.old ++ open_store exchange.now held) }
{
    let Some(place) = exchange.file(held.file) else {
        return Ok(());
    };
    let Some(row) = file_of(layout, held.file) else {
        return Ok(());
    };
    let first = word_in(row, held.number);
    list_fields(stores, first, place.file.fields.as_slice())?;
    stores.push(Write {
        word: first + u64::from(row.fields),
        value: 0,
    })?;
    Ok(())
}

/// The word of the first cell of a record.
fn word_in(row: FileRow, number: u32) -> u64
    ensures word { result ≡ row.first + number * row.stride }
    ensures room { result + row.fields < 2 ^ 64 }
{
    u64::from(row.first) + u64::from(number) * u64::from(row.stride)
}

/// Lists the stores by which fields get their INIT values, the first of which has this word.
#[tactic(auto, using(crate::proofs::Listed::fielded_begin, crate::proofs::Listed::fielded_more, crate::proofs::Listed::fielded_end))]
fn list_fields(stores: &mut Seq<Write>, first: u64, fields: &[Variable]) -> Result<(), Memory>
    requires { first + length fields.now < 2 ^ 64 }
    ensures { OnOk result (stores.new ≡ stores.old ++ field_stores first fields.now) }
{
    let mut word = first;
    for field in fields {
        stores.push(Write {
            word,
            value: field.init,
        })?;
        word += 1;
    }
    Ok(())
}

/// Lists the stores by which CLEAR variables get their INIT values.
#[tactic(auto, using(crate::proofs::Listed::blocked_begin))]
pub fn list_cleared(stores: &mut Seq<Write>, exchange: &Exchange) -> Result<(), Memory>
    ensures { OnOk result (stores.new ≡ stores.old ++ all_clear_stores 0 exchange.now.blocks) }
{
    exchange.kept();
    let mut word = 0;
    for block in exchange.blocks.as_slice() {
        list_clear(stores, word, block.variables.as_slice())?;
        word += u64::from(block.cells());
    }
    Ok(())
}

/// Lists those of these variables, the first of which has this word.
#[tactic(auto, using(crate::proofs::Listed::cleared_begin, crate::proofs::Listed::cleared_more, crate::proofs::Listed::cleared_end))]
fn list_clear(stores: &mut Seq<Write>, first: u64, variables: &[Variable]) -> Result<(), Memory>
    requires { first + length variables.now < 2 ^ 64 }
    ensures { OnOk result (stores.new ≡ stores.old ++ clear_stores first variables.now) }
{
    let mut word = first;
    for variable in variables {
        list_if_clear(stores, word, variable)?;
        word += 1;
    }
    Ok(())
}

/// Lists the store of a variable that is CLEAR.
fn list_if_clear(stores: &mut Seq<Write>, word: u64, variable: &Variable) -> Result<(), Memory>
    ensures { OnOk result (stores.new ≡ stores.old ++ clear_of word variable.now) }
{
    if variable.clear {
        stores.push(Write {
            word,
            value: variable.init,
        })
    } else {
        Ok(())
    }
}
