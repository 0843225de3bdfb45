// The stored words are carried over.
ghost use Rattle.std.specs.Prelude.{◌≡◌, ◌<◌, [], List, ℕ, IfOk, length};
ghost use Rattle.std.specs.List.{AllByRecursion};
ghost use Rattle.exchange_model.specs.declared.exchange.Exchange.{Exchange as ExchangeType};
ghost use Rattle.job_types.specs.Forlopps.{all_records};
ghost use Rattle.source_meaning.specs.Valid.{IsRecord};
ghost use Rattle.store_layout.specs.Laid.{IsLayout};
ghost use Rattle.block_change.specs.Carried.{AreCarriedWords, carried_value, kept_value, old_value};

use crate::same::{Named, cell_variable, same_cell};
use exchange_model::{Cell, Exchange, Variable};
use forlopp_chain::Chains;
use job_types::Held;
use plex_num::{Memory, Seq, fits, value_at};
use std::alloc::Global;
use store_layout::{Layout, cell_of, word_of};

/// The words of the new exchange, in which the records of these chains are held.
pub(crate) fn all_words(
    alloc: Global,
    old: &Named<'_>,
    new: &Exchange,
    old_layout: &Layout,
    new_layout: &Layout,
    chains: &Chains,
    words: &[u32],
) -> Result<Seq<u32>, Memory>
    requires old_layout { IsLayout old.now.exchange.now.blocks old_layout.now }
    requires new_layout { IsLayout new.now.blocks new_layout.now }
    requires whole { length words.now ≡ old.now.exchange.now.cells }
    requires records { AllByRecursion (IsRecord new.now) (all_records chains.now.chains) }
    ensures { IfOk result (λ carried. AreCarriedWords old.now.exchange.now new.now words.now
        (all_records chains.now.chains) carried) }
{
    let mut carried = carried_words(alloc, old, new, old_layout, new_layout, words)?;
    let records = chains.records()?;
    mark_all(&mut carried, new, new_layout, records.as_slice());
    Ok(carried)
}

/// The words of the new exchange, in which no record is held yet.
#[tactic(auto, using(crate::proofs::Wording::words_begin))]
fn carried_words(
    alloc: Global,
    old: &Named<'_>,
    new: &Exchange,
    old_layout: &Layout,
    new_layout: &Layout,
    words: &[u32],
) -> Result<Seq<u32>, Memory>
    requires old_layout { IsLayout old.now.exchange.now.blocks old_layout.now }
    requires new_layout { IsLayout new.now.blocks new_layout.now }
    requires whole { length words.now ≡ old.now.exchange.now.cells }
    ensures { IfOk result (λ carried.
        AreCarriedWords old.now.exchange.now new.now words.now [] carried) }
{
    new.kept();
    let count = new_layout.words();
    let mut carried = Seq::with_capacity(alloc, count as usize)?;
    for word in 0..count {
        let cell = cell_of(new_layout, word);
        carried.push(carried_value(old, new, old_layout, words, cell))?;
    }
    Ok(carried)
}

/// The value of a cell of the new exchange in which no record is held.
#[tactic(auto, using(crate::proofs::Wording::value_none, crate::proofs::Wording::value_some))]
fn carried_value(old: &Named<'_>, new: &Exchange, layout: &Layout, words: &[u32], cell: Cell) -> u32
    requires layout { IsLayout old.now.exchange.now.blocks layout.now }
    requires whole { length words.now ≡ old.now.exchange.now.cells }
    ensures { result ≡ carried_value old.now.exchange.now new.now words.now [] cell }
{
    let Some(variable) = cell_variable(new, cell) else {
        return 0;
    };
    kept_value(variable, old_value(old, new, layout, words, cell))
}

/// The value of the old exchange's cell of the same names, if there is one.
#[tactic(auto, using(crate::proofs::Wording::has_cell))]
fn old_value(
    old: &Named<'_>,
    new: &Exchange,
    layout: &Layout,
    words: &[u32],
    cell: Cell,
) -> Option<u32>
    requires layout { IsLayout old.now.exchange.now.blocks layout.now }
    requires whole { length words.now ≡ old.now.exchange.now.cells }
    ensures { result ≡ old_value old.now.exchange.now new.now words.now cell }
{
    old.exchange.kept();
    let Some(found) = same_cell(new, old, cell) else {
        return None;
    };
    Some(value_at(words, word_of(layout, found) as usize))
}

/// The old value, if there is one that fits, and else the INIT value.
#[tactic(auto, using(crate::proofs::Wording::kept_fits, crate::proofs::Wording::kept_init))]
fn kept_value(variable: &Variable, value: Option<u32>) -> u32
    ensures { result ≡ kept_value variable.now value }
{
    let Some(value) = value else {
        return variable.init;
    };
    if fits(value, variable.width) {
        value
    } else {
        variable.init
    }
}

/// Marks these records of the new exchange as held.
fn mark_all(words: &mut Seq<u32>, new: &Exchange, layout: &Layout, records: &[Held])
    requires layout { IsLayout new.now.blocks layout.now }
    requires records { AllByRecursion (IsRecord new.now) records.now }
    requires whole { length words.old ≡ new.now.cells }
    ensures { (x : ExchangeType) (store : List ℕ)
        → AreCarriedWords x new.now store [] words.old
        → AreCarriedWords x new.now store records.now words.new }
{
    new.kept();
    for held in records {
        let word = word_of(
            layout,
            Cell::Mark {
                file: held.file,
                number: held.number,
            },
        );
        words.set(word as usize, 1);
    }
}
