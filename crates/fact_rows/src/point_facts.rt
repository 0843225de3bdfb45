// The facts of slots, in their order.
ghost use Rattle.std.specs.Prelude.{◌≡◌, ◌*◌, ◌+◌, ◌<◌, ◌≤◌, ◌^◌, ◌++◌, [], length, OnOk};
ghost use Rattle.fact_rows.specs.Numbers.{bit_number, bits_of, numbers};
ghost use Rattle.fact_rows.specs.Places.{numbers_at};
ghost use Rattle.fact_rows.specs.Touched.{facts_at, facts_of, key as key_of, keys_at, keys_before};
ghost use Rattle.fact_rows.specs.Touched.{numbered_keys};

use crate::bits::{append, has_bit};
use crate::grid::Grid;
use crate::keys::{Key, Numbered, slot_of};
use crate::place::Counts;
use crate::value::value_in;
use flow_points::{Fact, Slot};
use plex_num::Memory;
use std::alloc::Global;

/// Facts in their order. Others that take their place are listed in the same room.
#[derive(Drop)]
pub struct PointFacts {
    pub facts: Vec<Fact>,
}

impl PointFacts {
    /// No facts; it takes no memory.
    pub fn new(alloc: Global) -> PointFacts
        ensures { result.facts.items ≡ [] }
    {
        PointFacts {
            facts: Vec::new(alloc),
        }
    }
}

/// Appends the facts of all slots before a point; none where the point is not there.
#[tactic(auto, using(crate::proofs::Keying::none_pushed, crate::proofs::Keying::point_pushed))]
pub(crate) fn push_point(
    entry: u32,
    grid: &Grid,
    point: u32,
    facts: &mut Vec<Fact>,
) -> Result<(), Memory>
    ensures { OnOk result (facts.new.items
        ≡ facts.old.items ++ facts_of entry grid.now (keys_before grid.now.slots point)) }
{
    match grid.counts(point) {
        Some(counts) => {
            push_slots(entry, grid, point, counts, facts)?;
            Ok(())
        }
        None => Ok(()),
    }
}

/// Appends the facts of all slots before a point that has so many.
#[tactic(auto, using(crate::proofs::Keying::slots_pushed))]
fn push_slots(
    entry: u32,
    grid: &Grid,
    point: u32,
    counts: Counts,
    facts: &mut Vec<Fact>,
) -> Result<(), Memory>
    ensures { OnOk result (facts.new.items
        ≡ facts.old.items ++ facts_of entry grid.now (keys_at point counts)) }
{
    push_numbered(entry, grid, point, Numbered::Temp, counts.temps, facts)?;
    push_numbered(entry, grid, point, Numbered::Given, counts.given, facts)?;
    push_numbered(
        entry,
        grid,
        point,
        Numbered::Answered,
        counts.answered,
        facts,
    )?;
    push_slot(entry, grid, key(point, Slot::Depth), facts)?;
    push_slot(entry, grid, key(point, Slot::Awaits), facts)?;
    Ok(())
}

/// Appends the facts of so many numbered slots before a point.
fn push_numbered(
    entry: u32,
    grid: &Grid,
    point: u32,
    numbered: Numbered,
    count: u8,
    facts: &mut Vec<Fact>,
) -> Result<(), Memory>
    ensures { OnOk result (facts.new.items
        ≡ facts.old.items ++ facts_of entry grid.now (numbered_keys point numbered count)) }
{
    for number in 0..count {
        push_slot(entry, grid, key(point, slot_of(numbered, number)), facts)?;
    }
    Ok(())
}

fn key(point: u32, slot: Slot) -> Key
    ensures { result ≡ key_of point slot }
{
    Key { point, slot }
}

/// Appends the facts of a slot.
#[tactic(auto, using(crate::proofs::Pushing::none_shown, crate::proofs::Pushing::words_shown, crate::proofs::Pushing::words_few))]
pub(crate) fn push_slot(
    entry: u32,
    grid: &Grid,
    key: Key,
    facts: &mut Vec<Fact>,
) -> Result<(), Memory>
    ensures { OnOk result (facts.new.items
        ≡ facts.old.items ++ facts_at entry key (numbers_at grid.now key.point key.slot)) }
{
    match grid.words(key.point, key.slot) {
        Some(words) => {
            push_words(entry, key, words, facts)?;
            Ok(())
        }
        None => Ok(()),
    }
}

/// Appends the facts of the numbers of a slot whose bits are set.
fn push_words(entry: u32, key: Key, words: &[u64], facts: &mut Vec<Fact>) -> Result<(), Memory>
    requires { 64 * length words.now ≤ 2 ^ 32 }
    ensures { OnOk result
        (facts.new.items ≡ facts.old.items ++ facts_at entry key (numbers words.now)) }
{
    for place in 0..words.len() {
        if words[place] == 0 {
            continue;
        }
        push_bits(entry, key, words[place], 64 * place as u32, facts)?;
    }
    Ok(())
}

/// Appends those of the bits of a word that has one, the lowest of which has this number. No bit is
/// looked at below the first that is set, nor above the last.
fn push_bits(
    entry: u32,
    key: Key,
    word: u64,
    first: u32,
    facts: &mut Vec<Fact>,
) -> Result<(), Memory>
    requires some { word ≡ 0 → ⊥ }
    requires fits { first + 64 ≤ 2 ^ 32 }
    ensures { OnOk result
        (facts.new.items ≡ facts.old.items ++ facts_at entry key (bits_of word first 64)) }
{
    let low = word.trailing_zeros();
    let end = 64 - word.leading_zeros();
    for bit in low..end {
        push_bit(entry, key, word, bit, first, facts)?;
    }
    Ok(())
}

/// Appends that of a bit, if it is set.
#[tactic(auto, using(crate::proofs::Pushing::bit_pushed, crate::proofs::Pushing::no_bit))]
fn push_bit(
    entry: u32,
    key: Key,
    word: u64,
    bit: u32,
    first: u32,
    facts: &mut Vec<Fact>,
) -> Result<(), Memory>
    requires within { bit < 64 }
    requires fits { first + 64 ≤ 2 ^ 32 }
    ensures { OnOk result
        (facts.new.items ≡ facts.old.items ++ facts_at entry key (bit_number word first bit)) }
{
    if !has_bit(word, bit) {
        return Ok(());
    }
    let fact = Fact {
        entry,
        point: key.point,
        slot: key.slot,
        value: value_in(key.slot, first + bit),
    };
    append(facts, fact)?;
    Ok(())
}
