// Which sections are written.
ghost use Rattle.std.specs.Prelude.{◌≡◌, ◌++◌, ◌&&◌, nat_eq, nat_lt, map, IfOk, OnOk, Some};
ghost use Rattle.std.specs.List.{range_with_len};
ghost use Rattle.conflicts_meaning.specs.declared.rows.Section.TheVariants as section;
ghost use Rattle.conflicts_meaning.specs.Told.{all_sections, pair_row, pair_sections};
ghost use Rattle.conflicts_meaning.specs.Told.{sections as sections_of};

use conflicts_meaning::{EntryPair, Section};
use plex_num::{Memory, Seq};
use std::alloc::Global;

/// The sections of `count` entries: all of them, or those of the requested pair.
pub fn asked_sections(
    alloc: Global,
    count: usize,
    asked: Option<EntryPair>,
) -> Result<Seq<Section>, Memory>
    ensures { IfOk result (λ made. made ≡ sections_of count asked) }
{
    match asked {
        None => all(alloc, count),
        Some(pair) => one(alloc, count, pair),
    }
}

/// The sections of one pair; empty if one of its entries does not exist.
#[tactic(auto, using(crate::proofs::Sectioned::pair_told, crate::proofs::Sectioned::none_told))]
fn one(alloc: Global, count: usize, pair: EntryPair) -> Result<Seq<Section>, Memory>
    ensures { IfOk result (λ made. made ≡ sections_of count (Some pair)) }
{
    if is_there(count, pair) {
        let made = of_pair(alloc, pair)?;
        return Ok(made);
    }
    Ok(Seq::new(alloc))
}

fn is_there(count: usize, pair: EntryPair) -> bool
    ensures { result ≡ (nat_lt pair.first count && nat_lt pair.later count) }
{
    pair.first < count && pair.later < count
}

#[tactic(auto, using(crate::proofs::Sectioned::one_told, crate::proofs::Sectioned::two_told))]
fn of_pair(alloc: Global, pair: EntryPair) -> Result<Seq<Section>, Memory>
    ensures { IfOk result (λ made. made ≡ pair_sections pair) }
{
    let mut made = Seq::new(alloc);
    made.push(Section::Entry { number: pair.first })?;
    if is_one(pair) {
        made.push(Section::Pair { pair })?;
        return Ok(made);
    }
    made.push(Section::Entry { number: pair.later })?;
    made.push(Section::Pair { pair })?;
    Ok(made)
}

fn is_one(pair: EntryPair) -> bool
    ensures { result ≡ nat_eq pair.first pair.later }
{
    pair.first == pair.later
}

/// Each entry, and then each ordered pair.
fn all(alloc: Global, count: usize) -> Result<Seq<Section>, Memory>
    ensures { IfOk result (λ made. made ≡ all_sections count) }
{
    let mut made = Seq::new(alloc);
    push_entries(count, &mut made)?;
    for first in 0..count {
        push_row(count, first, &mut made)?;
    }
    Ok(made)
}

fn push_entries(count: usize, made: &mut Seq<Section>) -> Result<(), Memory>
    ensures { OnOk result (made.new ≡ made.old ++ map section.Entry (range_with_len 0 count)) }
{
    for number in 0..count {
        made.push(Section::Entry { number })?;
    }
    Ok(())
}

fn push_row(count: usize, first: usize, made: &mut Seq<Section>) -> Result<(), Memory>
    ensures { OnOk result (made.new ≡ made.old
        ++ pair_row count first) }
{
    for later in 0..count {
        made.push(Section::Pair {
            pair: EntryPair { first, later },
        })?;
    }
    Ok(())
}
