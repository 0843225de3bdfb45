// Whether another exchange fits.
ghost use Rattle.std.specs.Prelude.{◌≡◌, ◌<◌, IfSome, Some, length, not, position};
ghost use Rattle.std.specs.Option.{option_copied};
ghost use Rattle.exchange_model.specs.Names.{signal_level};
ghost use Rattle.exchange_model.specs.Kept.{signal_count};
ghost use Rattle.std.specs.Option.{option_map_or};
ghost use Rattle.block_change.specs.Misfits.{agree, entry_signal, first_lacking, has_entry};
ghost use Rattle.block_change.specs.Misfits.{lacking, lacks, misfit, rank, takes};

use crate::same::{FileInside, Named, file_at, same_entry};
use exchange_model::{Block, Entry, Exchange, File, SignalKind};
use plex_num::{Level, Name};

/// What an exchange has and the one that is to take its place has not: an entry of the same signal
/// and block names, level and number of values, or a FORLOPP FILE of the same names and at least
/// its size. Both by their numbers in the first exchange.
#[derive(Clone, Copy, PartialEq, Eq)]
pub enum Misfit {
    Entry { entry: u32 },
    File { file: u32 },
}

/// The first misfit: that of an entry, or where there is none, that of a file. `None` exactly where
/// the new exchange fits.
pub fn misfit_of(old: &Exchange, new: &Named<'_>) -> Option<Misfit>
    ensures { result ≡ misfit old.now new.now.exchange.now }
{
    if let Some(entry) = missing_entry(old, new) {
        return Some(Misfit::Entry { entry });
    }
    if let Some(file) = missing_file(old.blocks.as_slice(), new) {
        return Some(Misfit::File { file: file.number });
    }
    None
}

/// The first entry that the new exchange has not.
fn missing_entry(old: &Exchange, new: &Named<'_>) -> Option<u32>
    ensures { result
        ≡ position (λ e. not (has_entry old.now new.now.exchange.now e)) old.now.entries }
{
    match missing_place(old, old.entries(), new) {
        Some(entry) => Some(entry as u32),
        None => None,
    }
}

/// The place of the first of these that the new exchange has not.
fn missing_place(old: &Exchange, entries: &[Entry], new: &Named<'_>) -> Option<usize>
    ensures place { result
        ≡ position (λ e. not (has_entry old.now new.now.exchange.now e)) entries.now }
    ensures within { IfSome result (λ i. i < length entries.now) }
{
    entries
        .iter()
        .position(|entry| !has_entry(old, new, *entry))
}

/// Whether the new exchange has an entry.
fn has_entry(old: &Exchange, new: &Named<'_>, entry: Entry) -> bool
    ensures { result ≡ has_entry old.now new.now.exchange.now entry }
{
    let Some(number) = same_entry(old, new, entry) else {
        return false;
    };
    let signal = old.signals.as_slice().get(entry.signal as usize);
    agree(signal, entry_signal(new.exchange, number))
}

/// The signal of an entry.
fn entry_signal(exchange: &Exchange, entry: u32) -> Option<&SignalKind>
    ensures { option_copied result ≡ entry_signal exchange.now entry }
{
    let Some(entry) = exchange.entries.as_slice().get(entry as usize) else {
        return None;
    };
    exchange.signals.as_slice().get(entry.signal as usize)
}

/// Whether two signals have one level and one number of values.
fn agree(one: Option<&SignalKind>, other: Option<&SignalKind>) -> bool
    ensures { result ≡ agree (option_copied one.entry) (option_copied other.entry) }
{
    rank(one) == rank(other) && count(one) == count(other)
}

/// The number of a signal's level.
fn rank(signal: Option<&SignalKind>) -> u8
    ensures { result ≡ rank (signal_level (option_copied signal.entry)) }
{
    match level(signal) {
        Level::A => 0,
        Level::B => 1,
        Level::C => 2,
        Level::D => 3,
    }
}

/// The level of a signal.
fn level(signal: Option<&SignalKind>) -> Level
    ensures { result ≡ signal_level (option_copied signal.entry) }
{
    match signal {
        Some(SignalKind::Buffered { level, .. }) => *level,
        _ => Level::B,
    }
}

/// The number of values of a signal.
fn count(signal: Option<&SignalKind>) -> u8
    ensures { result ≡ option_map_or signal_count (option_copied signal.entry) 0 }
{
    match signal {
        Some(signal) => signal.count(),
        None => 0,
    }
}

/// The first FORLOPP FILE that the new exchange has not.
#[tactic(auto, using(crate::proofs::Misfitting::lacking_begin, crate::proofs::Misfitting::lacking_more, crate::proofs::Misfitting::lacking_found, crate::proofs::Misfitting::lacking_end))]
fn missing_file<'a>(blocks: &'a [Block], new: &Named<'_>) -> Option<&'a File>
    ensures { option_copied result ≡ first_lacking new.now.exchange.now blocks.now }
{
    for block in blocks {
        if let Some(file) = lacking(block, new) {
            return Some(file);
        }
    }
    None
}

/// The first of a block.
fn lacking<'a>(block: &'a Block, new: &Named<'_>) -> Option<&'a File>
    ensures { option_copied result ≡ lacking new.now.exchange.now block.now }
{
    block
        .files
        .as_slice()
        .iter()
        .find(|file| lacks(&block.name, file, new))
}

/// Whether the new exchange lacks a FORLOPP FILE of a block.
fn lacks(block: &Name, file: &File, new: &Named<'_>) -> bool
    ensures { result ≡ lacks new.now.exchange.now block.now file.now }
{
    if !file.forlopp {
        return false;
    }
    let Some(number) = new.names.blocks.place(block) else {
        return true;
    };
    match file_at(new, &file.name, number) {
        Some(found) => !takes(&found, file),
        None => true,
    }
}

/// Whether this is a FORLOPP FILE of at least the other's size.
fn takes(found: &FileInside<'_>, file: &File) -> bool
    ensures { result ≡ takes (Some found.now.file.now) file.now }
{
    found.file.forlopp && file.size <= found.file.size
}
