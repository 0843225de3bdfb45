// The jobs that wait, the lines and the chains are carried over.
ghost use Rattle.std.specs.Prelude.{◌≡◌, ◌≤◌, IfOk, OnOk, length, map, slice_index};
ghost use Rattle.plex_limits.specs.declared.limits.TheConstants.{MOST_HELD};
ghost use Rattle.std.specs.FinMap as fin;
ghost use Rattle.block_change.specs.Carried.{carried_chain, carried_chains, carried_held};
ghost use Rattle.block_change.specs.Carried.{new_entries, new_file, number_for};
ghost use Rattle.block_change.specs.Renamed.{AreAtLevels, job_with, line_with, waiting_with};

use crate::same::{Named, same_entry, same_file};
use exchange_model::{Entry, Exchange};
use forlopp_chain::Chains;
use job_buffers::Buffers;
use job_types::{Chain, Held, Job};
use plex_num::{Memory, Seq};
use signal_file::Line;
use std::alloc::Global;

/// The number of the entry of the same names, for each entry of the old exchange.
pub(crate) fn new_entries(
    alloc: Global,
    old: &Exchange,
    new: &Named<'_>,
) -> Result<Seq<u32>, Memory>
    ensures { IfOk result (λ numbers. numbers ≡ new_entries old.now new.now.exchange.now) }
{
    numbers_of(alloc, old, old.entries.as_slice(), new)
}

/// The same for each of these entries.
fn numbers_of(
    alloc: Global,
    old: &Exchange,
    entries: &[Entry],
    new: &Named<'_>,
) -> Result<Seq<u32>, Memory>
    ensures { IfOk result (λ numbers.
        numbers ≡ map (number_for old.now new.now.exchange.now) entries.now) }
{
    let mut numbers = Seq::new(alloc);
    for entry in entries {
        numbers.push(number_for(old, new, *entry))?;
    }
    Ok(numbers)
}

/// The number of the entry of the same names; 0 where there is none.
fn number_for(old: &Exchange, new: &Named<'_>, entry: Entry) -> u32
    ensures { result ≡ number_for old.now new.now.exchange.now entry }
{
    match same_entry(old, new, entry) {
        Some(number) => number,
        None => 0,
    }
}

/// The number at a place; 0 past the last one.
fn number_at(entries: &[u32], place: u32) -> u32
    ensures { result ≡ slice_index entries.now place }
{
    let place = place as usize;
    if place < entries.len() {
        entries[place]
    } else {
        0
    }
}

/// The jobs that wait, each at the entry that has its number in these.
pub(crate) fn carried_waiting(
    alloc: Global,
    buffers: Buffers,
    entries: &[u32],
) -> Result<Buffers, Memory>
    requires { AreAtLevels buffers.waiting }
    ensures { IfOk result (λ carried. carried.waiting ≡ waiting_with entries.now buffers.waiting) }
{
    let mut left = buffers;
    let mut carried = Buffers::new(alloc);
    'jobs: loop {
        let Some(job) = left.take() else {
            return Ok(carried);
        };
        carried.push(carried_job(job, entries))?;
    }
}

/// The job, at the entry that has its number in these.
fn carried_job(job: Job, entries: &[u32]) -> Job
    ensures { result ≡ job_with entries.now job }
{
    Job {
        entry: number_at(entries, job.entry),
        level: job.level,
        values: job.values,
        forlopp: job.forlopp,
    }
}

/// The lines, each at the entry that has its number in these.
pub(crate) fn carried_lines(
    alloc: Global,
    lines: &[Line],
    entries: &[u32],
) -> Result<Seq<Line>, Memory>
    ensures { IfOk result (λ carried. carried ≡ map (line_with entries.now) lines.now) }
{
    let mut carried = Seq::new(alloc);
    for line in lines {
        carried.push(carried_line(line, entries))?;
    }
    Ok(carried)
}

/// The line, at the entry that has its number in these.
fn carried_line(line: &Line, entries: &[u32]) -> Line
    ensures { result ≡ line_with entries.now line.now }
{
    Line {
        number: line.number,
        after: line.after,
        entry: number_at(entries, line.entry),
        values: line.values.copy(),
        kind: line.kind,
    }
}

/// The chains name the files of the same names.
pub(crate) fn carry_chains(
    chains: &mut Chains,
    old: &Exchange,
    new: &Named<'_>,
) -> Result<(), Memory>
    ensures chains { OnOk result (chains.new.chains
        ≡ carried_chains old.now new.now.exchange.now chains.old.chains) }
    ensures dead { OnOk result (chains.new.dead ≡ chains.old.dead) }
{
    let numbers = chains.numbers()?;
    carry_each(chains, numbers.as_slice(), old, new)?;
    Ok(())
}

/// The chains of these numbers, which are all that hold records, name the files of the same names.
fn carry_each(
    chains: &mut Chains,
    numbers: &[u64],
    old: &Exchange,
    new: &Named<'_>,
) -> Result<(), Memory>
    requires numbers { numbers.now ≡ fin.keys chains.old.chains }
    ensures chains { OnOk result (chains.new.chains
        ≡ carried_chains old.now new.now.exchange.now chains.old.chains) }
    ensures dead { OnOk result (chains.new.dead ≡ chains.old.dead) }
{
    for number in numbers {
        let chain = carried_chain(old, new, chains.chain(*number));
        chains.reserve()?;
        chains.put_reserved(*number, chain);
    }
    Ok(())
}

/// The records, each in the file of the same names.
fn carried_chain(old: &Exchange, new: &Named<'_>, chain: &[Held]) -> Chain
    requires few { length chain.now ≤ MOST_HELD }
    ensures { result ≡ carried_chain old.now new.now.exchange.now chain.now }
{
    let mut carried = Chain::new();
    for held in chain {
        carried.push(carried_held(old, new, *held));
    }
    carried
}

/// The record of the same number in the file of the same names.
fn carried_held(old: &Exchange, new: &Named<'_>, held: Held) -> Held
    ensures { result ≡ carried_held old.now new.now.exchange.now held }
{
    Held {
        file: new_file(old, new, held.file),
        number: held.number,
    }
}

/// The number of the file of the same names; 0 where there is none.
fn new_file(old: &Exchange, new: &Named<'_>, file: u32) -> u32
    ensures { result ≡ new_file old.now new.now.exchange.now file }
{
    match same_file(old, new, file) {
        Some(found) => found.file.number,
        None => 0,
    }
}
