// The lines of a filter as a table, which tells in a few look-ups whether some line shows a job.
//
// What a line names but its span is its key. At most 16 keys agree with a job: for each of them the
// rows are searched for the last one whose span has begun.
ghost use Rattle.std.specs.Prelude.{◌≡◌, ◌<◌, ◌&&◌, Some, IfOk, if◌then◌else◌, length, map, max};
ghost use Rattle.std.specs.Prelude.{nat_le, slice_get};
ghost use Rattle.std.specs.List.{list_any};
ghost use Rattle.std.specs.List.Sorted.{IsPermutation};
ghost use Rattle.signal_trace.specs.Trace.{is_fault, shows};
ghost use Rattle.signal_trace.specs.Table.{AreCounted, AreLasts, AreRising, IsLast, has_key};
ghost use Rattle.signal_trace.specs.Table.{key_with, keys_for, reaches, row_of, same_key, some_has};

use crate::show::Show;
use exchange_model::Entry;
use job_types::Outcome;
use plex_num::{Memory, Seq};
use std::alloc::Global;
use std::marker::Model;

/// What a line names beside its span of jobs: the block and the signal of an entry, a forlopp, and
/// that a job ended by a fault.
#[derive(Clone, Copy, PartialEq, Eq, PartialOrd, Ord)]
pub struct Key {
    pub block: Option<u32>,
    pub signal: Option<u32>,
    pub forlopp: Option<u64>,
    pub faults: bool,
}

/// A key, and the first job of a span. In the order of keys, then of first jobs.
#[derive(Clone, Copy, PartialEq, Eq, PartialOrd, Ord)]
pub struct Start {
    pub key: Key,
    pub from: u64,
}

/// A line: its key, and the first and the last job of its span.
#[derive(Clone, Copy)]
pub struct Row {
    pub start: Start,
    pub upto: u64,
}

/// Whether a job ended by a fault.
fn is_fault(outcome: Outcome) -> bool
    ensures { result ≡ is_fault outcome }
{
    matches!(outcome, Outcome::Faulted { .. })
}

/// A key that names these.
fn key_with(block: Option<u32>, signal: Option<u32>, forlopp: Option<u64>, faults: bool) -> Key
    ensures { result ≡ key_with block signal forlopp faults }
{
    Key {
        block,
        signal,
        forlopp,
        faults,
    }
}

/// A line as a row. A span has all jobs on the side on which no job is named.
fn row_of(show: &Show) -> Row
    ensures { result ≡ row_of show.now }
{
    Row {
        start: Start {
            key: key_with(show.block, show.signal, show.forlopp, show.faults),
            from: show.from.unwrap_or(0),
        },
        upto: show.upto.unwrap_or(u64::MAX),
    }
}

/// The lines as rows, as they stand.
fn rows_of(alloc: Global, shows: &[Show]) -> Result<Seq<Row>, Memory>
    ensures { IfOk result (λ rows. rows ≡ map row_of shows.now) }
{
    let mut rows = Seq::new(alloc);
    for show in shows {
        rows.push(row_of(show))?;
    }
    Ok(rows)
}

/// The same rows in order.
fn in_order(rows: Seq<Row>) -> Seq<Row>
    ensures same { IsPermutation rows result }
    ensures rising { AreRising result }
{
    let mut items = rows.into_vec();
    items.sort_unstable_by_key(|row| row.start);
    Seq::from_vec(items)
}

/// How far the spans of a row's key reach, up to that row: those of `before`, the key of the row
/// before it, reach up to `last` so far.
fn joined(before: Key, last: u64, row: Row) -> u64
    ensures { result
        ≡ (if same_key before row.start.key then max last row.upto else row.upto) }
{
    if before == row.start.key {
        last.max(row.upto)
    } else {
        row.upto
    }
}

/// The row at a place.
fn row_at(rows: &[Row], place: usize) -> Row
    requires { place < length rows.now }
    ensures { slice_get rows.now place ≡ Some result }
{
    rows[place]
}

/// How far the spans reach of the key of the row at a place, up to that row.
#[tactic(auto, using(crate::proofs::Tabling::last_first, crate::proofs::Tabling::last_more))]
fn last_at(rows: &[Row], lasts: &[u64], place: usize) -> u64
    requires rising { AreRising rows.now }
    requires there { place < length rows.now }
    requires lasts { AreLasts place rows.now lasts.now }
    ensures { IsLast rows.now place result }
{
    let row = row_at(rows, place);
    if place == 0 {
        return row.upto;
    }
    joined(row_at(rows, place - 1).start.key, lasts[place - 1], row)
}

/// How far the spans reach of the key of each row, up to that row.
#[tactic(auto, using(crate::proofs::Tabling::lasts_begin, crate::proofs::Tabling::lasts_more))]
fn lasts_of(alloc: Global, rows: &[Row]) -> Result<Seq<u64>, Memory>
    requires { AreRising rows.now }
    ensures { IfOk result (λ lasts. AreLasts (length rows.now) rows.now lasts) }
{
    let mut lasts = Seq::new(alloc);
    for place in 0..rows.len() {
        let last = last_at(rows, lasts.as_slice(), place);
        lasts.push(last)?;
    }
    Ok(lasts)
}

/// How many rows do not come after this start; they are the first ones.
fn count_upto(rows: &[Row], start: Start) -> usize
    requires { AreRising rows.now }
    ensures { AreCounted start rows.now result }
{
    rows.partition_point(|row| row.start <= start)
}

/// Whether a row is of this key, and its spans reach up to the job of this number: `last` is how
/// far they reach.
fn is_of(row: Row, last: u64, key: Key, number: u64) -> bool
    ensures { result ≡ (same_key row.start.key key && nat_le number last) }
{
    row.start.key == key && number <= last
}

/// Whether some row of this key has the job of this number in its span.
fn some_reaches(rows: &[Row], lasts: &[u64], key: Key, number: u64) -> bool
    requires rising { AreRising rows.now }
    requires lasts { AreLasts (length rows.now) rows.now lasts.now }
    ensures { result ≡ list_any (reaches key number) rows.now }
{
    let count = count_upto(rows, Start { key, from: number });
    if count == 0 {
        return false;
    }
    is_of(row_at(rows, count - 1), lasts[count - 1], key, number)
}

/// The lines of a filter, in a table, whose memory is linear in them. A job takes a look-up for
/// each key that agrees with it.
pub struct ShowTable<'a> {
    shows: &'a Seq<Show>,
    rows: Seq<Row>,
    lasts: Seq<u64>,
}

impl Drop for ShowTable<'_> {
    fn drop(self) {
        let ShowTable {
            shows: _,
            rows: _,
            lasts: _,
        } = self;
    }
}

impl<'a> Model for ShowTable<'a> {
    ghost use Rattle.std.specs.Prelude.{List};
    ghost use Rattle.signal_trace.specs.declared.show.Show.{Show};
    ghost use Rattle.signal_trace.specs.Table.{IsTraceTable};

    ghost Value = { List Show };

    ghost view = { λ t. t.shows.now };

    ghost invariant = { λ t. IsTraceTable t.shows.now t.rows t.lasts };
}

impl<'a> ShowTable<'a> {
    /// The table of these lines. Memory is the only reason for an error.
    pub fn new(alloc: Global, shows: &'a Seq<Show>) -> Result<ShowTable<'a>, Memory>
        ensures { IfOk result (λ table. table ≡ shows.now) }
    {
        let rows = in_order(rows_of(alloc, shows.as_slice())?);
        let lasts = lasts_of(alloc, rows.as_slice())?;
        Ok(ShowTable { shows, rows, lasts })
    }

    /// Whether some line shows a job of this entry and forlopp, of this number, that ended so.
    #[tactic(auto, using(crate::proofs::Tabling::by_keys))]
    pub fn any(&self, entry: Entry, forlopp: u64, number: u64, outcome: Outcome) -> bool
        ensures { result ≡ list_any (shows entry forlopp number outcome) self.now }
    {
        let faulted = is_fault(outcome);
        self.with_keys(entry, forlopp, false, number)
            || (faulted && self.with_keys(entry, forlopp, true, number))
    }

    /// Whether some line has the job of this number in its span, and a key that agrees with the
    /// job: one that names that it ended by a fault, or one that does not.
    fn with_keys(&self, entry: Entry, forlopp: u64, faults: bool, number: u64) -> bool
        ensures { result ≡ some_has self.now number (keys_for entry forlopp faults) }
    {
        let (block, signal, forlopp) = (Some(entry.block), Some(entry.signal), Some(forlopp));
        let keys = [
            key_with(None, None, None, faults),
            key_with(None, None, forlopp, faults),
            key_with(None, signal, None, faults),
            key_with(None, signal, forlopp, faults),
            key_with(block, None, None, faults),
            key_with(block, None, forlopp, faults),
            key_with(block, signal, None, faults),
            key_with(block, signal, forlopp, faults),
        ];
        keys.as_slice()
            .iter()
            .any(|key| self.with_key(*key, number))
    }

    /// Whether some line of this key has the job of this number in its span.
    fn with_key(&self, key: Key, number: u64) -> bool
        ensures { result ≡ list_any (has_key key number) self.now }
    {
        some_reaches(self.rows.as_slice(), self.lasts.as_slice(), key, number)
    }
}
