// The texts of the sections.
ghost use Rattle.std.specs.Prelude.{◌≡◌, ◌<◌, ◌++◌, Some, length, slice_get, IfOk, OnOk};
ghost use Rattle.least_facts.specs.Least.{IsFor};
ghost use Rattle.analysis_text.specs.Pairs.{GainsText};
ghost use Rattle.conflicts_meaning.specs.Lines.{last_line, limit_line};
ghost use Rattle.conflicts_meaning.specs.Told.{HasEntryLines, HasPairLines, HasSectionLines};
ghost use Rattle.conflicts_meaning.specs.Told.{IsEntryText, IsPairText, IsSectionText, Told};
ghost use Rattle.conflicts_text.specs.Fits.{TextWithin};
ghost use Rattle.conflicts_text.specs.Means.{AreOf};
ghost use Rattle.conflicts_text.specs.Within.{AllWithin, IsWithin};

use crate::lines::{clash_lines, limit_text, point_lines};
use crate::points::points_within;
use conflict_rows::{KnownEntry, clashes_of};
use conflicts_meaning::{EntryPair, Section};
use entry_accesses::CellNumbers;
use exchange_model::Exchange;
use flow_table::{FlowTable, PlaceAt, reached_places};
use kept_summaries::Summaries;
use least_facts::Analyser;
use plex_num::{Memory, Seq};
use std::alloc::Global;
use text_parts::Text;

/// What is computed once per exchange.
#[derive(Clone, Copy)]
pub struct Means<'a> {
    pub exchange: &'a Exchange,
    pub table: &'a FlowTable,
    pub places: &'a [PlaceAt<'a>],
    pub numbers: &'a CellNumbers,
    pub summaries: &'a Summaries,
}

/// Appends the texts of the sections, and the last line. Stops with the LIMIT line where the next
/// section would exceed `most` bytes in all.
pub(crate) fn add_sections(
    text: &mut Text,
    alloc: Global,
    means: &Means<'_>,
    analyser: &mut Analyser,
    sections: &[Section],
    most: usize,
) -> Result<(), Memory>
    requires of { AreOf means.now.exchange.now means.now.table.now means.now.places.now
        means.now.numbers.now means.now.summaries.now }
    requires own { IsFor means.now.exchange.now means.now.table.now analyser.old }
    requires within { AllWithin (length means.now.summaries.now) sections.now }
    ensures { OnOk result (GainsText
        (Told (IsSectionText means.now.exchange.now means.now.summaries.now)
        (HasSectionLines means.now.exchange.now means.now.summaries.now) most sections.now most)
        text.old text.new) }
{
    let mut room = most;
    for place in 0..sections.len() {
        let section = section_at(sections, place);
        let found = section_text(alloc, means, analyser, section, room)?;
        let Some(part) = found else {
            add_limit(text, alloc, most)?;
            return Ok(());
        };
        let size = part.len();
        room -= size;
        let bytes = part.as_slice();
        text.append(bytes)?;
    }
    add_last(text)?;
    Ok(())
}

/// Appends the LIMIT line.
fn add_limit(text: &mut Text, alloc: Global, most: usize) -> Result<(), Memory>
    ensures { OnOk result (text.new ≡ text.old ++ limit_line most) }
{
    let limit = limit_text(alloc, most)?;
    text.append(limit.as_slice())
}

/// Appends the last line.
fn add_last(text: &mut Text) -> Result<(), Memory>
    ensures { OnOk result (text.new ≡ text.old ++ last_line) }
{
    text.append(b"END CONFLICTS\n")
}

/// The section at an index.
fn section_at(sections: &[Section], place: usize) -> Section
    requires { place < length sections.now }
    ensures { slice_get sections.now place ≡ Some result }
{
    sections[place]
}

/// The text of a section; `None` if some lines of it take more than `room` bytes.
fn section_text(
    alloc: Global,
    means: &Means<'_>,
    analyser: &mut Analyser,
    section: Section,
    room: usize,
) -> Result<Option<Seq<u8>>, Memory>
    requires of { AreOf means.now.exchange.now means.now.table.now means.now.places.now
        means.now.numbers.now means.now.summaries.now }
    requires own { IsFor means.now.exchange.now means.now.table.now analyser.old }
    requires within { IsWithin (length means.now.summaries.now) section }
    ensures own { OnOk result (IsFor means.now.exchange.now means.now.table.now analyser.new) }
    ensures text { IfOk result (TextWithin
        (IsSectionText means.now.exchange.now means.now.summaries.now section)
        (HasSectionLines means.now.exchange.now means.now.summaries.now section) room) }
{
    match section {
        Section::Entry { number } => entry_text(alloc, means, analyser, number, room),
        Section::Pair { pair } => pair_text(alloc, means.summaries, pair, room),
    }
}

/// The AT lines of an entry; `None` if some of them take more than `room` bytes. Computes the
/// entry's facts once more.
fn entry_text(
    alloc: Global,
    means: &Means<'_>,
    analyser: &mut Analyser,
    number: usize,
    room: usize,
) -> Result<Option<Seq<u8>>, Memory>
    requires of { AreOf means.now.exchange.now means.now.table.now means.now.places.now
        means.now.numbers.now means.now.summaries.now }
    requires own { IsFor means.now.exchange.now means.now.table.now analyser.old }
    requires within { number < length means.now.summaries.now }
    ensures own { OnOk result (IsFor means.now.exchange.now means.now.table.now analyser.new) }
    ensures text { IfOk result (TextWithin
        (IsEntryText means.now.exchange.now means.now.summaries.now number)
        (HasEntryLines means.now.exchange.now means.now.summaries.now number) room) }
{
    means.exchange.kept();
    let entry = number as u32;
    analyser.learn(alloc, means.exchange, means.table, entry, None)?;
    let facts = analyser.known();
    let there = reached_places(alloc, means.places, facts, entry)?;
    let reached = there.as_slice();
    let of = KnownEntry {
        exchange: means.exchange,
        numbers: means.numbers,
        known: facts,
        entry,
    };
    let summary = means.summaries.at(number);
    let found = points_within(alloc, &of, reached, summary, number, room)?;
    let Some(rows) = found else {
        return Ok(None);
    };
    let lines = rows.as_slice();
    let text = point_lines(alloc, means.exchange, number, lines, room)?;
    Ok(text)
}

/// The CLASH lines of a pair; `None` if some of them take more than `room` bytes.
fn pair_text(
    alloc: Global,
    summaries: &Summaries,
    pair: EntryPair,
    room: usize,
) -> Result<Option<Seq<u8>>, Memory>
    requires first { pair.first < length summaries.now }
    requires later { pair.later < length summaries.now }
    ensures { IfOk result
        (TextWithin (IsPairText summaries.now pair) (HasPairLines summaries.now pair) room) }
{
    let first = summaries.at(pair.first);
    let later = summaries.at(pair.later);
    let rows = clashes_of(alloc, first, later)?;
    let lines = rows.as_slice();
    let text = clash_lines(alloc, pair, lines, room)?;
    Ok(text)
}
