// The points of an entry whose lines are written.
ghost use Rattle.std.specs.Prelude.{◌≡◌, flat_map, map, IfOk};
ghost use Rattle.flow_table.specs.Texts.{AreReachedAmong, seen};
ghost use Rattle.fact_rows.specs.Known.{Knows};
ghost use Rattle.entry_accesses.specs.Numbered.{AreNumbers};
ghost use Rattle.conflicts_meaning.specs.Lines.{point_text};
ghost use Rattle.conflicts_meaning.specs.Points.{AreGiven, AreSomeGiven};
ghost use Rattle.conflicts_text.specs.Fits.{RowsWithin};

use crate::lines::points_outgrow;
use conflict_rows::{GivenRows, KnownEntry, given_in, given_within};
use conflicts_meaning::GivenAt;
use entry_summary::Summary;
use flow_table::PlaceAt;
use plex_num::{Memory, Seq};
use std::alloc::Global;

/// The least length of an AT line in bytes. With more points than the room has lines of this
/// length, the lines do not fit.
const LEAST_LINE: usize = 22;

/// All points of the entry with this number; `None` if the lines of some of them take more than
/// `room` bytes. `places` are the reached ones. The only error is out of memory.
pub(crate) fn points_within(
    alloc: Global,
    of: &KnownEntry<'_>,
    places: &[PlaceAt<'_>],
    summary: &Summary,
    number: usize,
    room: usize,
) -> Result<Option<Seq<GivenAt>>, Memory>
    requires places { AreReachedAmong of.now.exchange.now (Knows of.now.known.now) of.now.entry
        (map seen places.now) }
    requires numbers { AreNumbers of.now.exchange.now of.now.numbers.now }
    ensures { IfOk result (RowsWithin
        (AreGiven of.now.exchange.now (Knows of.now.known.now) of.now.entry summary.now)
        (AreSomeGiven of.now.exchange.now (Knows of.now.known.now) of.now.entry summary.now)
        (flat_map (point_text of.now.exchange.now number)) room) }
{
    let found = given_within(alloc, of, places, summary, Some(room / LEAST_LINE))?;
    match found {
        GivenRows::Whole { rows } => Ok(Some(rows)),
        GivenRows::Over { rows } => {
            points_beyond(alloc, of, places, summary, number, rows.as_slice(), room)
        }
    }
}

/// The same where some of the points are known, of which the lines may already be too long.
fn points_beyond(
    alloc: Global,
    of: &KnownEntry<'_>,
    places: &[PlaceAt<'_>],
    summary: &Summary,
    number: usize,
    some: &[GivenAt],
    room: usize,
) -> Result<Option<Seq<GivenAt>>, Memory>
    requires places { AreReachedAmong of.now.exchange.now (Knows of.now.known.now) of.now.entry
        (map seen places.now) }
    requires numbers { AreNumbers of.now.exchange.now of.now.numbers.now }
    requires some { AreSomeGiven of.now.exchange.now (Knows of.now.known.now) of.now.entry
        summary.now some.now }
    ensures { IfOk result (RowsWithin
        (AreGiven of.now.exchange.now (Knows of.now.known.now) of.now.entry summary.now)
        (AreSomeGiven of.now.exchange.now (Knows of.now.known.now) of.now.entry summary.now)
        (flat_map (point_text of.now.exchange.now number)) room) }
{
    let over = points_outgrow(alloc, of.exchange, number, some, room)?;
    if over {
        return Ok(None);
    }
    let rows = given_in(alloc, of, places, summary)?;
    Ok(Some(rows))
}
