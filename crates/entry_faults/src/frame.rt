// A point that a search goes on from, with what is left to look at.
ghost use Rattle.std.specs.Prelude.{◌≡◌, ◌≤◌, drop, length};
ghost use Rattle.entry_faults.specs.Circles.{ends_of as ends_in};
ghost use Rattle.entry_faults.specs.Frames.{Begins, Moves, Passes, first};

use crate::mark::{Mark, is_closed};
use flow_table::{Ends, FlowTable, Way};
use plex_num::Seq;

/// A point that a search goes on from, and what it has not looked at there: these points, and the
/// ends of these ways.
#[derive(Clone, Copy)]
pub struct Frame<'a> {
    pub point: usize,
    pub ends: &'a [u32],
    pub ways: &'a [Way],
}

/// The first of these points, if there is one.
pub fn first_of(ends: &[u32]) -> Option<u32>
    ensures { result ≡ first ends.now }
{
    match ends {
        [end, ..] => Some(*end),
        [] => None,
    }
}

fn from_point(ends: &[u32], n: usize) -> &[u32]
    requires { n ≤ length ends.now }
    ensures { result.now ≡ drop n ends.now }
{
    &ends[n..]
}

fn from_way(ways: &[Way], n: usize) -> &[Way]
    requires { n ≤ length ways.now }
    ensures { result.now ≡ drop n ways.now }
{
    &ways[n..]
}

/// The points to which a way leads.
fn ends_of<'a>(table: &'a FlowTable, way: &'a Way) -> &'a [u32]
    ensures { result.now ≡ ends_in table.now way.now.ends }
{
    match &way.ends {
        Ends::Points(points) => points.as_slice(),
        Ends::Retrieves(answer) => retrieves_of(table, *answer),
    }
}

/// The points of the RETRIEVEs of an answer; none where there is no such signal.
fn retrieves_of(table: &FlowTable, answer: u32) -> &[u32]
    ensures { result.now ≡ Rattle.entry_faults.specs.Circles.retrieves_of table.now answer }
{
    match table.retrieves.get(answer as usize) {
        Some(points) => points.as_slice(),
        None => &[],
    }
}

/// The ways from a point; none where there is no such point.
fn ways_at(table: &FlowTable, point: usize) -> &[Way]
    ensures { result.now ≡ Rattle.entry_faults.specs.Circles.ways_at table.now point }
{
    match table.rows.get(point) {
        Some(row) => row.ways.as_slice(),
        None => &[],
    }
}

/// A point at which nothing has been looked at.
pub fn frame_of(table: &FlowTable, point: usize) -> Frame<'_>
    ensures { Begins table.now point result }
{
    Frame {
        point,
        ends: &[],
        ways: ways_at(table, point),
    }
}

/// These points from the first one on that is not closed.
fn from_unclosed<'a>(reached: &Seq<bool>, marks: &Seq<Mark>, ends: &'a [u32]) -> &'a [u32]
    ensures { Passes reached.now marks.now ends.now result.now }
{
    for (i, end) in ends.iter().enumerate() {
        if !is_closed(reached, marks, *end as usize) {
            return from_point(ends, i);
        }
    }
    from_point(ends, ends.len())
}

/// The same point, from the first end on that is not closed.
pub fn pass_closed<'a>(
    table: &'a FlowTable,
    reached: &Seq<bool>,
    marks: &Seq<Mark>,
    frame: &Frame<'a>,
) -> Frame<'a>
    ensures { Moves table.now reached.now marks.now frame.now result }
{
    let point = frame.point;
    let ways = frame.ways;
    let mut ends = from_unclosed(reached, marks, frame.ends);
    for (i, way) in ways.iter().enumerate() {
        if !ends.is_empty() {
            return Frame {
                point,
                ends,
                ways: from_way(ways, i),
            };
        }
        ends = from_unclosed(reached, marks, ends_of(table, way));
    }
    Frame {
        point,
        ends,
        ways: from_way(ways, ways.len()),
    }
}
