// The order in which points are looked at.
//
// What flows lead to from each other, round and round, is one component of the graph of ways.
// Components come one after the other, each before those to which it leads, so a caller before what
// it calls; inside a component a point comes before those to which it leads, but for ways that lead
// back. What answers flow to is left out. So a point is looked at when nothing before it can bring
// something new, and the points of a loop again and again, in sweeps, until the loop rests. The
// order costs or saves time alone: nothing is told of it.
use flow_table::{Ends, FlowTable};
use plex_num::{Memory, Seq};
use std::alloc::Global;

/// A point that a search goes on from, and how many ends of its ways are left, from the last one
/// on.
#[derive(Clone, Copy)]
struct Step {
    point: u32,
    left: u32,
}

/// How far the search is with a point: 0 where it has not come there, else when it came, from 1;
/// when it came to the earliest point to which it was led back from there; when it left the point;
/// and whether its component is still open.
#[derive(Clone, Copy)]
struct Visit {
    came: u32,
    low: u32,
    left: u32,
    open: bool,
}

/// Where a point stands, from the last one on: its component, in the order in which they were
/// closed; when the search left it; and the point.
#[derive(Clone, Copy, PartialEq, Eq, PartialOrd, Ord)]
struct Rank {
    component: u32,
    left: u32,
    point: u32,
}

/// Where a point stands in the order: its component, lowest first, and its seat, which lies above
/// those of the points before it.
#[derive(Clone, Copy)]
pub struct Place {
    pub component: u32,
    pub seat: u32,
}

/// A search through the graph of ways.
#[derive(Drop)]
struct Search {
    visits: Vec<Visit>,
    /// The path to where the search is.
    path: Vec<Step>,
    /// The points whose components are open.
    open: Vec<u32>,
    ranks: Vec<Rank>,
    came: u32,
    left: u32,
    components: u32,
}

/// For each point of a table its place in the order.
pub(crate) fn order_of(alloc: Global, table: &FlowTable) -> Result<Seq<Place>, Memory> {
    let count = table.rows.len();
    let mut search = Search {
        visits: blank(alloc, count)?,
        path: Vec::new(alloc),
        open: Vec::new(alloc),
        ranks: Vec::new(alloc),
        came: 0,
        left: 0,
        components: 0,
    };
    let turns = most_turns(table);
    for point in 0..count {
        search_from(table, &mut search, narrow(point), turns)?;
    }
    placed(alloc, count, search)
}

fn blank(alloc: Global, count: usize) -> Result<Vec<Visit>, Memory> {
    let none = Visit {
        came: 0,
        low: 0,
        left: 0,
        open: false,
    };
    match Vec::from_elem(alloc, none, count) {
        Ok(visits) => Ok(visits),
        Err(_) => Err(Memory),
    }
}

/// The places of all points in the order: the component that was left last comes first, and in it
/// the point that was left last.
fn placed(alloc: Global, count: usize, search: Search) -> Result<Seq<Place>, Memory> {
    let Search {
        ranks,
        components,
        ..
    } = search;
    let mut ranks = ranks;
    ranks.sort_unstable();
    let none = Place {
        component: 0,
        seat: 0,
    };
    let mut places = match Vec::from_elem(alloc, none, count) {
        Ok(places) => places,
        Err(_) => return Err(Memory),
    };
    let last = ranks.len();
    for (i, rank) in ranks.iter().enumerate() {
        let point = rank.point as usize;
        if point < places.len() {
            places[point] = Place {
                component: components.saturating_sub(rank.component),
                seat: narrow(last.saturating_sub(i)),
            };
        }
    }
    Ok(Seq::from_vec(places))
}

/// Searches all that a point leads to and that was not met.
fn search_from(
    table: &FlowTable,
    search: &mut Search,
    point: u32,
    turns: usize,
) -> Result<(), Memory> {
    if visit_of(search, point).came != 0 {
        return Ok(());
    }
    enter(table, search, point)?;
    for _ in 0..turns {
        let Some(step) = search.path.pop() else {
            return Ok(());
        };
        go_on(table, search, step)?;
    }
    Ok(())
}

/// As many turns as a search takes at most, each of which passes an end or leaves a point.
fn most_turns(table: &FlowTable) -> usize {
    let mut turns: usize = 2;
    for point in 0..table.rows.len() {
        let ends = ends_of(table, narrow(point)) as usize;
        turns = turns.saturating_add(2).saturating_add(ends);
    }
    turns
}

fn visit_of(search: &Search, point: u32) -> Visit {
    match search.visits.get(point as usize) {
        Some(visit) => *visit,
        None => Visit {
            came: 1,
            low: 1,
            left: 1,
            open: false,
        },
    }
}

fn note(search: &mut Search, point: u32, visit: Visit) {
    let place = point as usize;
    if place < search.visits.len() {
        search.visits[place] = visit;
    }
}

/// Enters a point.
fn enter(table: &FlowTable, search: &mut Search, point: u32) -> Result<(), Memory> {
    search.came = search.came.saturating_add(1);
    let came = search.came;
    note(
        search,
        point,
        Visit {
            came,
            low: came,
            left: 0,
            open: true,
        },
    );
    push_point(&mut search.open, point)?;
    push_step(
        &mut search.path,
        Step {
            point,
            left: ends_of(table, point),
        },
    )
}

/// Passes an end of a point, or leaves the point.
fn go_on(table: &FlowTable, search: &mut Search, step: Step) -> Result<(), Memory> {
    if step.left == 0 {
        return leave(search, step.point);
    }
    let left = step.left - 1;
    push_step(
        &mut search.path,
        Step {
            point: step.point,
            left,
        },
    )?;
    let Some(end) = end_at(table, step.point, left) else {
        return Ok(());
    };
    let there = visit_of(search, end);
    if there.came == 0 {
        return enter(table, search, end);
    }
    if there.open {
        lower(search, step.point, there.came);
    }
    Ok(())
}

/// Notes that a point leads back to where the search came then.
fn lower(search: &mut Search, point: u32, came: u32) {
    let mut here = visit_of(search, point);
    here.low = here.low.min(came);
    note(search, point, here);
}

/// Leaves a point, and closes its component if it is the first one of it.
fn leave(search: &mut Search, point: u32) -> Result<(), Memory> {
    search.left = search.left.saturating_add(1);
    let mut here = visit_of(search, point);
    here.left = search.left;
    note(search, point, here);
    if let Some(before) = search.path.last().copied() {
        lower(search, before.point, here.low);
    }
    if here.low == here.came {
        close(search, point)?;
    }
    Ok(())
}

/// Closes the component of which this is the first point.
fn close(search: &mut Search, first: u32) -> Result<(), Memory> {
    search.components = search.components.saturating_add(1);
    let component = search.components;
    for _ in 0..search.open.len() {
        let Some(point) = search.open.pop() else {
            return Ok(());
        };
        let mut here = visit_of(search, point);
        here.open = false;
        note(search, point, here);
        let left = here.left;
        push_rank(
            &mut search.ranks,
            Rank {
                component,
                left,
                point,
            },
        )?;
        if point == first {
            return Ok(());
        }
    }
    Ok(())
}

/// How many ends the ways from a point have, but for those of answers.
fn ends_of(table: &FlowTable, point: u32) -> u32 {
    let Some(row) = table.rows.get(point as usize) else {
        return 0;
    };
    let mut count: usize = 0;
    for way in row.ways.as_slice() {
        if let Ends::Points(points) = &way.ends {
            count = count.saturating_add(points.as_slice().len());
        }
    }
    narrow(count)
}

/// One of them, counted from 0.
fn end_at(table: &FlowTable, point: u32, place: u32) -> Option<u32> {
    let row = table.rows.get(point as usize)?;
    let mut past = place as usize;
    for way in row.ways.as_slice() {
        if let Ends::Points(points) = &way.ends {
            let ends = points.as_slice();
            if let Some(end) = ends.get(past) {
                return Some(*end);
            }
            past = past.saturating_sub(ends.len());
        }
    }
    None
}

/// A number as one of 32 bits; the largest where it is above that.
fn narrow(number: usize) -> u32 {
    match u32::try_from(number) {
        Ok(number) => number,
        Err(_) => u32::MAX,
    }
}

fn push_point(points: &mut Vec<u32>, point: u32) -> Result<(), Memory> {
    match points.push(point) {
        Ok(()) => Ok(()),
        Err(_) => Err(Memory),
    }
}

fn push_step(path: &mut Vec<Step>, step: Step) -> Result<(), Memory> {
    match path.push(step) {
        Ok(()) => Ok(()),
        Err(_) => Err(Memory),
    }
}

fn push_rank(ranks: &mut Vec<Rank>, rank: Rank) -> Result<(), Memory> {
    match ranks.push(rank) {
        Ok(()) => Ok(()),
        Err(_) => Err(Memory),
    }
}
