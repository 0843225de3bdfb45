// How many looks are told: as many as were made, but no more than there may be for the facts that
// were found.
ghost use Rattle.std.specs.Prelude.{◌≡◌, ◌*◌, ◌+◌, ◌≤◌, length, IfOk, IfSome, IsTrue};
ghost use Rattle.fact_rows.specs.Known.{ArePointsOf, Knows};
ghost use Rattle.least_facts.specs.Looks.{HasFacts, IsOver, IsOverBy};

use crate::looks::LOOKS_OF_FACT;
use fact_rows::{FactRows, PointFacts};
use plex_num::Memory;
use std::alloc::Global;

/// Whether there is a bound, and so many looks are more.
pub fn is_over(most: Option<usize>, looks: usize) -> bool
    ensures { IsTrue result → IsOver most looks }
{
    match most {
        Some(most) => looks > most,
        None => false,
    }
}

/// The looks that are told where so many were made, if they are more than there may be. Facts are
/// counted only where the looks are as many as `next`, which is then twice as many.
pub(crate) fn over_by_now(
    alloc: Global,
    rows: &FactRows,
    most: Option<usize>,
    looks: usize,
    next: &mut usize,
) -> Result<Option<usize>, Memory>
    ensures { IfOk result (λ over. IfSome over (IsOverBy (Knows rows.now) most)) }
{
    if !is_over(most, looks) {
        return Ok(None);
    }
    if looks < *next {
        return Ok(None);
    }
    *next = looks.saturating_mul(2);
    let told = looks_for_facts(alloc, rows, looks)?;
    Ok(if_over(most, told))
}

/// So many looks, if there is a bound, and they are more.
fn if_over(most: Option<usize>, looks: usize) -> Option<usize>
    ensures { IfSome result (λ over. (over ≡ looks) × IsOver most looks) }
{
    if is_over(most, looks) {
        Some(looks)
    } else {
        None
    }
}

/// The looks that are told where so many were made: no more than there may be for the facts that
/// rows know.
pub(crate) fn looks_for_facts(alloc: Global, rows: &FactRows, looks: usize) -> Result<usize, Memory>
    ensures { IfOk result (HasFacts (Knows rows.now)) }
{
    let points = rows.points(alloc)?;
    let room = room_at(alloc, rows, &points, looks)?;
    Ok(lesser(looks, room))
}

fn lesser(a: usize, b: usize) -> usize
    ensures { result ≤ b }
{
    a.min(b)
}

/// How many looks there may be for the facts that rows know before these points, which are in
/// order; where they are enough, the other facts are left out.
fn room_at(alloc: Global, rows: &FactRows, points: &[u32], enough: usize) -> Result<usize, Memory>
    requires { ArePointsOf (Knows rows.now) points.now }
    ensures { IfOk result (HasFacts (Knows rows.now)) }
{
    let mut list = PointFacts::new(alloc);
    let mut room: usize = 0;
    for point in points {
        if room >= enough {
            return Ok(room);
        }
        rows.list_at(*point, &mut list)?;
        room = with_more(room, &list);
    }
    Ok(room)
}

/// So many looks, and those that there may be for some facts.
fn with_more(room: usize, list: &PointFacts) -> usize
    ensures { result ≤ room + LOOKS_OF_FACT * length list.now.facts.items }
{
    room.saturating_add(list.facts.len().saturating_mul(LOOKS_OF_FACT))
}
