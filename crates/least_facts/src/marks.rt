// The points that are to be looked at, and the RETRIEVEs that answers come to first.
ghost use Rattle.std.specs.Prelude.{◌≡◌, ◌<◌, ◌^◌, [], length, map, replicate, slice_get};
ghost use Rattle.std.specs.Prelude.{slice_set, IfOk, IsTrue, None, OnOk, Some};
ghost use Rattle.std.specs.List.{Contains};
ghost use Rattle.answer_table.specs.Answers.{ReturnsOf, awaited_at, known_answer};
ghost use Rattle.least_facts.specs.Marks.{IsNoted, IsThis, Marks, Reaches, Settles, Takes};
ghost use Rattle.least_facts.specs.Marks.{marks_of, most_returns, point_in};

use crate::order::Place;
use crate::setting::Setting;
use answer_table::{AnswerTable, awaited_in};
use fact_rows::FactRows;
use flow_table::KnownFacts;
use plex_num::{Memory, Seq};
use std::alloc::Global;
use std::collections::BTreeSet;

/// How many values each part of a mark has.
const PART: u128 = 4_294_967_296;

/// When a point is looked at: with its component, in one of the sweeps through that, counted from
/// 0, and there at its seat. Even sweeps go up, from lower seats to higher ones, and odd ones down.
#[derive(Clone, Copy)]
pub struct Turn {
    pub component: u32,
    pub sweep: u32,
    pub seat: u32,
}

/// The turn of a point that is looked at after all others.
const LAST: Turn = Turn {
    component: u32::MAX,
    sweep: 0,
    seat: 0,
};

/// The points that are to be looked at, and for each answer the RETRIEVE of it that was reached
/// first.
pub struct Marked {
    /// Of each point that is to be looked at its turn, as a number that is lower where it comes
    /// before, and in the lowest part the point.
    pub marks: BTreeSet<u128>,
    /// The turn of the point that was taken last.
    pub at: Turn,
    pub firsts: Vec<Option<u32>>,
}

impl Drop for Marked {
    fn drop(self) {
        let Marked {
            marks: _,
            at: _,
            firsts: _,
        } = self;
    }
}

impl Marked {
    /// Nothing is marked, and no RETRIEVE of so many answers is reached.
    pub(crate) fn new(alloc: Global, count: usize) -> Result<Marked, Memory>
        ensures marks { IfOk result (λ marked. marks_of marked ≡ []) }
        ensures firsts { IfOk result (λ marked. marked.firsts.items ≡ replicate count None) }
    {
        let firsts = no_firsts(alloc, count)?;
        Ok(Marked {
            marks: BTreeSet::new(alloc),
            at: LAST,
            firsts: firsts.into_vec(),
        })
    }
}

/// So many times no RETRIEVE.
#[tactic(auto, using(flow_table::proofs::Pointing::items_more, flow_table::proofs::Pointing::items_end))]
fn no_firsts(alloc: Global, count: usize) -> Result<Seq<Option<u32>>, Memory>
    ensures { IfOk result (λ firsts. firsts ≡ replicate count None) }
{
    let mut firsts = Seq::with_capacity(alloc, count)?;
    for _ in 0..count {
        firsts.push(None)?;
    }
    Ok(firsts)
}

/// Takes the point that is to be looked at next; `None` exactly where none is marked.
#[tactic(auto, using(crate::proofs::Marking::point_taken, crate::proofs::Marking::no_point))]
pub(crate) fn take(marked: &mut Marked) -> Option<u32>
    ensures takes { Takes result (marks_of marked.old) (marks_of marked.new) }
    ensures firsts { marked.new.firsts.items ≡ marked.old.firsts.items }
{
    match take_first(&mut marked.marks) {
        Some(mark) => {
            marked.at = turn_of(mark);
            Some(point_of(mark))
        }
        None => None,
    }
}

/// The point of a mark.
fn point_of(mark: u128) -> u32
    ensures { result ≡ point_in mark }
{
    (mark % 4_294_967_296) as u32
}

/// The turn of a mark.
fn turn_of(mark: u128) -> Turn {
    let sweep = part_of(mark / PART / PART);
    Turn {
        component: part_of(mark / PART / PART / PART),
        sweep,
        seat: on_way(sweep, part_of(mark / PART)),
    }
}

/// The lowest part of a number.
fn part_of(number: u128) -> u32 {
    (number % PART) as u32
}

/// The seats that a sweep passes before this one; of so many the seat.
fn on_way(sweep: u32, seat: u32) -> u32 {
    if is_up(sweep) { seat } else { u32::MAX - seat }
}

fn is_up(sweep: u32) -> bool {
    sweep.is_multiple_of(2)
}

/// Takes the lowest of these marks; `None` exactly where there is none.
fn take_first(marks: &mut BTreeSet<u128>) -> Option<u128>
    ensures { Takes result marks.old.keys marks.new.keys }
{
    marks.pop_first()
}

/// The place of a point in the order.
fn place_of(order: &Seq<Place>, point: u32) -> Place {
    match order.get(point as usize) {
        Some(place) => *place,
        None => Place {
            component: u32::MAX,
            seat: u32::MAX,
        },
    }
}

/// When a point is looked at that is marked while the search is at this turn: in the same sweep
/// where the point still lies ahead in it, else in the next one; in another component in the first
/// one.
fn turn_after(at: Turn, place: Place) -> Turn {
    let Place { component, seat } = place;
    let sweep = if component != at.component {
        0
    } else if on_way(at.sweep, seat) > on_way(at.sweep, at.seat) {
        at.sweep
    } else {
        at.sweep.saturating_add(1)
    };
    Turn {
        component,
        sweep,
        seat,
    }
}

/// A turn as a number, which is lower where it comes before.
fn rank_of(turn: Turn) -> u128
    ensures { result < 2 ^ 96 }
{
    let sweep = turn.component as u128 * PART + turn.sweep as u128;
    sweep * PART + on_way(turn.sweep, turn.seat) as u128
}

/// The mark of a point at a turn.
#[tactic(auto, using(crate::proofs::Marking::lower_part))]
fn mark_at(turn: Turn, point: u32) -> u128
    ensures { point_in result ≡ point }
{
    rank_of(turn) * 4_294_967_296 + point as u128
}

/// Marks a point at a turn.
fn mark(marks: &mut BTreeSet<u128>, turn: Turn, point: u32) -> Result<(), Memory>
    ensures { OnOk result
        (Marks (map point_in marks.old.keys) (map point_in marks.new.keys) (IsThis point) 1) }
{
    match marks.insert(mark_at(turn, point)) {
        Ok(_) => Ok(()),
        Err(_) => Err(Memory),
    }
}

/// Marks these points.
fn mark_all(
    order: &Seq<Place>,
    at: Turn,
    points: &[u32],
    marks: &mut BTreeSet<u128>,
) -> Result<(), Memory>
    ensures { OnOk result (Marks (map point_in marks.old.keys) (map point_in marks.new.keys)
        (Contains points.now) (length points.now)) }
{
    for point in points {
        mark(marks, turn_after(at, place_of(order, *point)), *point)?;
    }
    Ok(())
}

/// Marks the RETURNs of an answer.
#[tactic(auto, using(crate::proofs::Marking::returns_marked, crate::proofs::Marking::no_returns))]
fn mark_returns(
    answers: &AnswerTable,
    order: &Seq<Place>,
    at: Turn,
    answer: u32,
    marks: &mut BTreeSet<u128>,
) -> Result<(), Memory>
    ensures { OnOk result (Marks (map point_in marks.old.keys) (map point_in marks.new.keys)
        (ReturnsOf answers.now answer) (most_returns answers.now)) }
{
    match answers.returns.get(answer as usize) {
        Some(points) => {
            mark_all(order, at, points.as_slice(), marks)?;
            Ok(())
        }
        None => Ok(()),
    }
}

/// The RETRIEVE of an answer that was reached first, if one is reached.
#[tactic(auto, using(answer_table::proofs::Answering::known_some, answer_table::proofs::Answering::known_none))]
pub(crate) fn first_of(firsts: &[Option<u32>], answer: u32) -> Option<u32>
    ensures { result ≡ known_answer (slice_get firsts.now answer) }
{
    match firsts.get(answer as usize) {
        Some(first) => *first,
        None => None,
    }
}

/// Puts the first RETRIEVE of an answer.
fn put_first(firsts: &mut Vec<Option<u32>>, i: usize, point: u32)
    requires { i < length firsts.old.items }
    ensures { firsts.new.items ≡ slice_set firsts.old.items i (Some point) }
{
    firsts[i] = Some(point);
}

/// Notes that a point is reached. The RETRIEVE of an answer that is reached first has all RETURNs
/// of the answer looked at; where another one is reached, the first is looked at again, to hand out
/// what it has.
#[tactic(auto, using(crate::proofs::Marking::reaches_none, crate::proofs::Marking::reaches_again))]
fn reach(
    answers: &AnswerTable,
    order: &Seq<Place>,
    point: u32,
    marked: &mut Marked,
) -> Result<(), Memory>
    ensures { OnOk result (Reaches answers.now point
        (marks_of marked.old) marked.old.firsts.items
        (marks_of marked.new) marked.new.firsts.items) }
{
    let Some(answer) = awaited_in(answers, point) else {
        return Ok(());
    };
    match first_of(&marked.firsts, answer) {
        Some(first) => {
            mark(&mut marked.marks, LAST, first)?;
            Ok(())
        }
        None => {
            open(answers, order, answer, point, marked)?;
            Ok(())
        }
    }
}

/// Notes the RETRIEVE of an answer that is reached first.
#[tactic(auto, using(crate::proofs::Marking::opens_none, crate::proofs::Marking::opens_first))]
fn open(
    answers: &AnswerTable,
    order: &Seq<Place>,
    answer: u32,
    point: u32,
    marked: &mut Marked,
) -> Result<(), Memory>
    requires awaits { awaited_at answers.now point ≡ Some answer }
    requires none { known_answer (slice_get marked.old.firsts.items answer) ≡ None }
    ensures { OnOk result (Reaches answers.now point
        (marks_of marked.old) marked.old.firsts.items
        (marks_of marked.new) marked.new.firsts.items) }
{
    let i = answer as usize;
    if i >= marked.firsts.len() {
        return Ok(());
    }
    put_first(&mut marked.firsts, i, point);
    mark_returns(answers, order, marked.at, answer, &mut marked.marks)?;
    Ok(())
}

/// Whether a point needs no note where it comes to be reached: it is no RETRIEVE, or is reached
/// already.
#[tactic(auto, using(crate::proofs::Marking::noted_plain, crate::proofs::Marking::noted_reached))]
pub(crate) fn is_noted(setting: &Setting<'_>, rows: &FactRows, point: u32) -> bool
    ensures { IsTrue result
        → IsNoted setting.now.answers.now rows.now setting.now.entry point }
{
    match awaited_in(setting.answers, point) {
        Some(_) => rows.is_reached(setting.entry, point),
        None => true,
    }
}

/// What came to a point: whether something is new there, whether it needed no note before, and
/// whether it is to be looked at after all other points.
#[derive(Clone, Copy)]
pub struct Change {
    pub point: u32,
    pub grown: bool,
    pub noted: bool,
    pub late: bool,
}

/// Settles a point at which something is new, unless nothing has grown: it is marked, at the end of
/// all where it is late, and where it is a RETRIEVE that was not reached before, but is now, that
/// is noted.
#[tactic(auto, using(crate::proofs::Marking::settles_same, crate::proofs::Marking::settles_again, crate::proofs::Marking::settles_unreached, crate::proofs::Marking::settles_reached))]
pub(crate) fn settle(
    setting: &Setting<'_>,
    rows: &FactRows,
    change: Change,
    marked: &mut Marked,
) -> Result<(), Memory>
    ensures { OnOk result (Settles setting.now.answers.now rows.now setting.now.entry
        change.grown change.noted change.point
        (marks_of marked.old) marked.old.firsts.items
        (marks_of marked.new) marked.new.firsts.items) }
{
    if !change.grown {
        return Ok(());
    }
    let place = if change.late {
        LAST
    } else {
        turn_after(marked.at, place_of(setting.order, change.point))
    };
    mark(&mut marked.marks, place, change.point)?;
    if change.noted {
        return Ok(());
    }
    if !rows.is_reached(setting.entry, change.point) {
        return Ok(());
    }
    reach(setting.answers, setting.order, change.point, marked)?;
    Ok(())
}
