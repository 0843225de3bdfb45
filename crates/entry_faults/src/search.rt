// A search for a point that leads back to itself: it goes on from a point to the first end that it
// has not seen, and back when all ends of a point are closed. An end that it still goes on from
// leads back to itself.
ghost use Rattle.std.specs.Prelude.{◌≡◌, ◌∷◌, ◌↔◌, ◌++◌, [], true, length, reverse, IfOk};
ghost use Rattle.entry_faults.specs.Circles.{Circles};
ghost use Rattle.entry_faults.specs.Searches.{Found, Opens, Sound, Stepped};
ghost use Rattle.entry_faults.specs.Marks.{mark_at};
ghost use Rattle.entry_faults.specs.declared.mark.Mark.TheVariants as mark;

use crate::frame::{Frame, first_of, frame_of, pass_closed};
use crate::mark::{Mark, mark_of, new_marks};
use flow_table::FlowTable;
use plex_num::{Memory, Seq};
use std::alloc::Global;

/// Whether a point leads back to itself, on ways from points that are reached. The last points come
/// first, since most statements lead on: then few points are open at once.
pub fn circles(alloc: Global, table: &FlowTable, reached: &Seq<bool>) -> Result<bool, Memory>
    ensures { IfOk result (λ round. (round ≡ true) ↔ Circles table.now reached.now) }
{
    let mut marks = new_marks(alloc, reached.as_slice())?;
    let count = reached.len();
    for passed in 0..count {
        let start = count - passed - 1;
        if search_from(alloc, table, reached, start, &mut marks)? {
            return Ok(true);
        }
    }
    Ok(false)
}

/// Looks at all that a point leads to and that is new, and tells whether a point there leads back
/// to itself.
fn search_from(
    alloc: Global,
    table: &FlowTable,
    reached: &Seq<bool>,
    start: usize,
    marks: &mut Seq<Mark>,
) -> Result<bool, Memory>
    requires sound { Sound table.now reached.now marks.old [] }
    ensures { IfOk result (Found table.now reached.now start marks.old marks.new) }
{
    let mut stack = Vec::new(alloc);
    match mark_of(reached, marks, start) {
        Mark::New => open(table, reached, start, marks, &mut stack)?,
        Mark::Open => return Ok(false),
        Mark::Closed => return Ok(false),
    }
    while let Some(frame) = stack.pop() {
        if step(table, reached, &frame, marks, &mut stack)? {
            return Ok(true);
        }
    }
    Ok(false)
}

/// Goes on from a new point.
fn open<'a>(
    table: &'a FlowTable,
    reached: &Seq<bool>,
    point: usize,
    marks: &mut Seq<Mark>,
    stack: &mut Vec<Frame<'a>>,
) -> Result<(), Memory>
    requires { mark_at reached.now marks.old point ≡ mark.New }
    ensures { IfOk result (λ _. Opens table.now point marks.old marks.new
        stack.old.items stack.new.items) }
{
    marks.set(point, Mark::Open);
    push(&frame_of(table, point), stack)
}

fn push<'a>(frame: &Frame<'a>, stack: &mut Vec<Frame<'a>>) -> Result<(), Memory>
    ensures { IfOk result (λ _. stack.new.items ≡ stack.old.items ++ frame.now ∷ []) }
{
    match stack.push(*frame) {
        Ok(()) => Ok(()),
        Err(_) => Err(Memory),
    }
}

/// Goes one point on, or back from a point, and tells whether a point leads back to itself.
fn step<'a>(
    table: &'a FlowTable,
    reached: &Seq<bool>,
    frame: &Frame<'a>,
    marks: &mut Seq<Mark>,
    stack: &mut Vec<Frame<'a>>,
) -> Result<bool, Memory>
    requires { Sound table.now reached.now marks.old (frame.now ∷ reverse stack.old.items) }
    ensures { IfOk result
        (Stepped table.now reached.now marks.old marks.new (reverse stack.new.items)) }
{
    let frame = pass_closed(table, reached, marks, frame);
    let Some(end) = first_of(frame.ends) else {
        marks.set(frame.point, Mark::Closed);
        return Ok(false);
    };
    let end = end as usize;
    match mark_of(reached, marks, end) {
        Mark::New => {
            push(&frame, stack)?;
            open(table, reached, end, marks, stack)?;
            Ok(false)
        }
        Mark::Open => Ok(true),
        Mark::Closed => Ok(false),
    }
}
