// How far a search is with each point.
ghost use Rattle.std.specs.Prelude.{◌≡◌, map, IfOk};
ghost use Rattle.entry_faults.specs.declared.mark.Mark.TheVariants as mark;
ghost use Rattle.entry_faults.specs.Marks.{is_closed as is_closed_mark, is_in, mark_at};

use plex_num::{Memory, Seq};
use std::alloc::Global;

/// How far a search is with a point: it has not come there, it goes on from there, or it has been
/// everywhere from there on.
#[derive(Clone, Copy)]
pub enum Mark {
    New,
    Open,
    Closed,
}

/// No point is seen.
pub fn new_marks(alloc: Global, reached: &[bool]) -> Result<Seq<Mark>, Memory>
    ensures { IfOk result (λ marks. marks ≡ map (λ _. mark.New) reached.now) }
{
    let mut marks = Seq::new(alloc);
    for _point in reached {
        marks.push(Mark::New)?;
    }
    Ok(marks)
}

/// Whether a point is reached.
fn is_reached(reached: &Seq<bool>, point: usize) -> bool
    ensures { result ≡ is_in reached.now point }
{
    match reached.get(point) {
        Some(reached) => *reached,
        None => false,
    }
}

/// The mark of a point that is there; CLOSED where there is none.
fn kept_mark(marks: &Seq<Mark>, point: usize) -> Mark
    ensures { result ≡ Rattle.entry_faults.specs.Marks.kept_mark marks.now point }
{
    match marks.get(point) {
        Some(mark) => *mark,
        None => Mark::Closed,
    }
}

/// The mark of a point; one that is not reached counts as closed.
#[tactic(auto, using(crate::proofs::Marking::marked_kept, crate::proofs::Marking::marked_closed))]
pub fn mark_of(reached: &Seq<bool>, marks: &Seq<Mark>, point: usize) -> Mark
    ensures { result ≡ mark_at reached.now marks.now point }
{
    if is_reached(reached, point) {
        kept_mark(marks, point)
    } else {
        Mark::Closed
    }
}

/// Whether a point is closed.
pub fn is_closed(reached: &Seq<bool>, marks: &Seq<Mark>, point: usize) -> bool
    ensures { result ≡ is_closed_mark (mark_at reached.now marks.now point) }
{
    matches!(mark_of(reached, marks, point), Mark::Closed)
}
