// The points that facts reach.
ghost use Rattle.std.specs.Prelude.{◌≡◌, ◌↔◌, IfOk, IsTrue, false};
ghost use Rattle.flow_points.specs.declared.fact.Slot.TheVariants.{Depth};
ghost use Rattle.certificate_faults.specs.Reached.{AreReached, IsListed, IsOfPoint};

use flow_points::{Fact, Slot};
use plex_num::{Memory, Seq};
use std::alloc::Global;

/// Facts that reach their points, and one of them at least for each point that one of these
/// reaches. It is one alone where those of a point stand together.
pub(crate) fn reached_by(alloc: Global, facts: &[Fact]) -> Result<Seq<Fact>, Memory>
    ensures { IfOk result (AreReached facts.now) }
{
    let mut last: Option<Fact> = None;
    let mut reached = Seq::new(alloc);
    for fact in facts {
        last = list_next(last, *fact, &mut reached)?;
    }
    Ok(reached)
}

/// Lists a fact that reaches a point, unless the last one of the list is of that point. Which one
/// is the last of it then.
fn list_next(
    last: Option<Fact>,
    fact: Fact,
    reached: &mut Seq<Fact>,
) -> Result<Option<Fact>, Memory>
    ensures { IfOk result (IsListed last fact reached.old reached.new) }
{
    if !is_next(last, fact) {
        return Ok(last);
    }
    reached.push(fact)?;
    Ok(Some(fact))
}

/// Whether a fact reaches a point of which the last one is not.
fn is_next(last: Option<Fact>, fact: Fact) -> bool
    ensures { result ≡ false → fact.slot ≡ Depth → IsOfPoint last fact }
{
    match fact.slot {
        Slot::Depth => !is_of_point(last, fact),
        _ => false,
    }
}

fn is_of_point(last: Option<Fact>, fact: Fact) -> bool
    ensures { IsTrue result ↔ IsOfPoint last fact }
{
    match last {
        Some(last) => last.entry == fact.entry && last.point == fact.point,
        None => false,
    }
}
