// What is told of two summaries with additions.
ghost use Rattle.std.specs.Prelude.{IfOk};
ghost use Rattle.entry_additions.specs.Added.{AreRising, targets};
ghost use Rattle.addition_pairs.specs.Adding.{TellsAdding, TellsSparing};

use crate::shared::{is_nothing, shared_of};
use crate::told::{Told, is_same, told_of};
use crate::without::spare;
use entry_additions::Added;
use entry_summary::Summary;
use plex_num::Memory;
use std::alloc::Global;

/// What is told of two summaries, of the job that comes first in the single run and of the later
/// one, without their accesses to what both only add to; `None` exactly where the same is told of
/// the whole summaries. The lists are in order. Memory is the only reason for an error.
pub fn adding_of(
    alloc: Global,
    first: &Summary,
    later: &Summary,
    first_adds: &Added,
    later_adds: &Added,
) -> Result<Option<Told>, Memory>
    requires first { AreRising first_adds.now }
    requires later { AreRising later_adds.now }
    ensures { IfOk result (TellsAdding first.now later.now (targets first_adds.now)
        (targets later_adds.now)) }
{
    let shared = shared_of(alloc, first_adds, later_adds)?;
    if is_nothing(&shared) {
        return Ok(None);
    }
    let whole = told_of(alloc, first, later)?;
    let told = spared(alloc, first, later, &shared)?;
    if is_same(&whole, &told) {
        return Ok(None);
    }
    Ok(Some(told))
}

/// What is told of the summaries without their accesses to these. An access of the later to one of
/// these meets none that is left of the first, so that the later one is taken as it is.
fn spared(alloc: Global, first: &Summary, later: &Summary, shared: &Added) -> Result<Told, Memory>
    requires { AreRising shared.now }
    ensures { IfOk result (TellsSparing first.now later.now (targets shared.now)) }
{
    let left = spare(alloc, first, later, shared)?;
    told_of(alloc, &left, later)
}
