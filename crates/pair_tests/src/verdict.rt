// The verdict of two summaries.
ghost use Rattle.pair_tests.specs.Clashes.{IsLeastConflict};
ghost use Rattle.pair_tests.specs.Pairs.{IsConflict, IsVerdict};

use crate::clash::{first_above, first_clash};
use crate::pair::{Conflict, Verdict};
use crate::sooner::sooner;
use entry_summary::Summary;

/// The first conflict of two summaries.
#[tactic(auto, using(crate::proofs::Conflicting::first_of))]
pub fn first_conflict(first: &Summary, later: &Summary) -> Option<Conflict>
    ensures { IsLeastConflict (IsConflict first.now later.now) result }
{
    let clash = first_clash(first.accesses.as_slice(), later.accesses.as_slice());
    let above = first_above(first.levels.as_slice(), later.level);
    sooner(clash, above)
}

/// Whether jobs of the two may run at once, the first before the later one in the single run:
/// never, with the first conflict in order, or where tests hold.
#[tactic(auto, unfolding(crate::specs::Clashes::IsLeastConflict))]
pub fn verdict_of(first: &Summary, later: &Summary) -> Verdict
    ensures { IsVerdict first.now later.now result }
{
    match first_conflict(first, later) {
        Some(conflict) => Verdict::Never(conflict),
        None => Verdict::Tests,
    }
}
