// Whether two summaries are equal.
ghost use Rattle.std.specs.Prelude.{◌≡◌, IsTrue};

use entry_summary::{Access, Summary};
use plex_num::{Level, Seq};

/// Whether two summaries are equal.
pub(crate) fn are_equal(one: &Summary, other: &Summary) -> bool
    ensures { IsTrue result → one.now ≡ other.now }
{
    is_level(one.level, other.level)
        & is_fault(one.fault, other.fault)
        & are_levels(&one.levels, &other.levels)
        & are_accesses(&one.accesses, &other.accesses)
}

fn is_level(one: Level, other: Level) -> bool
    ensures { IsTrue result → one ≡ other }
{
    one == other
}

fn is_fault(one: bool, other: bool) -> bool
    ensures { IsTrue result → one ≡ other }
{
    one == other
}

fn are_levels(some: &Seq<Level>, others: &Seq<Level>) -> bool
    ensures { IsTrue result → some.now ≡ others.now }
{
    some.as_slice() == others.as_slice()
}

fn are_accesses(some: &Seq<Access>, others: &Seq<Access>) -> bool
    ensures { IsTrue result → some.now ≡ others.now }
{
    some.as_slice() == others.as_slice()
}
